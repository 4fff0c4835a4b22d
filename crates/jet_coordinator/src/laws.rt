// What is true of a run at its end.
ghost use Rattle.std.specs.Prelude.{ℕ, Bool, List};
ghost use Rattle.jet_conveyor.specs.Conveyor.{view as lanes};
ghost use Rattle.jet_engine.specs.Jobs.{IsReady};
ghost use Rattle.jet_file.specs.Outside.{Told};
ghost use Rattle.jet_items.specs.Rows.{Window};
ghost use Rattle.jet_sink.specs.Alike.{AreAlike};
ghost use Rattle.jet_sink.specs.View.{view};
ghost use Rattle.jet_worker.specs.Calls.{Calling};
ghost use Rattle.jet_worker.specs.CheckText.{Checks};
ghost use Rattle.jet_worker.specs.Opening.{AreNew, Opened};
ghost use Rattle.jet_coordinator.specs.Progress.{AreOpen, HasComeTo, IsAtEnd};
ghost use Rattle.jet_coordinator.specs.Carried.{HasCarried};
ghost use Rattle.jet_coordinator.specs.Runs.{HasRun};
ghost use Rattle.jet_coordinator.specs.declared.run.Running.{Running};

use jet_feed::what_a_ring_was_sent;

/// A law: a run at its end has read all its files, none of which has a bad line, and has written all that came to the sink; and
/// its rings carried the items of all lines.
pub fn ended_runs_are_whole()
    ensures run { (c : Checks) → (windows : List Window) → (opened : List Opened) → (start now : Told) → (r : Running) → (before is_open : ℕ → Bool) → AreOpen c opened start
        → HasComeTo c windows opened start now r → IsAtEnd r → AreNew before is_open opened → AreAlike (view r.sink).marks.queues (lanes r.job.sink)
        → Calling (HasRun c windows before is_open) start now }
    ensures carried { (c : Checks) → (windows : List Window) → (opened : List Opened) → (start now : Told) → (r : Running) → AreOpen c opened start
        → HasComeTo c windows opened start now r → IsAtEnd r → IsReady r.job → AreAlike (view r.sink).marks.queues (lanes r.job.sink)
        → HasCarried c windows r.job start now }
{
    what_a_ring_was_sent();
}
