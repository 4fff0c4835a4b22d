// Laws of what flows through a valid job.
ghost use Rattle.std.specs.Prelude.{◌≡◌, ◌≤◌, length, ℕ, ℤ, pos, unsigned_abs, List, [], ◌∷◌, All, IsTrue, Some, false, slice_get};
ghost use Rattle.std.specs.List.{enumerate_from, list_any};
ghost use Rattle.jet_items.specs.Bag.{SameBag};
ghost use Rattle.jet_items.specs.Marks.{is_behind};
ghost use Rattle.jet_items.specs.Values.{EventValue};
ghost use Rattle.jet_lines.specs.Files.{events_of};
ghost use Rattle.jet_plan.specs.Along.{before};
ghost use Rattle.jet_plan.specs.Growth.{stream_edges};
ghost use Rattle.jet_plan.specs.Names.{has_name};
ghost use Rattle.jet_plan.specs.Plans.{IsValid};
ghost use Rattle.jet_flow.specs.BaseJob.{base_dag, base_window};
ghost use Rattle.jet_flow.specs.Contents.{behind_at, behind_idle, behind_own, contents_of, source_files, under_other, was_behind};
ghost use Rattle.jet_flow.specs.DataFiles.{DataFile, data_files};
ghost use Rattle.jet_flow.specs.Grain.{IsGrain};
ghost use Rattle.jet_flow.specs.Inflows.{inflows};
ghost use Rattle.jet_flow.specs.Flow.{Contents, flow, flow_rule};
ghost use Rattle.jet_flow.specs.Keys.{AreShort};
ghost use Rattle.jet_flow.specs.Places.{HasPlace, IsInItsFile};

use jet_plan::{Dag, Settings};

/// A law: the flow out of each vertex is what the vertex makes of the flows out of those before it.
pub fn flow_keeps_the_rules(dag: &Dag, settings: &Settings)
    requires { IsValid dag.now settings.now }
    ensures { (files : Contents) (name : List ℕ) → IsTrue (list_any (has_name name) dag.now.vertices)
        → SameBag (flow files dag.now name) (flow_rule files dag.now name (before (stream_edges dag.now) (flow files dag.now) name)) }
{
    let _dag = dag;
    let _settings = settings;
}

/// A law: whatever is sent by the vertices, if each makes it of what those before it send, then it is the flow.
pub fn only_the_flow_keeps_the_rules(dag: &Dag, settings: &Settings)
    requires { IsValid dag.now settings.now }
    ensures { (files : Contents) (sent : List ℕ → List EventValue)
        → ((name : List ℕ) → IsTrue (list_any (has_name name) dag.now.vertices)
        → SameBag (sent name) (flow_rule files dag.now name (before (stream_edges dag.now) sent name)))
        → (name : List ℕ) → IsTrue (list_any (has_name name) dag.now.vertices) → SameBag (sent name) (flow files dag.now name) }
{
    let _dag = dag;
    let _settings = settings;
}

/// A law: no key that flows has more than 40 bytes, where none that is read has more than 24. So a tag behind a key cuts
/// nothing off.
pub fn keys_stay_short(dag: &Dag, settings: &Settings)
    requires { IsValid dag.now settings.now }
    ensures { (files : Contents) → AreShort files → (name : List ℕ) → IsTrue (list_any (has_name name) dag.now.vertices)
        → All (λ e. length e.key ≤ 40) (flow files dag.now name) }
{
    let _dag = dag;
    let _settings = settings;
}

/// A law: the vertices leave each event the number of its file, its line and its time, so that what flows was read there.
pub fn events_keep_their_places(dag: &Dag)
    ensures { (files : Contents) (name : List ℕ) → All (HasPlace files) (flow files dag.now name) }
{
    let _dag = dag;
}

/// A law: what flows has the place of an event of the file with its number; and whether it was behind is settled by that
/// file and that line.
pub fn events_stand_in_their_files(dag: &Dag)
    ensures places { (most : ℕ) (bytes : List ℕ → List ℕ) (name : List ℕ) → All (IsInItsFile most bytes dag.now) (flow (contents_of most bytes dag.now) dag.now name) }
    ensures behind { (grain most : ℕ) (bytes : List ℕ → List ℕ) (name : List ℕ)
        → All (λ e. behind_at grain most bytes dag.now e.part e.line ≡ was_behind grain most bytes dag.now e) (flow (contents_of most bytes dag.now) dag.now name) }
{
    jet_lines::lines_of_a_file_rise();
    let _dag = dag;
}

/// A law: an event of a file with no idle note before it is behind exactly where it is behind its own mark; so it is where
/// no other source file is.
pub fn without_idle_notes_the_own_mark_counts(dag: &Dag)
    ensures before { (grain most : ℕ) (bytes : List ℕ → List ℕ) (e : EventValue) (file : DataFile)
        → slice_get (data_files dag.now) e.part ≡ Some file → behind_idle most bytes e file ≡ false
        → was_behind grain most bytes dag.now e ≡ behind_own grain most bytes e file }
    ensures alone { (grain most : ℕ) (bytes : List ℕ → List ℕ) (e : EventValue) (file : DataFile)
        → slice_get (data_files dag.now) e.part ≡ Some file → list_any (under_other grain most bytes e) (enumerate_from 0 (data_files dag.now)) ≡ false
        → was_behind grain most bytes dag.now e ≡ behind_own grain most bytes e file }
{
    let _dag = dag;
}

/// A law: no key or label that is read has more than 24 bytes.
pub fn files_hold_short_keys(dag: &Dag)
    ensures { (most : ℕ) (bytes : List ℕ → List ℕ) → AreShort (contents_of most bytes dag.now) }
{
    let _dag = dag;
}

/// A law: the files that a source reads stand under their numbers among all files of the job.
pub fn source_files_have_their_numbers(dag: &Dag)
    ensures { (name : List ℕ) → All (λ p. slice_get (data_files dag.now) p.0 ≡ Some p.1) (source_files dag.now name) }
{
    let _dag = dag;
}

/// A law: in the job of one file and one window, all events of the file enter the window, as those of file 0. An event is
/// behind by the lag of the source and the slide of the window, which is the grain of the job; idle notes change nothing.
pub fn the_file_enters_the_window(dag: &Dag)
    ensures window { (file : List ℕ) (lag size slide : ℤ) → dag.now ≡ base_dag file lag size slide → (most : ℕ) (bytes : List ℕ → List ℕ)
        → inflows (contents_of most bytes dag.now) dag.now ≡ record { window = base_window size slide; events = events_of most 0 (bytes file) } ∷ [] }
    ensures grain { (file : List ℕ) (lag size slide : ℤ) → dag.now ≡ base_dag file lag size slide → IsGrain dag.now (unsigned_abs slide) }
    ensures behind { (file : List ℕ) (lag size slide : ℤ) → dag.now ≡ base_dag file lag size slide → (grain most : ℕ) (bytes : List ℕ → List ℕ) (e : EventValue)
        → e.part ≡ 0 → was_behind grain most bytes dag.now e ≡ is_behind lag (pos grain) (events_of most 0 (bytes file)) e }
{
    let _dag = dag;
}
