// What a tasklet of any kind of processor has given once it has ended.
ghost use Rattle.std.specs.Prelude.{◌≡◌, List, [], ◌∷◌, ◌++◌};
ghost use Rattle.jet_items.specs.declared.item.Item.{Item};
ghost use Rattle.jet_items.specs.declared.item.Item.TheVariants as item;
ghost use Rattle.jet_items.specs.Order.{Each};
ghost use Rattle.jet_tasklet.specs.declared.arrival.Arrival.{Arrival};
ghost use Rattle.jet_tasklet.specs.Any.{AnyKeeps, AnyHasEnded};
ghost use Rattle.jet_tasklet.specs.Kinds.{outputs_of, RunsProcessor};
ghost use Rattle.jet_tasklet.specs.Outputs.{Gave, outputs_view};
ghost use Rattle.jet_run.specs.Ended.{EndedByKind};

use jet_tasklet::AnyTasklet;
use jet_window::frames_sum_kept;

/// A law: a tasklet that runs a processor and has ended gave each output what its kind makes of all that its queues received,
/// and Done behind it.
pub fn ends_by_kind(tasklet: &AnyTasklet)
    ensures { RunsProcessor tasklet.now → (came : List Arrival) → (gave : List Item) → AnyKeeps tasklet.now came gave → AnyHasEnded tasklet.now
        → (given : List Item) × (gave ≡ given ++ item.Done ∷ []) × Each (Gave (given ++ item.Done ∷ [])) (outputs_view (outputs_of tasklet.now)) × EndedByKind tasklet.now given }
{
    tasklet.law_ends();
    frames_sum_kept();
}
