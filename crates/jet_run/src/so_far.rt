// What a tasklet of any kind of processor has given so far, in whatever state it is.
ghost use Rattle.std.specs.Prelude.{List, ◌++◌};
ghost use Rattle.jet_items.specs.declared.item.Item.{Item};
ghost use Rattle.jet_tasklet.specs.declared.arrival.Arrival.{Arrival};
ghost use Rattle.jet_tasklet.specs.Any.{AnyKeeps};
ghost use Rattle.jet_tasklet.specs.Kinds.{outputs_of, RunsProcessor};
ghost use Rattle.jet_tasklet.specs.Outputs.{outputs_view};
ghost use Rattle.jet_tasklet.specs.Sending.{EachSent};
ghost use Rattle.jet_tasklet.specs.Views.{waiting};
ghost use Rattle.jet_run.specs.SoFar.{GivesByKind};

use jet_tasklet::AnyTasklet;

/// A law: all that ever entered the outbox of a tasklet that runs a processor is no more than its kind makes of all that its
/// queues received, and so is what each destination was sent.
pub fn gives_by_kind(tasklet: &AnyTasklet)
    ensures entered { RunsProcessor tasklet.now → (came : List Arrival) → (gave : List Item) → AnyKeeps tasklet.now came gave → GivesByKind tasklet.now (gave ++ waiting tasklet.now) }
    ensures sent { RunsProcessor tasklet.now → (came : List Arrival) → (gave : List Item) → AnyKeeps tasklet.now came gave → EachSent (GivesByKind tasklet.now) (outputs_view (outputs_of tasklet.now)) }
{
    tasklet.law_gives_so_far();
}
