// Laws of turns in a row of one tasklet.
ghost use Rattle.std.specs.Prelude.{◌≡◌, List};
ghost use Rattle.jet_items.specs.declared.item.Item.{Item};
ghost use Rattle.jet_tasklet.specs.declared.arrival.Arrival.{Arrival};
ghost use Rattle.jet_wire.specs.declared.progress.Progress.{Progress};
ghost use Rattle.jet_tasklet.specs.Inputs.{inputs_view};
ghost use Rattle.jet_tasklet.specs.Outputs.{outputs_view};
ghost use Rattle.jet_tasklet.specs.Keeps.{Keeps, IsLawful};
ghost use Rattle.jet_tasklet.specs.Any.{AnyIsLawful, AnyKeeps};
ghost use Rattle.jet_tasklet.specs.Views.{ins, outs, waiting};
ghost use Rattle.jet_tasklet.specs.Turns.{Went, Rests, Said, joined, SameEnds, Counted, AnyWent, AnyRests, AnySaid, AnyCounted};

use crate::{AnyTasklet, Tasklet};
use jet_boxes::Processor;

/// A law: a tasklet that keeps its laws keeps them through turns, turns in a row leave what each of them leaves, their
/// answers join, where nothing moved each end knows what it knew before, and the count of moves rises exactly in the
/// turns that say Moved.
pub fn turns_in_a_row<P: Processor>(first: &Tasklet<P>, next: &Tasklet<P>, last: &Tasklet<P>)
    ensures lawful { IsLawful P.stands P.amid P.takes first.now → Went P.stands P.amid P.takes P.same first.now next.now → IsLawful P.stands P.amid P.takes next.now }
    ensures went { Went P.stands P.amid P.takes P.same first.now next.now → Went P.stands P.amid P.takes P.same next.now last.now → Went P.stands P.amid P.takes P.same first.now last.now }
    ensures said { (p q : Progress) → Went P.stands P.amid P.takes P.same first.now next.now → Went P.stands P.amid P.takes P.same next.now last.now
        → Said P.stands P.amid P.takes p first.now next.now → Said P.stands P.amid P.takes q next.now last.now → Said P.stands P.amid P.takes (joined p q) first.now last.now }
    ensures exact { Went P.stands P.amid P.takes P.same first.now next.now → Rests P.stands P.amid P.takes first.now next.now
        → SameEnds (inputs_view first.now.inputs.items) (outputs_view first.now.outputs.items) first.now.outbox.items (inputs_view next.now.inputs.items) (outputs_view next.now.outputs.items) next.now.outbox.items }
    ensures counted { (p : Progress) → (came : List Arrival) → (gave : List Item) → Went P.stands P.amid P.takes P.same first.now next.now → Said P.stands P.amid P.takes p first.now next.now
        → Keeps P.stands P.amid P.takes first.now came gave → Counted P.stands P.amid P.takes p first.now next.now came gave }
{
    let _first = first;
    let _next = next;
    let _last = last;
}

/// The same law of a tasklet of any kind.
pub fn any_turns_in_a_row(first: &AnyTasklet, next: &AnyTasklet, last: &AnyTasklet)
    ensures lawful { AnyIsLawful first.now → AnyWent first.now next.now → AnyIsLawful next.now }
    ensures went { AnyWent first.now next.now → AnyWent next.now last.now → AnyWent first.now last.now }
    ensures said { (p q : Progress) → AnyWent first.now next.now → AnyWent next.now last.now → AnySaid p first.now next.now → AnySaid q next.now last.now → AnySaid (joined p q) first.now last.now }
    ensures exact { AnyWent first.now next.now → AnyRests first.now next.now → SameEnds (ins first.now) (outs first.now) (waiting first.now) (ins next.now) (outs next.now) (waiting next.now) }
    ensures counted { (p : Progress) → (came : List Arrival) → (gave : List Item) → AnyWent first.now next.now → AnySaid p first.now next.now
        → AnyKeeps first.now came gave → AnyCounted p first.now next.now came gave }
{
    let _first = first;
    let _next = next;
    let _last = last;
}

/// A law: a tasklet of any kind keeps its laws exactly where it keeps them of some items that came and were given.
pub fn any_keeps_its_laws(tasklet: &AnyTasklet)
    ensures lawful { (came : List Arrival) → (gave : List Item) → AnyKeeps tasklet.now came gave → AnyIsLawful tasklet.now }
    ensures keeps { AnyIsLawful tasklet.now → (came : List Arrival) × (gave : List Item) × AnyKeeps tasklet.now came gave }
{
    let _tasklet = tasklet;
}
