// What holds of a tasklet in every state: the order of what entered its outbox, where Done stands in what it sent, which
// marks stand there, and what it has sent while it rests.
ghost use Rattle.std.specs.Prelude.{◌≡◌, ℕ, Bool, ℤ, ◌≤ℤ◌, List, [], ◌++◌, length, Option};
ghost use Rattle.std.specs.Option.{IsSomeAnd};
ghost use Rattle.jet_items.specs.declared.item.Item.{Item};
ghost use Rattle.jet_items.specs.Kinds.{marks_of};
ghost use Rattle.jet_items.specs.Order.{Closed, Each, Sound};
ghost use Rattle.jet_boxes.specs.Entry.{CallEntry};
ghost use Rattle.jet_boxes.specs.declared.port.Port.TheVariants.{Stream};
ghost use Rattle.jet_tasklet.specs.declared.arrival.Arrival.{Arrival};
ghost use Rattle.jet_tasklet.specs.declared.step.Step.TheVariants as step;
ghost use Rattle.jet_tasklet.specs.DoneLast.{DoneLast};
ghost use Rattle.jet_tasklet.specs.Inputs.{inputs_view, queue_count};
ghost use Rattle.jet_tasklet.specs.JoinWaits.{HasOnlySides};
ghost use Rattle.jet_tasklet.specs.Keeps.{Keeps, told};
ghost use Rattle.jet_tasklet.specs.Kinds.{joins, stamps};
ghost use Rattle.jet_tasklet.specs.MarksGiven.{AllReached, FilesReached, HasAwake, HasOpen, IsAtRest, IsLowIf, IsOfFront, IsReceived, PassMarks, last_mark, low_received};
ghost use Rattle.jet_tasklet.specs.Outputs.{outputs_view};
ghost use Rattle.jet_tasklet.specs.Sending.{EachFront, EachSent};
ghost use Rattle.jet_tasklet.specs.Turning.{HasEnded};

use crate::Tasklet;
use jet_boxes::Processor;
use jet_join::JoinP;
use jet_stages::Stamp;

impl<P: Processor> Tasklet<P> {
    /// Where the processor's premise holds of what it was told, all that ever entered the outbox is sound, and closed.
    pub fn law_enters_in_order(&self)
        ensures sound { (behind : ℕ → ℕ → Bool) → (came : List Arrival) → (gave : List Item) → Keeps P.stands P.amid P.takes self.now came gave
            → EachFront (P.sound_if self.now.processor behind) (told self.now.step (queue_count Stream (inputs_view self.now.inputs.items)) came)
            → Sound behind (gave ++ self.now.outbox.items) }
        ensures closed { (came : List Arrival) → (gave : List Item) → Keeps P.stands P.amid P.takes self.now came gave
            → EachFront (P.closed_if self.now.processor) (told self.now.step (queue_count Stream (inputs_view self.now.inputs.items)) came)
            → Closed (gave ++ self.now.outbox.items) }
    {}

    /// The list that each destination was sent has Done nowhere but at its end, and only where the tasklet has put it, every
    /// queue being done. Once the tasklet has ended, each of those lists ends in Done.
    pub fn law_done_last(&self)
        ensures { (came : List Arrival) → (gave : List Item) → Keeps P.stands P.amid P.takes self.now came gave
            → EachSent (DoneLast (self.now.step ≡ step.Ended) (HasEnded self.now) (inputs_view self.now.inputs.items)) (outputs_view self.now.outputs.items) }
    {}

    /// Where the processor gives the marks that it takes and no others, each mark that ever entered the outbox, and each
    /// that a destination was sent, is one that a stream queue received.
    pub fn law_marks_received(&self)
        ensures entered { (came : List Arrival) → (gave : List Item) → Keeps P.stands P.amid P.takes self.now came gave
            → PassMarks (P.marks self.now.processor) → ((entry : CallEntry) → PassMarks (λ taken given. P.marks_amid self.now.processor taken entry given))
            → Each (IsReceived (inputs_view self.now.inputs.items)) (marks_of (gave ++ self.now.outbox.items)) }
        ensures sent { (came : List Arrival) → (gave : List Item) → Keeps P.stands P.amid P.takes self.now came gave
            → PassMarks (P.marks self.now.processor) → ((entry : CallEntry) → PassMarks (λ taken given. P.marks_amid self.now.processor taken entry given))
            → EachSent (λ xs. Each (IsReceived (inputs_view self.now.inputs.items)) (marks_of xs)) (outputs_view self.now.outputs.items) }
    {
        self.law_keeps();
    }

    /// Where the processor gives the marks that it takes and no others, the tasklet is at rest and a stream queue is not
    /// done, the last mark that each destination was sent is the least of the greatest marks that those queues received.
    /// And where each of those queues received a mark that is not below s, that mark is not below s.
    pub fn law_marks_at_rest(&self)
        ensures last { (came : List Arrival) → (gave : List Item) → Keeps P.stands P.amid P.takes self.now came gave
            → PassMarks (P.marks self.now.processor) → IsAtRest self.now → HasOpen (inputs_view self.now.inputs.items)
            → EachSent (λ xs. last_mark xs ≡ low_received (inputs_view self.now.inputs.items)) (outputs_view self.now.outputs.items) }
        ensures passes { (s : ℤ) → (came : List Arrival) → (gave : List Item) → Keeps P.stands P.amid P.takes self.now came gave
            → PassMarks (P.marks self.now.processor) → IsAtRest self.now → HasOpen (inputs_view self.now.inputs.items) → AllReached (inputs_view self.now.inputs.items) s
            → EachSent (λ xs. IsSomeAnd (last_mark xs) (λ m. s ≤ℤ m)) (outputs_view self.now.outputs.items) }
    {
        self.law_keeps();
    }
}

/// A law: while a build queue of a join is open, and its build queues received side rows alone, the join has given
/// nothing, nothing waits in its outbox, and nothing was sent.
pub fn joins_wait(join: &Tasklet<JoinP>)
    ensures gave { (came : List Arrival) → (gave : List Item) → Keeps joins.stands joins.amid joins.takes join.now came gave
        → HasOnlySides (inputs_view join.now.inputs.items) → gave ≡ [] }
    ensures waits { (came : List Arrival) → (gave : List Item) → Keeps joins.stands joins.amid joins.takes join.now came gave
        → HasOnlySides (inputs_view join.now.inputs.items) → join.now.outbox.items ≡ [] }
    ensures sent { (came : List Arrival) → (gave : List Item) → Keeps joins.stands joins.amid joins.takes join.now came gave
        → HasOnlySides (inputs_view join.now.inputs.items) → EachSent (λ xs. xs ≡ []) (outputs_view join.now.outputs.items) }
{}

/// A law: each mark that ever entered the outbox of a stamp's tasklet, and each that a destination was sent, is the mark of
/// the events that one of its queues received up to some place.
pub fn stamps_mark_fronts(stamp: &Tasklet<Stamp>)
    ensures entered { (came : List Arrival) → (gave : List Item) → Keeps stamps.stands stamps.amid stamps.takes stamp.now came gave
        → Each (IsOfFront stamp.now.processor.lag stamp.now.processor.grain (inputs_view stamp.now.inputs.items)) (marks_of (gave ++ stamp.now.outbox.items)) }
    ensures sent { (came : List Arrival) → (gave : List Item) → Keeps stamps.stands stamps.amid stamps.takes stamp.now came gave
        → EachSent (λ xs. Each (IsOfFront stamp.now.processor.lag stamp.now.processor.grain (inputs_view stamp.now.inputs.items)) (marks_of xs)) (outputs_view stamp.now.outputs.items) }
{
    stamp.law_keeps();
}

/// A law: at rest the last mark that each destination of a stamp was sent is the watermark of what the stamp was told; and
/// where a queue is neither done nor idle, and each such queue has a mark by its events which is not below s, that mark is
/// not below s.
pub fn stamps_rest_at_the_low(stamp: &Tasklet<Stamp>)
    ensures last { (low : Option ℤ) → (came : List Arrival) → (gave : List Item) → Keeps stamps.stands stamps.amid stamps.takes stamp.now came gave → IsAtRest stamp.now
        → IsLowIf (length stamp.now.processor.markers.items) stamp.now.processor.lag stamp.now.processor.grain (told step.Poll (queue_count Stream (inputs_view stamp.now.inputs.items)) came) low
        → EachSent (λ xs. last_mark xs ≡ low) (outputs_view stamp.now.outputs.items) }
    ensures passes { (s : ℤ) → (came : List Arrival) → (gave : List Item) → Keeps stamps.stands stamps.amid stamps.takes stamp.now came gave → IsAtRest stamp.now
        → length stamp.now.processor.markers.items ≡ queue_count Stream (inputs_view stamp.now.inputs.items)
        → HasAwake (inputs_view stamp.now.inputs.items) → FilesReached stamp.now.processor.lag stamp.now.processor.grain (inputs_view stamp.now.inputs.items) s
        → EachSent (λ xs. IsSomeAnd (last_mark xs) (λ m. s ≤ℤ m)) (outputs_view stamp.now.outputs.items) }
{
    stamp.law_keeps();
}
