// What holds in every state of a tasklet of any kind of processor: the order of what entered its outbox, where Done stands in
// what it sent, and which marks stand there. Senders and receivers have laws of their own in `jet_wire`.
ghost use Rattle.std.specs.Prelude.{◌≡◌, ℕ, Bool, ℤ, ◌≤ℤ◌, List, ◌++◌, Option};
ghost use Rattle.std.specs.Option.{IsSomeAnd};
ghost use Rattle.jet_items.specs.declared.item.Item.{Item};
ghost use Rattle.jet_items.specs.Kinds.{marks_of};
ghost use Rattle.jet_items.specs.Order.{Closed, Each, Sound};
ghost use Rattle.jet_tasklet.specs.declared.arrival.Arrival.{Arrival};
ghost use Rattle.jet_tasklet.specs.declared.step.Step.TheVariants as step;
ghost use Rattle.jet_tasklet.specs.Any.{AnyHasEnded, AnyIsStarved, AnyKeeps};
ghost use Rattle.jet_tasklet.specs.AnyOver.{IsFedClosed, IsFedSound};
ghost use Rattle.jet_tasklet.specs.DoneLast.{DoneLast};
ghost use Rattle.jet_tasklet.specs.Kinds.{RunsProcessor};
ghost use Rattle.jet_tasklet.specs.MarksGiven.{AnyAllReached, AnyIsAtRest, AnyIsLow, AnyMayGive, HasOpen, last_mark};
ghost use Rattle.jet_tasklet.specs.Sending.{EachSent};
ghost use Rattle.jet_tasklet.specs.Views.{ins, outs, step_of, waiting};

use crate::AnyTasklet;
use crate::rests::{stamps_mark_fronts, stamps_rest_at_the_low};

impl AnyTasklet {
    /// Where what the queues of a tasklet that runs a processor received is as its kind asks, all that ever entered the outbox
    /// is sound, and closed.
    pub fn law_enters_in_order(&self)
        ensures sound { RunsProcessor self.now → (behind : ℕ → ℕ → Bool) → (came : List Arrival) → (gave : List Item) → AnyKeeps self.now came gave → IsFedSound behind self.now
            → Sound behind (gave ++ waiting self.now) }
        ensures closed { RunsProcessor self.now → (came : List Arrival) → (gave : List Item) → AnyKeeps self.now came gave → IsFedClosed self.now
            → Closed (gave ++ waiting self.now) }
    {
        match self {
            AnyTasklet::Stamp(tasklet) => tasklet.law_enters_in_order(),
            AnyTasklet::Map(tasklet) => {
                tasklet.law_told_in_order();
                tasklet.law_enters_in_order();
            }
            AnyTasklet::Filter(tasklet) => {
                tasklet.law_told_in_order();
                tasklet.law_enters_in_order();
            }
            AnyTasklet::Flat(tasklet) => {
                tasklet.law_told_in_order();
                tasklet.law_enters_in_order();
            }
            AnyTasklet::Join(tasklet) => {
                tasklet.law_told_in_order();
                tasklet.law_enters_in_order();
            }
            AnyTasklet::Frame(tasklet) => {
                tasklet.law_told_in_order();
                tasklet.law_enters_in_order();
            }
            AnyTasklet::Combine(tasklet) => {
                tasklet.law_told_in_order();
                tasklet.law_enters_in_order();
            }
            AnyTasklet::Send(_) => {}
            AnyTasklet::Receive(_) => {}
        }
    }

    /// Of a tasklet that runs a processor the list that each destination was sent has Done nowhere but at its end, and only
    /// where the tasklet has put it, every queue being done. Once the tasklet has ended, each of those lists ends in Done.
    pub fn law_done_last(&self)
        ensures { RunsProcessor self.now → (came : List Arrival) → (gave : List Item) → AnyKeeps self.now came gave
            → EachSent (DoneLast (step_of self.now ≡ step.Ended) (AnyHasEnded self.now) (ins self.now)) (outs self.now) }
    {
        match self {
            AnyTasklet::Stamp(tasklet) => tasklet.law_done_last(),
            AnyTasklet::Map(tasklet) => tasklet.law_done_last(),
            AnyTasklet::Filter(tasklet) => tasklet.law_done_last(),
            AnyTasklet::Flat(tasklet) => tasklet.law_done_last(),
            AnyTasklet::Join(tasklet) => tasklet.law_done_last(),
            AnyTasklet::Frame(tasklet) => tasklet.law_done_last(),
            AnyTasklet::Combine(tasklet) => tasklet.law_done_last(),
            AnyTasklet::Send(_) => {}
            AnyTasklet::Receive(_) => {}
        }
    }

    /// Of a tasklet that runs a processor each mark that ever entered the outbox, and each that a destination was sent, is
    /// one that a stream queue received; of a stamp, the mark of the events that one of its queues received up to some
    /// place.
    pub fn law_marks_received(&self)
        ensures entered { RunsProcessor self.now → (came : List Arrival) → (gave : List Item) → AnyKeeps self.now came gave → Each (AnyMayGive self.now) (marks_of (gave ++ waiting self.now)) }
        ensures sent { RunsProcessor self.now → (came : List Arrival) → (gave : List Item) → AnyKeeps self.now came gave → EachSent (λ xs. Each (AnyMayGive self.now) (marks_of xs)) (outs self.now) }
    {
        match self {
            AnyTasklet::Stamp(tasklet) => stamps_mark_fronts(tasklet),
            AnyTasklet::Map(tasklet) => tasklet.law_marks_received(),
            AnyTasklet::Filter(tasklet) => tasklet.law_marks_received(),
            AnyTasklet::Flat(tasklet) => tasklet.law_marks_received(),
            AnyTasklet::Join(tasklet) => tasklet.law_marks_received(),
            AnyTasklet::Frame(tasklet) => tasklet.law_marks_received(),
            AnyTasklet::Combine(tasklet) => tasklet.law_marks_received(),
            AnyTasklet::Send(_) => {}
            AnyTasklet::Receive(_) => {}
        }
    }

    /// Of a tasklet that runs a processor, at rest and with a stream queue that is not done, the last mark that each
    /// destination was sent is the low of those queues; and where each of them has reached s, so has that mark.
    pub fn law_marks_at_rest(&self)
        ensures last { RunsProcessor self.now → (low : Option ℤ) → (came : List Arrival) → (gave : List Item) → AnyKeeps self.now came gave → AnyIsAtRest self.now → HasOpen (ins self.now)
            → AnyIsLow self.now came low → EachSent (λ xs. last_mark xs ≡ low) (outs self.now) }
        ensures passes { RunsProcessor self.now → (s : ℤ) → (came : List Arrival) → (gave : List Item) → AnyKeeps self.now came gave → AnyIsAtRest self.now → HasOpen (ins self.now)
            → AnyAllReached self.now s → EachSent (λ xs. IsSomeAnd (last_mark xs) (λ m. s ≤ℤ m)) (outs self.now) }
    {
        match self {
            AnyTasklet::Stamp(tasklet) => stamps_rest_at_the_low(tasklet),
            AnyTasklet::Map(tasklet) => tasklet.law_marks_at_rest(),
            AnyTasklet::Filter(tasklet) => tasklet.law_marks_at_rest(),
            AnyTasklet::Flat(tasklet) => tasklet.law_marks_at_rest(),
            AnyTasklet::Join(tasklet) => tasklet.law_marks_at_rest(),
            AnyTasklet::Frame(tasklet) => tasklet.law_marks_at_rest(),
            AnyTasklet::Combine(tasklet) => tasklet.law_marks_at_rest(),
            AnyTasklet::Send(_) => {}
            AnyTasklet::Receive(_) => {}
        }
    }

    /// A tasklet that waits for items is at rest.
    pub fn law_starved_rests(&self)
        ensures { AnyIsStarved self.now → AnyIsAtRest self.now }
    {}
}
