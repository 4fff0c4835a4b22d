// The laws of the two ends of one link, as tasklets of any kind: what the receiver gives is what the sender passes on of what
// came to it, so that each law of the lists that came to the sender is one of those that the receiver's destinations were sent.
ghost use Rattle.std.specs.Prelude.{◌≡◌, ℕ, Bool, true, List, [], ◌∷◌, ◌++◌};
ghost use mathlib.Core.List.{IsPrefix};
ghost use Rattle.jet_items.specs.declared.item.Item.{Item};
ghost use Rattle.jet_items.specs.declared.item.Item.TheVariants as item;
ghost use Rattle.jet_items.specs.Bag.{SameBag};
ghost use Rattle.jet_items.specs.Kinds.{data_of};
ghost use Rattle.jet_items.specs.Order.{Sound, Closed as ClosedItems};
ghost use Rattle.jet_boxes.specs.declared.port.Port.TheVariants.{Stream};
ghost use Rattle.jet_conveyor.specs.Conveyor.{EndsIn};

use crate::AnyTasklet;
use jet_wire::{links_end, receivers_give_what_was_sent};

impl AnyTasklet {
    ghost use Rattle.jet_tasklet.specs.Any.{AnyHasEnded};
    ghost use Rattle.jet_tasklet.specs.AnyOver.{OverLink, any_passed_on, IsFedSound, IsFedClosed};
    ghost use Rattle.jet_tasklet.specs.Inputs.{all_done};
    ghost use Rattle.jet_tasklet.specs.Merging.{data_received};
    ghost use Rattle.jet_tasklet.specs.Sending.{EachSent};
    ghost use Rattle.jet_tasklet.specs.Trace.{has_ended};
    ghost use Rattle.jet_tasklet.specs.Views.{ins, outs};

    /// A law of a sender and the receiver of its link, where the two have met. What the receiver gave is, in its order, a front
    /// of what the sender sent and of what it passes on of all that came to it; Done stands nowhere in it but at its end, and
    /// only where every queue of the sender is done. Once the receiver has ended, it is all of that, with Done last; and once
    /// the sender has ended, so has the receiver.
    pub fn law_link_carries(&self, receiver: &AnyTasklet)
        ensures front { OverLink self.now receiver.now (λ came sent given. IsPrefix given sent) }
        ensures passed { OverLink self.now receiver.now (λ came sent given. IsPrefix given (any_passed_on self.now came)) }
        ensures last { OverLink self.now receiver.now (λ came sent given. EndsIn (has_ended given) given) }
        ensures done { OverLink self.now receiver.now (λ came sent given. has_ended given ≡ true → all_done Stream (ins self.now) ≡ true) }
        ensures all { OverLink self.now receiver.now (λ came sent given. AnyHasEnded receiver.now → (given ≡ sent) × (given ≡ any_passed_on self.now came)) }
        ensures ended { OverLink self.now receiver.now (λ came sent given. AnyHasEnded receiver.now → (front : List Item) × (given ≡ front ++ item.Done ∷ [])) }
        ensures after { OverLink self.now receiver.now (λ came sent given. AnyHasEnded self.now → AnyHasEnded receiver.now) }
    {
        let AnyTasklet::Send(from) = self else {
            return;
        };
        let AnyTasklet::Receive(to) = receiver else {
            return;
        };
        receivers_give_what_was_sent(from, to);
        links_end(from, to);
    }

    /// A law of a sender and the receiver of its link, where the two have met. Where what each queue of the sender received is
    /// sound, so is what each destination of the receiver was sent, and closed where that is closed. Once the receiver has
    /// ended, the data that it gave is that which all those queues received.
    pub fn law_link_keeps_order(&self, receiver: &AnyTasklet)
        ensures sound { (behind : ℕ → ℕ → Bool) → IsFedSound behind self.now → OverLink self.now receiver.now (λ came sent given. EachSent (Sound behind) (outs receiver.now)) }
        ensures closed { IsFedClosed self.now → OverLink self.now receiver.now (λ came sent given. EachSent ClosedItems (outs receiver.now)) }
        ensures data { OverLink self.now receiver.now (λ came sent given. AnyHasEnded receiver.now → SameBag (data_of given) (data_received Stream (ins self.now))) }
    {
        let AnyTasklet::Send(from) = self else {
            return;
        };
        let AnyTasklet::Receive(to) = receiver else {
            return;
        };
        receivers_give_what_was_sent(from, to);
        links_end(from, to);
        from.law_passes_in_order();
        from.law_takes_from_all();
    }
}
