// Laws of turns in a row of one sender, and of one receiver.
ghost use Rattle.std.specs.Prelude.{◌≡◌};
ghost use Rattle.jet_wire.specs.declared.progress.Progress.{Progress};
ghost use Rattle.jet_wire.specs.Receiver.{receiver_view, ReceiverIsLawful};
ghost use Rattle.jet_wire.specs.ReceiverTurn.{moved_count};
ghost use Rattle.jet_wire.specs.Sender.{sender_view, IsLawful};
ghost use Rattle.jet_wire.specs.SenderTurn.{move_count};
ghost use Rattle.jet_wire.specs.Turns.{joined, Counts, SenderWent, SenderSaid, ReceiverWent, ReceiverSaid};

use crate::{Receiver, Sender};

/// A law for proofs above: a sender keeps its law through turns, turns in a row leave what each of them leaves, their answers
/// join, and the count of moves rises exactly in the turns that say Moved. The call does nothing.
pub fn senders_turn_in_a_row(first: &Sender, next: &Sender, last: &Sender)
    ensures lawful { IsLawful (sender_view first.now) → SenderWent (sender_view first.now) (sender_view next.now) → IsLawful (sender_view next.now) }
    ensures went { SenderWent (sender_view first.now) (sender_view next.now) → SenderWent (sender_view next.now) (sender_view last.now) → SenderWent (sender_view first.now) (sender_view last.now) }
    ensures said { (p q : Progress) → SenderWent (sender_view first.now) (sender_view next.now) → SenderWent (sender_view next.now) (sender_view last.now)
        → SenderSaid p (sender_view first.now) (sender_view next.now) → SenderSaid q (sender_view next.now) (sender_view last.now) → SenderSaid (joined p q) (sender_view first.now) (sender_view last.now) }
    ensures counted { (p : Progress) → SenderSaid p (sender_view first.now) (sender_view next.now) → Counts p (move_count (sender_view first.now)) (move_count (sender_view next.now)) }
{
    let _first = first;
    let _next = next;
    let _last = last;
}

/// The same law of a receiver.
pub fn receivers_turn_in_a_row(first: &Receiver, next: &Receiver, last: &Receiver)
    ensures lawful { ReceiverIsLawful (receiver_view first.now) → ReceiverWent (receiver_view first.now) (receiver_view next.now) → ReceiverIsLawful (receiver_view next.now) }
    ensures went { ReceiverWent (receiver_view first.now) (receiver_view next.now) → ReceiverWent (receiver_view next.now) (receiver_view last.now) → ReceiverWent (receiver_view first.now) (receiver_view last.now) }
    ensures said { (p q : Progress) → ReceiverWent (receiver_view first.now) (receiver_view next.now) → ReceiverWent (receiver_view next.now) (receiver_view last.now)
        → ReceiverSaid p (receiver_view first.now) (receiver_view next.now) → ReceiverSaid q (receiver_view next.now) (receiver_view last.now) → ReceiverSaid (joined p q) (receiver_view first.now) (receiver_view last.now) }
    ensures counted { (p : Progress) → ReceiverSaid p (receiver_view first.now) (receiver_view next.now) → Counts p (moved_count (receiver_view first.now)) (moved_count (receiver_view next.now)) }
{
    let _first = first;
    let _next = next;
    let _last = last;
}
