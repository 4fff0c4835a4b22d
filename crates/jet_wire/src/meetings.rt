// Meetings: of the two ends of a link, and of the rings on either side of it.
ghost use Rattle.std.specs.Prelude.{◌≡◌, IsOk};
ghost use Rattle.jet_link.specs.Meeting.{IsLink, BothMet, SendMet, RecvMet};
ghost use Rattle.jet_wire.specs.Data.{PassesData, SendsAll};
ghost use Rattle.jet_wire.specs.Meeting.{GivesWhatWasSent, GivesNext, GivesAll, GivesDoneLast, IsOverAtEnd, EndsAfter, IsEmptyAtEnd};
ghost use Rattle.jet_wire.specs.Moves.{FewPackets, MovesLittle};
ghost use Rattle.jet_wire.specs.Receiver.{receiver_view, ReceiverStays};
ghost use Rattle.jet_wire.specs.Sender.{sender_view, Stays};

use crate::{Receiver, Sender};
use jet_items::NoMemory;
use jet_link::{acknowledged_links_are_empty, meet};
use jet_spell::{front_of, spellings_are_short};

/// A meeting of a sender and a receiver that hold the two ends of one link: of both rings of the link. It takes no memory
/// and always succeeds, and neither end gives or takes anything by it.
pub fn refresh_link(sender: &mut Sender, receiver: &mut Receiver) -> Result<(), NoMemory>
    requires { IsLink (sender_view sender.old).end (receiver_view receiver.old).end }
    ensures answer { IsOk result }
    ensures link { IsLink (sender_view sender.new).end (receiver_view receiver.new).end }
    ensures met { BothMet (sender_view sender.new).end (receiver_view receiver.new).end }

    // nothing but what the ends know of the two rings changes
    ensures sender { SendMet (sender_view sender.old).end (sender_view sender.new).end }
    ensures only_end { sender_view sender.new ≡ record (sender_view sender.old) { end = (sender_view sender.new).end } }
    ensures receiver { RecvMet (receiver_view receiver.old).end (receiver_view receiver.new).end }
    ensures only_its_end { receiver_view receiver.new ≡ record (receiver_view receiver.old) { end = (receiver_view receiver.new).end } }

    // and both keep what they keep
    ensures sent { Stays (sender_view sender.old) (sender_view sender.new) }
    ensures given { ReceiverStays (receiver_view receiver.old) (receiver_view receiver.new) }
{
    meet(&mut sender.end, &mut receiver.end)
}

/// A law for proofs above, of a sender and a receiver that have met: what the receiver gave its router is a front of what
/// the sender sent, with the item that it gives next too, and all of that where no packet is known and nothing is left of the
/// one in hand. The call does nothing.
pub fn receivers_give_what_was_sent(sender: &Sender, receiver: &Receiver)
    ensures front { GivesWhatWasSent (sender_view sender.now) (receiver_view receiver.now) }
    ensures next { GivesNext (sender_view sender.now) (receiver_view receiver.now) }
    ensures all { GivesAll (sender_view sender.now) (receiver_view receiver.now) }
{
    front_of();
}

/// A law for proofs above, of a sender and a receiver that have met. Done stands nowhere but at the end of what the receiver
/// gave. Where the receiver has ended, it gave all that is passed
/// on of what came to the sender, and no packet is on the way. Where the sender has ended, so has the receiver, and the link
/// is empty. The call does nothing.
pub fn links_end(sender: &Sender, receiver: &Receiver)
    ensures last { GivesDoneLast (sender_view sender.now) (receiver_view receiver.now) }
    ensures over { IsOverAtEnd (sender_view sender.now) (receiver_view receiver.now) }
    ensures receiver { EndsAfter (sender_view sender.now) (receiver_view receiver.now) }
    ensures empty { IsEmptyAtEnd (sender_view sender.now) (receiver_view receiver.now) }
{
    receivers_give_what_was_sent(sender, receiver);
    sender.law_done_last();
    acknowledged_links_are_empty(&sender.end, &receiver.end);
    spellings_are_short();
}

/// A law for proofs above: a sender passes on all data that came to it, in its order, and where it holds nothing, it has
/// sent all that it passes on. The call does nothing.
pub fn senders_send_what_came(sender: &Sender)
    ensures data { PassesData (sender_view sender.now) }
    ensures all { SendsAll (sender_view sender.now) }
{
    spellings_are_short();
}

/// A law for proofs above: there is an item or more in each packet, so a sender pushed no more packets than it sent items; and
/// where the two have met, packets and acknowledgements were pushed and popped at most four times for each item. The call does
/// nothing.
pub fn links_move_little(sender: &Sender, receiver: &Receiver)
    ensures packets { FewPackets (sender_view sender.now) }
    ensures moves { MovesLittle (sender_view sender.now) (receiver_view receiver.now) }
{
    let _sender = sender;
    let _receiver = receiver;
}
