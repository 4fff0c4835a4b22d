// A law of the two ends of a link, for proofs above: the contract of a function that does nothing.
ghost use Rattle.jet_link.specs.Meeting.{EmptiesOnceAcked};
ghost use Rattle.jet_link.specs.Views.{send_view, recv_view};

use crate::{RecvEnd, SendEnd};

/// Of two ends that have met: where as many bytes are acknowledged as were sent, nothing is on the way.
pub fn acknowledged_links_are_empty(sender: &SendEnd, receiver: &RecvEnd)
    ensures { EmptiesOnceAcked (send_view sender.now) (recv_view receiver.now) }
{
    let _sender = sender;
    let _receiver = receiver;
}
