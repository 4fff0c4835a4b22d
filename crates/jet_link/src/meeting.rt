// A meeting of the two ends of a link: of both rings at once.
ghost use Rattle.std.specs.Prelude.{IsOk};
ghost use Rattle.jet_link.specs.Views.{send_view, recv_view};
ghost use Rattle.jet_link.specs.Meeting.{IsLink, BothMet, SendMet, RecvMet};

use crate::{RecvEnd, SendEnd};
use jet_items::NoMemory;
use jet_ring::refresh;

/// A meeting of the two ends of one link, in one thread. It takes no memory and always succeeds.
pub fn meet(sender: &mut SendEnd, receiver: &mut RecvEnd) -> Result<(), NoMemory>
    requires { IsLink (send_view sender.old) (recv_view receiver.old) }
    ensures answer { IsOk result }
    ensures sender { SendMet (send_view sender.old) (send_view sender.new) }
    ensures receiver { RecvMet (recv_view receiver.old) (recv_view receiver.new) }
    ensures link { IsLink (send_view sender.new) (recv_view receiver.new) }
    ensures met { BothMet (send_view sender.new) (recv_view receiver.new) }
{
    refresh(&mut sender.packets, &mut receiver.packets)?;
    refresh(&mut receiver.acks, &mut sender.acks)
}
