// A new link.
ghost use Rattle.std.specs.Prelude.{◌≡◌, IfOk, None, false};
ghost use Rattle.jet_link.specs.Shape.{IsShape};
ghost use Rattle.jet_link.specs.Views.{send_view, recv_view};
ghost use Rattle.jet_link.specs.Meeting.{IsLink, BothMet, IsNewSend, IsNewRecv};

use crate::{Ack, Counts, LinkShape, Packet, RecvEnd, SendEnd};
use jet_items::NoMemory;
use jet_pool::Stock;
use jet_ring::ring;
use std::alloc::Global;

/// The two ends of a link of this shape, which have passed nothing. It takes the memory of its buffers and of its two
/// rings, and no other call of the crate takes any.
pub fn link(alloc: Global, shape: LinkShape) -> Result<(SendEnd, RecvEnd), NoMemory>
    requires { IsShape shape }
    ensures sender { IfOk result (λ r. IsNewSend shape (send_view r.0)) }
    ensures receiver { IfOk result (λ r. IsNewRecv shape (recv_view r.1)) }
    ensures link { IfOk result (λ r. IsLink (send_view r.0) (recv_view r.1)) }
    ensures met { IfOk result (λ r. BothMet (send_view r.0) (recv_view r.1)) }
    ensures slots { IfOk result (λ r. ((send_view r.0).packets.ring.cap ≡ shape.buffers) × ((send_view r.0).acks.ring.cap ≡ shape.buffers)) }
{
    let stock = Stock::new(alloc, shape.buffers, shape.packet)?;
    let (packets, taken) = ring::<Packet>(alloc, shape.buffers as usize)?;
    let (acks, acked) = ring::<Ack>(alloc, shape.buffers as usize)?;
    let counts = Counts {
        sent: 0,
        acked: 0,
        limit: shape.window as u64,
    };
    let sender = SendEnd {
        shape,
        counts,
        stock,
        work: None,
        packets,
        acks: acked,
        outstanding: 0,
    };
    let receiver = RecvEnd {
        shape,
        packets: taken,
        acks,
        held: None,
        whole: false,
        processed: 0,
        offer: shape.window as u64,
        grant: shape.window,
        part: 0,
        turns: 0,
    };
    Ok((sender, receiver))
}
