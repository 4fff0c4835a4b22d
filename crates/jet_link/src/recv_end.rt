// The end of a link that receives. It counts a packet once all its items were given, and only then gives the buffer back;
// so what it acknowledges was processed.
ghost use Rattle.std.specs.Prelude.{◌≤◌, ◌^◌};
ghost use Rattle.jet_link.specs.Ends.{IsRecvEnd};
ghost use Rattle.jet_link.specs.Link.{Raised};

use crate::{Ack, LinkShape, Packet};
use jet_ring::{Rx, Tx};

/// The end of a link that receives packets and pushes acknowledgements.
#[derive(Drop)]
pub struct RecvEnd {
    pub(crate) shape: LinkShape,
    pub(crate) packets: Rx<Packet>,
    pub(crate) acks: Tx<Ack>,
    // The packet in hand, and whether all its items were given; then its bytes are counted.
    pub(crate) held: Option<Packet>,
    pub(crate) whole: bool,
    // The bytes of the packets whose items were all given, and the bytes that the sender may send in all, each modulo 2^64.
    pub(crate) processed: u64,
    pub(crate) offer: u64,
    // How far the offer goes ahead of the bytes processed.
    pub(crate) grant: u32,
    // The bytes processed since the period began, and the turns since then.
    pub(crate) part: u64,
    pub(crate) turns: u32,
    ghost right: { IsRecvEnd shape packets acks held whole processed offer grant part turns },
}

impl RecvEnd {
    ghost use Rattle.std.specs.Prelude.{◌≡◌, ◌≤◌, ◌<◌, ◌+◌, ◌*◌, ◌++◌, ◌∷◌, ◌^◌, ◌↔◌, IsTrue, IsFalse, IsSome, IsNone, [], length, ◌⊎◌, true, false};
    ghost use Rattle.jet_link.specs.Link.{whole_processed};
    ghost use Rattle.jet_link.specs.Views.{recv_view, recv_state};
    ghost use Rattle.jet_link.specs.Receiving.{SameRecv, held_bytes, held_size, IsGranted, Received, SameCounts, Counted, Acknowledged, EndedTurn};

    /// How far the next offer goes ahead of the bytes processed.
    pub fn grant(&self) -> u32
        ensures value { result ≡ (recv_view self.now).grant }
        ensures granted { IsGranted (recv_view self.now) }
    {
        self.grant
    }

    /// Whether a packet is in hand.
    pub fn holds(&self) -> bool
        ensures some { IsTrue result → IsSome (recv_view self.now).held }
        ensures none { IsFalse result → (recv_view self.now).held ≡ None }
    {
        self.held.is_some()
    }

    /// Whether a packet is in hand whose items were all given.
    pub fn is_whole(&self) -> bool
        ensures value { result ≡ (recv_view self.now).whole }
        ensures held { IsTrue result → IsSome (recv_view self.now).held }
    {
        self.whole
    }

    /// The bytes of the packet in hand. None, where none is.
    pub fn bytes(&self) -> &[u8]
        ensures bytes { result.now ≡ held_bytes (recv_view self.now).held }
        ensures small { held_size (recv_view self.now).held ≤ 65536 }
    {
        match &self.held {
            Some(packet) => packet.buf.bytes(),
            None => &[],
        }
    }

    /// Takes the next packet in hand, where none is in hand and one is known.
    pub fn receive(&mut self) -> bool
        requires free { (recv_view self.old).held ≡ None }
        ensures same { SameRecv (recv_view self.old) (recv_view self.new) }
        ensures granted { IsGranted (recv_view self.new) }
        ensures received { IsTrue result → Received (recv_view self.old) (recv_view self.new) }
        ensures counts { IsTrue result → SameCounts (recv_view self.old) (recv_view self.new) }
        ensures none { IsFalse result → (recv_view self.new ≡ recv_view self.old) × ((recv_view self.new).packets.known ≡ []) }
    {
        let Some(packet) = self.packets.take() else {
            return false;
        };
        self.held = Some(packet);
        true
    }

    /// Counts the packet in hand, all items of which were given: one packet a turn.
    pub fn finish(&mut self)
        requires held { IsSome (recv_view self.old).held }
        requires once { (recv_view self.old).whole ≡ false }
        requires turn { (recv_view self.old).part ≤ (recv_view self.old).turns * 65536 }
        ensures same { SameRecv (recv_view self.old) (recv_view self.new) }
        ensures granted { IsGranted (recv_view self.new) }
        ensures counted { Counted (recv_view self.old) (recv_view self.new) }
    {
        let size = self.bytes().len() as u64;
        self.processed = self.processed.wrapping_add(size);
        self.part += size;
        self.whole = true;
    }

    /// Acknowledges the packet in hand, all items of which were given, where a slot of the ring is known to be free.
    pub fn acknowledge(&mut self) -> bool
        requires whole { (recv_view self.old).whole ≡ true }
        ensures same { SameRecv (recv_view self.old) (recv_view self.new) }
        ensures granted { IsGranted (recv_view self.new) }
        ensures acknowledged { IsTrue result → Acknowledged (recv_view self.old) (recv_view self.new) }
        ensures processed { IsTrue result → whole_processed (recv_state (recv_view self.new)) ≡ whole_processed (recv_state (recv_view self.old)) }
        ensures full { IsFalse result → (recv_view self.new ≡ recv_view self.old) × ((recv_view self.new).acks.free ≡ 0) }
    {
        if self.acks.free() == 0 {
            return false;
        }
        let size = self.bytes().len() as u64;
        let Some(packet) = self.held.take() else {
            return false;
        };
        let before = self.processed.wrapping_sub(size);
        self.offer = raised(self.offer, before, size, self.grant);
        self.whole = false;
        let ack = Ack {
            buf: packet.buf,
            processed: self.processed,
            offer: self.offer,
        };
        self.acks.offer(ack).is_ok()
    }

    /// Ends a turn: at the end of a period the grant follows what was processed in it.
    pub fn end_turn(&mut self)
        ensures same { SameRecv (recv_view self.old) (recv_view self.new) }
        ensures granted { IsGranted (recv_view self.new) }
        ensures ended { EndedTurn (recv_view self.old) (recv_view self.new) }
    {
        self.turns += 1;
        if self.turns == self.shape.period {
            let next = self.part * self.shape.multiplier as u64;
            let least = self.shape.window as u64;
            let most = self.shape.peak as u64;
            self.grant = next.max(least).min(most) as u32;
            self.part = 0;
            self.turns = 0;
        }
    }
}

// The offer, raised to the grant ahead of `size` bytes after `before` where that is more. The distance is taken from
// before the packet, since between counting and acknowledging the offer may lie below the bytes processed.
fn raised(offer: u64, before: u64, size: u64, grant: u32) -> u64
    requires { size ≤ 2 ^ 32 }
    ensures { Raised offer before size grant result }
{
    let most = size + grant as u64;
    if offer.wrapping_sub(before) < most {
        before.wrapping_add(most)
    } else {
        offer
    }
}
