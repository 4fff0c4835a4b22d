// The end of a link that sends. It stands alone: whatever acknowledgements come, the bytes that are not acknowledged stay
// bounded, since a packet begins only below the limit and no limit further ahead is taken in.
ghost use Rattle.jet_link.specs.Ends.{IsSendEnd};

use crate::{Ack, Counts, LinkShape, Packet};
use jet_items::Item;
use jet_pool::{Buf, Stock};
use jet_ring::{Rx, Tx};
use jet_spell::{spellings_are_short, write_item};

/// The end of a link that sends packets and takes acknowledgements.
#[derive(Drop)]
pub struct SendEnd {
    pub(crate) shape: LinkShape,
    pub(crate) counts: Counts,
    pub(crate) stock: Stock,
    // The buffer that the next packet is written into.
    pub(crate) work: Option<Buf>,
    pub(crate) packets: Tx<Packet>,
    pub(crate) acks: Rx<Ack>,
    // The packets pushed, less the acknowledgements taken.
    pub(crate) outstanding: u32,
    ghost right: { IsSendEnd shape counts stock work packets acks outstanding },
}

impl SendEnd {
    ghost use Rattle.std.specs.Prelude.{◌≡◌, ◌≤◌, ◌<◌, ◌+◌, ◌++◌, ◌^◌, ◌↔◌, IsTrue, IsFalse, [], length, IsSome, IsNone, ◌⊎◌};
    ghost use Rattle.jet_link.specs.Sending.{SameSend, IsBounded, Packs, TookAck, TookAcks, NoneToTake, MayNotBegin, Began, Written, DoesNotFit, Pushed, PutBack, HasBytes};
    ghost use Rattle.jet_items.specs.Fits.{ItemFits};
    ghost use Rattle.jet_link.specs.Views.{send_view};

    /// The bytes sent, acknowledged and allowed.
    pub fn counts(&self) -> Counts
        ensures value { result ≡ (send_view self.now).counts }
        ensures bounded { IsBounded (send_view self.now) }
    {
        self.counts
    }

    /// How many packets may be pushed before the next meeting.
    pub fn free(&self) -> usize
        ensures { result ≡ (send_view self.now).packets.free }
    {
        self.packets.free()
    }

    /// Whether a buffer is in work.
    pub fn is_working(&self) -> bool
        ensures some { IsTrue result → IsSome (send_view self.now).work }
        ensures none { IsFalse result → IsNone (send_view self.now).work }
    {
        self.work.is_some()
    }

    // Takes one acknowledgement, where one may be taken and is known. One that the link does not allow is dropped.
    fn take_ack(&mut self) -> bool
        ensures took { IsTrue result → TookAck (send_view self.old) (send_view self.new) }
        ensures fewer { IsTrue result → self.new.outstanding + 1 ≡ self.old.outstanding }
        ensures none { IsFalse result → (send_view self.new ≡ send_view self.old) × NoneToTake (send_view self.new) }
    {
        if self.outstanding == 0 {
            return false;
        }
        let Some(ack) = self.acks.take() else {
            return false;
        };
        self.outstanding -= 1;
        let Ack {
            buf,
            processed,
            offer,
        } = ack;
        let allowed = self.counts.accepts(&self.shape, processed, offer);
        if allowed && buf.room() == self.shape.packet {
            self.counts.acked = processed;
            self.counts.limit = offer;
            self.stock.put(buf);
        }
        true
    }

    /// Takes every acknowledgement that it may take and that is known, and says whether there was one. It may take no more
    /// of them than it has pushed packets.
    pub fn take_acks(&mut self) -> bool
        ensures bounded { IsBounded (send_view self.new) }
        ensures took { TookAcks (send_view self.old) (send_view self.new) }
        ensures same { SameSend (send_view self.old) (send_view self.new) }
        ensures none { NoneToTake (send_view self.new) }
        ensures still { IsFalse result → send_view self.new ≡ send_view self.old }
        ensures moved { IsTrue result → length (send_view self.old).acks.received < length (send_view self.new).acks.received }
    {
        let mut took = false;
        while self.take_ack() {
            took = true;
        }
        took
    }

    /// Takes a buffer into work, where none is, the bytes sent are below the limit and one is in the stock.
    pub fn begin(&mut self) -> bool
        requires idle { IsNone (send_view self.old).work }
        ensures packs { Packs (send_view self.old) (send_view self.new) }
        ensures bounded { IsBounded (send_view self.new) }
        ensures begun { IsTrue result → Began (send_view self.old) (send_view self.new) }
        ensures none { IsFalse result → (send_view self.new ≡ send_view self.old) × MayNotBegin (send_view self.new) }
    {
        if !self.counts.may_begin() {
            return false;
        }
        let Some(buf) = self.stock.take() else {
            return false;
        };
        self.work = Some(buf);
        true
    }

    /// Writes the item behind what is in work, where it fits. An empty packet has room for any item.
    pub fn write(&mut self, item: &Item) -> bool
        requires work { IsSome (send_view self.old).work }
        ensures bounded { IsBounded (send_view self.new) }
        ensures packs { Packs (send_view self.old) (send_view self.new) }
        ensures ranges { ItemFits item.now }
        ensures written { IsTrue result → Written (send_view self.old) (send_view self.new) item.now }
        ensures full { IsFalse result → (send_view self.new ≡ send_view self.old) × DoesNotFit (send_view self.old).work item.now }
        ensures bytes { HasBytes (send_view self.new).work }
    {
        spellings_are_short();
        match &mut self.work {
            Some(buf) => write_item(item, buf),
            None => false,
        }
    }

    /// Pushes what is in work as a packet, where a slot of the ring is known to be free.
    pub fn push(&mut self) -> bool
        requires { HasBytes (send_view self.old).work }
        ensures packs { Packs (send_view self.old) (send_view self.new) }
        ensures bounded { IsBounded (send_view self.new) }
        ensures pushed { IsTrue result → Pushed (send_view self.old) (send_view self.new) }
        ensures full { IsFalse result → (send_view self.new ≡ send_view self.old) × ((send_view self.new).packets.free ≡ 0) }
    {
        if self.packets.free() == 0 {
            return false;
        }
        let Some(buf) = self.work.take() else {
            return false;
        };
        let size = buf.bytes().len() as u64;
        self.counts.sent = self.counts.sent.wrapping_add(size);
        self.outstanding += 1;
        self.packets.offer(Packet::new(buf)).is_ok()
    }

    /// Puts the buffer in work back where it is empty, and says so. A turn ends with it: so one that did nothing leaves
    /// the end as it was.
    pub fn put_back(&mut self) -> bool
        ensures packs { Packs (send_view self.old) (send_view self.new) }
        ensures bounded { IsBounded (send_view self.new) }
        ensures back { IsTrue result → PutBack (send_view self.old) (send_view self.new) }
        ensures kept { IsFalse result → (send_view self.new ≡ send_view self.old) × (IsNone (send_view self.new).work ⊎ HasBytes (send_view self.new).work) }
    {
        match self.work.take() {
            None => false,
            Some(buf) if buf.bytes().is_empty() => {
                self.stock.put(buf);
                true
            }
            Some(buf) => {
                self.work = Some(buf);
                false
            }
        }
    }
}
