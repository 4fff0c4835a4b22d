// A sender holds at most one item in hand beside the packet that it fills: what a poll gives is data, or a mark of all
// queues, or Done, and waits in hand while the packet has no room for it. It polls only while a packet is being filled, so
// that a turn that can send nothing takes nothing.

use crate::Progress;
use crate::note::note;
use jet_coalescer::Coalescer;
use jet_conveyor::{Conveyor, Polled};
use jet_items::{Item, NoMemory};
use jet_link::{Counts, SendEnd};
use std::alloc::Global;

/// Sends the items of its queues over a link, with the marks of all of them together and one Done.
#[derive(Drop)]
pub struct Sender {
    pub(crate) conveyor: Conveyor,
    // The watermark of the queues.
    coalescer: Coalescer,
    // An item that was taken and has no room in the packet in work.
    hand: Option<Item>,
    pub(crate) end: SendEnd,
}

impl Sender {
    ghost use Rattle.std.specs.Prelude.{◌≡◌, ◌↔◌, ◌⊎◌, ◌<◌, ◌≤◌, ◌+◌, true, false, [], None, length, IfOk, IsTrue, IsFalse, IsSome, IsNone};
    ghost use Rattle.jet_conveyor.specs.Conveyor.{view as queues_view};
    ghost use Rattle.jet_link.specs.Sending.{IsBounded, HasBytes};
    ghost use Rattle.jet_link.specs.Meeting.{IsNewSend};
    ghost use Rattle.jet_link.specs.Views.{send_view};
    ghost use Rattle.jet_wire.specs.Sender.{sender_view, work_bytes, SenderKeeps, IsLawful, Stays, Goes, IsUnread};
    ghost use Rattle.jet_wire.specs.DoneLast.{SendsDoneLast};
    ghost use Rattle.jet_wire.specs.SenderSteps.{Sends, Takes, HasNothing, IsReady, IsStuck, IsFlushed, Went, TookNone};
    ghost use Rattle.jet_wire.specs.SenderTurn.{SenderTurned, received_count, move_count, SenderIsBarred, SenderIsStill, SenderHasEnded, SenderRests};
    ghost use Rattle.jet_wire.specs.declared.progress.Progress.TheVariants as progress;

    /// A sender that has taken nothing, over queues of which nothing was received and the end of a new link.
    pub fn new(alloc: Global, inputs: Conveyor, end: SendEnd) -> Result<Sender, NoMemory>
        requires unread { IsUnread (queues_view inputs) }
        requires new { IsNewSend (send_view end).shape (send_view end) }
        ensures keeps { IfOk result (λ s. SenderKeeps (sender_view s) [] []) }
        ensures queues { IfOk result (λ s. (sender_view s).queues ≡ queues_view inputs) }
        ensures end { IfOk result (λ s. (sender_view s).end ≡ send_view end) }
    {
        let queues = inputs.queues();
        let coalescer = Coalescer::new(alloc, queues)?;
        // Without a queue the end is there at once.
        let hand = if queues == 0 { Some(Item::Done) } else { None };
        Ok(Sender {
            conveyor: inputs,
            coalescer,
            hand,
            end,
        })
    }

    /// The bytes sent, acknowledged and allowed.
    pub fn counts(&self) -> Counts
        ensures value { result ≡ (sender_view self.now).end.counts }
        ensures bounded { IsBounded (sender_view self.now).end }
    {
        self.end.counts()
    }

    // Takes a buffer into work where none is.
    fn begin(&mut self) -> bool
        ensures sends { Sends (sender_view self.old) (sender_view self.new) }
        ensures hand { (sender_view self.new).hand ≡ (sender_view self.old).hand }
        ensures ready { IsTrue result → IsSome (sender_view self.new).end.work }
        ensures empty { IsNone (sender_view self.old).end.work → work_bytes (sender_view self.new).end.work ≡ [] }
        ensures barred { IsFalse result → SenderIsBarred (sender_view self.new) }
    {
        if self.end.is_working() {
            return true;
        }
        self.end.begin()
    }

    // Writes the item in hand, if there is one, where it fits into the packet in work.
    fn write(&mut self) -> bool
        requires work { IsSome (sender_view self.old).end.work }
        ensures sends { Sends (sender_view self.old) (sender_view self.new) }
        ensures ready { IsTrue result → IsReady (sender_view self.new) }
        ensures full { IsFalse result → HasBytes (sender_view self.old).end.work × (sender_view self.new ≡ sender_view self.old) }
    {
        let Some(item) = self.hand else {
            return true;
        };
        if !self.end.write(&item) {
            return false;
        }
        self.hand = None;
        true
    }

    // Sees to it that nothing is in hand and that a packet is being filled.
    fn prepare(&mut self) -> bool
        ensures sends { Sends (sender_view self.old) (sender_view self.new) }
        ensures ready { IsTrue result → IsReady (sender_view self.new) }
        ensures stuck { IsFalse result → IsStuck (sender_view self.new) }
    {
        if !self.begin() {
            return false;
        }
        if self.write() {
            return true;
        }
        if !self.end.push() {
            return false;
        }
        self.begin() && self.write()
    }

    // Takes an item, and answers whether there was one.
    fn take(&mut self) -> bool
        requires keeps { IsLawful (sender_view self.old) }
        requires free { (sender_view self.old).hand ≡ None }
        ensures took { IsTrue result → Takes (sender_view self.old) (sender_view self.new) }
        ensures none { IsFalse result → (sender_view self.new ≡ sender_view self.old) × HasNothing (sender_view self.new).queues }
    {
        match self.conveyor.poll() {
            Polled::Nothing => false,
            Polled::Taken(queue, item) => {
                self.hand = note(&mut self.coalescer, queue, item);
                true
            }
        }
    }

    // Pushes what is in work, if it has bytes and a slot is known to be free.
    fn flush(&mut self)
        requires free { (sender_view self.old).hand ≡ None }
        ensures sends { Sends (sender_view self.old) (sender_view self.new) }
        ensures flushed { IsFlushed (sender_view self.new) }
    {
        self.end.put_back();
        if self.end.is_working() {
            self.end.push();
        }
    }

    // Takes an item once nothing is in hand, and answers whether there was one.
    fn take_next(&mut self) -> bool
        requires keeps { IsLawful (sender_view self.old) }
        ensures went { Went (sender_view self.old) (sender_view self.new) }
        ensures took { IsTrue result → received_count (sender_view self.new).queues ≡ received_count (sender_view self.old).queues + 1 }
        ensures none { IsFalse result → Sends (sender_view self.old) (sender_view self.new) × TookNone (sender_view self.new) }
    {
        if !self.prepare() {
            return false;
        }
        if self.take() {
            return true;
        }
        self.flush();
        false
    }

    // Takes at most 64 items, and answers whether there was one.
    fn take_items(&mut self) -> bool
        requires keeps { IsLawful (sender_view self.old) }
        ensures went { Went (sender_view self.old) (sender_view self.new) }
        ensures few { received_count (sender_view self.new).queues ≤ received_count (sender_view self.old).queues + 64 }
        ensures took { IsTrue result → received_count (sender_view self.old).queues < received_count (sender_view self.new).queues }
        ensures none { IsFalse result → Sends (sender_view self.old) (sender_view self.new) × TookNone (sender_view self.new) }
    {
        if !self.take_next() {
            return false;
        }
        'items: for _taken in 1u32..64 {
            if !self.take_next() {
                return true;
            }
        }
        true
    }

    // Whether Done was pushed and every acknowledgement has come in.
    fn has_ended(&self) -> bool
        ensures { IsTrue result ↔ SenderHasEnded (sender_view self.now) }
    {
        let counts = self.end.counts();
        self.conveyor.all_done()
            && self.hand.is_none()
            && !self.end.is_working()
            && counts.acked == counts.sent
    }

    /// Takes the acknowledgements that are known, then at most 64 items, and sends what fills packets; and what it holds
    /// once no more items are known.
    pub fn turn(&mut self) -> Progress
        requires keeps { IsLawful (sender_view self.old) }
        ensures keeps { Goes (sender_view self.old) (sender_view self.new) }
        ensures lawful { IsLawful (sender_view self.new) }
        ensures turned { SenderTurned (sender_view self.old) (sender_view self.new) }
        ensures few { received_count (sender_view self.new).queues ≤ received_count (sender_view self.old).queues + 64 }
        ensures bounded { IsBounded (sender_view self.new).end }
        ensures done { result ≡ progress.Done → SenderHasEnded (sender_view self.old) × (self.new ≡ self.old) }
        ensures after { SenderHasEnded (sender_view self.old) → result ≡ progress.Done }
        ensures moved { result ≡ progress.Moved → move_count (sender_view self.old) < move_count (sender_view self.new) }
        ensures same { result ≡ progress.Idle → Stays (sender_view self.old) (sender_view self.new) }
        ensures still { result ≡ progress.Idle → SenderIsStill (sender_view self.old) (sender_view self.new) }
        ensures idle { result ≡ progress.Idle → SenderRests (sender_view self.new) }
    {
        if self.has_ended() {
            return Progress::Done;
        }
        let acked = self.end.take_acks();
        let free = self.end.free();
        let took = self.take_items();
        self.end.put_back();
        let left = self.end.free();
        let moved = acked | took | (left < free);
        if moved {
            Progress::Moved
        } else {
            Progress::Idle
        }
    }

    /// A law for proofs above: of all that the sender passed on, Done stands nowhere but at the end, and there exactly where
    /// every queue is done. The call does nothing.
    pub fn law_done_last(&self)
        ensures { SendsDoneLast (sender_view self.now) }
    {}
}
