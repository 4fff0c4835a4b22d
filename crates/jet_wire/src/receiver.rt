// A receiver works at one packet at a time, and at one a turn: it gives the items of the packet to its router, from the
// place that it has reached, and acknowledges the packet once all of them were given.

use crate::Progress;
use jet_items::Item;
use jet_link::RecvEnd;
use jet_router::{Given, Router};
use jet_spell::{one_spelling, read_item, spellings_are_short};

/// Gives the items that come over a link to its router.
#[derive(Drop)]
pub struct Receiver {
    pub(crate) end: RecvEnd,
    pub(crate) router: Router,
    // How many bytes of the packet in hand were given.
    at: usize,
    // Whether Done was given.
    ended: bool,
}

impl Receiver {
    ghost use Rattle.std.specs.Prelude.{◌≡◌, ◌↔◌, ◌⊎◌, ◌<◌, ◌≤◌, ◌+◌, true, false, [], None, length, IsTrue, IsFalse, IsSome, IsNone, IfSome, IfNone};
    ghost use Rattle.std.specs.Prelude.{ℕ, List, ◌*◌};
    ghost use Rattle.jet_items.specs.declared.item.Item.{Item};
    ghost use Rattle.jet_spell.specs.Begins.{BeginsWith};
    ghost use Rattle.jet_spell.specs.Packets.{IsSpelled};
    ghost use Rattle.jet_router.specs.Router.{view as routes_view};
    ghost use Rattle.jet_link.specs.Receiving.{IsGranted, held_bytes};
    ghost use Rattle.jet_link.specs.Meeting.{IsNewRecv};
    ghost use Rattle.jet_link.specs.Views.{recv_view};
    ghost use Rattle.jet_wire.specs.Receiver.{receiver_view, bytes_left, ReceiverKeeps, ReceiverIsLawful, ReceiverStays, Gives, IsPaced, IsUnsent};
    ghost use Rattle.jet_wire.specs.ReceiverSteps.{Deals, IsOwed, Receives, IsUnmoved, CountsBytes, MayAck};
    ghost use Rattle.jet_wire.specs.ReceiverTurn.{ReceiverTurned, CountsTurn, Offers, moved_count, ReceiverIsFull, ReceiverIsStarved, IsUnloaded, ReceiverIsStill, ReceiverHasEnded, ReceiverRests};
    ghost use Rattle.jet_wire.specs.declared.progress.Progress.TheVariants as progress;

    /// A receiver that has received nothing, over the end of a new link and a router that has sent nothing.
    pub fn new(end: RecvEnd, router: Router) -> Receiver
        requires new { IsNewRecv (recv_view end).shape (recv_view end) }
        requires unsent { IsUnsent (routes_view router) }
        ensures keeps { ReceiverKeeps (receiver_view result) [] }
        ensures paced { IsPaced (receiver_view result) }
        ensures end { (receiver_view result).end ≡ recv_view end }
        ensures router { (receiver_view result).router ≡ routes_view router }
    {
        Receiver {
            end,
            router,
            at: 0,
            ended: false,
        }
    }

    /// How far the next offer goes ahead of the bytes processed.
    pub fn grant(&self) -> u32
        ensures value { result ≡ (receiver_view self.now).end.grant }
        ensures granted { IsGranted (receiver_view self.now).end }
    {
        self.end.grant()
    }

    // Takes the next packet in hand, where none is and one is known.
    fn receive(&mut self) -> bool
        ensures receives { Receives (receiver_view self.old) (receiver_view self.new) }
        ensures paced { IsPaced (receiver_view self.old) → IsPaced (receiver_view self.new) }
        ensures received { IsTrue result → length (receiver_view self.old).end.packets.received < length (receiver_view self.new).end.packets.received }
        ensures counts { CountsBytes (receiver_view self.old).end (receiver_view self.new).end }
        ensures same { IsFalse result → receiver_view self.new ≡ receiver_view self.old }
        ensures none { IsFalse result → IsSome (receiver_view self.new).end.held ⊎ ReceiverIsStarved (receiver_view self.new) }
    {
        spellings_are_short();
        if self.end.holds() {
            return false;
        }
        self.end.receive()
    }

    // The next item of the packet in hand, and how many bytes it has.
    fn next(&self) -> Option<(Item, usize)>
        requires inside { (receiver_view self.now).at ≤ length (held_bytes (receiver_view self.now).end.held) }
        requires spelled { IsSpelled (bytes_left (receiver_view self.now)) }
        ensures next { IfSome result (λ r. BeginsWith r.0 r.1 (bytes_left (receiver_view self.now))) }
        ensures none { IfNone result (bytes_left (receiver_view self.now) ≡ []) }
    {
        read_item(&self.end.bytes()[self.at..])
    }

    // Gives the next item of the packet in hand to the router, and answers whether it was given whole.
    fn give(&mut self) -> bool
        requires keeps { (given : List Item) × ReceiverKeeps (receiver_view self.old) given }
        ensures deals { Deals (receiver_view self.old) (receiver_view self.new) }
        ensures fewer { IsTrue result → length (bytes_left (receiver_view self.new)) < length (bytes_left (receiver_view self.old)) }
        ensures stuck { IsFalse result → (bytes_left (receiver_view self.new) ≡ []) ⊎ IsOwed (receiver_view self.new) }
    {
        one_spelling();
        spellings_are_short();
        let Some((item, len)) = self.next() else {
            return false;
        };
        match self.router.give(&item) {
            Given::Again => false,
            Given::All => {
                self.at += len;
                self.ended = self.ended | item.is_done();
                true
            }
        }
    }

    // Gives the items of the packet in hand, as far as they go.
    fn unload(&mut self)
        requires keeps { (given : List Item) × ReceiverKeeps (receiver_view self.old) given }
        ensures deals { Deals (receiver_view self.old) (receiver_view self.new) }
        ensures stuck { (bytes_left (receiver_view self.new) ≡ []) ⊎ IsOwed (receiver_view self.new) }
    {
        while self.give() {}
    }

    // Counts the packet in hand where all its items were given.
    fn finish(&mut self)
        requires paced { IsPaced (receiver_view self.old) }
        ensures receives { Receives (receiver_view self.old) (receiver_view self.new) }
        ensures paced { (receiver_view self.new).end.part ≤ (receiver_view self.new).end.turns * 65536 + 65536 }
        ensures counts { CountsBytes (receiver_view self.old).end (receiver_view self.new).end }
        ensures still { IsUnmoved (receiver_view self.old) (receiver_view self.new) }
        ensures whole { IsSome (receiver_view self.old).end.held → bytes_left (receiver_view self.old) ≡ [] → (receiver_view self.new).end.whole ≡ true }
    {
        if self.end.is_whole() || !self.end.holds() {
            return;
        }
        if self.at >= self.end.bytes().len() {
            self.end.finish();
        }
    }

    // Acknowledges the packet in hand where all its items were given and a slot is known to be free.
    fn acknowledge(&mut self) -> bool
        ensures receives { Receives (receiver_view self.old) (receiver_view self.new) }
        ensures acks { MayAck (receiver_view self.old).end (receiver_view self.new).end }
        ensures acked { IsTrue result → length (receiver_view self.old).end.acks.sent < length (receiver_view self.new).end.acks.sent }
        ensures empty { IsTrue result → (receiver_view self.new).end.held ≡ None }
        ensures still { IsFalse result → IsUnmoved (receiver_view self.old) (receiver_view self.new) }
        ensures full { IsFalse result → (receiver_view self.old).end.whole ≡ true → ReceiverIsFull (receiver_view self.new) }
    {
        spellings_are_short();
        if !self.end.is_whole() {
            return false;
        }
        if !self.end.acknowledge() {
            return false;
        }
        self.at = 0;
        true
    }

    // Counts and acknowledges the packet in hand where all its items were given, and ends the turn. Answers whether the
    // packet was acknowledged.
    fn settle(&mut self) -> bool
        requires paced { IsPaced (receiver_view self.old) }
        ensures receives { Receives (receiver_view self.old) (receiver_view self.new) }
        ensures paced { IsPaced (receiver_view self.new) }
        ensures granted { IsGranted (receiver_view self.new).end }
        ensures counted { CountsTurn (receiver_view self.old).end (receiver_view self.new).end }
        ensures offers { Offers (receiver_view self.old).end (receiver_view self.new).end }
        ensures acked { IsTrue result → length (receiver_view self.old).end.acks.sent < length (receiver_view self.new).end.acks.sent }
        ensures empty { IsTrue result → (receiver_view self.new).end.held ≡ None }
        ensures still { IsFalse result → IsUnmoved (receiver_view self.old) (receiver_view self.new) }
        ensures full { IsFalse result → IsSome (receiver_view self.old).end.held → bytes_left (receiver_view self.old) ≡ [] → ReceiverIsFull (receiver_view self.new) }
    {
        self.finish();
        let acked = self.acknowledge();
        self.end.end_turn();
        acked
    }

    // Whether Done was given, and its packet acknowledged.
    fn has_ended(&self) -> bool
        ensures { IsTrue result ↔ ReceiverHasEnded (receiver_view self.now) }
    {
        self.ended && !self.end.holds()
    }

    /// Gives the items of a packet to the router, as far as they go, and counts and acknowledges the packet once all were
    /// given.
    pub fn turn(&mut self) -> Progress
        requires keeps { ReceiverIsLawful (receiver_view self.old) }
        ensures keeps { Gives (receiver_view self.old) (receiver_view self.new) }
        ensures lawful { ReceiverIsLawful (receiver_view self.new) }
        ensures paced { IsPaced (receiver_view self.new) }
        ensures turned { ReceiverTurned (receiver_view self.old) (receiver_view self.new) }
        ensures granted { (result ≡ progress.Done → ⊥) → IsGranted (receiver_view self.new).end }
        ensures counted { (result ≡ progress.Done → ⊥) → CountsTurn (receiver_view self.old).end (receiver_view self.new).end }
        ensures offers { (result ≡ progress.Done → ⊥) → Offers (receiver_view self.old).end (receiver_view self.new).end }
        ensures unloaded { IsUnloaded (receiver_view self.new) }
        ensures done { result ≡ progress.Done → ReceiverHasEnded (receiver_view self.old) × (self.new ≡ self.old) }
        ensures after { ReceiverHasEnded (receiver_view self.old) → result ≡ progress.Done }
        ensures moved { result ≡ progress.Moved → moved_count (receiver_view self.old) < moved_count (receiver_view self.new) }
        ensures same { result ≡ progress.Idle → ReceiverStays (receiver_view self.old) (receiver_view self.new) }
        ensures still { result ≡ progress.Idle → ReceiverIsStill (receiver_view self.old) (receiver_view self.new) }
        ensures idle { result ≡ progress.Idle → ReceiverRests (receiver_view self.new) }
    {
        if self.has_ended() {
            return Progress::Done;
        }
        let received = self.receive();
        let free = self.router.free();
        self.unload();
        let left = self.router.free();
        let acked = self.settle();
        let moved = received | acked | (left < free);
        if moved {
            Progress::Moved
        } else {
            Progress::Idle
        }
    }
}
