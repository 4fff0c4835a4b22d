// A conveyor goes round its queues: from the cursor to the last queue, and then from queue 0 to the cursor. The cursor
// stands after the queue that was last taken from, and may stand at the number of queues.
ghost use Rattle.std.specs.Prelude.{◌≡◌, ◌≤◌, ◌<◌, ◌-◌, ◌^◌, not, cond, vec_len, count_by};

use jet_items::{Item, NoMemory};
use jet_ring::{Rx, Tx, refresh};
use std::alloc::Global;

/// What a poll gave.
#[derive(Clone, Copy)]
pub enum Polled {
    /// The number of a queue, and the item that was taken from it.
    Taken(u32, Item),
    /// No item: no queue that was asked and is not done had a known one.
    Nothing,
}

/// The queues of one consumer.
#[derive(Drop)]
pub struct Conveyor {
    queues: Vec<Rx<Item>>,
    // For each queue, whether it gave `Done`.
    closed: Vec<bool>,
    // How many queues have not given `Done`, so that `all_done` looks at none of them.
    going: usize,
    // The queue that the next poll looks at first.
    next: usize,
    ghost one_each: { vec_len closed ≡ vec_len queues },
    ghost few: { vec_len queues < 2 ^ 32 },
    ghost inside: { next ≤ vec_len queues },
    ghost counted: { going ≡ count_by not closed.items },
}

impl Conveyor {
    ghost use Rattle.std.specs.Prelude.{◌≡◌, ◌≤◌, ◌<◌, ◌↔◌, ◌^◌, ◌+◌, ◌++◌, ◌⊎◌, [], ◌∷◌, map, false, true, vec_len, length, slice_get, IfOk, IsOk, IfSome, IfNone, IsTrue, IsFalse, All};
    ghost use mathlib.Core.List.{IsPrefix};
    ghost use Rattle.jet_items.specs.declared.item.Item.{Item};
    ghost use Rattle.jet_ring.specs.Ring as ring;
    ghost use Rattle.jet_conveyor.specs.Conveyor.{view, received_at, known_at, is_done_at, IsNew, HasItem, Found, TookFrom, NoneKnown, InTurn, Refreshed, SeesMore, IsClosed};
    ghost use Rattle.jet_conveyor.specs.Polled.{IfTaken, OnNothing};

    /// A conveyor over these queues, none of them done: fewer than 2^32, since a queue's number is a `u32`.
    pub fn new(alloc: Global, queues: Vec<Rx<Item>>) -> Result<Conveyor, NoMemory>
        requires { vec_len queues < 2 ^ 32 }
        ensures new { IfOk result (λ c. IsNew (view c) queues.items) }
        ensures closed { IfOk result (λ c. All (λ rx. ring.received rx ≡ []) queues.items → IsClosed (view c)) }
    {
        let closed = vec![in alloc; false; queues.len()]?;
        Ok(Conveyor {
            going: queues.len(),
            queues,
            closed,
            next: 0,
        })
    }

    /// Takes the next item of the first queue in turn that has one.
    pub fn poll(&mut self) -> Polled
        ensures taken { IfTaken result (λ q x. (q < length (view self.old).rings) × TookFrom (view self.old) (view self.new) q x) }
        ensures in_turn { IfTaken result (λ q _. InTurn (view self.old) q) }
        ensures nothing { OnNothing result (view self.new ≡ view self.old) }
        ensures cause { OnNothing result (NoneKnown (view self.old) 0 (length (view self.old).rings)) }
        ensures seen { SeesMore (view self.old) (view self.new) }
        ensures closed { IsClosed (view self.old) → IsClosed (view self.new) }
    {
        match self.find() {
            Some(queue) => Polled::Taken(queue, self.take_front(queue)),
            None => Polled::Nothing,
        }
    }

    /// Takes the next item of one queue.
    pub fn poll_of(&mut self, queue: u32) -> Polled
        requires { queue < length (view self.old).rings }
        ensures taken { IfTaken result (λ q x. (q ≡ queue) × TookFrom (view self.old) (view self.new) queue x) }
        ensures nothing { OnNothing result (view self.new ≡ view self.old) }
        ensures cause { OnNothing result ((is_done_at (view self.old) queue ≡ true) ⊎ (known_at (view self.old) queue ≡ [])) }
        ensures seen { SeesMore (view self.old) (view self.new) }
        ensures closed { IsClosed (view self.old) → IsClosed (view self.new) }
    {
        if self.look(queue as usize) {
            Polled::Taken(queue, self.take_front(queue))
        } else {
            Polled::Nothing
        }
    }

    /// Finds the first queue in turn that has an item, for `front` and `skip`. Nothing is taken, and the turn stays; the
    /// receiver looks at the other end of a queue only where it knows of no item.
    pub fn find(&mut self) -> Option<u32>
        ensures found { IfSome result (λ q. (q < length (view self.old).rings) × Found (view self.old) (view self.new) q) }
        ensures in_turn { IfSome result (λ q. InTurn (view self.old) q) }
        ensures nothing { IfNone result (view self.new ≡ view self.old) }
        ensures cause { IfNone result (NoneKnown (view self.old) 0 (length (view self.old).rings)) }
        ensures seen { SeesMore (view self.old) (view self.new) }
        ensures closed { IsClosed (view self.old) → IsClosed (view self.new) }
    {
        let next = self.next;
        let count = self.queues.len();
        match self.find_span(next, count) {
            Some(queue) => Some(queue),
            None => self.find_span(0, next),
        }
    }

    /// The next item of a queue that `find` named, lent in its slot of the ring.
    pub fn front(&self, queue: u32) -> &Item
        requires { HasItem (view self.now) queue }
        ensures { IsPrefix (result.now ∷ []) (known_at (view self.now) queue) }
    {
        self.queues[queue as usize].front()
    }

    /// Takes the next item of a queue that `find` named, and drops it.
    pub fn skip(&mut self, queue: u32)
        requires { HasItem (view self.old) queue }
        ensures taken { (x : Item) → IsPrefix (x ∷ []) (known_at (view self.old) queue) → TookFrom (view self.old) (view self.new) queue x }
        ensures seen { SeesMore (view self.old) (view self.new) }
        ensures closed { IsClosed (view self.old) → IsClosed (view self.new) }
    {
        let done = self.front(queue).is_done();
        let place = queue as usize;
        self.queues[place].skip();
        self.closed[place] = done;
        self.going = left_going(self.going, done);
        self.next = place + 1;
    }

    /// Whether every queue is done. It is so where there is none.
    pub fn all_done(&self) -> bool
        ensures { IsTrue result ↔ All (λ d. d ≡ true) (view self.now).done }
    {
        self.going == 0
    }

    /// The number of queues.
    pub fn queues(&self) -> u32
        ensures count { result ≡ length (view self.now).rings }
        ensures one_each { length (view self.now).done ≡ length (view self.now).rings }
    {
        self.queues.len() as u32
    }

    /// A meeting of the two ends of one queue's ring. It takes no memory, as `refresh`.
    pub fn refresh_queue(&mut self, queue: u32, tx: &mut Tx<Item>) -> Result<(), NoMemory>
        requires { slice_get (view self.old).rings queue ≡ Some (ring.tx_ring tx.old) }
        ensures answer { IsOk result }

        // nothing is sent or taken, and no other queue changes
        ensures view { Refreshed (view self.old) (view self.new) queue }
        ensures ring { ring.tx_ring tx.new ≡ ring.tx_ring tx.old }
        ensures sent { ring.sent tx.new ≡ ring.sent tx.old }

        // every item that was sent is received or known, and every other slot is known to be free
        ensures all { received_at (view self.new) queue ++ known_at (view self.new) queue ≡ ring.sent tx.new }
        ensures free { ring.known_free tx.new + length (known_at (view self.new) queue) ≡ ring.tx_cap tx.new }
        ensures slots { (2 ≤ ring.tx_cap tx.new) × (ring.tx_cap tx.new ≤ 65536) }

        // no end knows less than before
        ensures seen { SeesMore (view self.old) (view self.new) }
        ensures reach { ring.reach tx.old ≤ ring.reach tx.new }
    {
        refresh(tx, &mut self.queues[queue as usize])
    }

    // Takes the next item of a queue that has one.
    fn take_front(&mut self, queue: u32) -> Item
        requires { HasItem (view self.old) queue }
        ensures taken { TookFrom (view self.old) (view self.new) queue result }
        ensures seen { SeesMore (view self.old) (view self.new) }
        ensures closed { IsClosed (view self.old) → IsClosed (view self.new) }
    {
        let item = *self.front(queue);
        self.skip(queue);
        item
    }

    // Whether a queue is not done and has an item.
    fn look(&mut self, queue: usize) -> bool
        requires { queue < length (view self.old).rings }
        ensures found { IsTrue result → Found (view self.old) (view self.new) queue }
        ensures nothing { IsFalse result → view self.new ≡ view self.old }
        ensures cause { IsFalse result → (is_done_at (view self.old) queue ≡ true) ⊎ (known_at (view self.old) queue ≡ []) }
    {
        !self.closed[queue] && self.queues[queue].has_item()
    }

    // Finds the first queue of a span that has an item.
    fn find_span(&mut self, from: usize, to: usize) -> Option<u32>
        requires { to ≤ length (view self.old).rings }
        ensures found { IfSome result (λ q. (from ≤ q) × (q < to) × Found (view self.old) (view self.new) q × NoneKnown (view self.old) from q) }
        ensures nothing { IfNone result ((view self.new ≡ view self.old) × NoneKnown (view self.old) from to) }
    {
        for queue in from..to {
            if self.look(queue) {
                return Some(queue as u32);
            }
        }
        None
    }
}

// How many queues are going after an item of one, which ends that queue or not.
fn left_going(going: usize, done: bool) -> usize
    requires { 0 < going }
    ensures { result ≡ cond done (going - 1) going }
{
    if done { going - 1 } else { going }
}
