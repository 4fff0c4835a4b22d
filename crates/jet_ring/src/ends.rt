// The two ends of a ring. The sender counts the free slots that it knows of itself, and a meeting alone raises that
// count; so an offer succeeds exactly where the count is above zero, whatever the receiver does meanwhile.
ghost use Rattle.std.specs.Prelude.{◌≤◌};
ghost use Rattle.rtrb.specs.Ring.{known_free as producer_free, producer_capacity};

use rtrb::{Consumer, Producer};

/// The end that sends.
#[derive(Drop)]
pub struct Tx<T> {
    producer: Producer<T>,
    // How many items may be sent before the next meeting. A meeting sets it, and each item sent lessens it by one.
    free: usize,
    ghost slots: { (2 ≤ producer_capacity producer) × (producer_capacity producer ≤ 65536) },
    ghost room: { free ≤ producer_free producer },
}

/// The end that receives.
#[derive(Drop)]
pub struct Rx<T> {
    consumer: Consumer<T>,
}

impl<T> Tx<T> {
    ghost use Rattle.std.specs.Prelude.{◌≡◌, ◌≤◌, ◌+◌, [], ◌∷◌, ◌++◌, length, ◌↔◌, OnOk, IfErr, IsErr, IsTrue, IsFalse};
    ghost use Rattle.rtrb.specs.Ring.{known_free as producer_free, producer_capacity};
    ghost use Rattle.jet_ring.specs.Ring.{sent, known_free, reach, received, known_items, tx_ring, rx_ring, tx_cap, IsPair};
    ghost use mathlib.Core.List.{IsPrefix};

    pub(crate) fn new(producer: Producer<T>, cap: usize) -> Tx<T>
        requires { (2 ≤ cap) × (cap ≤ 65536) × (producer_capacity producer ≡ cap) × (producer_free producer ≡ cap) }
        ensures { (result.producer ≡ producer) × (result.free ≡ cap) }
    {
        Tx {
            producer,
            free: cap,
        }
    }

    /// How many items may be sent before the next meeting.
    pub fn free(&self) -> usize
        ensures { result ≡ known_free self.now }
    {
        self.free
    }

    /// Sends the item, or gives it back where no slot is known to be free. The receiver may have freed one since.
    pub fn offer(&mut self, item: T) -> Result<(), T>
        ensures ring { tx_ring self.new ≡ tx_ring self.old }
        ensures sent { OnOk result (sent self.new ≡ sent self.old ++ item ∷ []) }
        ensures back { IfErr result (λ e. (e ≡ item) × (sent self.new ≡ sent self.old)) }
        ensures cause { IsErr result ↔ (known_free self.old ≡ 0) }
        ensures reach { reach self.new ≡ reach self.old }
    {
        if self.free == 0 {
            return Err(item);
        }
        self.producer.push_reserved(item);
        self.free -= 1;
        Ok(())
    }

    /// Sends a copy of the item, and answers whether a slot was known to be free for it. The item is lent, and copied
    /// once, into its slot.
    pub fn put(&mut self, item: &T) -> bool
    where
        T: Copy,
        ensures ring { tx_ring self.new ≡ tx_ring self.old }
        ensures sent { IsTrue result → sent self.new ≡ sent self.old ++ item.now ∷ [] }
        ensures kept { IsFalse result → self.new ≡ self.old }
        ensures cause { IsFalse result ↔ (known_free self.old ≡ 0) }
        ensures reach { reach self.new ≡ reach self.old }
    {
        let fits = self.free > 0;
        if fits {
            self.producer.push_reserved(*item);
            self.free -= 1;
        }
        fits
    }

    // The sender looks first and keeps what it saw, since the receiver's look may tell its producer of more.
    pub(crate) fn meet(&mut self, rx: &mut Rx<T>)
        requires { IsPair self.old rx.old }
        ensures tx_ring { tx_ring self.new ≡ tx_ring self.old }
        ensures rx_ring { rx_ring rx.new ≡ rx_ring rx.old }
        ensures sent { sent self.new ≡ sent self.old }
        ensures received { received rx.new ≡ received rx.old }
        ensures all { received rx.new ++ known_items rx.new ≡ sent self.new }
        ensures free { known_free self.new + length (known_items rx.new) ≡ tx_cap self.new }
        ensures slots { (2 ≤ tx_cap self.new) × (tx_cap self.new ≤ 65536) }
        ensures known { IsPrefix (known_items rx.old) (known_items rx.new) }
        ensures reach { reach self.old ≤ reach self.new }
    {
        let free = self.producer.slots_beside(&mut rx.consumer);
        self.free = free;
        rx.consumer.slots_beside(&mut self.producer);
    }
}

impl<T> Rx<T> {
    ghost use Rattle.std.specs.Prelude.{◌≡◌, ◌<◌, ◌↔◌, [], ◌∷◌, ◌++◌, length, IfSome, IfNone, IsTrue, IsFalse};
    ghost use Rattle.jet_ring.specs.Ring.{received, known_items, seen, rx_ring};
    ghost use mathlib.Core.List.{IsPrefix};

    pub(crate) fn new(consumer: Consumer<T>) -> Rx<T>
        ensures { result.consumer ≡ consumer }
    {
        Rx { consumer }
    }

    /// Takes the oldest item. Nothing comes only where no item is known. Then an item that was sent since the last
    /// meeting may come, or none: that it is found before the next meeting is not promised.
    pub fn take(&mut self) -> Option<T>
        ensures ring { rx_ring self.new ≡ rx_ring self.old }
        ensures taken { IfSome result (λ x. received self.new ≡ received self.old ++ x ∷ []) }
        ensures oldest { IfSome result (λ x. IsPrefix (known_items self.old) (x ∷ known_items self.new)) }
        ensures none { IfNone result ((received self.new ≡ received self.old) × (known_items self.new ≡ [])) }
        ensures cause { IfNone result (known_items self.old ≡ []) }
        ensures seen { IsPrefix (seen self.old) (seen self.new) }
    {
        self.consumer.pop().ok()
    }

    /// Whether an item is known. Where none was, the receiver looks at the other end, and may find what was sent since
    /// the last meeting, or not yet.
    pub fn has_item(&mut self) -> bool
        ensures ring { rx_ring self.new ≡ rx_ring self.old }
        ensures received { received self.new ≡ received self.old }
        ensures known { IsPrefix (known_items self.old) (known_items self.new) }
        ensures answer { IsTrue result ↔ (0 < length (known_items self.new)) }
        ensures none { IsFalse result → (known_items self.new ≡ []) × (known_items self.old ≡ []) }
    {
        !self.consumer.is_empty()
    }

    /// The oldest item, which stays in its slot: the next that `take` gives or `skip` drops.
    pub fn front(&self) -> &T
        requires { 0 < length (known_items self.now) }
        ensures { IsPrefix (result.now ∷ []) (known_items self.now) }
    {
        self.consumer.peek_known()
    }

    /// Takes the oldest item and drops it, once it was looked at in its slot.
    pub fn skip(&mut self)
    where
        T: Drop,
        requires { 0 < length (known_items self.old) }
        ensures ring { rx_ring self.new ≡ rx_ring self.old }
        ensures taken { (x : T) → IsPrefix (x ∷ []) (known_items self.old) → received self.new ≡ received self.old ++ x ∷ [] }
        ensures known { (x : T) → IsPrefix (x ∷ []) (known_items self.old) → known_items self.old ≡ x ∷ known_items self.new }
    {
        let _ = self.consumer.pop_known();
    }
}
