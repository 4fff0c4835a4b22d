//! Bounded rings from one sender to one receiver, over `rtrb`.
//!
//! A ring has two ends, `Tx` and `Rx`, and each may live on a thread of its own. No call waits for the other end.
//! Once both ends are in one thread again, `refresh` makes them meet: then the sender knows every free slot and the
//! receiver every item. What an end knew at a meeting stays true until its own calls use it up.
#![tactic(auto)]

ghost use Rattle.std.specs.Prelude.{◌≡◌, ◌≤◌, ◌+◌, ◌++◌, [], length, IfOk, IsOk};
ghost use Rattle.jet_ring.specs.Ring.{sent, known_free, reach, received, known_items, seen, tx_ring, rx_ring, tx_cap, rx_cap, IsPair};
ghost use mathlib.Core.List.{IsPrefix};

mod ends;

pub use ends::{Rx, Tx};
use jet_items::NoMemory;
use rtrb::RingBuffer;
use std::alloc::Global;

/// A ring with `cap` slots, 2 to 65536. With one slot no item would fit behind a mark before the next meeting; and no
/// job takes the memory of more than 65536 slots for one ring. This is the only call of the crate that takes memory.
pub fn ring<T: Send + Drop>(alloc: Global, cap: usize) -> Result<(Tx<T>, Rx<T>), NoMemory>
    requires { (2 ≤ cap) × (cap ≤ 65536) }
    ensures pair { IfOk result (λ r. IsPair r.0 r.1) }
    ensures cap { IfOk result (λ r. (tx_cap r.0 ≡ cap) × (rx_cap r.1 ≡ cap)) }
    ensures sender { IfOk result (λ r. (sent r.0 ≡ []) × (known_free r.0 ≡ cap)) }
    ensures receiver { IfOk result (λ r. (received r.1 ≡ []) × (known_items r.1 ≡ [])) }
{
    let (producer, consumer) = RingBuffer::new(alloc, cap)?;
    Ok((Tx::new(producer, cap), Rx::new(consumer)))
}

/// A meeting of the two ends of one ring, in one thread. It takes no memory and always succeeds.
pub fn refresh<T>(tx: &mut Tx<T>, rx: &mut Rx<T>) -> Result<(), NoMemory>
    requires { IsPair tx.old rx.old }
    ensures answer { IsOk result }

    // nothing is sent or received, and each end stays an end of its ring
    ensures tx_ring { tx_ring tx.new ≡ tx_ring tx.old }
    ensures rx_ring { rx_ring rx.new ≡ rx_ring rx.old }
    ensures sent { sent tx.new ≡ sent tx.old }
    ensures received { received rx.new ≡ received rx.old }

    // every item that was sent is received or known, and every other slot is known to be free
    ensures all { received rx.new ++ known_items rx.new ≡ sent tx.new }
    ensures free { known_free tx.new + length (known_items rx.new) ≡ tx_cap tx.new }
    ensures slots { (2 ≤ tx_cap tx.new) × (tx_cap tx.new ≤ 65536) }

    // no end knows less than before
    ensures seen { IsPrefix (seen rx.old) (seen rx.new) }
    ensures reach { reach tx.old ≤ reach tx.new }
{
    tx.meet(rx);
    Ok(())
}

#[cfg(test)]
mod tests;
