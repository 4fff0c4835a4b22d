// Which places the ends of a ring have.
ghost use Rattle.std.specs.Prelude.{◌≡◌, ℕ, ◌<◌, List, Some, length, slice_get};
ghost use Rattle.jet_ring.specs.Ring.{Ring};
ghost use Rattle.jet_layout.specs.declared.wire.Taker.{Taker};
ghost use Rattle.jet_harness.specs.declared.channel.Channel.{Channel};
ghost use Rattle.jet_harness.specs.declared.channel.Giver.{Giver};
ghost use Rattle.jet_harness.specs.Harness.{txs_of, rxs_of, Joins};
ghost use Rattle.jet_harness.specs.Places.{IsPlaced, IsOneAtGiver, IsOneAtTaker, place_at_giver, place_at_taker};

use crate::Harness;

/// A law: the ring of each channel joins its giver and its taker. The destination of the giver that it is counts the
/// channels before it that have this giver, and the queue of the taker that it is those that have this taker.
pub fn every_ring_joins_its_two(harness: &Harness)
    ensures { (channels : List Channel) → (capacity : ℕ) → (rings : List Ring) → Joins channels capacity rings harness.now
        → (n : ℕ) → (c : Channel) → slice_get channels n ≡ Some c
        → (r : Ring) × (slice_get rings n ≡ Some r) × (r.cap ≡ capacity) × IsPlaced channels harness.now n c r }
{
    let _harness = harness;
}

/// A law: each end that is there for a giver, or for a taker, is of the ring of exactly one channel; and so there are as many as
/// channels.
pub fn every_end_is_of_one_ring(harness: &Harness)
    ensures givers { (channels : List Channel) → (capacity : ℕ) → (rings : List Ring) → Joins channels capacity rings harness.now
        → (g : Giver) → (d : ℕ) → d < length (txs_of harness.now g) → (n : ℕ) × IsOneAtGiver channels g d n }
    ensures takers { (channels : List Channel) → (capacity : ℕ) → (rings : List Ring) → Joins channels capacity rings harness.now
        → (t : Taker) → (q : ℕ) → q < length (rxs_of harness.now t) → (n : ℕ) × IsOneAtTaker channels t q n }
    ensures sends { (channels : List Channel) → (capacity : ℕ) → (rings : List Ring) → Joins channels capacity rings harness.now
        → (g : Giver) → length (txs_of harness.now g) ≡ place_at_giver channels (length channels) g }
    ensures receives { (channels : List Channel) → (capacity : ℕ) → (rings : List Ring) → Joins channels capacity rings harness.now
        → (t : Taker) → length (rxs_of harness.now t) ≡ place_at_taker channels (length channels) t }
{
    let _harness = harness;
}
