// Which of its giver's destinations, and which of its taker's queues, each ring is.
ghost use Rattle.std.specs.Prelude.{◌≡◌, ◌≤◌, length, IfOk};
ghost use Rattle.jet_harness.specs.Channels.{channels};
ghost use Rattle.jet_harness.specs.Places.{place_at_giver, place_at_taker};

use crate::channel::{same_giver, same_taker};
use crate::{Channel, Giver};
use jet_items::NoMemory;
use jet_layout::{Layout, Taker};
use std::alloc::Global;

/// The rings of a layout: those of its wires, and then those of its files.
pub fn channels(alloc: Global, layout: &Layout) -> Result<Vec<Channel>, NoMemory>
    ensures { IfOk result (λ cs. cs.items ≡ channels layout.now) }
{
    let mut channels = Vec::new(alloc);
    for wire in layout.wires.items() {
        channels.push(Channel::of_wire(*wire))?;
    }
    for port in layout.files.items() {
        channels.push(Channel::of_file(*port))?;
    }
    Ok(channels)
}

/// How many of the first `number` rings have this giver.
pub fn place_at_giver(channels: &[Channel], number: usize, giver: Giver) -> usize
    ensures place { result ≡ place_at_giver channels.now number giver }
    ensures bound { result ≤ length channels.now }
{
    channels
        .iter()
        .take(number)
        .filter(|c| same_giver(giver, c.giver))
        .count()
}

/// How many of the first `number` rings have this taker.
pub fn place_at_taker(channels: &[Channel], number: usize, taker: Taker) -> usize
    ensures place { result ≡ place_at_taker channels.now number taker }
    ensures bound { result ≤ length channels.now }
{
    channels
        .iter()
        .take(number)
        .filter(|c| same_taker(taker, c.taker))
        .count()
}
