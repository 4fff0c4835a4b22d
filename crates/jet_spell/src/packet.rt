// Packets: the spellings of one or more items, one after another.
ghost use Rattle.std.specs.Prelude.{◌<◌, ◌^◌, length, IfOk, IfErr};
ghost use Rattle.jet_spell.specs.Begins.{IsLongest};
ghost use Rattle.jet_spell.specs.Packets.{AreSpelled, IsPacket};
ghost use Rattle.jet_spell.specs.Refusals.{HasCause};

use crate::item::read_item;
use jet_items::{Item, NoMemory, Refused};
use std::alloc::Global;
use thiserror::Error;

/// Why bytes are no packet.
#[derive(Clone, Copy, Debug, PartialEq, Eq, Error)]
pub enum PacketFault {
    /// There are no bytes, or they are no list of whole spellings; the longest prefix that is one ends here.
    #[error("the bytes from {0} on are no items")]
    Malformed(u32),
}

/// The items of a packet. The bytes are fewer than 2^32, as those of every packet are.
pub fn read_packet(alloc: Global, bytes: &[u8]) -> Result<Vec<Item>, Refused<PacketFault>>
    requires { length bytes.now < 2 ^ 32 }
    ensures items { IfOk result (λ items. IsPacket bytes.now × AreSpelled items.items bytes.now) }
    ensures cause { IfErr result (HasCause bytes.now) }
{
    let (items, at) = whole_items(alloc, bytes)?;
    if at == 0 || at < bytes.len() {
        return Err(Refused::Fault(PacketFault::Malformed(at as u32)));
    }
    Ok(items)
}

// The items that the bytes begin with, as many as there are, and the length of their spellings.
fn whole_items(alloc: Global, bytes: &[u8]) -> Result<(Vec<Item>, usize), NoMemory>
    ensures { IfOk result (λ r. IsLongest r.0.items r.1 bytes.now) }
{
    let mut items = Vec::new(alloc);
    let mut at = 0;
    while let Some((item, len)) = read_item(&bytes[at..]) {
        items.push(item)?;
        at += len;
    }
    Ok((items, at))
}
