// What passes through the ring of packets.
ghost use Rattle.std.specs.Prelude.{◌≤◌, length};
ghost use Rattle.jet_spell.specs.Packets.{IsSpelled};

use jet_pool::Buf;

/// The bytes of one or more items, in a buffer of the link's stock.
#[derive(Drop)]
pub struct Packet {
    pub(crate) buf: Buf,
    pub ghost some: { 1 ≤ length buf.bytes },
    pub ghost small: { length buf.bytes ≤ 65536 },
    pub ghost spelled: { IsSpelled buf.bytes },
}

impl Packet {
    ghost use Rattle.std.specs.Prelude.{◌≡◌, ◌≤◌, length};

    pub(crate) fn new(buf: Buf) -> Packet
        requires size { (1 ≤ length buf.bytes) × (length buf.bytes ≤ 65536) }
        requires spelled { IsSpelled buf.bytes }
        ensures { result.buf ≡ buf }
    {
        Packet { buf }
    }
}
