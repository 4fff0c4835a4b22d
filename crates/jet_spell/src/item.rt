// An item written behind other bytes, and the item that bytes begin with.
ghost use Rattle.std.specs.Prelude.{◌≡◌, ◌+◌, ◌<◌, ◌≤◌, ◌↔◌, ◌++◌, drop, length, IsTrue, MatchOption, IfSome, IfNone};
ghost use Rattle.std.specs.Option.{IsSomeAnd};
ghost use Rattle.std.specs.Bool.{OnTrue, OnFalse};
ghost use Rattle.jet_items.specs.Fits.{ItemFits};
ghost use Rattle.jet_spell.specs.Packets.{IsSpelled};
ghost use Rattle.jet_spell.specs.Reading.{item_at};
ghost use Rattle.jet_spell.specs.Spelling.{spelling};
ghost use Rattle.jet_spell.specs.Begins.{BeginsWith, BeginsNone};

use crate::reader::Reader;
use crate::writer::Writer;
use jet_items::Item;
use jet_pool::Buf;

/// Appends the spelling of the item where it fits, all or nothing. It takes no memory.
pub fn write_item(item: &Item, buf: &mut Buf) -> bool
    ensures fits { IsTrue result ↔ (length buf.old.bytes + length (spelling item.now) ≤ buf.old.room) }
    ensures written { OnTrue result (buf.new ≡ record buf.old { bytes = buf.old.bytes ++ spelling item.now }) }
    ensures full { OnFalse result (buf.new ≡ buf.old) }
    ensures ranges { ItemFits item.now }
    ensures list { IsSpelled buf.old.bytes → IsSpelled buf.new.bytes }
{
    item.fits();
    buf.push(Writer::spelling(item).bytes())
}

/// The item whose spelling the bytes begin with, and the length of that spelling.
pub fn read_item(bytes: &[u8]) -> Option<(Item, usize)>
    ensures item { MatchOption result (item_at bytes.now ≡ None) (λ r. item_at bytes.now ≡ Some (r.0, drop r.1 bytes.now)) }
    ensures spelled { IfSome result (λ r. BeginsWith r.0 r.1 bytes.now) }
    ensures bounds { IfSome result (λ r. (0 < r.1) × (r.1 ≤ length bytes.now)) }
    ensures none { IfNone result (BeginsNone bytes.now) }
    ensures goes_on { IsSpelled bytes.now → 0 < length bytes.now → IsSomeAnd result (λ r. IsSpelled (drop r.1 bytes.now)) }
{
    let mut reader = Reader::new(bytes);
    let item = reader.item()?;
    Some((item, bytes.len() - reader.left()))
}
