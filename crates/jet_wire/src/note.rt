// What is passed on of an item that came.
ghost use Rattle.std.specs.Prelude.{◌≡◌, ◌<◌, false, length};
ghost use Rattle.jet_coalescer.specs.Queues.{is_done_at};
ghost use Rattle.jet_wire.specs.Noting.{items_in, Passes};
ghost use Rattle.jet_wire.specs.Passing.{mark_items, change_items};

use jet_coalescer::{Change, Coalescer};
use jet_items::{Item, Mark};

fn risen(mark: Option<Mark>) -> Option<Item>
    ensures { items_in result ≡ mark_items mark }
{
    match mark {
        Some(mark) => Some(Item::Mark(mark)),
        None => None,
    }
}

fn changed(change: Change) -> Option<Item>
    ensures { items_in result ≡ change_items change }
{
    match change {
        Change::Unchanged => None,
        Change::Raised(mark) => Some(Item::Mark(mark)),
        Change::AllDone => Some(Item::Done),
    }
}

/// Takes note of an item of a queue, and answers what is passed on of it: data as it is, of a mark or a Done the watermark
/// that rose with it, and of the last Done that.
pub(crate) fn note(coalescer: &mut Coalescer, queue: u32, item: Item) -> Option<Item>
    requires exists { queue < length coalescer.old.queues }
    requires open { is_done_at coalescer.old queue ≡ false }
    ensures { Passes coalescer.old coalescer.new (record { queue = queue; item = item }) result }
{
    match item {
        Item::Mark(mark) => risen(coalescer.observe(queue, mark)),
        Item::Done => changed(coalescer.done(queue)),
        _ => Some(item),
    }
}
