// Where an item goes. Data goes by the route; a mark and Done go to each destination.
ghost use Rattle.std.specs.Prelude.{◌≡◌, ℕ, List, None, length, option_map, IsTrue, IsFalse, IsSome};
ghost use Rattle.jet_items.specs.Partition.{item_key, key_partition};
ghost use Rattle.jet_router.specs.Aim.{aim_of};
ghost use Rattle.jet_router.specs.declared.aim.Aim.TheVariants.{Each};

use jet_items::{Item, partition_of};

/// How data is routed.
#[derive(Clone, Copy)]
pub(crate) enum Route {
    /// To one destination that takes it.
    Unicast,
    /// To each destination.
    Broadcast,
    /// To the destination of its key's partition.
    Partitioned,
}

/// Where an item goes.
#[derive(Clone, Copy)]
pub enum Aim {
    /// To each destination.
    Each,
    /// To any one destination that takes it.
    Any,
    /// To the destination of this number.
    Only(usize),
}

// The partition of a data item: that of its key, and 0 where it has none.
fn partition_for(item: &Item) -> Option<u32>
    ensures { result ≡ option_map key_partition (item_key item.now) }
{
    match item {
        Item::Event(event) => Some(partition_of(&event.key)),
        Item::Side(side) => Some(partition_of(&side.key)),
        Item::Frame(frame) => Some(partition_of(&frame.key)),
        Item::Row(row) => Some(partition_of(&row.key)),
        Item::Late(late) => {
            let event = &late.event;
            Some(partition_of(&event.key))
        }
        Item::Idle => Some(0),
        Item::Mark(_) | Item::Done => None,
    }
}

// Whether an item has no key: a mark or the end.
fn has_no_key(item: &Item) -> bool
    ensures told { IsTrue result → item_key item.now ≡ None }
    ensures data { IsFalse result → IsSome (item_key item.now) }
{
    matches!(item, Item::Mark(_) | Item::Done)
}

/// Whether an item goes to each destination.
pub(crate) fn goes_to_each(route: Route, item: &Item) -> bool
    ensures each { IsTrue result → ((table : List ℕ) → aim_of route table (item_key item.now) ≡ Each) }
    ensures one { IsFalse result → ((table : List ℕ) → aim_of route table (item_key item.now) ≡ Each → ⊥) }
{
    has_no_key(item) || matches!(route, Route::Broadcast)
}

/// Where an item goes; a partitioned route has a table of the destinations of the 271 partitions. The partition of its
/// key is reckoned for such a route alone.
pub(crate) fn aim_for(route: Route, table: &[u32], item: &Item) -> Aim
    requires { route ≡ Route.Partitioned → length table.now ≡ 271 }
    ensures { result ≡ aim_of route table.now (item_key item.now) }
{
    if has_no_key(item) {
        return Aim::Each;
    }
    match route {
        Route::Unicast => Aim::Any,
        Route::Broadcast => Aim::Each,
        Route::Partitioned => match partition_for(item) {
            Some(partition) => Aim::Only(table[partition as usize] as usize),
            None => Aim::Each,
        },
    }
}
