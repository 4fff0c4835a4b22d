// Meetings of rings that lead from outside into tasklets.
ghost use Rattle.std.specs.Prelude.{◌≡◌, ℕ, ◌<◌, ◌≤◌, List, [], ◌∷◌, length, map};
ghost use Rattle.std.specs.List.{AllPairs};
ghost use Rattle.jet_items.specs.declared.item.Item.{Item};
ghost use Rattle.jet_ring.specs.Ring as ring;
ghost use Rattle.jet_crew.specs.Gather.{gather, Placed, epochs_of};
ghost use Rattle.jet_engine.specs.Ends.{IsFed, HasFed};
ghost use Rattle.jet_engine.specs.Looking.{Met};

use crate::QueueAt;
use jet_crew::{Spot, Worker, trade};
use jet_items::Item;
use jet_ring::Tx;
use jet_tasklet::{AnyTasklet, meet_source};

/// The two ends of a ring meet that leads from outside to a queue of a tasklet. Nothing else changes.
pub fn meet_feed(
    workers: &mut Vec<Worker<AnyTasklet>>,
    order: &Vec<Spot>,
    tx: &mut Tx<Item>,
    taker: QueueAt,
    spare: &mut AnyTasklet,
)
    requires placed { Placed workers.old.items order.now.items }
    requires joined { IsFed (gather workers.old.items order.now.items) (ring.tx_view tx.old) taker }
    ensures met { HasFed (gather workers.new.items order.now.items) (ring.tx_view tx.new) taker }
    ensures ring { ring.tx_ring tx.new ≡ ring.tx_ring tx.old }
    ensures sent { ring.sent tx.new ≡ ring.sent tx.old }
    ensures reach { ring.reach tx.old ≤ ring.reach tx.new }
    ensures others { Met (gather workers.old.items order.now.items) (gather workers.new.items order.now.items) [] (taker ∷ []) }
    ensures placed { Placed workers.new.items order.now.items }
    ensures epochs { epochs_of workers.new.items ≡ epochs_of workers.old.items }
{
    trade(workers, order, taker.task, spare);
    meet_source(tx, spare, taker.input, taker.queue);
    trade(workers, order, taker.task, spare);
}
