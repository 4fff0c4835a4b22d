// The one list of all tasks, and those of each worker.
ghost use Rattle.std.specs.Prelude.{All};
ghost use Rattle.jet_crew.specs.Epoch.{AllKeep};
ghost use Rattle.jet_crew.specs.Gather.{gather, Placed};

use crate::{Spot, Turns, Worker};

/// A law: where each task of the one list keeps what holds before a turn, so does each task of each worker, and the other
/// way round.
pub fn one_list_keeps_as_workers_do<T: Turns>(workers: &[Worker<T>], order: &[Spot])
    ensures workers { Placed workers.now order.now → All T.keeps (gather workers.now order.now) → All (AllKeep T.keeps) workers.now }
    ensures list { All (AllKeep T.keeps) workers.now → All T.keeps (gather workers.now order.now) }
{
    let _workers = workers;
    let _order = order;
}
