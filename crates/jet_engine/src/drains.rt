// Meetings of rings that lead from tasklets to a conveyor outside.
ghost use Rattle.std.specs.Prelude.{◌≡◌, [], ◌∷◌};
ghost use Rattle.jet_conveyor.specs.Conveyor as conveyors;
ghost use Rattle.jet_crew.specs.Gather.{gather, Placed, epochs_of};
ghost use Rattle.jet_engine.specs.Ends.{IsDrained, HasDrained};
ghost use Rattle.jet_engine.specs.Looking.{Met};

use crate::DestAt;
use jet_conveyor::Conveyor;
use jet_crew::{Spot, Worker, trade};
use jet_tasklet::{AnyTasklet, meet_sink};

/// The two ends of a ring meet that leads from a destination of a tasklet to a queue of a conveyor outside. Nothing else
/// changes.
pub fn meet_drain(
    workers: &mut Vec<Worker<AnyTasklet>>,
    order: &Vec<Spot>,
    giver: DestAt,
    conveyor: &mut Conveyor,
    queue: u32,
    spare: &mut AnyTasklet,
)
    requires placed { Placed workers.old.items order.now.items }
    requires joined { IsDrained (gather workers.old.items order.now.items) giver (conveyors.view conveyor.old) queue }
    ensures met { HasDrained (gather workers.new.items order.now.items) giver (conveyors.view conveyor.new) queue }
    ensures conveyor { conveyors.Refreshed (conveyors.view conveyor.old) (conveyors.view conveyor.new) queue }
    ensures seen { conveyors.SeesMore (conveyors.view conveyor.old) (conveyors.view conveyor.new) }
    ensures others { Met (gather workers.old.items order.now.items) (gather workers.new.items order.now.items) (giver ∷ []) [] }
    ensures placed { Placed workers.new.items order.now.items }
    ensures epochs { epochs_of workers.new.items ≡ epochs_of workers.old.items }
{
    trade(workers, order, giver.task, spare);
    meet_sink(spare, giver.output, giver.dest, conveyor, queue);
    trade(workers, order, giver.task, spare);
}
