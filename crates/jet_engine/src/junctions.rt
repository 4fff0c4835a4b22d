// Meetings of rings between two tasklets.
ghost use Rattle.std.specs.Prelude.{◌≡◌, All, map, [], ◌∷◌};
ghost use Rattle.std.specs.List.{AllPairs};
ghost use Rattle.jet_crew.specs.Gather.{gather, Placed, epochs_of};
ghost use Rattle.jet_engine.specs.Ends.{IsJoined, HasMet};
ghost use Rattle.jet_engine.specs.Looking.{Met, AreApart};

use crate::Junction;
use jet_crew::{Spot, Worker, trade_both};
use jet_tasklet::{AnyTasklet, meet};

/// Two tasklets that take the places of those that meet, meanwhile. What they do is of no matter.
#[derive(Drop)]
pub struct Spares {
    pub giver: AnyTasklet,
    pub taker: AnyTasklet,
}

/// The two ends of the ring of a junction meet: the one knows all items that were sent, and the other all slots that are
/// free. Nothing else changes.
pub fn meet_junction(
    workers: &mut Vec<Worker<AnyTasklet>>,
    order: &Vec<Spot>,
    junction: Junction,
    spares: &mut Spares,
)
    requires placed { Placed workers.old.items order.now.items }
    requires joined { IsJoined (gather workers.old.items order.now.items) junction }
    ensures met { HasMet (gather workers.new.items order.now.items) junction }
    ensures others { Met (gather workers.old.items order.now.items) (gather workers.new.items order.now.items) (junction.giver ∷ []) (junction.taker ∷ []) }
    ensures placed { Placed workers.new.items order.now.items }
    ensures epochs { epochs_of workers.new.items ≡ epochs_of workers.old.items }
{
    let Spares { giver, taker } = spares;
    let Junction {
        giver: from,
        taker: to,
    } = junction;
    trade_both(workers, order, from.task, to.task, giver, taker);
    meet(giver, from.output, from.dest, taker, to.input, to.queue);
    trade_both(workers, order, from.task, to.task, giver, taker);
}

/// The two ends of each ring between tasklets meet. Of each tasklet nothing changes but what these ends know.
pub fn meet_junctions(
    workers: &mut Vec<Worker<AnyTasklet>>,
    order: &Vec<Spot>,
    junctions: &[Junction],
    spares: &mut Spares,
)
    requires placed { Placed workers.old.items order.now.items }
    requires joined { All (IsJoined (gather workers.old.items order.now.items)) junctions.now }
    requires apart { AllPairs AreApart junctions.now }
    ensures met { All (HasMet (gather workers.new.items order.now.items)) junctions.now }
    ensures others { Met (gather workers.old.items order.now.items) (gather workers.new.items order.now.items) (map (λ j. j.giver) junctions.now) (map (λ j. j.taker) junctions.now) }
    ensures placed { Placed workers.new.items order.now.items }
    ensures epochs { epochs_of workers.new.items ≡ epochs_of workers.old.items }
{
    for junction in junctions {
        meet_junction(workers, order, *junction, spares);
    }
}
