// Meetings of the two ends of links.
ghost use Rattle.std.specs.Prelude.{◌≡◌};
ghost use Rattle.jet_crew.specs.Gather.{gather, Placed, epochs_of};
ghost use Rattle.jet_engine.specs.Links.{AreLinked, HaveLinkMet, LinkMet};

use crate::{LinkAt, Spares};
use jet_crew::{Spot, Worker, trade_both};
use jet_tasklet::{AnyTasklet, meet_link};

/// The two ends of a link meet. Nothing else changes.
pub fn meet_link_at(
    workers: &mut Vec<Worker<AnyTasklet>>,
    order: &Vec<Spot>,
    link: LinkAt,
    spares: &mut Spares,
)
    requires placed { Placed workers.old.items order.now.items }
    requires joined { AreLinked (gather workers.old.items order.now.items) link }
    ensures joined { AreLinked (gather workers.new.items order.now.items) link }
    ensures met { HaveLinkMet (gather workers.new.items order.now.items) link }
    ensures others { LinkMet (gather workers.old.items order.now.items) (gather workers.new.items order.now.items) link }
    ensures placed { Placed workers.new.items order.now.items }
    ensures epochs { epochs_of workers.new.items ≡ epochs_of workers.old.items }
{
    let Spares { giver, taker } = spares;
    trade_both(workers, order, link.sender, link.receiver, giver, taker);
    meet_link(giver, taker);
    trade_both(workers, order, link.sender, link.receiver, giver, taker);
}
