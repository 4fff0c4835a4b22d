// The meetings of all rings and links of a job.
ghost use Rattle.std.specs.Prelude.{◌≡◌, ◌≢◌, ◌<◌, ◌^◌, [], All, map, length};
ghost use Rattle.std.specs.List.{AllPairs};
ghost use Rattle.jet_conveyor.specs.Conveyor as conveyors;
ghost use Rattle.jet_ring.specs.Ring as ring;
ghost use Rattle.jet_crew.specs.Epoch.{Placewise};
ghost use Rattle.jet_crew.specs.Gather.{gather, Placed, epochs_of};
ghost use Rattle.jet_engine.specs.Links.{AreLinked, HaveLinkMet, AreLinksApart, LinkLooked};
ghost use Rattle.jet_engine.specs.Looking.{Met};
ghost use Rattle.jet_engine.specs.Wiring.{AreFed, HaveFed, TxMet, AreDrained, HaveDrained, SinkMet, IsWired, HaveAllMet, Attended};

use crate::drains::meet_drain;
use crate::feeds::meet_feed;
use crate::junctions::meet_junctions;
use crate::links::meet_link_at;
use crate::{DestAt, LinkAt, QueueAt, Spares, Wiring};
use jet_conveyor::Conveyor;
use jet_crew::{Spot, Worker};
use jet_items::Item;
use jet_ring::Tx;
use jet_tasklet::AnyTasklet;

// The two ends of each link meet.
fn meet_links(
    workers: &mut Vec<Worker<AnyTasklet>>,
    order: &Vec<Spot>,
    links: &[LinkAt],
    spares: &mut Spares,
)
    requires placed { Placed workers.old.items order.now.items }
    requires joined { All (AreLinked (gather workers.old.items order.now.items)) links.now }
    requires apart { AllPairs AreLinksApart links.now }
    ensures joined { All (AreLinked (gather workers.new.items order.now.items)) links.now }
    ensures met { All (HaveLinkMet (gather workers.new.items order.now.items)) links.now }
    ensures looked { Placewise LinkLooked (gather workers.old.items order.now.items) (gather workers.new.items order.now.items) }
    ensures placed { Placed workers.new.items order.now.items }
    ensures epochs { epochs_of workers.new.items ≡ epochs_of workers.old.items }
{
    for link in links {
        meet_link_at(workers, order, *link, spares);
    }
}

// The two ends of the ring of each file meet.
fn meet_feeds(
    workers: &mut Vec<Worker<AnyTasklet>>,
    order: &Vec<Spot>,
    txs: &mut [Tx<Item>],
    feeds: &[QueueAt],
    spare: &mut AnyTasklet,
)
    requires placed { Placed workers.old.items order.now.items }
    requires fed { AreFed (gather workers.old.items order.now.items) (map ring.tx_view txs.old) feeds.now }
    requires apart { AllPairs (λ p q. p ≢ q) feeds.now }
    ensures met { HaveFed (gather workers.new.items order.now.items) (map ring.tx_view txs.new) feeds.now }
    ensures txs { Placewise TxMet (map ring.tx_view txs.old) (map ring.tx_view txs.new) }
    ensures others { Met (gather workers.old.items order.now.items) (gather workers.new.items order.now.items) [] feeds.now }
    ensures placed { Placed workers.new.items order.now.items }
    ensures epochs { epochs_of workers.new.items ≡ epochs_of workers.old.items }
{
    for (file, taker) in feeds.iter().enumerate() {
        meet_feed(workers, order, &mut txs[file], *taker, spare);
    }
}

// The two ends of each ring that leads to the sink meet.
fn meet_drains(
    workers: &mut Vec<Worker<AnyTasklet>>,
    order: &Vec<Spot>,
    drains: &[DestAt],
    sink: &mut Conveyor,
    spare: &mut AnyTasklet,
)
    requires placed { Placed workers.old.items order.now.items }
    requires drained { AreDrained (gather workers.old.items order.now.items) drains.now (conveyors.view sink.old) }
    requires apart { AllPairs (λ p q. p ≢ q) drains.now }
    requires few { length drains.now < 2 ^ 32 }
    ensures met { HaveDrained (gather workers.new.items order.now.items) drains.now (conveyors.view sink.new) }
    ensures sink { SinkMet (conveyors.view sink.old) (conveyors.view sink.new) }
    ensures others { Met (gather workers.old.items order.now.items) (gather workers.new.items order.now.items) drains.now [] }
    ensures placed { Placed workers.new.items order.now.items }
    ensures epochs { epochs_of workers.new.items ≡ epochs_of workers.old.items }
{
    for (queue, giver) in drains.iter().enumerate() {
        meet_drain(workers, order, *giver, sink, queue as u32, spare);
    }
}

/// The two ends of each ring and of each link of a job meet: those between tasklets, those of the files, and those of the
/// sink. Each end knows then all that the other did, and nothing else changed.
pub fn meet_all(
    workers: &mut Vec<Worker<AnyTasklet>>,
    order: &Vec<Spot>,
    wiring: &Wiring,
    txs: &mut [Tx<Item>],
    sink: &mut Conveyor,
    spares: &mut Spares,
)
    requires placed { Placed workers.old.items order.now.items }
    requires wired { IsWired (gather workers.old.items order.now.items) (map ring.tx_view txs.old) (conveyors.view sink.old) wiring.now }
    ensures wired { IsWired (gather workers.new.items order.now.items) (map ring.tx_view txs.new) (conveyors.view sink.new) wiring.now }
    ensures met { HaveAllMet (gather workers.new.items order.now.items) (map ring.tx_view txs.new) (conveyors.view sink.new) wiring.now }
    ensures tasklets { Placewise Attended (gather workers.old.items order.now.items) (gather workers.new.items order.now.items) }
    ensures txs { Placewise TxMet (map ring.tx_view txs.old) (map ring.tx_view txs.new) }
    ensures sink { SinkMet (conveyors.view sink.old) (conveyors.view sink.new) }
    ensures placed { Placed workers.new.items order.now.items }
    ensures epochs { epochs_of workers.new.items ≡ epochs_of workers.old.items }
{
    meet_links(workers, order, &wiring.links, spares);
    meet_junctions(workers, order, &wiring.junctions, spares);
    meet_feeds(workers, order, txs, &wiring.feeds, &mut spares.taker);
    meet_drains(workers, order, &wiring.drains, sink, &mut spares.giver);
}
