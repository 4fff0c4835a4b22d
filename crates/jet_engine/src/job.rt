// A deployed job: its workers and the ends that the coordinator holds.

use crate::sweep::meet_all;
use crate::{Spares, Wiring};
use jet_conveyor::Conveyor;
use jet_crew::{EpochEnd, Gate, Spot, Worker, epoch, one_list_keeps_as_workers_do};
use jet_items::Item;
use jet_ring::Tx;
use jet_tasklet::AnyTasklet;
use std::thread::Threads;

/// A job with all its tasklets, rings and links.
#[derive(Drop)]
pub struct Job {
    /// The workers, each with its tasklets.
    pub workers: Vec<Worker<AnyTasklet>>,
    /// Where each tasklet stands, in the order of all.
    pub order: Vec<Spot>,
    /// Where the ends of all rings and links stand.
    pub wiring: Wiring,
    /// The ends that send into the rings of the files, by the numbers of the files.
    pub feeds: Vec<Tx<Item>>,
    /// The ends that receive from the rings that lead to the sink.
    pub sink: Conveyor,
    /// Two tasklets that take the places of those that meet.
    pub spares: Spares,
}

impl Job {
    ghost use Rattle.std.specs.Prelude.{◌≡◌, ◌<◌, ◌^◌, map, length};
    ghost use Rattle.jet_conveyor.specs.Conveyor.{view};
    ghost use Rattle.jet_crew.specs.Epoch.{Placewise, EpochOver};
    ghost use Rattle.jet_crew.specs.Gather.{epochs_of};
    ghost use Rattle.jet_crew.specs.Turns.{Together};
    ghost use Rattle.jet_ring.specs.Ring.{tx_view};
    ghost use Rattle.jet_tasklet.specs.Crew.{TaskSaid};
    ghost use Rattle.jet_tasklet.specs.Turns.{AnyWent};
    ghost use Rattle.jet_engine.specs.Jobs.{tasklets_of, IsReady};
    ghost use Rattle.jet_engine.specs.Wiring.{HaveAllMet, TxMet, SinkMet, Attended};

    /// The two ends of each ring and of each link meet. Nothing comes to a tasklet and none gives anything.
    pub fn meet(&mut self)
        requires ready { IsReady self.old }
        ensures ready { IsReady self.new }
        ensures met { HaveAllMet (tasklets_of self.new) (map tx_view self.new.feeds.items) (view self.new.sink) self.new.wiring }
        ensures tasklets { Placewise Attended (tasklets_of self.old) (tasklets_of self.new) }
        ensures feeds { Placewise TxMet (map tx_view self.old.feeds.items) (map tx_view self.new.feeds.items) }
        ensures sink { SinkMet (view self.old.sink) (view self.new.sink) }
        ensures wiring { self.new.wiring ≡ self.old.wiring }
        ensures order { self.new.order ≡ self.old.order }
        ensures epochs { epochs_of self.new.workers.items ≡ epochs_of self.old.workers.items }
    {
        meet_all(
            &mut self.workers,
            &self.order,
            &self.wiring,
            &mut self.feeds,
            &mut self.sink,
            &mut self.spares,
        );
    }

    /// An epoch: each tasklet takes so many turns, the workers beside each other, each behind the gate. It answers what
    /// became of it, whichever worker has which tasklet.
    pub fn epoch<R: Threads + Sync, G: Gate + Sync>(
        &mut self,
        rt: &R,
        gate: &G,
        number: u64,
        turns: u32,
    ) -> EpochEnd
        requires ready { IsReady self.old }
        requires turns { 0 < turns }
        ensures ready { IsReady self.new }
        ensures over { EpochOver AnyWent TaskSaid result (tasklets_of self.old) (tasklets_of self.new) }
        ensures answer { Together (map (λ w. w.end) self.new.workers.items) result }
        ensures outside { self.new ≡ record self.old { workers = self.new.workers } }
    {
        one_list_keeps_as_workers_do(&self.workers, &self.order);
        let end = epoch(rt, gate, number, turns, &mut self.workers);
        one_list_keeps_as_workers_do(&self.workers, &self.order);
        end
    }
}
