// The steps of a running job.
ghost use Rattle.std.specs.Prelude.{◌≡◌, ◌<◌, ℕ, Bool, Option, true, IfErr, IfOk, IsTrue, OnOk};
ghost use Rattle.jet_engine.specs.Jobs.{IsReady};
ghost use Rattle.jet_file.specs.Outside.{Told, WhereTold};
ghost use Rattle.jet_worker.specs.Stopping.{Outcome};
ghost use Rattle.jet_coordinator.specs.Going.{CanGo};
ghost use Rattle.jet_coordinator.specs.Progress.{ComesOn, IsAtEnd, StopsFrom};

use crate::{are_over, feed_all};
use jet_crew::{EpochEnd, Gate};
use jet_engine::{Job, giving_and_taking_keep_the_wiring};
use jet_feed::{Feed, Leave};
use jet_file::Outside;
use jet_items::Mark;
use jet_sink::Sink;
use jet_worker::Stop;
use std::alloc::Global;
use std::thread::Threads;

/// A job that runs, as it stands between two epochs.
#[derive(Drop)]
pub struct Running {
    pub job: Job,
    /// The feeds of its files, by their numbers.
    pub feeds: Vec<Feed>,
    pub sink: Sink,
    /// How far a source file may be read ahead of the sink, from 0 to 10^15, in the unit of the timestamps.
    pub ahead: i64,
}

impl Running {
    // How far the files may be read now.
    fn leave(&self) -> Leave
        ensures { result.ahead ≡ self.now.ahead }
    {
        Leave {
            sink: self.sink.mark().and_then(Mark::new),
            ahead: self.ahead,
        }
    }

    // The two ends of each ring and of each link meet.
    fn meet(&mut self)
        requires ready { IsReady self.old.job }
        ensures fit { (is_open : ℕ → Bool) → CanGo is_open self.old → CanGo is_open self.new }
        ensures came { (told : Option Told) → WhereTold (ComesOn self.old self.new) told told }
    {
        self.job.meet();
    }

    // Reads all files on, and feeds their rings.
    fn feed<O: Outside>(&mut self, alloc: Global, out: &mut O) -> Result<(), Stop>
        requires fit { CanGo (O.opened out.old) self.old }
        ensures fit { OnOk result (CanGo (O.opened out.new) self.new) }
        ensures came { OnOk result (WhereTold (ComesOn self.old self.new) (O.told out.old) (O.told out.new)) }
        ensures stop { IfErr result (λ stop. WhereTold (StopsFrom self.old stop) (O.told out.old) (O.told out.new)) }
        ensures outcome { Outcome O.opened O.steady O.faults out.old out.new result }
    {
        giving_and_taking_keep_the_wiring();
        let leave = self.leave();
        match feed_all(alloc, &mut self.feeds, &mut self.job.feeds, &leave, out) {
            Ok(_) => Ok(()),
            Err(stop) => Err(stop),
        }
    }

    // Drains the rings of the sink.
    fn drain<O: Outside>(&mut self, alloc: Global, out: &mut O) -> Result<(), Stop>
        requires fit { CanGo (O.opened out.old) self.old }
        ensures fit { OnOk result (CanGo (O.opened out.new) self.new) }
        ensures came { OnOk result (WhereTold (ComesOn self.old self.new) (O.told out.old) (O.told out.new)) }
        ensures stop { IfErr result (λ stop. WhereTold (StopsFrom self.old stop) (O.told out.old) (O.told out.new)) }
        ensures outcome { Outcome O.opened O.steady O.faults out.old out.new result }
    {
        giving_and_taking_keep_the_wiring();
        match self.sink.drain(alloc, &mut self.job.sink, out) {
            Ok(_) => Ok(()),
            Err(stop) => Err(stop),
        }
    }

    /// What the coordinator does between two epochs: the ends of all rings meet, each file is read on as far as it may be and
    /// its ring has slots, and the rings of the sink are drained. It stops at the first bad line that it reads, at the first call
    /// on the outside that fails, and where no memory is found.
    pub fn tend<O: Outside>(&mut self, alloc: Global, out: &mut O) -> Result<(), Stop>
        requires fit { CanGo (O.opened out.old) self.old }
        ensures fit { OnOk result (CanGo (O.opened out.new) self.new) }
        ensures came { OnOk result (WhereTold (ComesOn self.old self.new) (O.told out.old) (O.told out.new)) }
        ensures stop { IfErr result (λ stop. WhereTold (StopsFrom self.old stop) (O.told out.old) (O.told out.new)) }
        ensures outcome { Outcome O.opened O.steady O.faults out.old out.new result }
    {
        self.meet();
        match self.feed(alloc, out) {
            Ok(()) => self.drain(alloc, out),
            Err(stop) => Err(stop),
        }
    }

    /// Whether each file is over, and each queue of the sink is done.
    pub fn is_over(&self) -> bool
        ensures { IsTrue result → IsAtEnd self.now }
    {
        self.job.sink.all_done() && are_over(&self.feeds)
    }

    /// An epoch, after what the coordinator does before it. The answer is whether all was done already.
    pub fn step<R: Threads + Sync, G: Gate + Sync, O: Outside>(
        &mut self,
        alloc: Global,
        rt: &R,
        gate: &G,
        number: u64,
        turns: u32,
        out: &mut O,
    ) -> Result<bool, Stop>
        requires fit { CanGo (O.opened out.old) self.old }
        requires turns { 0 < turns }
        ensures fit { OnOk result (CanGo (O.opened out.new) self.new) }
        ensures came { OnOk result (WhereTold (ComesOn self.old self.new) (O.told out.old) (O.told out.new)) }
        ensures over { IfOk result (λ over. over ≡ true → IsAtEnd self.new) }
        ensures stop { IfErr result (λ stop. WhereTold (StopsFrom self.old stop) (O.told out.old) (O.told out.new)) }
        ensures outcome { Outcome O.opened O.steady O.faults out.old out.new result }
    {
        match self.tend(alloc, out) {
            Ok(()) => {}
            Err(stop) => return Err(stop),
        }
        if self.is_over() {
            return Ok(true);
        }
        match self.job.epoch(rt, gate, number, turns) {
            EpochEnd::NoMemory => Err(Stop::NoMemory),
            _ => Ok(false),
        }
    }

    /// Goes on until all is done, for 2^64 - 1 epochs at most.
    pub fn finish<R: Threads + Sync, G: Gate + Sync, O: Outside>(
        &mut self,
        alloc: Global,
        rt: &R,
        gate: &G,
        turns: u32,
        out: &mut O,
    ) -> Result<(), Stop>
        requires fit { CanGo (O.opened out.old) self.old }
        requires turns { 0 < turns }
        ensures fit { OnOk result (CanGo (O.opened out.new) self.new) }
        ensures came { OnOk result (WhereTold (ComesOn self.old self.new) (O.told out.old) (O.told out.new)) }
        ensures over { OnOk result (IsAtEnd self.new) }
        ensures stop { IfErr result (λ stop. WhereTold (StopsFrom self.old stop) (O.told out.old) (O.told out.new)) }
        ensures outcome { Outcome O.opened O.steady O.faults out.old out.new result }
    {
        'epochs: for number in 0..u64::MAX {
            match self.step(alloc, rt, gate, number, turns, out) {
                Ok(true) => return Ok(()),
                Ok(false) => {}
                Err(stop) => return Err(stop),
            }
        }
        Err(Stop::NoMemory)
    }
}
