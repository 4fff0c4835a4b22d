// An epoch of all workers.
ghost use Rattle.std.specs.Prelude.{◌≡◌, ◌<◌, ◌^◌, List, All, length, map};
ghost use Rattle.jet_crew.specs.Turns.{Together};
ghost use Rattle.jet_crew.specs.Epoch.{AllKeep, Worked, AllWorked, EpochOver};
ghost use Rattle.jet_crew.specs.Gather.{gather, Placed};
ghost use Rattle.jet_crew.specs.declared.spot.Spot.{Spot};

use crate::end::worse;
use crate::{EpochEnd, Gate, Turns, Worker};
use std::thread;
use std::thread::Threads;

/// One epoch: each worker enters the gate, and each of its tasks takes so many turns, beside those of the other workers.
/// One worker alone works on the caller's thread, and no thread is made. What the epoch came to holds of the one list of
/// all tasks, however they are dealt.
pub fn epoch<T: Turns + Send, R: Threads + Sync, G: Gate + Sync>(
    rt: &R,
    gate: &G,
    number: u64,
    turns: u32,
    workers: &mut [Worker<T>],
) -> EpochEnd
    requires keeps { All (AllKeep T.keeps) workers.old }
    requires turns { 0 < turns }
    requires some { (0 < length workers.old) × (length workers.old < 2 ^ 32) }
    ensures worked { AllWorked T.went T.said turns workers.old workers.new }
    ensures answer { Together (map (λ w. w.end) workers.new) result }
    ensures kept { All (AllKeep T.keeps) workers.new }
    ensures over { (order : List Spot) → Placed workers.old order → EpochOver T.went T.said result (gather workers.old order) (gather workers.new order) }
    ensures placed { (order : List Spot) → Placed workers.old order → Placed workers.new order }
{
    T::law_turns_in_a_row();
    work(rt, gate, number, turns, workers);
    came_to(workers)
}

// Each worker's part of the epoch, beside those of the others.
fn work<T: Turns + Send, R: Threads + Sync, G: Gate + Sync>(
    rt: &R,
    gate: &G,
    number: u64,
    turns: u32,
    workers: &mut [Worker<T>],
)
    requires keeps { All (AllKeep T.keeps) workers.old }
    requires turns { 0 < turns }
    requires some { (0 < length workers.old) × (length workers.old < 2 ^ 32) }
    ensures { AllWorked T.went T.said turns workers.old workers.new }
{
    let threads = workers.len();
    thread::for_each_mut(
        rt,
        workers,
        threads,
        &|i, w| begin(gate, i as u32, number, turns, w),
    );
}

fn begin<T: Turns, G: Gate>(gate: &G, worker: u32, number: u64, turns: u32, w: &mut Worker<T>)
    requires keeps { AllKeep T.keeps w.old }
    requires some { 0 < turns }
    ensures { Worked T.went T.said turns w.old w.new }
{
    gate.enter(worker, number);
    w.epoch(turns);
}

// What the last epochs of these workers came to together.
fn came_to<T>(workers: &[Worker<T>]) -> EpochEnd
    ensures { Together (map (λ w. w.end) workers.now) result }
{
    let mut end = EpochEnd::Done;
    for worker in workers {
        end = worse(end, worker.end);
    }
    end
}
