// Epochs of two workers on threads of their own, over tasks that count down.
use super::*;
use std::alloc::{AllocError, Global};
use std::sync::atomic::{AtomicU64, Ordering};
use std::test::Fail;
use std::thread;
use std::thread::Threads;

// A task with so many moves left, the last of which may want memory instead.
#[derive(Drop)]
struct Countdown {
    left: u32,
    wants: bool,
}

impl Turns for Countdown {
    ghost keeps = { λ s. Unit {0} };

    ghost went = { λ a b. Unit {0} };

    ghost said = { λ e a b. Unit {0} };

    fn take_turn(&mut self) -> EpochEnd {
        if self.left == 0 {
            return EpochEnd::Done;
        }
        self.left -= 1;
        if self.wants && self.left == 0 {
            return EpochEnd::NoMemory;
        }
        EpochEnd::Moved
    }

    fn law_turns_in_a_row() {}
}

// Lets each worker in once both have entered as often, and counts the entries that did not see that.
#[derive(Drop)]
struct PairGate {
    entered: AtomicU64,
    alone: AtomicU64,
}

impl Gate for PairGate {
    fn enter(&self, _worker: u32, epoch: u64) {
        self.entered.fetch_add(1, Ordering::SeqCst);
        let both = epoch.saturating_add(1).saturating_mul(2);
        // Far more looks than a thread needs to begin, also where all processors are busy.
        for _ in 0..100_000_000u32 {
            if self.entered.load(Ordering::SeqCst) >= both {
                return;
            }
            thread::yield_now();
        }
        self.alone.fetch_add(1, Ordering::SeqCst);
    }
}

fn worker(alloc: Global, tasks: &[(u32, bool)]) -> Result<Worker<Countdown>, AllocError> {
    let mut worker = Worker::new(alloc);
    for task in tasks {
        worker.tasks.push(Countdown {
            left: task.0,
            wants: task.1,
        })?;
    }
    Ok(worker)
}

#[test]
fn two_workers_count_down_beside_each_other(rt: HostRuntime) -> Result<(), Fail> {
    let gate = PairGate {
        entered: AtomicU64::new(0),
        alone: AtomicU64::new(0),
    };
    let mut workers = Vec::new(rt.alloc());
    workers.push(worker(rt.alloc(), &[(3, false), (1, false)])?)?;
    workers.push(worker(rt.alloc(), &[(2, false)])?)?;
    assert_eq!(rt; epoch(&rt, &gate, 0, 2, &mut workers), EpochEnd::Moved);
    assert_eq!(rt; epoch(&rt, &gate, 1, 2, &mut workers), EpochEnd::Moved);
    assert_eq!(rt; epoch(&rt, &gate, 2, 2, &mut workers), EpochEnd::Done);
    assert_eq!(rt; gate.entered.load(Ordering::SeqCst), 6);
    assert_eq!(rt; gate.alone.load(Ordering::SeqCst), 0);
    Ok(())
}
