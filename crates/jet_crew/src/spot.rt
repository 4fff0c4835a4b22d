// The tasks of all workers as one list: how one comes into it, and how one is taken out of it for a while.
ghost use Rattle.std.specs.Prelude.{◌≡◌, ◌≢◌, ℕ, ◌<◌, [], ◌∷◌, ◌++◌, length, slice_set, slice_index_or, vec_len, OnOk, OnErr};
ghost use Rattle.jet_crew.specs.Gather.{gather, Placed, epochs_of};

use crate::Worker;
use std::alloc::AllocError;
use std::mem;

/// Where a task stands: the number of its worker, and its place there.
#[derive(Debug, Clone, Copy)]
pub struct Spot {
    pub worker: usize,
    pub slot: usize,
}

/// Gives a task to a worker, behind those that it has, and to the list of all, behind all. On `Err` it is dropped, and the
/// list is as it was.
pub fn place<T: Drop>(
    workers: &mut Vec<Worker<T>>,
    order: &mut Vec<Spot>,
    worker: usize,
    task: T,
) -> Result<(), AllocError>
    requires placed { Placed workers.old.items order.old.items }
    requires inside { worker < vec_len workers.old }
    ensures tasks { OnOk result (gather workers.new.items order.new.items ≡ gather workers.old.items order.old.items ++ task ∷ []) }
    ensures spot { OnOk result ((slot : ℕ) × (order.new.items ≡ order.old.items ++ record { worker = worker; slot = slot } ∷ [])) }
    ensures workers { length workers.new.items ≡ length workers.old.items }
    ensures same { OnErr result (gather workers.new.items order.new.items ≡ gather workers.old.items order.old.items) }
    ensures placed { Placed workers.new.items order.new.items }
    ensures epochs { epochs_of workers.new.items ≡ epochs_of workers.old.items }
{
    let slot = workers[worker].tasks.len();
    order.try_reserve(1)?;
    workers[worker].tasks.push(task)?;
    order.push_reserved(Spot { worker, slot });
    Ok(())
}

/// Puts `task` in the place of task `k`, and that one into `task`.
pub fn trade<T>(workers: &mut Vec<Worker<T>>, order: &Vec<Spot>, k: usize, task: &mut T)
    requires placed { Placed workers.old.items order.now.items }
    requires inside { k < vec_len order.now }
    ensures tasks { gather workers.new.items order.now.items ≡ slice_set (gather workers.old.items order.now.items) k task.old }
    ensures taken { slice_index_or (gather workers.old.items order.now.items) k task.new ≡ task.new }
    ensures placed { Placed workers.new.items order.now.items }
    ensures epochs { epochs_of workers.new.items ≡ epochs_of workers.old.items }
{
    let spot = order[k];
    let worker = &mut workers[spot.worker];
    mem::swap(&mut worker.tasks[spot.slot], task);
}

/// Takes two tasks out of the list, for a meeting of their ends, and puts `a` and `b` in their places. The same call puts
/// them back, and then nothing is left of what stood there meanwhile.
pub fn trade_both<T>(
    workers: &mut Vec<Worker<T>>,
    order: &Vec<Spot>,
    i: usize,
    j: usize,
    a: &mut T,
    b: &mut T,
)
    requires placed { Placed workers.old.items order.now.items }
    requires inside { (i < vec_len order.now) × (j < vec_len order.now) }
    requires apart { i ≢ j }
    ensures tasks { gather workers.new.items order.now.items ≡ slice_set (slice_set (gather workers.old.items order.now.items) i a.old) j b.old }
    ensures taken { slice_index_or (gather workers.old.items order.now.items) i a.new ≡ a.new }
    ensures taken_too { slice_index_or (gather workers.old.items order.now.items) j b.new ≡ b.new }
    ensures back { (x y : T) → slice_set (slice_set (gather workers.new.items order.now.items) i x) j y ≡ slice_set (slice_set (gather workers.old.items order.now.items) i x) j y }
    ensures placed { Placed workers.new.items order.now.items }
    ensures epochs { epochs_of workers.new.items ≡ epochs_of workers.old.items }
{
    trade(workers, order, i, a);
    trade(workers, order, j, b);
}
