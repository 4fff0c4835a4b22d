// Which worker has which tasklet: those of each member are dealt in turn to its workers.
ghost use Rattle.std.specs.Prelude.{◌≡◌, ◌≤◌, ◌<◌, ◌*◌, ◌^◌, [], All, length, vec_len, IfOk};
ghost use Rattle.jet_crew.specs.Gather.{gather, Placed};
ghost use Rattle.jet_layout.specs.Tasks.{member_of};
ghost use Rattle.jet_deploy.specs.Dealing.{IsDealt};

use jet_crew::{Spot, Turns, Worker, place};
use jet_items::NoMemory;
use jet_layout::Task;
use std::alloc::Global;

/// Workers with their tasks, and where each task stands.
#[derive(Drop)]
pub struct Crew<T> {
    pub workers: Vec<Worker<T>>,
    pub order: Vec<Spot>,
}

// So many workers without tasks.
fn idle_workers<T: Turns + Drop>(alloc: Global, count: u32) -> Result<Vec<Worker<T>>, NoMemory>
    ensures count { IfOk result (λ ws. vec_len ws ≡ count) }
    ensures idle { IfOk result (λ ws. All (λ w. w.tasks.items ≡ []) ws.items) }
{
    let mut workers = Vec::new(alloc);
    for _ in 0..count {
        workers.push(Worker::new(alloc))?;
    }
    Ok(workers)
}

// Whose turn it is on each member: the number of a worker among those of the member.
#[derive(Drop)]
struct NextTurn {
    next: [u32; 4],
}

impl NextTurn {
    ghost use Rattle.std.specs.Prelude.{◌≡◌, ◌≤◌, ◌<◌, ◌+◌, ◌%◌, slice_index, slice_set};

    // Takes the turn of a member. Then it is the turn of the worker behind, or of the first.
    fn take(&mut self, member: u32, each: u32) -> u32
        requires member { member < 4 }
        requires each { (1 ≤ each) × (each ≤ 8) }
        requires inside { slice_index self.old.next member < each }
        ensures taken { result ≡ slice_index self.old.next member }
        ensures next { self.new.next ≡ slice_set self.old.next member ((result + 1) % each) }
    {
        let turn = self.next[member as usize];
        self.next[member as usize] = (turn + 1) % each;
        turn
    }
}

/// Deals tasks to the workers of their members in turn, where each member has `each` workers. It fails only for want of
/// memory.
pub fn deal<T: Turns + Drop>(
    alloc: Global,
    members: u32,
    each: u32,
    sites: &[Task],
    tasks: Vec<T>,
) -> Result<Crew<T>, NoMemory>
    requires members { (1 ≤ members) × (members ≤ 4) }
    requires each { (1 ≤ each) × (each ≤ 8) }
    requires sites { length sites.now ≡ vec_len tasks }
    requires inside { All (λ site. member_of site < members) sites.now }
    ensures tasks { IfOk result (λ crew. gather crew.workers.items crew.order.items ≡ tasks.items) }
    ensures placed { IfOk result (λ crew. Placed crew.workers.items crew.order.items) }
    ensures count { IfOk result (λ crew. vec_len crew.workers ≡ members * each) }
    ensures some { IfOk result (λ crew. (0 < vec_len crew.workers) × (vec_len crew.workers < 2 ^ 32)) }
    ensures dealt { IfOk result (λ crew. IsDealt each sites.now crew.order.items) }
{
    let mut workers = idle_workers(alloc, members * each)?;
    let mut order = Vec::new(alloc);
    let mut turns = NextTurn { next: [0; 4] };
    for task in tasks {
        let member = sites[order.len()].member();
        let turn = turns.take(member, each);
        place(
            &mut workers,
            &mut order,
            (member * each + turn) as usize,
            task,
        )?;
    }
    Ok(Crew { workers, order })
}
