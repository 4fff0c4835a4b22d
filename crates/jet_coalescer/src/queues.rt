// The queues of a coalescer, and the present value of the watermark.
ghost use Rattle.std.specs.Prelude.{◌≡◌, ◌<◌, length, replicate, slice_set, slice_index_or, IfOk};
ghost use Rattle.jet_coalescer.specs.Queues.{unknown, present};

use crate::queue::Queue;
use crate::tournament::Tournament;
use jet_items::{Mark, NoMemory};
use std::alloc::Global;
use std::marker::Model;

/// What is kept of each queue, and the least of what they let the watermark be.
#[derive(Drop)]
pub struct Queues {
    queues: Vec<Queue>,
    tournament: Tournament,
}

impl Model for Queues {
    ghost use Rattle.std.specs.Prelude.{List};
    ghost use Rattle.jet_coalescer.specs.declared.queue.Queue.{Queue};
    ghost use Rattle.jet_coalescer.specs.inner.Tournaments.{IsOf};

    ghost Value = { List Queue };

    ghost view = { λ q. q.queues.items };

    ghost invariant = { λ q. IsOf q.queues.items q.tournament };
}

impl Queues {
    /// `count` queues of which nothing is known.
    pub fn new(alloc: Global, count: u32) -> Result<Queues, NoMemory>
        ensures { IfOk result (λ q. q ≡ replicate count unknown) }
    {
        let unknown = Queue {
            mark: None,
            done: false,
            idle: false,
        };
        let mut queues = Vec::new(alloc);
        queues.resize(count as usize, unknown)?;
        let tournament = Tournament::new(alloc, count)?;
        Ok(Queues { queues, tournament })
    }

    /// The queue at this place.
    pub fn get(&self, at: u32) -> Queue
        requires { at < length self.now }
        ensures { result ≡ slice_index_or self.now at unknown }
    {
        self.queues[at as usize]
    }

    /// Puts a queue in the place of one.
    pub fn set(&mut self, at: u32, queue: Queue)
        requires { at < length self.old }
        ensures { self.new ≡ slice_set self.old at queue }
    {
        self.queues[at as usize] = queue;
        self.tournament.set(at, queue.standing());
    }

    /// The least of the greatest marks of the queues that count. None where there is no such queue, or one of them has
    /// no mark yet.
    pub fn present(&self) -> Option<Mark>
        ensures { result ≡ present self.now }
    {
        self.tournament.least()
    }
}
