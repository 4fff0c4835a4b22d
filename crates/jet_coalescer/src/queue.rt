// What a coalescer keeps of one queue.
ghost use Rattle.std.specs.Prelude.{◌≡◌, Some};
ghost use Rattle.jet_coalescer.specs.Queues.{counts, greatest_with, with_queue_mark};
ghost use Rattle.jet_coalescer.specs.inner.Standings.{standing_of};

use crate::standing::Standing;
use jet_items::Mark;

/// The greatest mark of a queue, whether its Done came, and whether it is idle.
#[derive(Clone, Copy)]
pub struct Queue {
    pub mark: Option<Mark>,
    pub done: bool,
    pub idle: bool,
}

impl Queue {
    /// The watermark waits for this queue: it is neither done nor idle.
    pub fn counts(&self) -> bool
        ensures { result ≡ counts self.now }
    {
        !self.done && !self.idle
    }

    /// What the queue lets the watermark be.
    pub fn standing(&self) -> Standing
        ensures { result ≡ standing_of self.now }
    {
        if !self.counts() {
            return Standing::Passes;
        }
        match self.mark {
            Some(mark) => Standing::At(mark),
            None => Standing::Waits,
        }
    }

    /// The queue after one more mark, which ends its idleness.
    pub fn heard(&self, mark: Mark) -> Queue
        ensures { result ≡ with_queue_mark mark self.now }
    {
        Queue {
            mark: Some(greater(self.mark, mark)),
            done: self.done,
            idle: false,
        }
    }
}

// The greater of the mark so far and one more.
fn greater(mark: Option<Mark>, t: Mark) -> Mark
    ensures { Some result ≡ greatest_with mark t }
{
    match mark {
        Some(old) if t.t < old.t => old,
        _ => t,
    }
}
