// What the watermark may do for the sake of one queue, or of several. Standings are kept as ranks: numbers of which the
// lesser stands for the lesser standing, below all marks for one that waits, and above them for one that passes.
ghost use Rattle.std.specs.Prelude.{◌≡◌};
ghost use Rattle.jet_coalescer.specs.inner.Standings.{lesser, mark_of, standing_at};
ghost use Rattle.jet_coalescer.specs.declared.standing.Standing.TheVariants as standing;

use jet_items::Mark;

/// What a queue lets the watermark be, and so do several queues with the least of their standings.
#[derive(Clone, Copy)]
pub enum Standing {
    /// There is no watermark: a queue that counts has no mark yet.
    Waits,
    /// The watermark may get to this mark.
    At(Mark),
    /// The watermark does not wait: no queue counts.
    Passes,
}

impl Standing {
    /// The rank of the standing.
    pub fn rank(self) -> i64
        ensures { standing_at result ≡ self }
    {
        match self {
            Standing::Waits => i64::MIN,
            Standing::At(mark) => rank_at(mark),
            Standing::Passes => i64::MAX,
        }
    }
}

// The rank of a mark.
fn rank_at(mark: Mark) -> i64
    ensures { standing_at result ≡ standing.At mark }
{
    mark.fits();
    mark.t
}

/// The rank of the lesser of two standings: waiting is the least, and passing the greatest.
pub fn lesser_rank(one: i64, two: i64) -> i64
    ensures { standing_at result ≡ lesser (standing_at one) (standing_at two) }
{
    if two < one { two } else { one }
}

/// The mark at this rank, if there is one.
pub fn mark_at(rank: i64) -> Option<Mark>
    ensures { result ≡ mark_of (standing_at rank) }
{
    Mark::new(rank)
}
