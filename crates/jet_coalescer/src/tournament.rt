// The least of the standings of many queues. A change of one is played out along its way to the top alone, so it costs a
// step each time that the number of queues grows eightfold, and it ends where a place stays as it was.
ghost use Rattle.std.specs.Prelude.{◌≡◌, ◌+◌, ◌*◌, ◌<◌, length, take, drop, replicate, slice_set, IfOk, IsFalse};
ghost use Rattle.jet_coalescer.specs.declared.standing.Standing.TheVariants as standing;
ghost use Rattle.jet_coalescer.specs.inner.Standings.{least_of, mark_of, standing_at};
ghost use Rattle.jet_coalescer.specs.inner.Tournaments.{below, places, span, IsTournament, IsTournamentBut};

use crate::standing::{Standing, lesser_rank, mark_at};
use jet_items::{Mark, NoMemory};
use std::alloc::Global;
use std::marker::Model;

/// The standings of many queues, and the least of them. What stands behind the last queue passes.
#[derive(Drop)]
pub struct Tournament {
    // The place of the first queue.
    first: usize,
    // The ranks of the queues stand from `first` on. At each place before is the least of the eight that begin behind
    // eight times the place, so the least of all is at 0.
    ranks: Vec<i64>,
}

impl Model for Tournament {
    ghost use Rattle.std.specs.Prelude.{List, drop};
    ghost use Rattle.jet_coalescer.specs.declared.standing.Standing.{Standing};
    ghost use Rattle.jet_coalescer.specs.inner.Tournaments.{places, IsTournament};

    ghost Value = { List Standing };

    ghost view = { λ t. drop t.first (places t.ranks.items) };

    ghost invariant = { λ t. IsTournament t.first (places t.ranks.items) };
}

impl Tournament {
    /// Of at least `count` queues: these wait.
    pub fn new(alloc: Global, count: u32) -> Result<Tournament, NoMemory>
        ensures queues { IfOk result (λ t. take count t ≡ replicate count standing.Waits) }
        ensures behind { IfOk result (λ t. least_of (drop count t) ≡ standing.Passes) }
    {
        let count = count as usize;
        let first = (count + 5) / 7;
        let mut ranks = Vec::new(alloc);
        ranks.resize(first + count, Standing::Waits.rank())?;
        ranks.resize(8 * first + 1, Standing::Passes.rank())?;
        Ok(Tournament { first, ranks })
    }

    /// Puts a standing in the place of one.
    pub fn set(&mut self, at: u32, standing: Standing)
        requires { at < length self.old }
        ensures { self.new ≡ slice_set self.old at standing }
    {
        let place = self.first + at as usize;
        self.ranks[place] = standing.rank();
        play(&mut self.ranks, self.first, place);
    }

    /// The mark that all stand at or above, if the least standing is one.
    pub fn least(&self) -> Option<Mark>
        ensures { result ≡ mark_of (least_of self.now) }
    {
        mark_at(self.ranks[0])
    }
}

// Plays on from a place to the top.
fn play(ranks: &mut [i64], first: usize, from: usize)
    requires sized { length ranks.old ≡ 8 * first + 1 }
    requires inside { from < 8 * first + 1 }
    requires played { IsTournamentBut first (places ranks.old) from }
    ensures tournament { IsTournament first (places ranks.new) }
    ensures queues { drop first (places ranks.new) ≡ drop first (places ranks.old) }
{
    let mut at = from;
    while at > 0 {
        at = (at - 1) / 8;
        if !settle(ranks, at) {
            return;
        }
    }
}

// Puts the least of the eight places below into a place, and answers false where it was there already.
fn settle(ranks: &mut [i64], at: usize) -> bool
    requires inside { 8 * at + 8 < length ranks.old }
    ensures sized { length ranks.new ≡ length ranks.old }
    ensures settled { places ranks.new ≡ slice_set (places ranks.old) at (below (places ranks.old) at) }
    ensures kept { IsFalse result → places ranks.new ≡ places ranks.old }
{
    let least = least_of_eight(ranks, 8 * at + 1);
    let same = least == ranks[at];
    ranks[at] = least;
    !same
}

// The least of the ranks at eight places.
fn least_of_eight(ranks: &[i64], at: usize) -> i64
    requires inside { at + 7 < length ranks.now }
    ensures { standing_at result ≡ least_of (span (places ranks.now) at 8) }
{
    lesser_rank(least_of_four(ranks, at), least_of_four(ranks, at + 4))
}

// The least of the ranks at four places.
fn least_of_four(ranks: &[i64], at: usize) -> i64
    requires inside { at + 3 < length ranks.now }
    ensures { standing_at result ≡ least_of (span (places ranks.now) at 4) }
{
    lesser_rank(least_of_two(ranks, at), least_of_two(ranks, at + 2))
}

// The lesser of the ranks at two places.
fn least_of_two(ranks: &[i64], at: usize) -> i64
    requires inside { at + 1 < length ranks.now }
    ensures { standing_at result ≡ least_of (span (places ranks.now) at 2) }
{
    lesser_rank(ranks[at], ranks[at + 1])
}
