// A source's watermark: the greatest timestamp seen less the lag, rounded down to the grain. This is the limiting-lag
// policy of Hazelcast Jet, with the rounding as this project's own.
ghost use Rattle.std.specs.Prelude.{◌≡◌, ℤ, pos, ◌≤ℤ◌, ◌+ℤ◌, ◌-ℤ◌, List, [], ◌∷◌, ◌++◌, Some, None, int_lt, false};
ghost use Rattle.std.specs.Option.{option_map_or};
ghost use Rattle.jet_items.specs.Grid.{floor_to};
ghost use Rattle.jet_items.specs.Marks.{mark_at, mark_of};
ghost use Rattle.jet_items.specs.Ranges.{IsWithin, most_time};
ghost use Rattle.jet_policy.specs.MarkerValue.{IsMarker, greatest_with, rise_at};

use jet_items::Mark;
use std::marker::Model;

/// The watermark of a source, from the timestamps that it has seen.
///
/// `lag` is how far an event may stay behind the greatest timestamp, and marks are multiples of `grain`; both are in
/// the unit of the timestamps.
///
/// `rise` is the least timestamp that raises the mark, so that only such a one costs a division: `see` takes 7 instructions
/// where the mark stays, and 38 with two divisions at each timestamp.
#[derive(Clone, Copy)]
pub struct Marker {
    lag: i64,
    grain: i64,
    greatest: Option<i64>,
    rise: i64,
}

impl Model for Marker {
    ghost use Rattle.std.specs.Prelude.{◌≡◌};
    ghost use Rattle.std.proofs.Common.{sym};
    ghost use Rattle.jet_policy.specs.MarkerValue.{MarkerValue, IsMarker, rise_at};

    ghost Value = { MarkerValue };

    ghost view = { λ m. record { lag = m.lag; grain = m.grain; greatest = m.greatest } };

    ghost invariant = { λ m. IsMarker m.lag m.grain m.greatest × (m.rise ≡ rise_at m.lag m.grain m.greatest) };

    ghost inverse = { λ m. record { lag = m.lag; grain = m.grain; greatest = m.greatest; rise = rise_at m.lag m.grain m.greatest } };

    ghost inverse_ok = { λ m h i. record { lag = m.lag; grain = m.grain; greatest = m.greatest; rise = sym h.1 i } };
}

impl Marker {
    ghost use Rattle.jet_policy.specs.MarkerValue.{HasSeen, IsRaised, greatest_with};

    /// A marker that has seen nothing. The lag is from 0 to 10^15, which is the range of timestamps, and the grain is from 1
    /// to 10^12, as the slide of a window.
    pub fn new(lag: i64, grain: i64) -> Marker
        requires lag { (pos 0 ≤ℤ lag) × (lag ≤ℤ pos most_time) }
        requires grain { (pos 1 ≤ℤ grain) × (grain ≤ℤ pos 1000000000000) }
        ensures seen { HasSeen result [] }
        ensures lag { result.lag ≡ lag }
        ensures grain { result.grain ≡ grain }
    {
        Marker {
            lag,
            grain,
            greatest: None,
            // The least of all timestamps, so that the first one raises the mark.
            rise: -1_000_000_000_000_000,
        }
    }

    /// The mark of the timestamps seen; none before the first.
    pub fn mark(&self) -> Option<Mark>
        ensures mark { (times : List ℤ) → HasSeen self.now times → result ≡ mark_of self.now.lag self.now.grain times }
        ensures value { result ≡ mark_at self.now.lag self.now.grain self.now.greatest }
    {
        match self.greatest {
            None => None,
            Some(greatest) => Some(mark_until(self.lag, self.grain, greatest, self.rise)),
        }
    }

    /// Whether an event of this time is late: the time is below the mark of the timestamps seen. None is before the first.
    pub fn is_behind(&self, ts: i64) -> bool
        ensures behind { (times : List ℤ) → HasSeen self.now times
            → result ≡ option_map_or (λ mark. int_lt ts mark) (mark_of self.now.lag self.now.grain times) false }
        ensures value { result ≡ option_map_or (λ mark. int_lt ts mark) (mark_at self.now.lag self.now.grain self.now.greatest) false }
    {
        match self.mark() {
            None => false,
            Some(mark) => ts < mark.t,
        }
    }

    /// Sees one more timestamp, within 10^15 of 0, and answers the new mark where it is the first or rose.
    pub fn see(&mut self, ts: i64) -> Option<Mark>
        requires { IsWithin most_time ts }
        ensures seen { (times : List ℤ) → HasSeen self.old times → HasSeen self.new (times ++ ts ∷ []) }
        ensures lag { self.new.lag ≡ self.old.lag }
        ensures grain { self.new.grain ≡ self.old.grain }
        ensures raised { (times : List ℤ) → HasSeen self.old times
            → IsRaised (mark_of self.old.lag self.old.grain times) (mark_of self.old.lag self.old.grain (times ++ ts ∷ [])) result }
    {
        if ts < self.rise {
            self.greatest = Some(greater(self.greatest, ts));
            return None;
        }
        let mark = mark_below(self.lag, self.grain, ts);
        self.greatest = Some(ts);
        self.rise = rise_after(self.lag, self.grain, &mark);
        Some(mark)
    }
}

// The time less the lag, rounded down.
fn mark_below(lag: i64, grain: i64, greatest: i64) -> Mark
    requires { IsMarker lag grain (Some greatest) }
    ensures { result ≡ floor_to grain (greatest -ℤ lag) }
{
    let t = greatest - lag;
    Mark {
        t: t - t.rem_euclid(grain),
    }
}

// The mark that the time `rise` raises.
fn mark_until(lag: i64, grain: i64, greatest: i64, rise: i64) -> Mark
    requires marker { IsMarker lag grain (Some greatest) }
    requires rise { rise ≡ rise_at lag grain (Some greatest) }
    ensures { result ≡ floor_to grain (greatest -ℤ lag) }
{
    Mark {
        t: rise - grain - lag,
    }
}

// The least time that raises this mark.
fn rise_after(lag: i64, grain: i64, mark: &Mark) -> i64
    requires { IsMarker lag grain None }
    ensures { result ≡ (mark.now +ℤ grain) +ℤ lag }
{
    mark.t + grain + lag
}

// The greatest of the times seen and one more.
fn greater(greatest: Option<i64>, ts: i64) -> i64
    ensures { Some result ≡ greatest_with greatest ts }
{
    match greatest {
        None => ts,
        Some(old) => old.max(ts),
    }
}
