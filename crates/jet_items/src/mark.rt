// Watermarks: how far event time has come.
ghost use Rattle.std.specs.Prelude.{SomeIff};
ghost use Rattle.jet_items.specs.Ranges.{IsWithin, most_mark};

use std::marker::Model;

/// A watermark: of what follows it, an event with a timestamp below `t` is late. `t` lies within 4·10^15 of 0.
#[derive(Clone, Copy)]
pub struct Mark {
    pub t: i64,
}

impl Model for Mark {
    ghost use Rattle.std.specs.Prelude.{ℤ};
    ghost use Rattle.jet_items.specs.Ranges.{IsWithin, most_mark};

    ghost Value = { ℤ };

    ghost view = { λ m. m.t };

    ghost invariant = { λ m. IsWithin most_mark m.t };

    ghost inverse = { λ t. record { t = t } };
}

impl Mark {
    /// The mark, where `t` lies in the range of marks, within 4·10^15 of 0: a timestamp less a lag and a grain, and more.
    pub fn new(t: i64) -> Option<Mark>
        ensures { SomeIff result (IsWithin most_mark t) t }
    {
        if (-4_000_000_000_000_000..=4_000_000_000_000_000).contains(&t) {
            Some(Mark { t })
        } else {
            None
        }
    }

    /// A law for proofs above: each mark lies within 4·10^15 of 0. The call does nothing.
    pub fn fits(&self)
        ensures { IsWithin most_mark self.now }
    {
        let _t = self.t;
    }
}
