// Accumulators: what a window knows of its values.
ghost use Rattle.std.specs.Prelude.{◌≡◌, ◌+◌, ◌%◌, ◌^◌, ◌-ℤ◌, [], ◌∷◌};
ghost use Rattle.std.specs.Int.{int_wrap, w128};
ghost use Rattle.jet_items.specs.Ranges.{IsWithin, most_time};
ghost use Rattle.jet_items.specs.Rows.{IsAccOf};
ghost use Rattle.jet_items.specs.Totals.{one, joined};

use std::marker::Model;

/// How many values there are, their sum, the least and the greatest, both within 10^15 of 0. Count and sum wrap, at 2^64
/// and 2^128, which no job reaches: a file has fewer than 2^32 lines.
#[derive(Clone, Copy)]
pub struct Acc {
    pub count: u64,
    pub sum: i128,
    pub min: i64,
    pub max: i64,
}

impl Model for Acc {
    ghost use Rattle.jet_items.specs.Ranges.{IsWithin, most_time};
    ghost use Rattle.jet_items.specs.Values.{AccValue};

    ghost Value = { AccValue };

    ghost view = { λ a. record { count = a.count; sum = a.sum; min = a.min; max = a.max } };

    ghost invariant = { λ a. IsWithin most_time a.min × IsWithin most_time a.max };

    ghost inverse = { λ a. record { count = a.count; sum = a.sum; min = a.min; max = a.max } };
}

impl Acc {
    ghost use Rattle.jet_items.specs.Fits.{AccFits};

    /// The accumulator of one value, which lies within 10^15 of 0.
    pub fn one(v: i64) -> Acc
        requires { IsWithin most_time v }
        ensures law { IsAccOf (v ∷ []) result }
        ensures value { result ≡ one v }
    {
        Acc {
            count: 1,
            sum: i128::from(v),
            min: v,
            max: v,
        }
    }

    /// The accumulator of the values of both.
    pub fn join(&self, other: &Acc) -> Acc
        ensures { result ≡ joined self.now other.now }
    {
        Acc {
            count: self.count.wrapping_add(other.count),
            sum: self.sum.wrapping_add(other.sum),
            min: self.min.min(other.min),
            max: self.max.max(other.max),
        }
    }

    /// Number and sum without those of the other.
    pub fn deduct(&self, other: &Acc) -> (u64, i128)
        ensures count { (result.0 + other.now.count) % 2 ^ 64 ≡ self.now.count }
        ensures sum { result.1 ≡ int_wrap w128 (self.now.sum -ℤ other.now.sum) }
    {
        (
            self.count.wrapping_sub(other.count),
            self.sum.wrapping_sub(other.sum),
        )
    }

    /// A law for proofs above: each accumulator lies in the ranges of its types. The call does nothing.
    pub fn fits(&self)
        ensures { AccFits self.now }
    {
        let (_count, _sum) = (self.count, self.sum);
    }
}
