// The unit to which the watermarks of a job are rounded down.
ghost use Rattle.std.specs.Int.{IsGcd};
ghost use Rattle.jet_flow.specs.Grain.{IsGrain};

use jet_plan::{Dag, Kind};

// Euclid's steps, by remainders.
fn greatest_divisor(a: u64, b: u64) -> u64
    ensures { IsGcd a b result }
{
    let mut greater = a;
    let mut lesser = b;
    while lesser != 0 {
        (greater, lesser) = (lesser, greater % lesser);
    }
    greater
}

/// The greatest common divisor of the slides of all accumulate vertices, in the unit of the timestamps. It is 0 where
/// there is none.
pub fn grain(dag: &Dag) -> u64
    ensures { IsGrain dag.now result }
{
    let mut unit = 0;
    for vertex in dag.vertices.items() {
        if let Kind::Accumulate { slide, .. } = &vertex.kind {
            unit = greatest_divisor(unit, slide.unsigned_abs());
        }
    }
    unit
}
