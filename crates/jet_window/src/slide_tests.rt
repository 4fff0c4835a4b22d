// Worked cases of a slide.
use super::*;
use jet_items::Acc;
use std::test::Fail;

// Count, sum, least and greatest.
type Known = (u64, i128, i64, i64);

fn known(acc: Acc) -> Known {
    (acc.count, acc.sum, acc.min, acc.max)
}

#[test]
fn the_extremes_are_those_of_what_is_left(rt: HostRuntime) -> Result<(), Fail> {
    let mut slide = Slide::new(rt.alloc());
    slide.enter(5, Acc::one(3))?;
    slide.enter(10, Acc::one(9))?;
    assert_eq!(rt; slide.total().map(known), Some((2, 12, 3, 9)));
    slide.leave(5);
    assert_eq!(rt; slide.total().map(known), Some((1, 9, 9, 9)));
    slide.leave(10);
    assert_eq!(rt; slide.total().map(known), None);
    Ok(())
}
