// Worked cases of sizes, rounding and marks, below 0 too.
use super::*;
use jet_items::Mark;
use std::test::Fail;

#[test]
fn sizes_are_taken_or_refused(rt: HostRuntime) -> Result<(), Fail> {
    let most = 1_000_000_000_000;
    let cases = [
        (1, 1, None),
        (most, most, None),
        (1024, 1, None),
        (0, 1, Some(PolicyFault::Size)),
        (most + 1, 1, Some(PolicyFault::Size)),
        (0, 0, Some(PolicyFault::Size)),
        (10, 0, Some(PolicyFault::Slide)),
        (10, most + 1, Some(PolicyFault::Slide)),
        (10, 4, Some(PolicyFault::NotMultiple)),
        (5, 10, Some(PolicyFault::NotMultiple)),
        (1025, 1, Some(PolicyFault::Ratio)),
    ];
    for (size, slide, fault) in cases {
        assert_eq!(rt; WinPolicy::new(size, slide).err(), fault);
    }
    Ok(())
}

#[test]
fn times_are_rounded_below_zero_too(rt: HostRuntime) -> Result<(), Fail> {
    let cases: [(i64, i64, i64); 6] = [
        (0, 0, 5),
        (4, 0, 5),
        (5, 5, 10),
        (-1, -5, 0),
        (-5, -5, 0),
        (-6, -10, -5),
    ];
    if let Ok(policy) = WinPolicy::new(10, 5) {
        for (t, floor, end) in cases {
            assert_eq!(rt; policy.floor(t), floor);
            assert_eq!(rt; policy.frame_end(t), end);
        }
        assert_eq!(rt; policy.last_end(5), 10);
    }
    Ok(())
}

#[test]
fn the_mark_rises_or_stays(rt: HostRuntime) -> Result<(), Fail> {
    let cases: [(i64, Option<i64>); 5] = [
        (7, Some(0)),
        (20, Some(15)),
        (14, None),
        (24, None),
        (25, Some(20)),
    ];
    let mut marker = Marker::new(5, 5);
    for (ts, mark) in cases {
        assert_eq!(rt; marker.see(ts).map(|mark| mark.t), mark);
    }
    assert_eq!(rt; marker.mark().map(|mark| mark.t), Some(20));
    assert_eq!(rt; marker.is_behind(19), true);
    assert_eq!(rt; marker.is_behind(20), false);
    Ok(())
}
