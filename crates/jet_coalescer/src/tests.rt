// What the coalescer answers, call by call: two queues whose watermark rises with the slower one and ends with the last,
// and queues that are idle for a time.
use super::*;
use jet_items::Mark;
use std::test::Fail;
use std::thread;
use std::thread::Threads;

fn time(mark: Option<Mark>) -> Option<i64> {
    mark.map(|mark| mark.t)
}

fn raised(change: Change) -> Option<i64> {
    match change {
        Change::Raised(mark) => Some(mark.t),
        _ => None,
    }
}

#[test]
fn the_slower_of_two_queues_decides(rt: HostRuntime) -> Result<(), Fail> {
    let mut coalescer = Coalescer::new(rt.alloc(), 2)?;
    assert_eq!(rt; time(coalescer.low()), None);
    assert_eq!(rt; time(coalescer.observe(0, Mark { t: 5 })), None);
    assert_eq!(rt; time(coalescer.observe(1, Mark { t: 3 })), Some(3));
    assert_eq!(rt; time(coalescer.observe(1, Mark { t: 4 })), Some(4));
    assert_eq!(rt; time(coalescer.observe(1, Mark { t: 2 })), None);
    assert_eq!(rt; time(coalescer.low()), Some(4));
    assert_eq!(rt; raised(coalescer.done(1)), Some(5));
    assert_eq!(rt; matches!(coalescer.done(0), Change::AllDone), true);
    assert_eq!(rt; time(coalescer.low()), Some(5));
    Ok(())
}

#[test]
fn a_queue_without_a_mark_holds_the_watermark_back(rt: HostRuntime) -> Result<(), Fail> {
    let mut coalescer = Coalescer::new(rt.alloc(), 3)?;
    assert_eq!(rt; time(coalescer.observe(0, Mark { t: 5 })), None);
    assert_eq!(rt; matches!(coalescer.done(0), Change::Unchanged), true);
    assert_eq!(rt; time(coalescer.observe(1, Mark { t: -7 })), None);
    assert_eq!(rt; raised(coalescer.done(2)), Some(-7));
    Ok(())
}

#[test]
fn the_watermark_does_not_wait_for_an_idle_queue(rt: HostRuntime) -> Result<(), Fail> {
    let mut coalescer = Coalescer::new(rt.alloc(), 2)?;
    assert_eq!(rt; time(coalescer.observe(0, Mark { t: 5 })), None);
    assert_eq!(rt; time(coalescer.idle(1)), Some(5));
    assert_eq!(rt; time(coalescer.wake(1)), None);
    assert_eq!(rt; time(coalescer.observe(1, Mark { t: 3 })), None);
    assert_eq!(rt; time(coalescer.observe(0, Mark { t: 9 })), None);
    assert_eq!(rt; time(coalescer.observe(1, Mark { t: 8 })), Some(8));
    Ok(())
}

#[test]
fn a_wake_may_raise_the_watermark_and_never_lowers_it(rt: HostRuntime) -> Result<(), Fail> {
    let mut coalescer = Coalescer::new(rt.alloc(), 2)?;
    assert_eq!(rt; time(coalescer.observe(0, Mark { t: 5 })), None);
    assert_eq!(rt; time(coalescer.idle(0)), None);
    assert_eq!(rt; time(coalescer.idle(1)), None);
    assert_eq!(rt; time(coalescer.wake(0)), Some(5));
    assert_eq!(rt; time(coalescer.wake(1)), None);
    assert_eq!(rt; matches!(coalescer.done(1), Change::Unchanged), true);
    assert_eq!(rt; time(coalescer.low()), Some(5));
    Ok(())
}

fn low_apart<R: Threads + Sync>(rt: &R, coalescer: Coalescer) -> (Coalescer, Option<Mark>) {
    let (lowest, _) = thread::join(
        rt,
        move || {
            let low = coalescer.low();
            (coalescer, low)
        },
        || (),
    );
    lowest
}

#[test]
fn a_coalescer_crosses_to_a_thread_and_back(rt: HostRuntime) -> Result<(), Fail> {
    let mut coalescer = Coalescer::new(rt.alloc(), 1)?;
    assert_eq!(rt; time(coalescer.observe(0, Mark { t: 5 })), Some(5));
    let (_, low) = low_apart(&rt, coalescer);
    assert_eq!(rt; time(low), Some(5));
    Ok(())
}
