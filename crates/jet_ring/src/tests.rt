// Two threads that meet by being joined, and what a meeting shows of a ring of two slots.
ghost use Rattle.std.specs.Prelude.{◌≡◌, ◌++◌, ◌↔◌, IfOk, IfSome, IsNone};
ghost use Rattle.jet_ring.specs.Ring.{sent, received, known_items, tx_ring, rx_ring, IsPair};

use super::*;
use std::alloc::AllocError;
use std::test::Fail;
use std::thread;
use std::thread::Threads;

// Straight after a meeting nothing comes exactly where every item sent has been received.
fn take_at_meeting(tx: &mut Tx<u64>, rx: &mut Rx<u64>) -> Option<u64>
    requires { IsPair tx.old rx.old }
    ensures none { IsNone result ↔ (received rx.old ≡ sent tx.old) }
    ensures pair { IsPair tx.new rx.new }
{
    let _ = refresh(tx, rx);
    let taken = rx.take();
    let _ = refresh(tx, rx);
    taken
}

fn send_all(mut tx: Tx<u64>, count: u64) -> (Tx<u64>, u64)
    ensures { tx_ring result.0 ≡ tx_ring tx }
{
    let mut sent = 0;
    for number in 1..=count {
        if tx.offer(number).is_ok() {
            sent = number;
        }
    }
    (tx, sent)
}

fn take_some(alloc: Global, mut rx: Rx<u64>, tries: u64) -> Result<(Rx<u64>, Vec<u64>), AllocError>
    ensures { IfOk result (λ r. rx_ring r.0 ≡ rx_ring rx) }
{
    let mut taken = Vec::new(alloc);
    for _ in 0..tries {
        if let Some(number) = rx.take() {
            taken.push(number)?;
        }
    }
    Ok((rx, taken))
}

// Both ends cross to threads of their own and come back. Then they meet, whatever was taken meanwhile.
fn across<R: Threads + Sync>(rt: &R, alloc: Global) -> Option<(Tx<u64>, Rx<u64>, Vec<u64>, u64)>
    ensures { IfSome result (λ r. received r.1 ++ known_items r.1 ≡ sent r.0) }
{
    let (tx, rx) = ring::<u64>(alloc, 1024).ok()?;
    let ((mut tx, sent), receiver) = thread::join(
        rt,
        move || send_all(tx, 1000),
        move || take_some(alloc, rx, 5000),
    );
    let (mut rx, taken) = receiver.ok()?;
    refresh(&mut tx, &mut rx).ok()?;
    Some((tx, rx, taken, sent))
}

#[test]
fn a_thousand_numbers_cross_two_threads(rt: HostRuntime) -> Result<(), Fail> {
    let (_tx, mut rx, mut taken, sent) = across(&rt, rt.alloc()).ok_or("memory")?;
    assert_eq!(rt; sent, 1000);
    for _ in 0..1000 {
        if let Some(number) = rx.take() {
            taken.push(number)?;
        }
    }
    assert_eq!(rt; rx.take(), None);
    assert!(rt; taken.iter().copied().eq(1..=1000));
    Ok(())
}

// How many of three offers go through after a meeting of a ring of two slots, into which so many items were offered
// and out of which so many were taken, with a meeting between.
fn room_after(alloc: Global, offered: u64, taken: u64) -> Option<u64> {
    let (tx, mut rx) = ring::<u64>(alloc, 2).ok()?;
    let (mut tx, _) = send_all(tx, offered);
    refresh(&mut tx, &mut rx).ok()?;
    let (mut rx, _) = take_some(alloc, rx, taken).ok()?;
    refresh(&mut tx, &mut rx).ok()?;
    let (_, room) = send_all(tx, 3);
    Some(room)
}

#[test]
fn a_meeting_finds_every_free_slot(rt: HostRuntime) {
    for (offered, taken, room) in [
        (0, 0, 2),
        (1, 0, 1),
        (2, 0, 0),
        (1, 1, 2),
        (2, 1, 1),
        (2, 2, 2),
    ] {
        assert_eq!(rt; room_after(rt.alloc(), offered, taken), Some(room));
    }
}

#[test]
fn a_take_at_a_meeting_is_exact(rt: HostRuntime) -> Result<(), Fail> {
    let (mut tx, mut rx) = ring::<u64>(rt.alloc(), 2).ok().ok_or("memory")?;
    assert_eq!(rt; take_at_meeting(&mut tx, &mut rx), None);
    assert!(rt; tx.offer(7).is_ok());
    assert_eq!(rt; take_at_meeting(&mut tx, &mut rx), Some(7));
    assert_eq!(rt; take_at_meeting(&mut tx, &mut rx), None);
    Ok(())
}

#[test]
fn an_item_is_lent_in_its_slot(rt: HostRuntime) -> Result<(), Fail> {
    let (mut tx, mut rx) = ring::<u64>(rt.alloc(), 2).ok().ok_or("memory")?;
    assert!(rt; !rx.has_item());
    assert!(rt; tx.put(&7));
    assert!(rt; tx.put(&8));
    assert!(rt; !tx.put(&9));
    let _ = refresh(&mut tx, &mut rx);
    for number in [7, 8] {
        assert!(rt; rx.has_item());
        assert_eq!(rt; *rx.front(), number);
        rx.skip();
    }
    assert!(rt; !rx.has_item());
    Ok(())
}
