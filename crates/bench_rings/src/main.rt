//! Measures what an item costs that goes through a ring of 1024 slots: with both ends on one thread, and with each end
//! on a thread of its own between two meetings.
//!
//! It prints whether all items sent were taken, and on standard error the time of an item.
#![tactic(auto)]

ghost use Rattle.std.specs.Prelude.{◌≡◌};
ghost use Rattle.jet_ring.specs.Ring.{tx_ring, rx_ring, IsPair};

use jet_ring::{Rx, Tx, refresh, ring};
use std::thread::Threads;
use std::time::Instant;
use std::{io, thread};

const SLOTS: u64 = 1024;

const ROUNDS: u32 = 50;

fn main(rt: HostRuntime) -> io::Result<()> {
    let Ok((mut tx, mut rx)) = ring::<u64>(rt.alloc(), 1024) else {
        return Err(io::Error::from(io::ErrorKind::OutOfMemory));
    };
    let start = Instant::now(&rt)?;
    let (sent, taken) = on_one_thread(&mut tx, &mut rx);
    let nanos = start.elapsed(&rt)?.as_nanos();
    println!(rt; "one thread: all taken: {}", sent == taken)?;
    if sent > 0 {
        eprintln!(rt; "one thread: {} ns an item", nanos / u128::from(sent))?;
    }
    let start = Instant::now(&rt)?;
    let (sent, taken) = on_two_threads(&rt, tx, rx);
    let nanos = start.elapsed(&rt)?.as_nanos();
    println!(rt; "two threads: all taken: {}", sent == taken)?;
    if sent > 0 {
        eprintln!(rt; "two threads: {} ns an item", nanos / u128::from(sent))?;
    }
    Ok(())
}

// Fills the ring, and answers how many items that took.
fn fill(tx: &mut Tx<u64>) -> u64
    ensures { tx_ring tx.new ≡ tx_ring tx.old }
{
    let mut sent = 0u64;
    for number in 0..SLOTS {
        if tx.offer(number).is_ok() {
            sent = sent.saturating_add(1);
        }
    }
    sent
}

// Takes what is there, and answers how many items that were.
fn drain(rx: &mut Rx<u64>) -> u64
    ensures { rx_ring rx.new ≡ rx_ring rx.old }
{
    let mut taken = 0u64;
    for _ in 0..SLOTS {
        if rx.take().is_some() {
            taken = taken.saturating_add(1);
        }
    }
    taken
}

fn on_one_thread(tx: &mut Tx<u64>, rx: &mut Rx<u64>) -> (u64, u64)
    requires { IsPair tx.old rx.old }
    ensures { IsPair tx.new rx.new }
{
    let mut sent = 0u64;
    let mut taken = 0u64;
    for _ in 0..ROUNDS {
        sent = sent.saturating_add(fill(tx));
        let _ = refresh(tx, rx);
        taken = taken.saturating_add(drain(rx));
        let _ = refresh(tx, rx);
    }
    (sent, taken)
}

// Fills and drains the ring, each on a thread, until both are done. Then the ends meet.
fn beside<R: Threads + Sync>(rt: &R, tx: Tx<u64>, rx: Rx<u64>) -> (Tx<u64>, Rx<u64>, u64, u64)
    requires { IsPair tx rx }
    ensures { IsPair result.0 result.1 }
{
    let ((mut tx, sent), (mut rx, taken)) = thread::join(
        rt,
        move || filled(tx),
        move || drained(rx),
    );
    let _ = refresh(&mut tx, &mut rx);
    (tx, rx, sent, taken)
}

fn filled(mut tx: Tx<u64>) -> (Tx<u64>, u64)
    ensures { tx_ring result.0 ≡ tx_ring tx }
{
    let sent = fill(&mut tx);
    (tx, sent)
}

fn drained(mut rx: Rx<u64>) -> (Rx<u64>, u64)
    ensures { rx_ring result.0 ≡ rx_ring rx }
{
    let taken = drain(&mut rx);
    (rx, taken)
}

fn on_two_threads<R: Threads + Sync>(rt: &R, mut tx: Tx<u64>, mut rx: Rx<u64>) -> (u64, u64)
    requires { IsPair tx rx }
{
    let mut sent = 0u64;
    let mut taken = 0u64;
    for _ in 0..ROUNDS {
        let (next_tx, next_rx, more_sent, more_taken) = beside(rt, tx, rx);
        tx = next_tx;
        rx = next_rx;
        sent = sent.saturating_add(more_sent);
        taken = taken.saturating_add(more_taken);
    }
    (sent, taken.saturating_add(drain(&mut rx)))
}
