// A worked case: two sources over three files give to both of two windows, and these to the sink.
use super::*;
use jet_items::{Item, List, NoMemory};
use jet_layout::{Layout, Port, Taker, Wire};
use std::alloc::Global;
use std::test::Fail;

fn output(task: usize) -> Giver {
    Giver::Output(Port { task, number: 0 })
}

fn input(task: usize) -> Taker {
    Taker::Input(Port { task, number: 0 })
}

fn wires(alloc: Global) -> Result<List<Wire>, NoMemory> {
    let mut wires = List::new(alloc);
    for (task, taker) in [
        (0, input(2)),
        (0, input(3)),
        (1, input(2)),
        (1, input(3)),
        (2, Taker::Sink),
        (3, Taker::Sink),
    ] {
        let giver = Port { task, number: 0 };
        wires.push(Wire { giver, taker })?;
    }
    Ok(wires)
}

fn layout(alloc: Global) -> Result<Layout, NoMemory> {
    let mut files = List::new(alloc);
    for task in [0, 1, 0] {
        files.push(Port { task, number: 0 })?;
    }
    Ok(Layout {
        ends: List::new(alloc),
        joints: List::new(alloc),
        tasks: List::new(alloc),
        links: List::new(alloc),
        wires: wires(alloc)?,
        files,
    })
}

fn harness(alloc: Global) -> Result<Harness, NoMemory> {
    Harness::new(alloc, &layout(alloc)?, 2)
}

#[test]
fn each_ring_joins_its_two(rt: HostRuntime) -> Result<(), Fail> {
    for (giver, dest, taker, queue) in [
        (output(0), 0, input(2), 0),
        (output(0), 1, input(3), 0),
        (output(1), 0, input(2), 1),
        (output(1), 1, input(3), 1),
        (output(2), 0, Taker::Sink, 0),
        (output(3), 0, Taker::Sink, 1),
        (Giver::File, 0, input(0), 0),
        (Giver::File, 1, input(1), 0),
        (Giver::File, 2, input(0), 1),
    ] {
        let mut harness = harness(rt.alloc()).map_err(|_| "memory")?;
        let mut txs = harness.take_txs(rt.alloc(), giver).map_err(|_| "memory")?;
        let mut rxs = harness.take_rxs(rt.alloc(), taker).map_err(|_| "memory")?;
        let tx = txs.get_mut(dest).ok_or("destination")?;
        assert!(rt; tx.offer(Item::Done).is_ok());
        for (number, rx) in rxs.iter_mut().enumerate() {
            assert!(rt; rx.take().is_some() == (number == queue));
        }
    }
    Ok(())
}

#[test]
fn ends_are_taken_once(rt: HostRuntime) -> Result<(), Fail> {
    let mut harness = harness(rt.alloc()).map_err(|_| "memory")?;
    for count in [3, 0] {
        let txs = harness
            .take_txs(rt.alloc(), Giver::File)
            .map_err(|_| "memory")?;
        assert!(rt; txs.len() == count);
    }
    for count in [2, 0] {
        let rxs = harness
            .take_rxs(rt.alloc(), Taker::Sink)
            .map_err(|_| "memory")?;
        assert!(rt; rxs.len() == count);
    }
    Ok(())
}
