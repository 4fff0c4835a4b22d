// Routers over two rings of two slots.
ghost use Rattle.std.specs.Prelude.{◌≡◌, slice_get, IfSome, false, vec_len};
ghost use Rattle.jet_ring.specs.Ring.{rx_ring};
ghost use Rattle.jet_router.specs.Router.{view, rings};

use super::*;
use jet_items::{Event, Item, Key, Mark};
use jet_ring::{Rx, Tx, ring};
use std::alloc::Global;
use std::test::Fail;
use std::thread;
use std::thread::Threads;

struct Made {
    router: Router,
    first: Rx<Item>,
    second: Rx<Item>,
}

// A broadcast router over two rings.
fn broadcast(alloc: Global) -> Option<Made>
    ensures idle { IfSome result (λ m. (view m.router).busy ≡ false) }
    ensures first { IfSome result (λ m. slice_get (rings (view m.router)) 0 ≡ Some (rx_ring m.first)) }
    ensures second { IfSome result (λ m. slice_get (rings (view m.router)) 1 ≡ Some (rx_ring m.second)) }
{
    let (a, first) = ring::<Item>(alloc, 2).ok()?;
    let (b, second) = ring::<Item>(alloc, 2).ok()?;
    let dests = Vec::from_array(alloc, [a, b]).ok()?;
    let router = Router::broadcast(alloc, dests).ok()?;
    Some(Made {
        router,
        first,
        second,
    })
}

// The event of a line of file 0.
fn event(key: &[u8], line: u32) -> Option<Item> {
    let key = Key::read(key, 24).ok()?;
    Some(Item::Event(Event {
        part: 0,
        line,
        ts: 7,
        key,
        v: [0; 4],
    }))
}

fn line_of(event: &Event) -> u32 {
    event.line
}

// The line of an event, and 0 for anything else.
fn line_taken(rx: &mut Rx<Item>) -> Option<u32> {
    let taken = rx.take()?;
    match &taken {
        Item::Event(event) => Some(line_of(event)),
        _ => Some(0),
    }
}

#[test]
fn a_mark_waits_for_a_full_ring(rt: HostRuntime) -> Result<(), Fail> {
    let Made {
        mut router,
        mut first,
        mut second,
    } = broadcast(rt.alloc()).ok_or("memory")?;
    let x = event(b"a", 1).ok_or("key")?;
    let y = event(b"a", 2).ok_or("key")?;
    let mark = Item::Mark(Mark::new(5).ok_or("range")?);
    assert!(rt; matches!(router.give(&x), Given::All));
    assert!(rt; matches!(router.give(&y), Given::All));
    assert!(rt; router.refresh_dest(0, &mut first).is_ok());
    assert!(rt; first.take().is_some());
    assert!(rt; router.refresh_dest(0, &mut first).is_ok());
    assert!(rt; matches!(router.give(&mark), Given::Again));
    assert!(rt; router.refresh_dest(1, &mut second).is_ok());
    assert!(rt; second.take().is_some());
    assert!(rt; router.refresh_dest(1, &mut second).is_ok());
    assert!(rt; matches!(router.give(&mark), Given::All));
    assert!(rt; router.refresh_dest(0, &mut first).is_ok());
    assert_eq!(rt; line_taken(&mut first), Some(2));
    assert_eq!(rt; line_taken(&mut first), Some(0));
    assert_eq!(rt; line_taken(&mut first), None);
    Ok(())
}

// The ends of a ring of three slots and of one of two.
fn ends(alloc: Global) -> Option<Vec<Tx<Item>>>
    ensures { IfSome result (λ v. vec_len v ≡ 2) }
{
    let (a, _) = ring::<Item>(alloc, 3).ok()?;
    let (b, _) = ring::<Item>(alloc, 2).ok()?;
    Vec::from_array(alloc, [a, b]).ok()
}

// A partitioned router of which the first ring takes partition 0, and the second all others.
fn partitioned(alloc: Global) -> Option<Router>
    ensures { IfSome result (λ r. (view r).busy ≡ false) }
{
    let mut table = vec![in alloc; 1; 271].ok()?;
    table[0] = 0;
    Router::partitioned(alloc, ends(alloc)?, table).ok()
}

#[derive(Clone, Copy)]
enum Way {
    Unicast,
    Isolated,
    Broadcast,
    Partitioned,
}

// A router over these ends; an isolated one has a ring of two slots.
fn router_of(alloc: Global, way: Way) -> Option<Router>
    ensures { IfSome result (λ r. (view r).busy ≡ false) }
{
    match way {
        Way::Unicast => Router::unicast(alloc, ends(alloc)?).ok(),
        Way::Isolated => {
            let (end, _) = ring::<Item>(alloc, 2).ok()?;
            Router::isolated(alloc, end).ok()
        }
        Way::Broadcast => Router::broadcast(alloc, ends(alloc)?).ok(),
        Way::Partitioned => partitioned(alloc),
    }
}

// How many of six gifts of an item are whole.
fn gifts(mut router: Router, item: &Item) -> u32
    requires { (view router).busy ≡ false }
{
    let mut whole = 0;
    for number in 1..=6 {
        if matches!(router.give(item), Given::All) {
            whole = number;
        }
    }
    whole
}

#[test]
fn each_route_gives_what_its_rings_hold(rt: HostRuntime) -> Result<(), Fail> {
    let alloc = rt.alloc();
    let x = event(b"a", 1).ok_or("key")?;
    let mark = Item::Mark(Mark::new(5).ok_or("range")?);
    for (way, item, whole) in [
        (Way::Unicast, x, 5),
        (Way::Unicast, Item::Idle, 5),
        (Way::Isolated, x, 2),
        (Way::Broadcast, x, 2),
        (Way::Broadcast, Item::Idle, 2),
        (Way::Partitioned, x, 2),
        (Way::Partitioned, Item::Idle, 3),
        (Way::Partitioned, mark, 2),
    ] {
        assert_eq!(rt; gifts(router_of(alloc, way).ok_or("memory")?, &item), whole);
    }
    Ok(())
}

fn moved_apart<R: Threads + Sync>(rt: &R, router: Router) -> (Router, u32) {
    let (moved, _) = thread::join(
        rt,
        move || {
            let dests = router.dests();
            (router, dests)
        },
        || (),
    );
    moved
}

#[test]
fn a_router_crosses_to_a_thread_and_back(rt: HostRuntime) -> Result<(), Fail> {
    let alloc = rt.alloc();
    let router = Router::unicast(alloc, ends(alloc).ok_or("memory")?)
        .ok()
        .ok_or("memory")?;
    let (_, dests) = moved_apart(&rt, router);
    assert_eq!(rt; dests, 2);
    Ok(())
}
