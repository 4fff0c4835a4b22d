// A box that is full, and one that is emptied in order.
use super::*;
use jet_items::{Item, Mark};
use std::test::Fail;
use std::thread;
use std::thread::Threads;

fn is_done(item: Option<&Item>) -> Option<bool> {
    item.map(|item| item.is_done())
}

#[test]
fn a_full_box_gives_the_item_back(rt: HostRuntime) -> Result<(), Fail> {
    let mut outbox = Outbox::new(rt.alloc(), 1)?;
    assert_eq!(rt; outbox.free(), 1);
    assert_eq!(rt; outbox.offer(Item::Done).is_ok(), true);
    assert_eq!(rt; outbox.free(), 0);
    let back = outbox.offer(Item::Done);
    assert_eq!(rt; matches!(back, Err(Item::Done)), true);
    assert_eq!(rt; is_done(outbox.front()), Some(true));
    assert_eq!(rt; is_done(outbox.pop().as_ref()), Some(true));
    assert_eq!(rt; is_done(outbox.front()), None);
    assert_eq!(rt; is_done(outbox.pop().as_ref()), None);
    Ok(())
}

#[test]
fn the_first_item_in_is_the_first_out(rt: HostRuntime) -> Result<(), Fail> {
    let mut inbox = Inbox::new(rt.alloc(), 2)?;
    assert_eq!(rt; inbox.offer(Item::Mark(Mark { t: 7 })).is_ok(), true);
    assert_eq!(rt; inbox.offer(Item::Done).is_ok(), true);
    assert_eq!(rt; is_done(inbox.front()), Some(false));
    assert_eq!(rt; is_done(inbox.pop().as_ref()), Some(false));
    assert_eq!(rt; is_done(inbox.pop().as_ref()), Some(true));
    assert_eq!(rt; inbox.free(), 2);
    Ok(())
}

#[test]
fn an_item_is_copied_in_and_skipped(rt: HostRuntime) -> Result<(), Fail> {
    let mut outbox = Outbox::new(rt.alloc(), 2)?;
    assert!(rt; outbox.put(&Item::Mark(Mark { t: 7 })));
    assert!(rt; outbox.put(&Item::Done));
    assert!(rt; !outbox.put(&Item::Done));
    assert_eq!(rt; is_done(outbox.front()), Some(false));
    outbox.skip();
    assert_eq!(rt; is_done(outbox.front()), Some(true));
    outbox.skip();
    assert_eq!(rt; is_done(outbox.front()), None);
    outbox.skip();
    assert_eq!(rt; outbox.free(), 2);
    Ok(())
}

fn popped_apart<R: Threads + Sync>(rt: &R, inbox: Inbox) -> (Inbox, Option<Item>) {
    let (popped, _) = thread::join(
        rt,
        move || {
            let mut inbox = inbox;
            let first = inbox.pop();
            (inbox, first)
        },
        || (),
    );
    popped
}

#[test]
fn a_box_crosses_to_a_thread_and_back(rt: HostRuntime) -> Result<(), Fail> {
    let mut inbox = Inbox::new(rt.alloc(), 2)?;
    assert_eq!(rt; inbox.offer(Item::Done).is_ok(), true);
    let (inbox, first) = popped_apart(&rt, inbox);
    assert_eq!(rt; is_done(first.as_ref()), Some(true));
    assert_eq!(rt; inbox.free(), 2);
    Ok(())
}
