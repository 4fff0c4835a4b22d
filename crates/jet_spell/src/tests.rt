// Spellings written out as bytes, and bytes that are no packet.
use super::*;
use jet_items::{Item, Refused};
use jet_pool::{Buf, Stock};
use std::alloc::Global;
use std::test::Fail;

/// An event of part 0 and line 1, at 7 with key `a` and the values 2, 0, 0 and 0.
const EVENT: &[u8; 49] =
    b"\x01\0\0\0\0\0\x01\0\0\0\0\0\0\0\x07\x01a\0\0\0\0\0\0\0\x02\0\0\0\0\0\0\0\0\0\0\0\0\0\0\0\0\0\0\0\0\0\0\0\0";

// A buffer with room for any item.
fn room(alloc: Global) -> Result<Buf, Fail> {
    let mut stock = Stock::new(alloc, 1, 119)?;
    Ok(stock.take().ok_or("a stock of one has one")?)
}

// The fault of the bytes, or how many items they are.
fn items_in(alloc: Global, bytes: &[u8]) -> Result<usize, Option<PacketFault>> {
    if bytes.len() > 65_536 {
        return Err(None);
    }
    match read_packet(alloc, bytes) {
        Ok(items) => Ok(items.len()),
        Err(Refused::Fault(fault)) => Err(Some(fault)),
        Err(Refused::NoMemory) => Err(None),
    }
}

#[test]
fn packets_are_read_or_refused(rt: HostRuntime) -> Result<(), Fail> {
    let alloc = rt.alloc();
    let malformed = |at| Err(Some(PacketFault::Malformed(at)));
    let cases: [(&[u8], Result<usize, Option<PacketFault>>); 6] = [
        (b"\x06\0\0\0\0\0\0\0\x0f\x07", Ok(2)),
        (b"\x06\0", malformed(0)),
        (b"\x07\x08", Ok(2)),
        (b"\x07\x09", malformed(1)),
        (b"", malformed(0)),
        (EVENT, Ok(1)),
    ];
    for (bytes, answer) in cases {
        assert_eq!(rt; items_in(alloc, bytes), answer);
    }
    for len in 0..49 {
        assert_eq!(rt; items_in(alloc, &EVENT[..len]), malformed(0));
    }
    let mut packet = EVENT.to_vec(alloc)?;
    packet.push(6)?;
    assert_eq!(rt; items_in(alloc, &packet), malformed(49));
    Ok(())
}

#[test]
fn each_kind_has_its_bytes(rt: HostRuntime) -> Result<(), Fail> {
    let alloc = rt.alloc();
    let spellings: [&[u8]; 8] = [
        EVENT,
        b"\x02\0\0\0\x05\x01k\x02g1\0\0\0\0\0\0\0\x01\0\0\0\0\0\0\0\x02\0\0\0\0\0\0\0\x03\xff\xff\xff\xff\xff\xff\xff\xfc",
        b"\x03\x02\0\0\0\0\0\0\0\x0a\x01k\0\0\0\0\0\0\0\x01\xff\xff\xff\xff\xff\xff\xff\xff\xff\xff\xff\xff\xff\xff\xff\xfe\xff\xff\xff\xff\xff\xff\xff\xfe\xff\xff\xff\xff\xff\xff\xff\xfe",
        b"\x04\x02\0\0\0\0\0\0\0\x14\x01k\0\0\0\0\0\0\0\x02\0\0\0\0\0\0\0\0\0\0\0\0\0\0\0\x09\0\0\0\0\0\0\0\x04\0\0\0\0\0\0\0\x05",
        b"\x05\x03\0\x01\0\0\0\x02\xff\xff\xff\xff\xff\xff\xff\xf9\x01k\0\0\0\0\0\0\0\0\0\0\0\0\0\0\0\0\0\0\0\0\0\0\0\0\0\0\0\0\0\0\0\0",
        b"\x06\0\0\0\0\0\0\0\x0f",
        b"\x07",
        b"\x08",
    ];
    for bytes in spellings {
        let (item, len) = read_item(bytes).ok_or("no item")?;
        assert_eq!(rt; len, bytes.len());
        let mut buf = room(alloc)?;
        assert_eq!(rt; write_item(&item, &mut buf), true);
        assert_eq!(rt; buf.bytes(), bytes);
    }
    Ok(())
}

#[test]
fn an_event_is_read_field_by_field(rt: HostRuntime) {
    let fields = match &read_item(EVENT) {
        Some((Item::Event(event), 49)) => {
            let named = event.key.bytes() == b"a".as_slice();
            Some((event.part, event.line, event.ts, named, event.v))
        }
        _ => None,
    };
    assert_eq!(rt; fields, Some((0, 1, 7, true, [2, 0, 0, 0])));
}

#[test]
fn a_full_buffer_takes_no_item(rt: HostRuntime) -> Result<(), Fail> {
    let mut stock = Stock::new(rt.alloc(), 1, 2)?;
    let mut buf = stock.take().ok_or("a stock of one has one")?;
    assert_eq!(rt; write_item(&Item::Done, &mut buf), true);
    assert_eq!(rt; write_item(&Item::Idle, &mut buf), true);
    assert_eq!(rt; write_item(&Item::Done, &mut buf), false);
    assert_eq!(rt; buf.bytes(), b"\x07\x08".as_slice());
    Ok(())
}
