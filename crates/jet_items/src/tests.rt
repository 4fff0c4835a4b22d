// Worked cases of keys, partitions and marks.
use super::*;
use std::collections::HashMap;
use std::test::Fail;

#[test]
fn keys_are_read_or_refused(rt: HostRuntime) -> Result<(), Fail> {
    let long = [b'k'; 41];
    let cases: [(&[u8], u8, Option<KeyFault>); 7] = [
        (b"sensor-1", 24, None),
        (b"a.b:c/d_e", 24, None),
        (b"", 24, Some(KeyFault::Empty)),
        (b"ab", 1, Some(KeyFault::Long)),
        (b"a b", 24, Some(KeyFault::BadByte(1))),
        (b"abc!", 3, Some(KeyFault::Long)),
        (&long, 40, Some(KeyFault::Long)),
    ];
    for (bytes, most, fault) in cases {
        assert_eq!(rt; Key::read(bytes, most).err(), fault);
    }
    Ok(())
}

#[test]
fn keys_have_their_partitions(rt: HostRuntime) -> Result<(), Fail> {
    let cases: [(&[u8], u32); 3] = [(b"a", 97), (b"b", 98), (b"ab", 124)];
    for (bytes, partition) in cases {
        let found = Key::read(bytes, 24).ok().map(|key| partition_of(&key));
        assert_eq!(rt; found, Some(partition));
    }
    Ok(())
}

#[test]
fn a_table_finds_keys(rt: HostRuntime) -> Result<(), Fail> {
    let mut places = HashMap::new(rt.alloc());
    let cases: [(&[u8], u8); 3] = [(b"a", 0), (b"sensor-1", 1), (b"sensor-12:left", 2)];
    for (bytes, place) in cases {
        if let Ok(key) = Key::read(bytes, 24) {
            assert_eq!(rt; places.insert(key, place).ok(), Some(None));
        }
    }
    for (bytes, place) in cases {
        let found = Key::read(bytes, 24)
            .ok()
            .and_then(|key| places.get(&key).copied());
        assert_eq!(rt; found, Some(place));
    }
    Ok(())
}

#[test]
fn a_joined_key_is_cut_at_forty_bytes(rt: HostRuntime) -> Result<(), Fail> {
    let cases: [(&[u8], &[u8], &[u8]); 2] = [
        (b"a", b":x", b"a:x"),
        (
            b"0123456789012345678901234",
            b":12345678901234567",
            b"0123456789012345678901234:12345678901234",
        ),
    ];
    for (key, tag, joined) in cases {
        let keys = Key::read(key, 40).ok().zip(Key::read(tag, 40).ok());
        let found = keys.map(|(key, tag)| key.joined(&tag));
        assert_eq!(rt; found == Key::read(joined, 40).ok(), true);
    }
    Ok(())
}

#[test]
fn a_list_keeps_its_items_in_order(rt: HostRuntime) -> Result<(), Fail> {
    let mut list = List::new(rt.alloc());
    assert_eq!(rt; list.items().len(), 0);
    for n in 0u32..3 {
        assert_eq!(rt; list.push(n), Ok(()));
    }
    assert_eq!(rt; list.items(), [0, 1, 2].as_slice());
    Ok(())
}
