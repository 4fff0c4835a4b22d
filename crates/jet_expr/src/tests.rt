// Worked texts: what they give, and why others give nothing.
use super::*;
use jet_items::{Event, Key, KeyFault, Refused};
use std::alloc::Global;
use std::test::Fail;

fn event() -> Result<Event, KeyFault> {
    Ok(Event {
        part: 2,
        line: 1,
        ts: 1_700_000_000_000,
        key: Key::read(b"sensor-1", 24)?,
        v: [7, -2, 0, 40],
    })
}

// The value of a text for that event.
fn value_of(alloc: Global, text: &[u8]) -> Option<i64> {
    let event = event().ok()?;
    let expr = Expr::read(alloc, text).ok()?;
    Some(expr.value(&event))
}

// The fault of a text, if it has one.
fn fault_of(alloc: Global, text: &[u8]) -> Option<ExprFault> {
    match Expr::read(alloc, text) {
        Err(Refused::Fault(fault)) => Some(fault),
        _ => None,
    }
}

#[test]
fn texts_have_values(rt: HostRuntime) -> Result<(), Fail> {
    let alloc = rt.alloc();
    let cases: [(&[u8], i64); 36] = [
        (b"7/-2", -4),
        (b"-7%3", 2),
        (b"7%-3", -2),
        (b"5/0", 0),
        (b"5%0", 0),
        (b"1000000000000000*2", 1_000_000_000_000_000),
        (b"-1000000000000000-1", -1_000_000_000_000_000),
        (b"0000000000000000000001", 1),
        (b"ts", 1_700_000_000_000),
        (b"part", 2),
        (b"v0", 7),
        (b"v1", -2),
        (b"v2", 0),
        (b" v3 ", 40),
        (b"1+2*3", 7),
        (b"(1+2)*3", 9),
        (b"8-4-2", 2),
        (b"100/10/5", 2),
        (b"--3", 3),
        (b"- -3", 3),
        (b"2 - -3", 5),
        (b"-v1*3", 6),
        (b"1 or 0 and 0", 1),
        (b"(1 or 0) and 0", 0),
        (b"not 1 = 2", 1),
        (b"not not 5", 1),
        (b"not 0 and 0", 0),
        (b"(1<2)<3", 1),
        (b"1<=1", 1),
        (b"1!=1", 0),
        (b"2>1 and 2>=2", 1),
        (b"min(v0,v1)", -2),
        (b"max(min(1,2),3)", 3),
        (b"abs(v1)", 2),
        (b"if(v2,10,20)", 20),
        (b"if(not v2, v3 + 1, 20)", 41),
    ];
    for (text, value) in cases {
        assert_eq!(rt; value_of(alloc, text), Some(value));
    }
    Ok(())
}

#[test]
fn other_texts_have_faults(rt: HostRuntime) -> Result<(), Fail> {
    let alloc = rt.alloc();
    let cases: [(&[u8], ExprFault); 26] = [
        (b"v9", ExprFault::Unknown(0)),
        (b"v0+", ExprFault::Expected(3)),
        (b"1<2<3", ExprFault::Expected(3)),
        (b"1000000000000001", ExprFault::NumberRange(0)),
        (b"", ExprFault::Expected(0)),
        (b"   ", ExprFault::Expected(3)),
        (b"1 + 99999999999999999999999999", ExprFault::NumberRange(4)),
        (b"1 ver", ExprFault::Unknown(2)),
        (b"TS", ExprFault::Unknown(0)),
        (b"v0v1", ExprFault::Unknown(0)),
        (b"1v", ExprFault::Unknown(1)),
        (b"1 2", ExprFault::Expected(2)),
        (b"(1", ExprFault::Expected(2)),
        (b"1)", ExprFault::Expected(1)),
        (b"1!", ExprFault::Expected(1)),
        (b"1 = ! 2", ExprFault::Expected(4)),
        (b"1 = = 2", ExprFault::Expected(4)),
        (b"1 + not 2", ExprFault::Expected(4)),
        (b"-not 2", ExprFault::Expected(1)),
        (b"min 1", ExprFault::Expected(4)),
        (b"min(1)", ExprFault::Expected(5)),
        (b"min(1,2,3)", ExprFault::Expected(7)),
        (b"abs(1,2)", ExprFault::Expected(5)),
        (b"if(1,2)", ExprFault::Expected(6)),
        (b"1 \xff", ExprFault::Expected(2)),
        (b"v_0", ExprFault::Unknown(0)),
    ];
    for (text, fault) in cases {
        assert_eq!(rt; fault_of(alloc, text), Some(fault));
    }
    Ok(())
}

// A text of this many openers, then the rest.
fn nested(
    alloc: Global,
    opener: &[u8],
    count: usize,
    rest: &[u8],
) -> Result<Vec<u8>, std::alloc::AllocError> {
    let mut text = Vec::new(alloc);
    for _ in 0..count {
        text.extend_from_slice(opener)?;
    }
    text.extend_from_slice(rest)?;
    Ok(text)
}

#[test]
fn at_most_32_may_be_open(rt: HostRuntime) -> Result<(), Fail> {
    let alloc = rt.alloc();
    let cases: [(&[u8], usize, &[u8], Option<ExprFault>); 14] = [
        (b"-", 32, b"1", None),
        (b"-", 33, b"1", Some(ExprFault::Deep)),
        (b"not ", 32, b"1", None),
        (b"not ", 33, b"1", Some(ExprFault::Deep)),
        (b"(", 32, b"1", Some(ExprFault::Expected(33))),
        (b"(", 33, b"1", Some(ExprFault::Deep)),
        (b"(", 32, b"min(1,2)", Some(ExprFault::Deep)),
        (b"(", 32, b"min 1", Some(ExprFault::Expected(36))),
        (b"(", 32, b"1 (", Some(ExprFault::Deep)),
        (b"(", 31, b"1 (", Some(ExprFault::Expected(33))),
        (b"(", 32, b"1 - 2 not", Some(ExprFault::Deep)),
        (b"(", 32, b"1 - 2 + v9", Some(ExprFault::Unknown(40))),
        (b"-", 32, b"1 (", Some(ExprFault::Expected(34))),
        (b"-", 32, b"1 - -2", None),
    ];
    for (opener, count, rest, fault) in cases {
        let text = nested(alloc, opener, count, rest)?;
        assert_eq!(rt; fault_of(alloc, &text), fault);
    }
    Ok(())
}

#[test]
fn a_text_has_at_most_1024_bytes(rt: HostRuntime) -> Result<(), Fail> {
    let alloc = rt.alloc();
    let text = nested(alloc, b" ", 1023, b"7")?;
    assert_eq!(rt; value_of(alloc, &text), Some(7));
    let text = nested(alloc, b" ", 1024, b"7")?;
    assert_eq!(rt; fault_of(alloc, &text), Some(ExprFault::Large));
    let text = nested(alloc, b"!", 1025, b"")?;
    assert_eq!(rt; fault_of(alloc, &text), Some(ExprFault::Large));
    Ok(())
}

#[test]
fn a_copy_gives_the_same(rt: HostRuntime) -> Result<(), Fail> {
    let alloc = rt.alloc();
    let event = event().ok();
    let texts: [&[u8]; 3] = [b"7/-2", b"if(v1<0, -v1, abs(v0))", b"min(part, ts) or v2"];
    for text in texts {
        let expr = Expr::read(alloc, text).ok();
        let copy = expr.as_ref().and_then(|e| e.copy(alloc).ok());
        let given = expr.as_ref().zip(event.as_ref()).map(|(e, x)| e.value(x));
        let again = copy.as_ref().zip(event.as_ref()).map(|(e, x)| e.value(x));
        assert_eq!(rt; given.is_some(), true);
        assert_eq!(rt; again, given);
    }
    Ok(())
}

#[test]
fn one_is_true(rt: HostRuntime) -> Result<(), Fail> {
    let held = event().ok().map(|event| Expr::one().test(&event));
    assert_eq!(rt; held, Some(true));
    Ok(())
}
