// A stock that runs empty, and a buffer that runs full.
use super::*;
use std::test::Fail;

#[test]
fn a_stock_of_four_gives_four(rt: HostRuntime) -> Result<(), Fail> {
    let mut stock = Stock::new(rt.alloc(), 4, 3)?;
    let first = stock.take();
    let rest = [
        stock.take().is_some(),
        stock.take().is_some(),
        stock.take().is_some(),
        stock.take().is_some(),
    ];
    assert_eq!(rt; rest, [true, true, true, false]);
    if let Some(mut buf) = first {
        assert_eq!(rt; buf.push(b"ab"), true);
        stock.put(buf);
    }
    assert_eq!(rt; stock.inside(), 1);
    assert_eq!(rt; stock.take().map(|buf| buf.bytes().len()), Some(0));
    assert_eq!(rt; stock.take().is_none(), true);
    Ok(())
}

#[test]
fn a_buffer_takes_what_fits(rt: HostRuntime) -> Result<(), Fail> {
    let mut buf = Buf::new(rt.alloc(), 3)?;
    let cases: [(&[u8], bool, &[u8]); 5] = [
        (b"ab", true, b"ab"),
        (b"cd", false, b"ab"),
        (b"", true, b"ab"),
        (b"c", true, b"abc"),
        (b"d", false, b"abc"),
    ];
    for (bytes, fits, after) in cases {
        assert_eq!(rt; buf.push(bytes), fits);
        assert_eq!(rt; buf.bytes(), after);
    }
    assert_eq!(rt; buf.room(), 3);
    Ok(())
}
