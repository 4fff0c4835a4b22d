// Files that are fed into small rings, piece by piece, until they are over.
ghost use Rattle.std.specs.Prelude.{◌≡◌, ◌≤◌, IsTrue};
ghost use Rattle.jet_ring.specs.Ring.{IsPair};

use super::*;
use jet_file::{FileNo, MemoryOutside, Outside};
use jet_items::{Item, Mark, NoMemory};
use jet_lines::LineFault;
use jet_ring::{Rx, Tx, refresh, ring};
use jet_worker::Stop;
use std::alloc::Global;
use std::test::Fail;

const IDLE: i64 = -1;

const DONE: i64 = -2;

// Most items that a ring of these tests holds.
const MOST: usize = 8;

// What a test looks at of an item: the time of an event, the line of a row of a side file.
fn sign_of(item: &Item) -> i64 {
    match item {
        Item::Event(event) => event.ts,
        Item::Side(side) => side.line as i64,
        Item::Idle => IDLE,
        Item::Done => DONE,
        _ => 0,
    }
}

// The two ends of a ring, and the signs of the items that were taken out of it.
#[derive(Drop)]
struct Taking {
    tx: Tx<Item>,
    rx: Rx<Item>,
    signs: Vec<i64>,
    ghost pair: { IsPair tx rx },
}

impl Taking {
    fn new(alloc: Global, slots: usize) -> Result<Taking, NoMemory>
        requires { (2 ≤ slots) × (slots ≤ 65536) }
    {
        let (tx, rx) = ring(alloc, slots)?;
        Ok(Taking {
            tx,
            rx,
            signs: Vec::new(alloc),
        })
    }

    // Takes what came.
    fn take(&mut self) -> Result<(), NoMemory> {
        refresh(&mut self.tx, &mut self.rx)?;
        for _ in 0..MOST {
            if let Some(item) = self.rx.take() {
                self.signs.push(sign_of(&item))?;
            }
        }
        refresh(&mut self.tx, &mut self.rx)
    }
}

// Feeds the file until it is over or stops, or nothing moves any more.
fn feed_through<O: Outside>(
    alloc: Global,
    feed: &mut Feed,
    sink: Option<Mark>,
    taking: &mut Taking,
    out: &mut O,
) -> Result<Result<(), Stop>, NoMemory>
    requires opened { IsTrue (O.opened out.old feed.old.file) }
{
    let leave = Leave { sink, ahead: 0 };
    for _ in 0..64 {
        match feed.feed(alloc, &mut taking.tx, &leave, out) {
            Ok(moved) => {
                taking.take()?;
                if !moved {
                    break;
                }
            }
            Err(stop) => {
                taking.take()?;
                return Ok(Err(stop));
            }
        }
    }
    Ok(Ok(()))
}

#[derive(Clone, Copy)]
struct Case {
    is_side: bool,
    content: &'static [u8],
    // The mark of the sink.
    sink: Option<Mark>,
    // The signs of the items that are sent.
    signs: &'static [i64],
    answer: Result<(), Stop>,
    is_over: bool,
}

fn feed_of(alloc: Global, case: &Case, file: FileNo) -> Feed
    ensures { result.file ≡ file }
{
    if case.is_side {
        Feed::side(alloc, 1, file, 100)
    } else {
        Feed::source(alloc, 1, file, 100, 0, 1)
    }
}

// Whether a file that is read in pieces of at most `most` bytes, and fed into a ring of so many slots, is sent as wanted.
fn holds(alloc: Global, case: &Case, slots: usize, most: usize) -> Result<bool, NoMemory>
    requires slots { (2 ≤ slots) × (slots ≤ 65536) }
    requires most { 1 ≤ most }
{
    let mut out = MemoryOutside::new(alloc, Vec::new(alloc), most)?;
    out.add(b"f", case.content.to_vec(alloc)?)?;
    let Ok(file) = out.open_file(b"f") else {
        return Ok(false);
    };
    let mut feed = feed_of(alloc, case, file);
    let mut taking = Taking::new(alloc, slots)?;
    let answer = feed_through(alloc, &mut feed, case.sink, &mut taking, &mut out)?;
    let is_sent = taking.signs.as_slice() == case.signs;
    Ok(is_sent && answer == case.answer && feed.is_over() == case.is_over)
}

const BASE: Case = Case {
    is_side: false,
    content: b"7,a,1\n#idle\n\n20,a,1\n14,b,2",
    sink: Some(Mark { t: 1000 }),
    signs: &[7, IDLE, 20, 14, DONE],
    answer: Ok(()),
    is_over: true,
};

const fn short(line: u32) -> Result<(), Stop> {
    let why = LineFault::Fields;
    Err(Stop::BadLine { part: 1, line, why })
}

#[test]
fn a_ring_is_sent_the_items(rt: HostRuntime) -> Result<(), Fail> {
    let cases = [
        BASE,
        Case {
            content: b"",
            signs: &[DONE],
            ..BASE
        },
        // The lines before a bad one are sent, and none behind it.
        Case {
            content: b"7,a,1\n8,a,1\n9\n10,a,1\n",
            signs: &[7, 8],
            answer: short(3),
            is_over: false,
            ..BASE
        },
        Case {
            is_side: true,
            content: b"a,x\n\nb,y,1\nc,z\n",
            signs: &[1, 3, 4, DONE],
            ..BASE
        },
        Case {
            is_side: true,
            content: b"a,x\n#idle\n",
            signs: &[1],
            answer: short(2),
            is_over: false,
            ..BASE
        },
        // A side file does not wait for the sink.
        Case {
            is_side: true,
            content: b"a,x\n",
            sink: None,
            signs: &[1, DONE],
            ..BASE
        },
    ];
    for case in &cases {
        assert!(rt; holds(rt.alloc(), case, 2, 5)?);
        assert!(rt; holds(rt.alloc(), case, 8, 4096)?);
    }
    Ok(())
}

// A source is read on until it has a mark, and then only as far as the sink allows, or while it is quiet.
#[test]
fn a_source_waits_for_the_sink(rt: HostRuntime) -> Result<(), Fail> {
    let held = |sink, signs| Case {
        sink,
        signs,
        is_over: false,
        ..BASE
    };
    assert!(rt; holds(rt.alloc(), &held(None, &[7]), 2, 6)?);
    assert!(rt; holds(rt.alloc(), &held(Some(Mark { t: 6 }), &[7]), 2, 6)?);
    assert!(rt; holds(rt.alloc(), &held(Some(Mark { t: 7 }), &[7, IDLE, 20]), 2, 6)?);
    let quiet = Case {
        content: b"20,k,1\n#idle\n",
        sink: Some(Mark { t: 6 }),
        signs: &[20, IDLE, DONE],
        ..BASE
    };
    assert!(rt; holds(rt.alloc(), &quiet, 2, 13)?);
    Ok(())
}
