// The first line of bytes that may go on. At most 514 bytes are searched for its end: a line of 512, a carriage return
// and a line feed.
ghost use Rattle.std.specs.Prelude.{◌≡◌, ◌+◌, ◌<◌, ◌≤◌, IfSome, IfNone, None, length, min, slice_index};
ghost use Rattle.std.specs.Str.Lines.{strip_carriage_return};
ghost use Rattle.jet_lines.specs.Cutting.{IsFront};
ghost use Rattle.jet_lines.specs.Feeds.{NoFeed};

use crate::fault::LineFault;
use memchr::memchr;

/// The most bytes of a line, without its line feed and one carriage return.
///
/// A good line without quotation marks has at most 114 bytes: five numbers of 17, a key of 24 and five commas. So 512 refuses
/// none that spells its numbers and key with a few bytes more, and is all that is held of a line that does not end.
pub(crate) const MOST_BYTES: usize = 512;

/// What comes next of a file that is cut into lines. Lines are numbered from 1 on, empty ones too.
#[derive(Clone, Copy, Debug, PartialEq, Eq)]
pub enum Cut {
    /// The line of this number stands ready.
    Line(u32),
    /// More bytes are wanted, or the word that there are none.
    More,
    /// The line of this number is bad: `TooMany` or `TooLong`. Each later call answers the same.
    Bad(u32, LineFault),
    /// There is no line more.
    End,
}

/// What the front of bytes is.
#[derive(Clone, Copy, Debug, PartialEq, Eq)]
pub(crate) enum Front {
    // A line of so many bytes, and so many with its end.
    Line(usize, usize),
    More,
    Long,
    End,
}

/// What the front of bytes is, of which so many are known to hold no line feed.
pub(crate) fn front_of(rest: &[u8], clear: usize, ended: bool) -> Front
    requires clear { NoFeed rest.now clear }
    ensures { IsFront rest.now ended result }
{
    let most = rest.len().min(MOST_BYTES + 2);
    match feed_from(&rest[..most], clear.min(most)) {
        Some(at) => {
            let len = without_return(&rest[..at]).len();
            if len > MOST_BYTES {
                Front::Long
            } else {
                Front::Line(len, at + 1)
            }
        }
        None => unended(rest, ended),
    }
}

// The same of bytes whose first 514 hold no line feed.
fn unended(rest: &[u8], ended: bool) -> Front
    requires { NoFeed rest.now (min (length rest.now) 514) }
    ensures { IsFront rest.now ended result }
{
    let len = without_return(rest).len();
    if len > MOST_BYTES {
        return Front::Long;
    }
    if !ended {
        return Front::More;
    }
    if rest.is_empty() {
        return Front::End;
    }
    Front::Line(len, rest.len())
}

// Where the first line feed stands in bytes of which so many hold none.
fn feed_from(bytes: &[u8], clear: usize) -> Option<usize>
    requires fits { clear ≤ length bytes.now }
    requires clear { NoFeed bytes.now clear }
    ensures bound { IfSome result (λ at. at < length bytes.now) }
    ensures here { IfSome result (λ at. slice_index bytes.now at ≡ 10) }
    ensures before { IfSome result (λ at. NoFeed bytes.now at) }
    ensures none { IfNone result (NoFeed bytes.now (length bytes.now)) }
{
    match line_feed(&bytes[clear..]) {
        Some(at) => Some(clear + at),
        None => None,
    }
}

// Where the first line feed stands.
fn line_feed(bytes: &[u8]) -> Option<usize>
    ensures bound { IfSome result (λ at. at < length bytes.now) }
    ensures before { IfSome result (λ at. NoFeed bytes.now at) }
    ensures here { IfSome result (λ at. slice_index bytes.now at ≡ 10) }
    ensures none { IfNone result (NoFeed bytes.now (length bytes.now)) }
{
    memchr(b'\n', bytes)
}

// A line without one carriage return at its end.
fn without_return(line: &[u8]) -> &[u8]
    ensures { result.now ≡ strip_carriage_return line.now }
{
    match line {
        [front @ .., b'\r'] => front,
        _ => line,
    }
}
