// A file that comes in pieces, cut into lines. One vector holds the bytes of the last line and those that are left; each
// byte is searched once for a line feed. Bytes are moved only where there is no room behind them, and when room is made it
// is as much again as they take, so that all the work together is linear in the file's size.
ghost use Rattle.std.specs.Prelude.{◌≡◌, ◌≤◌, ◌<◌, ◌+◌, ◌-◌, ◌*◌, ◌++◌, [], false, true, drop, length, max, take, OnOk, OnErr};
ghost use Rattle.jet_lines.specs.Cutting.{NextIs};
ghost use Rattle.jet_lines.specs.Files.{most_lines};

use crate::cut::{Cut, Front, front_of};
use crate::fault::LineFault;
use jet_items::NoMemory;
use std::alloc::Global;
use std::marker::Model;

/// Cuts a file into lines, in whatever pieces it comes.
///
/// A line ends at a line feed or at the end of the file, and has one carriage return at its end removed. It has at most
/// 512 bytes then. Contracts see a record of `most`, `number`, `ended`, `line`, `rest` and `held`.
#[derive(Drop)]
pub struct Lines {
    // The bytes of the last line and those that are left are among the first `len`; the others are room for more.
    held: Vec<u8>,
    len: usize,
    // The line that was given last.
    from: usize,
    to: usize,
    // The bytes that are left, and how many of them are known to hold no line feed.
    at: usize,
    clear: usize,
    most: u32,
    number: u32,
    ended: bool,
}

impl Model for Lines {
    ghost use Rattle.std.specs.Prelude.{◌-◌, ◌≤◌, length, take, drop};
    ghost use Rattle.jet_lines.specs.Held.{IsHeld};
    ghost use Rattle.jet_lines.specs.LinesValue.{LinesValue};

    ghost Value = { LinesValue };

    ghost view = { λ s. record {
      most = s.most;
      number = s.number;
      ended = s.ended;
      line = take (s.to - s.from) (drop s.from (take s.len s.held.items));
      rest = drop s.at (take s.len s.held.items);
      held = length s.held.items;
    } };

    ghost invariant = { λ s. (s.len ≤ length s.held.items) × IsHeld (take s.len s.held.items) s.from s.to s.at s.clear s.number s.most };
}

impl Lines {
    /// A file of at most `most` lines, 0 to 4,294,967,294, of which nothing came yet. Numbers of lines are `u32`, also
    /// of the first one too many.
    pub fn new(alloc: Global, most: u32) -> Lines
        requires { most ≤ most_lines }
        ensures { result ≡ record { most = most; number = 0; ended = false; line = []; rest = []; held = 0 } }
    {
        Lines {
            held: Vec::new(alloc),
            len: 0,
            from: 0,
            to: 0,
            at: 0,
            clear: 0,
            most,
            number: 0,
            ended: false,
        }
    }

    /// Makes room for a piece of so many bytes, so that `append` takes one that is not longer. A call changes nothing where
    /// there is room, or where memory is wanting. The room is at most twice what is asked for again, and so many bytes more,
    /// unless there was more before: memory stays flat however long the file is.
    pub fn reserve(&mut self, count: usize) -> Result<(), NoMemory>
        ensures same { self.new ≡ record self.old { held = self.new.held } }
        ensures ok { OnOk result (length self.old.line + 2 + length self.old.rest + count ≤ self.new.held) }
        ensures err { OnErr result (self.new ≡ self.old) }
        ensures full { OnErr result (self.old.held < length self.old.line + 2 + length self.old.rest + count) }
        ensures roomy { length self.old.line + 2 + length self.old.rest + count ≤ self.old.held → self.new ≡ self.old }
        ensures flat { self.new.held ≤ max self.old.held (2 * (length self.old.line + 2 + length self.old.rest) + count) }
    {
        let live = self.to - self.from + 2 + (self.len - self.at);
        let Some(room) = live.checked_add(count) else {
            return Err(NoMemory);
        };
        if self.held.len() < room {
            self.held.resize(room.saturating_add(live), 0)?;
        }
        Ok(())
    }

    /// Takes the next piece of the file, before its end was told. It wants memory only where there is no room for the piece, and
    /// then changes nothing. Bytes that were given out are let go.
    pub fn put(&mut self, piece: &[u8]) -> Result<(), NoMemory>
        requires { self.old.ended ≡ false }
        ensures ok { OnOk result (self.new ≡ record self.old { rest = self.old.rest ++ piece.now; held = self.new.held }) }
        ensures err { OnErr result (self.new ≡ self.old) }
        ensures full { OnErr result (self.old.held < length self.old.line + 2 + length self.old.rest + length piece.now) }
        ensures flat { self.new.held ≤ max self.old.held (2 * (length self.old.line + 2 + length self.old.rest) + length piece.now) }
    {
        self.reserve(piece.len())?;
        self.append(piece);
        Ok(())
    }

    /// Takes the next piece of the file, for which there is room, before its end was told. It wants no memory.
    pub fn append(&mut self, piece: &[u8])
        requires open { self.old.ended ≡ false }
        requires room { length self.old.line + 2 + length self.old.rest + length piece.now ≤ self.old.held }
        ensures { self.new ≡ record self.old { rest = self.old.rest ++ piece.now } }
    {
        let gone = put_behind(&mut self.held, self.len, self.from, piece);
        self.len = self.len - gone + piece.len();
        self.from -= gone;
        self.to -= gone;
        self.at -= gone;
    }

    /// Says that the file has no byte more.
    pub fn end(&mut self)
        ensures { self.new ≡ record self.old { ended = true } }
    {
        self.ended = true;
    }

    /// What comes next of the file: a line that `line` shows, a bad line, or that bytes are wanted or there are none.
    /// A line is bad as soon as that is settled, however it goes on. `Bad` changes nothing, and stays the answer.
    pub fn next(&mut self) -> Cut
        ensures { NextIs self.old result self.new }
    {
        let bytes = &self.held[..self.len];
        let rest = &bytes[self.at..];
        if rest.is_empty() {
            return if self.ended { Cut::End } else { Cut::More };
        }
        if self.number == self.most {
            return Cut::Bad(self.number + 1, LineFault::TooMany);
        }
        match front_of(rest, self.clear, self.ended) {
            Front::Line(len, taken) => {
                self.from = self.at;
                self.to = self.at + len;
                self.at += taken;
                self.clear = 0;
                self.number += 1;
                Cut::Line(self.number)
            }
            Front::More => {
                self.clear = self.len - self.at;
                Cut::More
            }
            Front::Long => Cut::Bad(self.number + 1, LineFault::TooLong),
            Front::End => Cut::End,
        }
    }

    /// The line that `next` gave last, and nothing before the first.
    pub fn line(&self) -> &[u8]
        ensures { result.now ≡ self.now.line }
    {
        let bytes = &self.held[..self.len];
        &bytes[self.from..self.to]
    }
}

// Puts a piece behind the first `len` bytes, of which `done` are asked for no more. Where there is no room behind them, these
// go first. Answers how many bytes went.
fn put_behind(held: &mut [u8], len: usize, done: usize, piece: &[u8]) -> usize
    requires done { (done ≤ len) × (len ≤ length held.old) }
    requires room { len - done + length piece.now ≤ length held.old }
    ensures went { result ≤ done }
    ensures bytes { take (len - result + length piece.now) held.new ≡ drop result (take len held.old) ++ piece.now }
    ensures length { length held.new ≡ length held.old }
    ensures fits { len - result + length piece.now ≤ length held.old }
{
    if held.len() - len >= piece.len() {
        held[len..len + piece.len()].copy_from_slice(piece);
        return 0;
    }
    held.copy_within(done..len, 0);
    held[len - done..len - done + piece.len()].copy_from_slice(piece);
    done
}
