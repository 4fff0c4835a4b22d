// The calls that an outside in memory has had. Each stands in two lists: whole, as contracts tell it, and short, as
// tests read it. That the second is the first in short is the invariant of the type.
ghost use Rattle.std.specs.Prelude.{◌≡◌, ◌++◌, [], ◌∷◌, map, OnOk, OnErr};
ghost use Rattle.jet_file.specs.Trace.{entry_of, note_of};
ghost use Rattle.jet_file.specs.declared.trace.CallNote.{CallNote};

use crate::{FileNo, Out};
use std::alloc::{AllocError, Global};
use std::marker::Model;

/// A call on an outside in memory, in short: an opening without its name, and a failed call without its place.
#[derive(Clone, Copy, Debug, PartialEq, Eq)]
pub enum CallNote {
    /// A file was opened under this number.
    Opened(FileNo),
    /// So many bytes of this file were taken.
    Read(FileNo, usize),
    /// So many bytes were appended to this output.
    Wrote(Out, usize),
    /// A call failed.
    Failed,
}

/// A call with all that it was asked.
#[derive(Drop)]
pub(crate) enum Note {
    Opened(Vec<u8>, u32),
    Read(u32, usize),
    Wrote(Out, usize),
    MissedOpen(Vec<u8>),
    MissedRead(u32),
    MissedWrite(Out),
}

impl Note {
    // The call in short.
    fn short(&self) -> CallNote
        ensures { result ≡ note_of (entry_of self.now) }
    {
        match self {
            Note::Opened(_, file) => CallNote::Opened(*file),
            Note::Read(file, count) => CallNote::Read(*file, *count),
            Note::Wrote(to, count) => CallNote::Wrote(*to, *count),
            Note::MissedOpen(_) | Note::MissedRead(_) | Note::MissedWrite(_) => CallNote::Failed,
        }
    }
}

/// All calls so far, in order. Contracts see the entries.
#[derive(Drop)]
pub(crate) struct Trace {
    whole: Vec<Note>,
    short: Vec<CallNote>,
}

impl Model for Trace {
    ghost use Rattle.std.specs.Prelude.{◌≡◌, List, map};
    ghost use Rattle.jet_file.specs.Outside.{CallMade};

    ghost Value = { List CallMade };

    ghost use Rattle.jet_file.specs.Trace.{entry_of, note_of};

    ghost view = { λ t. map entry_of t.whole.items };

    ghost invariant = { λ t. t.short.items ≡ map note_of (map entry_of t.whole.items) };
}

impl Trace {
    /// No calls yet.
    pub(crate) fn new(alloc: Global) -> Trace
        ensures { result ≡ [] }
    {
        Trace {
            whole: Vec::new(alloc),
            short: Vec::new(alloc),
        }
    }

    /// Adds a call.
    pub(crate) fn push(&mut self, note: Note) -> Result<(), AllocError>
        ensures ok { OnOk result (self.new ≡ self.old ++ entry_of note ∷ []) }
        ensures err { OnErr result (self.new ≡ self.old) }
    {
        let short = note.short();
        self.short.reserve(1)?;
        self.whole.push(note)?;
        self.short.push(short)?;
        Ok(())
    }

    /// The calls in short.
    pub(crate) fn short(&self) -> &[CallNote]
        ensures { result.now ≡ map note_of self.now }
    {
        &self.short
    }
}
