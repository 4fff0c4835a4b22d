// The feed of one data file: what it has read of it, and the item that waits for a slot.
ghost use Rattle.std.specs.Prelude.{◌≡◌, ◌↔◌, ◌≤◌, ◌<◌, ◌≤ℤ◌, ℕ, pos, List, [], true, false, Ok, Option, None, Some, ◌+◌, IsSome, IsTrue, IsFalse, IfOk, IfErr, OnOk, length};
ghost use Rattle.jet_items.specs.Ranges.{most_time};
ghost use Rattle.jet_items.specs.declared.item.Item.{Item};
ghost use Rattle.jet_lines.specs.Files.{most_lines};
ghost use Rattle.jet_file.specs.Outside.{Told, WhereTold};
ghost use Rattle.jet_flow.specs.DataFiles.{DataFile, SourceFile, SideFile};
ghost use Rattle.jet_ring.specs.Ring.{known_free, reach, sent, tx_ring};
ghost use Rattle.jet_worker.specs.CheckText.{Checks};
ghost use Rattle.jet_worker.specs.Stopping.{IsForOutside, IsNoBadLine, Outcome};
ghost use Rattle.jet_feed.specs.Fed.{Feeds, Gives, IsBadIn, IsFed, IsLeft, IsOfFile, IsOpen, IsOver, IsStill, Keeps, ReadsOn, Tells, HasMoved, is_idle, may_read, steps_left};
ghost use mathlib.Core.List.{IsPrefix};

use crate::Leave;
use crate::body::Body;
use crate::rows::Rows;
use jet_file::{FileNo, Outside};
use jet_items::{Item, Refused};
use jet_lines::{Cut, Lines};
use jet_policy::Marker;
use jet_ring::Tx;
use jet_worker::{Spot, Stop, read_piece};
use std::alloc::Global;

/// An opened data file that is fed into its ring.
#[derive(Drop)]
pub struct Feed {
    part: u16,
    file: FileNo,
    lines: Lines,
    body: Body,
    // The number of the line that was cut and is not read yet.
    unread: Option<u32>,
    // The item that is given next.
    waiting: Option<Item>,
    // The item that was given last is an idle note.
    is_idle: bool,
    // Done waits or was given.
    ended: bool,
}

impl Feed {
    /// The feed of an opened source file of this number, of at most `most` lines. Lag and unit of its watermark are in the
    /// unit of the timestamps.
    pub fn source(alloc: Global, part: u16, file: FileNo, most: u32, lag: i64, unit: i64) -> Feed
        requires most { most ≤ most_lines }
        requires lag { (pos 0 ≤ℤ lag) × (lag ≤ℤ pos most_time) }
        requires unit { (pos 1 ≤ℤ unit) × (unit ≤ℤ pos 1000000000000) }
        ensures fed { (c : Checks) (name : List ℕ) (content : Option (List ℕ)) (told : Option Told) → c.most ≡ most → unit ≡ pos c.unit
            → IsLeft file content [] false told → IsFed c (part, SourceFile name lag) file content told [] result }
        ensures file { result.file ≡ file }
    {
        Feed {
            part,
            file,
            lines: Lines::new(alloc, most),
            body: Body::Source(Marker::new(lag, unit)),
            unread: None,
            waiting: None,
            is_idle: false,
            ended: false,
        }
    }

    /// The feed of an opened side file of this number, of at most `most` lines.
    pub fn side(alloc: Global, part: u16, file: FileNo, most: u32) -> Feed
        requires most { most ≤ most_lines }
        ensures fed { (c : Checks) (name : List ℕ) (content : Option (List ℕ)) (told : Option Told) → c.most ≡ most
            → IsLeft file content [] false told → IsFed c (part, SideFile name) file content told [] result }
        ensures file { result.file ≡ file }
    {
        Feed {
            part,
            file,
            lines: Lines::new(alloc, most),
            body: Body::Side(Rows::new(alloc)),
            unread: None,
            waiting: None,
            is_idle: false,
            ended: false,
        }
    }

    /// Whether the file was read to its end, and all its items and Done were given.
    pub fn is_over(&self) -> bool
        ensures { IsTrue result ↔ IsOver self.now }
    {
        self.ended && self.waiting.is_none()
    }

    /// Cuts the next line, which is to be read then, or finds the end of the file. The answer is whether bytes are wanted.
    fn cut(&mut self) -> Result<bool, Stop>
        requires going { self.old.ended ≡ false }
        requires read { self.old.unread ≡ None }
        requires given { self.old.waiting ≡ None }
        ensures kept { Keeps self.old self.new }
        ensures bad { IfErr result (λ stop. (told : Option Told) (items : List Item) → IsBadIn self.old told items stop) }
        ensures inside { IfErr result (λ stop. IsForOutside stop → ⊥) }
        ensures wanted { IfOk result (λ more. more ≡ true → (self.new ≡ self.old) × (self.new.lines.ended ≡ false)) }
        ensures less { IfOk result (λ more. more ≡ false → steps_left self.new < steps_left self.old) }
        ensures file { IsOfFile self.old self.new }
    {
        match self.lines.next() {
            Cut::Line(number) => {
                self.unread = Some(number);
                Ok(false)
            }
            Cut::More => Ok(true),
            Cut::Bad(line, why) => Err(Stop::BadLine {
                part: self.part,
                line,
                why,
            }),
            Cut::End => {
                self.ended = true;
                self.waiting = Some(Item::Done);
                Ok(false)
            }
        }
    }

    /// Reads the line that was cut last, of this number. Its item waits then, where it holds one; no bytes are wanted.
    fn read_line(&mut self, alloc: Global, number: u32) -> Result<bool, Stop>
        requires read { self.old.unread ≡ Some number }
        requires given { self.old.waiting ≡ None }
        requires going { self.old.ended ≡ false }
        ensures kept { Keeps self.old self.new }
        ensures bad { IfErr result (λ stop. (told : Option Told) (items : List Item) → IsBadIn self.old told items stop) }
        ensures inside { IfErr result (λ stop. IsForOutside stop → ⊥) }
        ensures wanted { IfOk result (λ more. more ≡ false) }
        ensures less { OnOk result (steps_left self.new < steps_left self.old) }
        ensures file { IsOfFile self.old self.new }
    {
        let line = self.lines.line();
        match self.body.read(alloc, self.part, number, line) {
            Ok(item) => {
                self.waiting = item;
                self.unread = None;
                Ok(false)
            }
            Err(Refused::Fault(why)) => Err(Stop::BadLine {
                part: self.part,
                line: number,
                why,
            }),
            Err(Refused::NoMemory) => Err(Stop::NoMemory),
        }
    }

    /// Reads the line that was cut last, or cuts the next. The answer is whether bytes are wanted.
    fn take_line(&mut self, alloc: Global) -> Result<bool, Stop>
        requires given { self.old.waiting ≡ None }
        requires going { self.old.ended ≡ false }
        ensures kept { Keeps self.old self.new }
        ensures bad { IfErr result (λ stop. (told : Option Told) (items : List Item) → IsBadIn self.old told items stop) }
        ensures inside { IfErr result (λ stop. IsForOutside stop → ⊥) }
        ensures wanted { IfOk result (λ more. more ≡ true → IsOpen self.new) }
        ensures less { IfOk result (λ more. more ≡ false → steps_left self.new < steps_left self.old) }
        ensures file { IsOfFile self.old self.new }
    {
        match self.unread {
            Some(number) => self.read_line(alloc, number),
            None => self.cut(),
        }
    }

    /// Goes on over the lines until an item waits, or until bytes are wanted: that is the answer.
    fn go_on(&mut self, alloc: Global) -> Result<bool, Stop>
        ensures kept { Keeps self.old self.new }
        ensures bad { IfErr result (λ stop. (told : Option Told) (items : List Item) → IsBadIn self.old told items stop) }
        ensures inside { IfErr result (λ stop. IsForOutside stop → ⊥) }
        ensures wanted { IfOk result (λ more. more ≡ true → IsOpen self.new) }
        ensures stands { IfOk result (λ more. more ≡ false → self.new.waiting ≡ None → self.new.ended ≡ true) }
        ensures file { IsOfFile self.old self.new }
    {
        'lines: while self.waiting.is_none() && !self.ended {
            if self.take_line(alloc)? {
                return Ok(true);
            }
        }
        Ok(false)
    }

    /// Gives the waiting item to the ring, and answers whether there was one, and a slot for it.
    fn give(&mut self, tx: &mut Tx<Item>) -> bool
        ensures kept { Gives self.old self.new (sent tx.old) (sent tx.new) }
        ensures ring { tx_ring tx.new ≡ tx_ring tx.old }
        ensures reach { reach tx.new ≡ reach tx.old }
        ensures sent { IsPrefix (sent tx.old) (sent tx.new) }
        ensures given { IsTrue result → length (sent tx.new) ≡ length (sent tx.old) + 1 }
        ensures none { IsFalse result → (self.new ≡ self.old) × (tx.new ≡ tx.old) × (IsSome self.old.waiting → known_free tx.old ≡ 0) }
        ensures file { IsOfFile self.old self.new }
    {
        let Some(item) = self.waiting else {
            return false;
        };
        if !tx.put(&item) {
            return false;
        }
        self.body.note(&item);
        self.is_idle = is_idle(&item);
        self.waiting = None;
        true
    }

    // Whether the file may be read on: its source is quiet, or its mark is not too far ahead.
    fn may_read(&self, leave: &Leave) -> bool
        requires { (pos 0 ≤ℤ leave.now.ahead) × (leave.now.ahead ≤ℤ pos most_time) }
        ensures { result ≡ may_read leave.now self.now }
    {
        self.is_idle || self.body.may_go_on(leave)
    }

    /// Reads the next piece of the file where it may be read on, and answers whether it was.
    fn read_on<O: Outside>(&mut self, leave: &Leave, out: &mut O) -> Result<bool, Stop>
        requires ahead { (pos 0 ≤ℤ leave.now.ahead) × (leave.now.ahead ≤ℤ pos most_time) }
        requires opened { IsTrue (O.opened out.old self.old.file) }
        requires open { IsOpen self.old }
        ensures kept { ReadsOn (O.told out.old) (O.told out.new) self.old self.new }
        ensures outcome { Outcome O.opened O.steady O.faults out.old out.new result }
        ensures no_bad_line { IfErr result IsNoBadLine }
        ensures told { Tells self.old result (O.told out.old) (O.told out.new) }
        ensures moved { result ≡ Ok true → WhereTold (λ a b. length a.trace < length b.trace) (O.told out.old) (O.told out.new) }
        ensures held { IfOk result (λ read. read ≡ false → (self.new ≡ self.old) × (out.new ≡ out.old) × (may_read leave.now self.old ≡ false)) }
        ensures file { IsOfFile self.old self.new }
    {
        if !self.may_read(leave) {
            return Ok(false);
        }
        match read_piece(out, Spot::Part(self.part), self.file, &mut self.lines) {
            Ok(()) => Ok(true),
            Err(stop) => Err(stop),
        }
    }

    /// Gives one item, or reads one piece. The answer is whether it could.
    fn step<O: Outside>(
        &mut self,
        alloc: Global,
        tx: &mut Tx<Item>,
        leave: &Leave,
        out: &mut O,
    ) -> Result<bool, Stop>
        requires ahead { (pos 0 ≤ℤ leave.now.ahead) × (leave.now.ahead ≤ℤ pos most_time) }
        requires opened { IsTrue (O.opened out.old self.old.file) }
        ensures kept { Feeds (O.told out.old) (O.told out.new) (sent tx.old) (sent tx.new) self.old self.new }
        ensures bad { IfErr result (IsBadIn self.old (O.told out.old) (sent tx.old)) }
        ensures ring { tx_ring tx.new ≡ tx_ring tx.old }
        ensures reach { reach tx.new ≡ reach tx.old }
        ensures sent { IsPrefix (sent tx.old) (sent tx.new) }
        ensures outcome { Outcome O.opened O.steady O.faults out.old out.new result }
        ensures told { Tells self.old result (O.told out.old) (O.told out.new) }
        ensures moved { result ≡ Ok true → HasMoved (sent tx.old) (sent tx.new) (O.told out.old) (O.told out.new) }
        ensures still { IfOk result (λ moved. moved ≡ false → (tx.new ≡ tx.old) × (out.new ≡ out.old) × IsStill leave.now (known_free tx.old) self.new) }
        ensures file { IsOfFile self.old self.new }
    {
        match self.go_on(alloc) {
            Ok(true) => self.read_on(leave, out),
            Ok(false) => Ok(self.give(tx)),
            Err(stop) => Err(stop),
        }
    }

    /// Gives the waiting item and the items of the lines that follow while the ring has a free slot, and reads the file on
    /// where no whole line is left and its source is quiet or its mark may go on. At the end of the file Done is given, once and last. The answer is
    /// whether anything moved: an item was given, a byte was read, or the end was found.
    pub fn feed<O: Outside>(
        &mut self,
        alloc: Global,
        tx: &mut Tx<Item>,
        leave: &Leave,
        out: &mut O,
    ) -> Result<bool, Stop>
        requires ahead { (pos 0 ≤ℤ leave.now.ahead) × (leave.now.ahead ≤ℤ pos most_time) }
        requires opened { IsTrue (O.opened out.old self.old.file) }
        ensures ring { tx_ring tx.new ≡ tx_ring tx.old }
        ensures reach { reach tx.new ≡ reach tx.old }
        ensures sent { IsPrefix (sent tx.old) (sent tx.new) }
        ensures outcome { Outcome O.opened O.steady O.faults out.old out.new result }
        ensures told { Tells self.old result (O.told out.old) (O.told out.new) }
        ensures kept { Feeds (O.told out.old) (O.told out.new) (sent tx.old) (sent tx.new) self.old self.new }
        ensures bad { IfErr result (IsBadIn self.old (O.told out.old) (sent tx.old)) }
        ensures moved { result ≡ Ok true → HasMoved (sent tx.old) (sent tx.new) (O.told out.old) (O.told out.new) }
        ensures still { IfOk result (λ moved. moved ≡ false → (tx.new ≡ tx.old) × (out.new ≡ out.old) × IsStill leave.now (known_free tx.old) self.new) }
        ensures file { IsOfFile self.old self.new }
    {
        let mut moved = false;
        'steps: for _ in 0..MOST_STEPS {
            match self.step(alloc, tx, leave, out) {
                Ok(true) => moved = true,
                Ok(false) => return Ok(moved),
                Err(stop) => return Err(stop),
            }
        }
        Ok(true)
    }
}

fn is_idle(item: &Item) -> bool
    ensures { result ≡ is_idle item.now }
{
    match item {
        Item::Idle => true,
        _ => false,
    }
}

// The most items and pieces of one call.
const MOST_STEPS: u32 = 131_072;
