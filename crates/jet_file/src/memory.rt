// An outside in memory, for tests, worked rows and trials. Besides what any outside promises, its methods say which calls
// fail, that no other does, and how much a call moves. Each call does first what may want memory, so that a call
// that finds none leaves all as it was.
ghost use Rattle.std.specs.Prelude.{◌≡◌, ◌≢◌, ◌≤◌, ◌<◌, ◌+◌, ◌-◌, ◌^◌, ◌++◌, [], ◌∷◌, ◌==◌, ℕ, List, min, false, length, map, IfOk, OnOk, OnErr, None, Err, IsTrue};
ghost use Rattle.std.specs.Result.{IsOk};
ghost use Rattle.jet_file.specs.Causes.{HasCause};
ghost use Rattle.jet_file.specs.Outside.{Adds, CallMade, WhereTold, LacksFile, Opens, Reads, Writes, Wrote};
ghost use Rattle.jet_file.specs.declared.outside.Out.{Out};
ghost use Rattle.jet_file.specs.declared.outside.OutFault.{OutFault};

use crate::stored::{OpenedFile, StoredFile, bytes_left, has_file, push_place, take_bytes};
use crate::trace::{Note, Trace};
use crate::{CallNote, FileNo, Out, OutFault, Outside};
use jet_items::NoMemory;
use std::alloc::{AllocError, Global};

/// Files in memory, and outputs that can be read. It tells all.
#[derive(Drop)]
pub struct MemoryOutside {
    alloc: Global,
    files: Vec<StoredFile>,
    opened: Vec<OpenedFile>,
    rows: Vec<u8>,
    notes: Vec<u8>,
    trace: Trace,
    fail: Vec<u64>,
    called: u64,
    most: usize,
    faults: u64,
    ghost most_low: { 1 ≤ most },
}

impl MemoryOutside {
    ghost use Rattle.jet_file.specs.Memory.{memory_told, memory_opened, memory_steady, memory_faults, memory_calls, memory_fail, memory_most, next_call, is_to_fail, KeepsCalls};
    ghost use Rattle.jet_file.specs.Outside.{Told, AddsFile};
    ghost use Rattle.jet_file.specs.Trace.{note_of};

    /// An outside with no files. The calls with the numbers in `fail`, from 1 on over all calls, answer Failed, and
    /// each call moves at most `most` bytes, which is at least one.
    pub fn new(alloc: Global, fail: Vec<u64>, most: usize) -> Result<MemoryOutside, NoMemory>
        requires { 1 ≤ most }
        ensures ok { IsOk result }
        ensures content { IfOk result (λ m. (name : List ℕ) → (memory_told m).content name ≡ None) }
        ensures written { IfOk result (λ m. (to : Out) → (memory_told m).written to ≡ []) }
        ensures trace { IfOk result (λ m. (memory_told m).trace ≡ []) }
        ensures opened { IfOk result (λ m. (file : ℕ) → memory_opened m file ≡ false) }
        ensures steady { IfOk result (λ m. memory_steady m ≡ (length fail.items == 0)) }
        ensures faults { IfOk result (λ m. memory_faults m ≡ 0) }
        ensures calls { IfOk result (λ m. memory_calls m ≡ 0) }
        ensures fail { IfOk result (λ m. memory_fail m ≡ fail.items) }
        ensures most { IfOk result (λ m. memory_most m ≡ most) }
    {
        Ok(MemoryOutside {
            alloc,
            files: Vec::new(alloc),
            opened: Vec::new(alloc),
            rows: Vec::new(alloc),
            notes: Vec::new(alloc),
            trace: Trace::new(alloc),
            fail,
            called: 0,
            most,
            faults: 0,
        })
    }

    /// Adds a file.
    pub fn add(&mut self, name: &[u8], content: Vec<u8>) -> Result<(), NoMemory>
        requires { (memory_told self.old).content name.now ≡ None }
        ensures ok { OnOk result (AddsFile name.now content.items (memory_told self.old) (memory_told self.new)) }
        ensures err { OnErr result (memory_told self.new ≡ memory_told self.old) }
        ensures calls { KeepsCalls self.old self.new }
    {
        let name = name.to_vec(self.alloc)?;
        self.files.push(StoredFile { name, content })?;
        Ok(())
    }

    /// What was written to an output.
    pub fn written(&self, to: Out) -> &[u8]
        ensures { result.now ≡ (memory_told self.now).written to }
    {
        match to {
            Out::Rows => &self.rows,
            Out::Notes => &self.notes,
        }
    }

    /// All calls so far, in order and in short.
    pub fn calls(&self) -> &[CallNote]
        ensures { result.now ≡ map note_of (memory_told self.now).trace }
    {
        self.trace.short()
    }

    // Counts the next call, and answers whether it is to fail.
    fn is_failing(&mut self) -> bool
        ensures answer { result ≡ is_to_fail self.old }
        ensures called { self.new ≡ record self.old { called = next_call self.old } }
        ensures steady { length self.old.fail.items ≡ 0 → result ≡ false }
    {
        let call = self.called.saturating_add(1);
        self.called = call;
        self.fail.contains(&call)
    }

    // Counts a fault.
    fn count_fault(&mut self)
        ensures { self.new ≡ record self.old { faults = min (self.old.faults + 1) (2 ^ 64 - 1) } }
    {
        self.faults = self.faults.saturating_add(1);
    }
}

// Appends bytes to an output, and the call to the trace.
fn append(output: &mut Vec<u8>, trace: &mut Trace, to: Out, bytes: &[u8]) -> Result<(), AllocError>
    ensures ok { OnOk result ((output.new.items ≡ output.old.items ++ bytes.now) × (trace.new ≡ trace.old ++ Wrote to (length bytes.now) ∷ [])) }
    ensures err { OnErr result ((output.new.items ≡ output.old.items) × (trace.new ≡ trace.old)) }
{
    output.reserve(bytes.len())?;
    trace.push(Note::Wrote(to, bytes.len()))?;
    output.extend_from_slice(bytes)?;
    Ok(())
}

impl Outside for MemoryOutside {
    ghost use Rattle.std.specs.Prelude.{Some, ◌-◌, ◌^◌, min};
    ghost use Rattle.jet_file.specs.Memory.{memory_told, memory_opened, memory_steady, memory_faults, memory_most, is_to_fail, is_to_miss, CountsCall, FailsWhere};
    ghost use Rattle.std.proofs.Common.{arith};

    ghost told = { λ m. Some (memory_told m) };

    ghost opened = { memory_opened };

    ghost faults = { memory_faults };

    ghost steady = { memory_steady };

    ghost faults_bound = { λ m. Prim.omega arith };

    fn open_file(&mut self, name: &[u8]) -> Result<FileNo, OutFault>
        ensures told { WhereTold (Opens name.now result) (Some (memory_told self.old)) (Some (memory_told self.new)) }
        ensures opened { Adds (memory_opened self.old) (memory_opened self.new) result }
        ensures steady { memory_steady self.new ≡ memory_steady self.old }
        ensures works { IsTrue (memory_steady self.old) → result ≡ Err OutFault.Failed → LacksFile name.now (Some (memory_told self.old)) }
        ensures cause { HasCause (memory_faults self.old) (memory_faults self.new) result }
        ensures fails { FailsWhere (is_to_miss self.old name.now) result }
        ensures counts { CountsCall self.old self.new }
    {
        let failing = self.is_failing();
        let asked = name.to_vec(self.alloc)?;
        if failing || !has_file(&self.files, name) {
            self.trace.push(Note::MissedOpen(asked))?;
            self.count_fault();
            return Err(OutFault::Failed);
        }
        if self.opened.len() >= 0xffff_ffff {
            return Err(OutFault::NoMemory);
        }
        let file = self.opened.len() as u32;
        let kept = name.to_vec(self.alloc)?;
        self.opened.reserve(1)?;
        self.trace.push(Note::Opened(asked, file))?;
        push_place(&mut self.opened, kept)?;
        Ok(file)
    }

    fn read(&mut self, file: FileNo, buf: &mut [u8]) -> Result<usize, OutFault>
        requires opened { IsTrue (memory_opened self.old file) }
        requires room { 0 < length buf.old }
        ensures bound { IfOk result (λ n. n ≤ length buf.new) }
        ensures told { WhereTold (Reads file buf.new result) (Some (memory_told self.old)) (Some (memory_told self.new)) }
        ensures opened { memory_opened self.new ≡ memory_opened self.old }
        ensures steady { memory_steady self.new ≡ memory_steady self.old }
        ensures works { IsTrue (memory_steady self.old) → result ≢ Err OutFault.Failed }
        ensures cause { HasCause (memory_faults self.old) (memory_faults self.new) result }
        ensures few { IfOk result (λ n. n ≤ memory_most self.old) }
        ensures fails { FailsWhere (is_to_fail self.old) result }
        ensures counts { CountsCall self.old self.new }
    {
        if self.is_failing() {
            self.trace.push(Note::MissedRead(file))?;
            self.count_fault();
            return Err(OutFault::Failed);
        }
        let left = bytes_left(&self.files, &self.opened, file);
        let count = self.most.min(buf.len()).min(left);
        self.trace.push(Note::Read(file, count))?;
        take_bytes(&self.files, &mut self.opened, file, count, buf);
        Ok(count)
    }

    fn write(&mut self, to: Out, buf: &[u8]) -> Result<usize, OutFault>
        requires { 0 < length buf.now }
        ensures bound { IfOk result (λ n. (0 < n) × (n ≤ length buf.now)) }
        ensures told { WhereTold (Writes to buf.now result) (Some (memory_told self.old)) (Some (memory_told self.new)) }
        ensures opened { memory_opened self.new ≡ memory_opened self.old }
        ensures steady { memory_steady self.new ≡ memory_steady self.old }
        ensures works { IsTrue (memory_steady self.old) → result ≢ Err OutFault.Failed }
        ensures cause { HasCause (memory_faults self.old) (memory_faults self.new) result }
        ensures few { IfOk result (λ n. n ≤ memory_most self.old) }
        ensures fails { FailsWhere (is_to_fail self.old) result }
        ensures counts { CountsCall self.old self.new }
    {
        if self.is_failing() {
            self.trace.push(Note::MissedWrite(to))?;
            self.count_fault();
            return Err(OutFault::Failed);
        }
        let count = self.most.min(buf.len());
        match to {
            Out::Rows => append(&mut self.rows, &mut self.trace, to, &buf[..count])?,
            Out::Notes => append(&mut self.notes, &mut self.trace, to, &buf[..count])?,
        }
        Ok(count)
    }
}
