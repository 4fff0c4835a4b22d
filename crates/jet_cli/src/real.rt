// The real outside: the files and the standard streams of the system. It tells nothing of contents, since no contract
// can say what a device gives or takes. What its calls answer and count is proved.
ghost use Rattle.std.specs.Prelude.{◌≡◌, ◌<◌, ◌≤◌, ◌+◌, ◌-◌, ◌^◌, length, min, IfOk, IfSome};
ghost use Rattle.std.specs.Result.{IsOk};

use jet_file::{FileNo, Out, OutFault, Outside};
use jet_items::NoMemory;
use std::io::{ErrorKind, Read};
use std::rt::Runtime;
use std::{fs, str};

/// The files of the system by their paths, standard output for Rows, and standard error for Notes. It keeps the
/// runtime that it was handed, and each opened file open until it is dropped.
#[derive(Drop)]
pub struct RealOutside<R: Runtime> {
    rt: R,
    files: Vec<R::File, R::A>,
    faults: u64,
}

impl<R: Runtime> RealOutside<R> {
    /// An outside with no opened file and no fault.
    pub fn new(rt: R) -> Result<RealOutside<R>, NoMemory>
        ensures ok { IsOk result }
        ensures opened { IfOk result (λ o. length o.files.items ≡ 0) }
        ensures faults { IfOk result (λ o. o.faults ≡ 0) }
    {
        let files = Vec::new(rt.alloc());
        Ok(RealOutside {
            rt,
            files,
            faults: 0,
        })
    }

    // Counts a fault.
    fn count_fault(&mut self)
        ensures { self.new ≡ record self.old { faults = min (self.old.faults + 1) (2 ^ 64 - 1) } }
    {
        self.faults = self.faults.saturating_add(1);
    }
}

impl<R: Runtime> Outside for RealOutside<R> {
    ghost use Rattle.std.specs.Prelude.{None, false, nat_lt, ◌-◌, ◌^◌, min, length};
    ghost use Rattle.std.proofs.Common.{arith};

    ghost told = { λ _. None };

    ghost opened = { λ o. λ file. nat_lt file (length o.files.items) };

    ghost faults = { λ o. min o.faults (2 ^ 64 - 1) };

    ghost steady = { λ _. false };

    ghost faults_bound = { λ o. Prim.omega arith };

    fn open_file(&mut self, name: &[u8]) -> Result<FileNo, OutFault> {
        if self.files.len() >= 0xffff_ffff {
            return Err(OutFault::NoMemory);
        }
        self.files.reserve(1)?;
        let Some(file) = open_named(&self.rt, name) else {
            self.count_fault();
            return Err(OutFault::Failed);
        };
        let number = self.files.len() as u32;
        self.files.push(file)?;
        Ok(number)
    }

    fn read(&mut self, file: FileNo, buf: &mut [u8]) -> Result<usize, OutFault> {
        let Some(count) = read_some(&mut self.files[file as usize], buf) else {
            self.count_fault();
            return Err(OutFault::Failed);
        };
        Ok(count)
    }

    fn write(&mut self, to: Out, buf: &[u8]) -> Result<usize, OutFault> {
        let written = match to {
            Out::Rows => print_some(&self.rt, buf),
            Out::Notes => note_text(&self.rt, buf),
        };
        let Some(count) = written else {
            self.count_fault();
            return Err(OutFault::Failed);
        };
        Ok(count)
    }
}

// A path is UTF-8 text here.
fn open_named<R: Runtime>(rt: &R, name: &[u8]) -> Option<R::File> {
    let path = str::from_utf8(name).ok()?;
    fs::open(rt, path).ok()
}

// Reads once, and again where a signal cut the call short.
fn read_some<F: Read>(file: &mut F, buf: &mut [u8]) -> Option<usize>
    ensures { IfSome result (λ n. n ≤ length buf.new) }
{
    for _ in 0..u64::MAX {
        match file.read(buf) {
            Ok(count) => return Some(count),
            Err(fault) if fault.kind() == ErrorKind::Interrupted => {}
            Err(_) => return None,
        }
    }
    None
}

// Writes once to standard output, and again where a signal cut the call short.
fn print_some<R: Print>(rt: &R, buf: &[u8]) -> Option<usize>
    ensures { IfSome result (λ n. (0 < n) × (n ≤ length buf.now)) }
{
    for _ in 0..u64::MAX {
        match rt.write_some(buf) {
            Ok(0) => return None,
            Ok(count) => return Some(count),
            Err(fault) if fault.kind() == ErrorKind::Interrupted => {}
            Err(_) => return None,
        }
    }
    None
}

// Writes the whole text to standard error, which takes text alone.
fn note_text<R: Eprint>(rt: &R, buf: &[u8]) -> Option<usize>
    requires { 0 < length buf.now }
    ensures { IfSome result (λ n. (0 < n) × (n ≤ length buf.now)) }
{
    let text = str::from_utf8(buf).ok()?;
    rt.eprint(text).ok()?;
    Some(buf.len())
}
