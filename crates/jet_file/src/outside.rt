// The outside: files to read, and two outputs. What an implementation knows of it is told by ghost members, so that
// contracts over any outside speak of contents and outputs, and a real device may tell none of them.
ghost use Rattle.std.specs.Prelude.{◌≡◌, ◌≢◌, ℕ, ◌-◌, ◌≤◌, ◌<◌, ◌^◌, List, length, Option, IsTrue, Bool, IfOk, Err};
ghost use Rattle.jet_file.specs.Causes.{HasCause};
ghost use Rattle.jet_file.specs.Outside.{Told, WhereTold, Opens, Reads, Writes, Adds, LacksFile};
ghost use Rattle.jet_file.specs.declared.outside.OutFault.{OutFault};

use std::alloc::{AllocError, AllocFailed};
use thiserror::Error;

/// The number of an opened file. Each opening has its own, also of the same name.
pub type FileNo = u32;

/// An output of a job.
#[derive(Clone, Copy, Debug, PartialEq, Eq)]
pub enum Out {
    /// The row lines, and the texts that take their place.
    Rows,
    /// The late lines.
    Notes,
}

/// Why a call on the outside did not do its work.
#[derive(Clone, Copy, Debug, PartialEq, Eq, Error)]
pub enum OutFault {
    /// The device refused.
    #[error("a call on the outside failed")]
    Failed,
    /// No memory was found. Nothing was done.
    #[error("no memory")]
    NoMemory,
}

impl From<AllocError> for OutFault {
    ghost use Rattle.jet_file.specs.declared.outside.OutFault.TheVariants.{NoMemory};

    ghost from_gives = { λ _ e. e ≡ NoMemory };

    fn from(_: AllocError) -> Self {
        OutFault::NoMemory
    }
}

impl<T: Drop> From<AllocFailed<T>> for OutFault {
    ghost use Rattle.jet_file.specs.declared.outside.OutFault.TheVariants.{NoMemory};

    ghost from_gives = { λ _ e. e ≡ NoMemory };

    fn from(_: AllocFailed<T>) -> Self {
        OutFault::NoMemory
    }
}

/// What a job reads and writes.
///
/// Where the content is told, a failed call has taken and written nothing. Of a device that tells nothing, nothing is
/// known after a failed call.
pub trait Outside {
    /// What the object tells of itself: the content of each name, the place of each opened file, the bytes written to
    /// each output, and all calls in order. None, where it tells nothing, as a real device does.
    ghost told: { Self → Option Told };

    /// Which numbers are those of opened files. Only an opening adds one, and none goes away.
    ghost opened: { Self → ℕ → Bool };

    /// How many calls have answered Failed. The count stops at 2 ^ 64 - 1.
    ghost faults: { Self → ℕ };

    /// Whether no call will fail but the opening of a name that no file has. A real device can never say so.
    ghost steady: { Self → Bool };

    /// Opens the file of this name, from its first byte on.
    fn open_file(&mut self, name: &[u8]) -> Result<FileNo, OutFault>
        ensures told { WhereTold (Opens name.now result) (told self.old) (told self.new) }
        ensures opened { Adds (opened self.old) (opened self.new) result }
        ensures steady { steady self.new ≡ steady self.old }
        ensures works { IsTrue (steady self.old) → result ≡ Err OutFault.Failed → LacksFile name.now (told self.old) }
        ensures cause { HasCause (faults self.old) (faults self.new) result };

    /// Puts the next bytes of an opened file at the front of the buffer, and answers how many: 0 only at its end.
    fn read(&mut self, file: FileNo, buf: &mut [u8]) -> Result<usize, OutFault>
        requires opened { IsTrue (opened self.old file) }
        requires room { 0 < length buf.old }
        ensures bound { IfOk result (λ n. n ≤ length buf.new) }
        ensures told { WhereTold (Reads file buf.new result) (told self.old) (told self.new) }
        ensures opened { opened self.new ≡ opened self.old }
        ensures steady { steady self.new ≡ steady self.old }
        ensures works { IsTrue (steady self.old) → result ≢ Err OutFault.Failed }
        ensures cause { HasCause (faults self.old) (faults self.new) result };

    /// Appends the first bytes of the buffer to an output, and answers how many: at least one.
    fn write(&mut self, to: Out, buf: &[u8]) -> Result<usize, OutFault>
        requires { 0 < length buf.now }
        ensures bound { IfOk result (λ n. (0 < n) × (n ≤ length buf.now)) }
        ensures told { WhereTold (Writes to buf.now result) (told self.old) (told self.new) }
        ensures opened { opened self.new ≡ opened self.old }
        ensures steady { steady self.new ≡ steady self.old }
        ensures works { IsTrue (steady self.old) → result ≢ Err OutFault.Failed }
        ensures cause { HasCause (faults self.old) (faults self.new) result };

    /// The count of faults stops at its last value.
    ghost faults_bound: { (s : Self) → faults s ≤ 2 ^ 64 - 1 };
}
