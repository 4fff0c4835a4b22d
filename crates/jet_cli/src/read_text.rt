// The reading of a text from an opened file.
ghost use Rattle.std.specs.Prelude.{◌≡◌, ◌++◌, IsTrue, IfOk, IfErr, OnOk};
ghost use Rattle.jet_file.specs.Outside.{WhereTold};
ghost use Rattle.jet_cli.specs.inner.TextReading.{ReadsFront, StopsReading};
ghost use Rattle.jet_worker.specs.Stopping.{IsNoBadLine, IsOfCall, Outcome};
ghost use Rattle.jet_worker.specs.declared.stop.Call.TheVariants.{Read};

use crate::lower_laws::laws_of_files;
use crate::{Spot, Stop};
use jet_file::{FileNo, Outside};
use jet_worker::read_bytes;
use std::alloc::Global;

/// Reads what is left of an opened file, but no more than `most` bytes.
pub(crate) fn read_text<O: Outside>(
    alloc: Global,
    out: &mut O,
    spot: Spot,
    file: FileNo,
    most: usize,
) -> Result<Vec<u8>, Stop>
    requires opened { IsTrue (O.opened out.old file) }
    ensures text { IfOk result (λ text. WhereTold (ReadsFront file most text.items) (O.told out.old) (O.told out.new)) }
    ensures stop { IfErr result (λ stop. WhereTold (StopsReading spot file most stop) (O.told out.old) (O.told out.new)) }
    ensures outcome { Outcome O.opened O.steady O.faults out.old out.new result }
    ensures call { IfErr result (IsOfCall Read spot) }
    ensures no_bad_line { IfErr result IsNoBadLine }
{
    laws_of_files();
    let mut text = Vec::new(alloc);
    let mut buf = [0; 4096];
    'pieces: while text.len() < most {
        let room = buf.len().min(most - text.len());
        let count = read_bytes(out, spot, file, &mut buf[..room])?;
        if count == 0 {
            return Ok(text);
        }
        append(&mut text, &buf[..count])?;
    }
    Ok(text)
}

fn append(text: &mut Vec<u8>, piece: &[u8]) -> Result<(), Stop>
    ensures ok { OnOk result (text.new.items ≡ text.old.items ++ piece.now) }
    ensures err { IfErr result (λ stop. stop ≡ Stop.NoMemory) }
{
    match text.extend_from_slice(piece) {
        Ok(()) => Ok(()),
        Err(_) => Err(Stop::NoMemory),
    }
}
