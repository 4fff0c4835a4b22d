// Writing all of some bytes, where the outside may take fewer in a call.
ghost use Rattle.std.specs.Prelude.{◌≡◌, ◌≢◌, length, IsTrue, Err};
ghost use Rattle.std.specs.Result.{IsOk};
ghost use Rattle.jet_file.specs.Causes.{HasCause};
ghost use Rattle.jet_file.specs.Outside.{WhereTold};
ghost use Rattle.jet_file.specs.Writing.{WritesAll};

use crate::{Out, OutFault, Outside};

/// Appends all bytes to an output, in as many calls as it takes. Nothing is called for no bytes.
pub fn write_all<O: Outside>(out: &mut O, to: Out, bytes: &[u8]) -> Result<(), OutFault>
    ensures told { WhereTold (WritesAll to bytes.now result) (O.told out.old) (O.told out.new) }
    ensures opened { O.opened out.new ≡ O.opened out.old }
    ensures steady { O.steady out.new ≡ O.steady out.old }
    ensures works { IsTrue (O.steady out.old) → result ≢ Err OutFault.Failed }
    ensures cause { HasCause (O.faults out.old) (O.faults out.new) result }
    ensures nothing { length bytes.now ≡ 0 → IsOk result × (out.new ≡ out.old) }
{
    let mut done = 0;
    while done < bytes.len() {
        let count = out.write(to, &bytes[done..])?;
        done += count;
    }
    Ok(())
}
