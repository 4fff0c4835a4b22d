// The top call.
ghost use Rattle.std.specs.Prelude.{◌≡◌, ◌<◌, ◌≤◌, ◌↔◌, ℕ, Some, None, map, string_bytes, IfSome, IsSomeAnd, IsTrue};
ghost use Rattle.jet_file.specs.Causes.{Rose};
ghost use Rattle.jet_file.specs.Headline.{WritesNothing};
ghost use Rattle.jet_file.specs.Outside.{WhereTold};
ghost use Rattle.jet_lines.specs.declared.fault.LineFault.{LineFault};
ghost use Rattle.jet_worker.specs.Calls.{Calling, EndsFailed};
ghost use Rattle.jet_worker.specs.declared.stop.Call.{Call};
ghost use Rattle.jet_worker.specs.declared.stop.Spot.{Spot};
ghost use Rattle.jet_cli.specs.Answers.{OrNoMemory, HasFiles, HasGoodFiles, HasNoJobFile, IsCutShort, IsJobUnread, IsOutsideFault, IsUsageOrRefused};
ghost use Rattle.jet_cli.specs.CallOrder.{IsInOrder, place_in};
ghost use Rattle.jet_cli.specs.Commands.{Finishes, StaysQuiet, StaysQuietInTime, HasBadLine, HasBegun};
ghost use Rattle.jet_cli.specs.Refusals.{MayBeRefused, RefusalIs};
ghost use Rattle.jet_cli.specs.Words.{command_of, JetCommand};
ghost use Rattle.jet_cli.specs.declared.status.Refusal.{Refusal};

use crate::commands::run_command;
use crate::{Gate, Status, Steps, read_words};
use jet_file::Outside;
use std::alloc::Global;
use std::sync::ledger::Ledger;
use std::thread::Threads;

/// Does all that the program does. `words` are those after the program's name. `run` has the workers of its job on threads
/// of `rt`, and a worker enters by `gate`; of the other commands one loop on the caller's thread does the work. No step is
/// counted yet.
pub fn run_jet<R: Threads + Sync, O: Outside, G: Gate + Sync, L: Ledger>(
    rt: &R,
    alloc: Global,
    words: &[String],
    out: &mut O,
    gate: &G,
    steps: &mut Steps<L>,
) -> Status
    // Done: to `window` the rows over all events but those of the late lines, to `plan` the plan's text, to `check` the
    // check's text, and to `run` each row and late event of one list of items; and nothing else. Which items these are is
    // not said yet.
    ensures done { result ≡ Status.Done → IsSomeAnd (command_of (map string_bytes words.now))
        (λ c. WhereTold (Finishes c (O.opened out.old) (O.opened out.new)) (O.told out.old) (O.told out.new)) }
    ensures quiet { result ≡ Status.Done → IsSomeAnd (command_of (map string_bytes words.now))
        (λ c. WhereTold (StaysQuiet c) (O.told out.old) (O.told out.new)) }
    ensures in_time { result ≡ Status.Done → IsSomeAnd (command_of (map string_bytes words.now))
        (λ c. WhereTold (StaysQuietInTime c) (O.told out.old) (O.told out.new)) }

    // However it ends, its calls come in this order: the job file of `run`, `plan` and `check` is opened and read, and no more
    // bytes are taken of it than one too many; then the data files are opened in the order of their numbers, and no
    // other; then each has its turn in `check`: reads of it to its end, and then writes of its line, before the next file
    // is read. A read takes at most 4096 bytes. Of a data file of `window` and `check` no read is made behind its end, nor
    // once a whole line that was taken of it is bad; and before each read of `window` the late lines of the lines taken had
    // been written.
    ensures calls { IfSome (command_of (map string_bytes words.now))
        (λ c. WhereTold (Calling (IsInOrder c)) (O.told out.old) (O.told out.new)) }

    // Where a call fails or memory runs out, `run`, `plan` and `check` have written fronts of their texts.
    ensures begun { IsCutShort result → IsSomeAnd (command_of (map string_bytes words.now))
        (λ c. WhereTold (HasBegun c) (O.told out.old) (O.told out.new)) }

    // No step is counted yet, and no call undoes a fault or ends the steadiness of the outside.
    ensures steps { steps.new ≡ steps.old }
    ensures steady_same { O.steady out.new ≡ O.steady out.old }
    ensures later { O.faults out.old ≤ O.faults out.new }

    // Usage comes exactly where the words are no command.
    ensures usage { result ≡ Status.Usage ↔ (command_of (map string_bytes words.now) ≡ None) }

    // A job is refused only for its first fault, where the outside tells the job file; and always for that, but that the
    // opening or the reading of the job file may fail and memory may run out.
    ensures refused { (why : Refusal) → result ≡ Status.JobRefused why
        → IsSomeAnd (command_of (map string_bytes words.now)) (λ c. MayBeRefused why c (O.told out.old)) }
    ensures refuses { (c : JetCommand) (why : Refusal) → command_of (map string_bytes words.now) ≡ Some c → RefusalIs (Some why) c (O.told out.old)
        → (IsJobUnread c result → ⊥) → OrNoMemory result (Status.JobRefused why) }
    ensures unwritten { IsUsageOrRefused result → WhereTold WritesNothing (O.told out.old) (O.told out.new) }
    ensures untouched { HasNoJobFile (command_of (map string_bytes words.now)) → IsUsageOrRefused result → out.new ≡ out.old }

    // A bad line is the first one of its file.
    ensures bad_line { (part line : ℕ) (why : LineFault) → result ≡ Status.BadLine part line why
        → IsSomeAnd (command_of (map string_bytes words.now)) (λ c. HasBadLine c part line why (O.told out.old) (O.told out.new)) }

    // A fault of the outside comes only where its count rose, and wherever it rose, and names the call that failed: a
    // file by the place of its opening.
    ensures fault { IsOutsideFault result → Rose (O.faults out.old) (O.faults out.new) }
    ensures every_fault { O.faults out.old < O.faults out.new → IsOutsideFault result }
    ensures fault_call { (call : Call) (spot : Spot) → result ≡ Status.OutsideFault call spot
        → IsSomeAnd (command_of (map string_bytes words.now)) (λ c. WhereTold (Calling (λ calls _ _. EndsFailed (place_in c) call spot calls)) (O.told out.old) (O.told out.new)) }

    // No fault comes of an outside on which no call fails and the files are there.
    ensures steady { (c : JetCommand) → command_of (map string_bytes words.now) ≡ Some c
        → IsTrue (O.steady out.old) → HasFiles c (O.told out.old) → IsOutsideFault result → ⊥ }

    // A command, a job without a fault, good files and no rise give Done, or want of memory.
    ensures complete { (c : JetCommand) → command_of (map string_bytes words.now) ≡ Some c → RefusalIs None c (O.told out.old)
        → HasGoodFiles c (O.told out.old) → (Rose (O.faults out.old) (O.faults out.new) → ⊥) → OrNoMemory result Status.Done }
{
    match read_words(words) {
        Some(command) => run_command(alloc, rt, gate, &command, out),
        None => Status::Usage,
    }
}
