// The call that is pending.
ghost use Rattle.std.specs.Prelude.{◌≡◌, true, false, Ok, OnErr};
ghost use Rattle.jet_boxes.specs.Calls.{Call, MayCall};
ghost use Rattle.jet_tasklet.specs.Steps.{entry_of};
ghost use Rattle.jet_tasklet.specs.Wanting.{MayWant};

use crate::step::Pending;
use jet_boxes::{Outbox, Processor};
use jet_items::NoMemory;

/// Makes one call.
pub(crate) fn call<P: Processor>(
    processor: &mut P,
    pending: &Pending,
    out: &mut Outbox,
) -> Result<bool, NoMemory>
    requires { MayCall P.amid (P.takes processor.old) processor.old (entry_of pending.now) }
    ensures made { Call P.stands P.amid P.same P.frugal processor.old (entry_of pending.now) out.old result processor.new out.new }
    ensures wants { OnErr result (MayWant pending.now) }
{
    match pending {
        Pending::Accept(arrival) => {
            processor.accept(arrival.port, arrival.queue, &arrival.item, out)
        }
        Pending::Close(port, queue, _) => Ok(processor.close_queue(*port, *queue, out)),
        Pending::Tell(mark) => processor.mark(*mark, out),
        Pending::Finish => processor.finish(out),
    }
}

/// Whether a call has ended: its entry was wholly taken.
pub(crate) fn has_ended(made: &Result<bool, NoMemory>) -> bool
    ensures yes { result ≡ true → made.now ≡ Ok true }
    ensures none { result ≡ false → made.now ≡ Ok true → ⊥ }
{
    matches!(made, Ok(true))
}
