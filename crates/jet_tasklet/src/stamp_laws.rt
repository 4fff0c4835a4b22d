// What holds of the tasklets of stamps, which are told no marks.
ghost use Rattle.std.specs.Prelude.{ℕ, Bool, List};
ghost use Rattle.jet_items.specs.declared.item.Item.{Item};
ghost use Rattle.jet_items.specs.Order.{Each, Sound, Closed};
ghost use Rattle.jet_stages.specs.Stamp.{IsNoResult};
ghost use Rattle.jet_tasklet.specs.declared.arrival.Arrival.{Arrival};
ghost use Rattle.jet_tasklet.specs.Inputs.{inputs_view};
ghost use Rattle.jet_tasklet.specs.Keeps.{Keeps};
ghost use Rattle.jet_tasklet.specs.Kinds.{stamps};
ghost use Rattle.jet_tasklet.specs.Outputs.{outputs_view};
ghost use Rattle.jet_tasklet.specs.Sending.{EachReceived, EachSent};
ghost use Rattle.jet_tasklet.specs.StampInOrder.{AreFromFiles};

use crate::Tasklet;
use jet_stages::Stamp;

/// A law: where the queues of a stamp received the events of files, each in the order of its file, and no late item, the
/// list that each destination was sent is sound; and where they received no frame and no row, it is closed.
pub fn stamps_send_in_order(stamp: &Tasklet<Stamp>)
    ensures sound { (behind : ℕ → ℕ → Bool) → (came : List Arrival) → (gave : List Item) → Keeps stamps.stands stamps.amid stamps.takes stamp.now came gave
        → AreFromFiles stamp.now.processor.lag stamp.now.processor.grain behind (inputs_view stamp.now.inputs.items)
        → EachSent (Sound behind) (outputs_view stamp.now.outputs.items) }
    ensures closed { (came : List Arrival) → (gave : List Item) → Keeps stamps.stands stamps.amid stamps.takes stamp.now came gave
        → EachReceived (Each IsNoResult) (inputs_view stamp.now.inputs.items)
        → EachSent Closed (outputs_view stamp.now.outputs.items) }
{
    stamp.law_sends_in_order();
}
