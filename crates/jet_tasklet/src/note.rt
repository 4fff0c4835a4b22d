// What an item asks of the processor.
ghost use Rattle.std.specs.Prelude.{◌≡◌, ◌<◌, true, false, List, ◌∷◌, [], ◌++◌, length};
ghost use Rattle.jet_boxes.specs.Entry.{IsData};
ghost use Rattle.jet_boxes.specs.declared.port.Port.TheVariants.{Stream};
ghost use Rattle.jet_coalescer.specs.Low.{HasHeard};
ghost use Rattle.jet_coalescer.specs.Queues.{is_done_at};
ghost use Rattle.jet_tasklet.specs.declared.arrival.Arrival.{Arrival};
ghost use Rattle.jet_tasklet.specs.Trace.{heard, asks};
ghost use Rattle.jet_tasklet.specs.Steps.{owed, told_next};
ghost use Rattle.jet_tasklet.specs.inner.Noting.{raised_to, EndsQueue, Notes};

use crate::Arrival;
use crate::step::{Pending, Step};
use jet_boxes::Port;
use jet_coalescer::{Change, Coalescer};
use jet_items::{Item, Mark};

fn tell(mark: Option<Mark>) -> Step
    ensures { result ≡ told_next mark }
{
    match mark {
        Some(mark) => Step::Make(Pending::Tell(mark)),
        None => Step::Poll,
    }
}

fn raised_to(change: Change) -> Option<Mark>
    ensures { result ≡ raised_to change }
{
    match change {
        Change::Raised(mark) => Some(mark),
        _ => None,
    }
}

// Takes note of a Done, and answers the watermark that it raised.
fn end(coalescer: &mut Coalescer, port: Port, queue: u32) -> Option<Mark>
    requires { port ≡ Stream → (queue < length coalescer.old.queues) × (is_done_at coalescer.old queue ≡ false) }
    ensures { EndsQueue coalescer.old coalescer.new port queue result }
{
    match port {
        Port::Stream => raised_to(coalescer.done(queue)),
        Port::Build => None,
    }
}

/// Whether an item is handed to the processor as it is.
pub(crate) fn is_data(item: &Item) -> bool
    ensures yes { result ≡ true → IsData item.now }
{
    !matches!(item, Item::Mark(_) | Item::Done)
}

/// Takes note of an item that came, and answers the call that it asks for.
pub(crate) fn note(coalescer: &mut Coalescer, arrival: Arrival) -> Step
    requires { arrival.port ≡ Stream → (arrival.queue < length coalescer.old.queues) × (is_done_at coalescer.old arrival.queue ≡ false) }
    ensures { Notes coalescer.old coalescer.new arrival result }
{
    let Arrival { port, queue, item } = arrival;
    match item {
        Item::Mark(mark) => match port {
            Port::Stream => tell(coalescer.observe(queue, mark)),
            Port::Build => Step::Poll,
        },
        Item::Done => Step::Make(Pending::Close(port, queue, end(coalescer, port, queue))),
        _ => Step::Make(Pending::Accept(arrival)),
    }
}
