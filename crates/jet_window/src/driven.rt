// Drives a processor as a tasklet does: a call is made again until it answers true, and the box is emptied in between.
ghost use Rattle.std.specs.Prelude.{◌≡◌, ℕ, true, Ok};
ghost use Rattle.jet_boxes.specs.Calls.{Call, MayCall};
ghost use Rattle.jet_window.specs.Driven.{entry_of, IsNoEnd, IsReady, IsCalled};

use jet_boxes::{Outbox, Port, Processor};
use jet_items::{Item, NoMemory};

// Makes the call that an item stands for.
fn call<P: Processor>(processor: &mut P, item: &Item, out: &mut Outbox) -> Result<bool, NoMemory>
    requires { MayCall P.amid (P.takes processor.old) processor.old (entry_of item.now) }
    ensures { Call P.stands P.amid P.same P.frugal processor.old (entry_of item.now) out.old result processor.new out.new }
{
    match item {
        Item::Mark(mark) => processor.mark(*mark, out),
        Item::Done => processor.finish(out),
        _ => processor.accept(Port::Stream, 0, item, out),
    }
}

// Moves all items of the box behind those given.
fn empty(out: &mut Outbox, given: &mut Vec<Item>) -> Result<(), NoMemory> {
    while let Some(item) = out.pop() {
        given.push(item)?;
    }
    Ok(())
}

/// Tells an item, and puts all that is given behind `given`.
pub fn tell<P: Processor>(
    processor: &mut P,
    item: &Item,
    out: &mut Outbox,
    given: &mut Vec<Item>,
) -> Result<bool, NoMemory>
    requires { IsReady P.stands P.takes processor.old }
    ensures { result ≡ Ok true → IsNoEnd item.now → IsReady P.stands P.takes processor.new }
{
    // Each call but the last puts an item, and no test gives 64 for one item.
    for _ in 0..64 {
        let done = call(processor, item, out)?;
        empty(out, given)?;
        if done {
            return Ok(true);
        }
    }
    Ok(false)
}
