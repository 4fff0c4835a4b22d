// The outputs of a tasklet together.
ghost use Rattle.std.specs.Prelude.{◌≡◌, ◌<◌, ◌++◌, ◌⊎◌, true, false, List, [], length, map, IfOk, IsTrue, ◌↔◌, All};
ghost use Rattle.jet_items.specs.declared.item.Item.{Item};
ghost use Rattle.jet_items.specs.Order.{Each};
ghost use Rattle.jet_router.specs.Router.{view};
ghost use Rattle.jet_router.specs.Deals.{IsFull};
ghost use Rattle.jet_tasklet.specs.Outputs.{output_view, outputs_view, ready, InGift, Giving, SomeBlocked, SomeWaits, sent_count, Says};
ghost use Rattle.jet_tasklet.specs.inner.Leaving.{Leaves, IsStopped};
ghost use Rattle.jet_tasklet.specs.Turned.{OutputGoes};
ghost use Rattle.std.specs.List.{AllZip};

use crate::output::Output;
use jet_boxes::Outbox;
use jet_items::{Item, NoMemory};
use jet_router::Router;
use std::alloc::Global;

/// The outputs over these routers, none of which has an item in hand.
pub(crate) fn over(alloc: Global, routers: Vec<Router>) -> Result<Vec<Output>, NoMemory>
    ensures { IfOk result (λ v. outputs_view v.items ≡ map ready (map view routers.items)) }
{
    let mut outputs = Vec::new(alloc);
    for router in routers {
        outputs.push(Output { router, had: false })?;
    }
    Ok(outputs)
}

// Gives an item to each output that has not had it, and answers whether it was pushed into a ring.
fn give_each(outputs: &mut [Output], item: &Item) -> bool
    requires { (gave : List Item) × Each (InGift gave item.now) (outputs_view outputs.old) }
    ensures gives { (gave : List Item) → Each (InGift gave item.now) (outputs_view outputs.old) → Each (InGift gave item.now) (outputs_view outputs.new) }
    ensures full { Each (λ o. o.had ≡ false → IsFull o.router item.now) (outputs_view outputs.new) }
    ensures goes { AllZip OutputGoes (outputs_view outputs.old) (outputs_view outputs.new) }
    ensures waits { SomeWaits (outputs_view outputs.old) → (result ≡ true) ⊎ SomeWaits (outputs_view outputs.new) }
    ensures pushed { Says result (sent_count (outputs_view outputs.old)) (sent_count (outputs_view outputs.new)) }
{
    let mut pushed = false;
    for place in 0..outputs.len() {
        pushed |= outputs[place].give(item);
    }
    pushed
}

// Whether each output has had the item.
fn have_all(outputs: &[Output]) -> bool
    ensures { IsTrue result ↔ All (λ o. o.had ≡ true) outputs.now }
{
    outputs.iter().all(|output| output.had)
}

// Makes each output ready for the next item.
fn clear(outputs: &mut [Output])
    ensures { outputs_view outputs.new ≡ map (λ o. ready o.router) (outputs_view outputs.old) }
{
    for place in 0..outputs.len() {
        outputs[place].had = false;
    }
}

// What became of the item at the front of the outbox: whether it has left, and whether it was pushed into a ring.
#[derive(Clone, Copy)]
struct Fate {
    left: bool,
    pushed: bool,
}

// Gives the item at the front of the outbox.
fn give_front(outputs: &mut [Output], outbox: &mut Outbox) -> Fate
    requires { (gave : List Item) × Giving gave outbox.old.items (outputs_view outputs.old) }
    ensures leaves { Leaves outbox.old.items (outputs_view outputs.old) outbox.new.items (outputs_view outputs.new) }
    ensures room { outbox.new.room ≡ outbox.old.room }
    ensures goes { AllZip OutputGoes (outputs_view outputs.old) (outputs_view outputs.new) }
    ensures fewer { result.left ≡ true → length outbox.new.items < length outbox.old.items }
    ensures stays { result.left ≡ false → outbox.new.items ≡ outbox.old.items }
    ensures pushes { SomeWaits (outputs_view outputs.old) → result.left ≡ true → result.pushed ≡ true }
    ensures stops { result.left ≡ false → IsStopped outbox.new.items (outputs_view outputs.new) }
    ensures pushed { Says result.pushed (sent_count (outputs_view outputs.old)) (sent_count (outputs_view outputs.new)) }
{
    let Some(front) = outbox.front() else {
        return Fate {
            left: false,
            pushed: false,
        };
    };
    let pushed = give_each(outputs, front);
    if !have_all(outputs) {
        return Fate {
            left: false,
            pushed,
        };
    }
    clear(outputs);
    outbox.skip();
    Fate { left: true, pushed }
}

/// Gives the items of the outbox in order, until one is owed to a destination that has no known free slot, and answers
/// whether something was pushed into a ring.
pub(crate) fn give_out(outputs: &mut [Output], outbox: &mut Outbox) -> bool
    requires { (gave : List Item) × Giving gave outbox.old.items (outputs_view outputs.old) }
    ensures leaves { Leaves outbox.old.items (outputs_view outputs.old) outbox.new.items (outputs_view outputs.new) }
    ensures room { outbox.new.room ≡ outbox.old.room }
    ensures goes { AllZip OutputGoes (outputs_view outputs.old) (outputs_view outputs.new) }
    ensures stays { SomeWaits (outputs_view outputs.old) → result ≡ false → outbox.new.items ≡ outbox.old.items }
    ensures stops { IsStopped outbox.new.items (outputs_view outputs.new) }
    ensures pushed { Says result (sent_count (outputs_view outputs.old)) (sent_count (outputs_view outputs.new)) }
{
    let mut pushed = false;
    loop {
        let fate = give_front(outputs, outbox);
        pushed |= fate.pushed;
        if !fate.left {
            return pushed;
        }
    }
}
