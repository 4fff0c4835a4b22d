// The inputs of a tasklet together.
ghost use Rattle.std.specs.Prelude.{◌≡◌, ◌<◌, ◌≤◌, ◌+◌, ◌^◌, ◌⊎◌, length, take, true, false, IfSome, IfNone};
ghost use Rattle.jet_boxes.specs.declared.port.Port.TheVariants.{Stream, Build};
ghost use Rattle.jet_tasklet.specs.Inputs.{inputs_view, queue_count, all_done, NoneKnownAt};
ghost use Rattle.jet_tasklet.specs.Turning.{all_ended};
ghost use Rattle.jet_tasklet.specs.Taking.{Stands, Looked, TookAt, NoneToTake, arrival_of};
ghost use Rattle.jet_tasklet.specs.Fairness.{NoneBetween, QueueInTurn, IsFirst};
ghost use Rattle.jet_items.specs.declared.item.Item.{Item};

use crate::{Arrival, Input};
use jet_boxes::Port;
use jet_items::Item;

/// Whether each queue of a port is done.
pub(crate) fn are_done(inputs: &[Input], port: Port) -> bool
    ensures { result ≡ all_done port (inputs_view inputs.now) }
{
    for input in inputs {
        if input.leads_to(port) && !input.have_ended() {
            return false;
        }
    }
    true
}

/// Whether each queue of both ports is done.
pub(crate) fn have_ended(inputs: &[Input]) -> bool
    ensures { result ≡ all_ended (inputs_view inputs.now) }
{
    are_done(inputs, Port::Build) && are_done(inputs, Port::Stream)
}

/// How many queues of a port the first `count` inputs have.
pub(crate) fn count_queues(inputs: &[Input], count: usize, port: Port) -> u32
    requires inside { count ≤ length inputs.now }
    requires few { queue_count port (inputs_view inputs.now) < 2 ^ 32 }
    ensures { result ≡ queue_count port (take count (inputs_view inputs.now)) }
{
    let mut queues = 0;
    for place in 0..count {
        if inputs[place].leads_to(port) {
            queues += inputs[place].conveyor.queues();
        }
    }
    queues
}

/// Where the next item stands: the place of its input, its queue among those of the input, and its port, with the number
/// of the queue among those of the port.
#[derive(Clone, Copy)]
pub(crate) struct Spot {
    pub(crate) place: usize,
    pub(crate) within: u32,
    pub(crate) port: Port,
    pub(crate) queue: u32,
}

// Finds the next item of the queues of a port, of the first input from `from` to `to` that has one. The queues of the port
// are numbered through all its inputs.
fn find_span(inputs: &mut [Input], port: Port, from: usize, to: usize) -> Option<Spot>
    requires few { queue_count port (inputs_view inputs.old) < 2 ^ 32 }
    requires inside { to ≤ length inputs.old }
    ensures stands { IfSome result (λ s. (s.port ≡ port) × ((x : Item) × Stands (inputs_view inputs.new) s x)) }
    ensures looked { IfSome result (λ s. Looked (inputs_view inputs.old) (inputs_view inputs.new)) }
    ensures within { IfSome result (λ s. (from ≤ s.place) × (s.place < to)) }
    ensures first { IfSome result (λ s. NoneBetween port (inputs_view inputs.old) from s.place × QueueInTurn (inputs_view inputs.old) s) }
    ensures nothing { IfNone result ((inputs_view inputs.new ≡ inputs_view inputs.old) × NoneBetween port (inputs_view inputs.old) from to) }
{
    for place in from..to {
        if !inputs[place].leads_to(port) {
            continue;
        }
        let first = count_queues(inputs, place, port);
        if let Some(within) = inputs[place].find() {
            return Some(Spot {
                place,
                within,
                port,
                queue: first + within,
            });
        }
    }
    None
}

/// Finds the next item of the queues of a port, of the first input in turn that has one: from the place `next` on, and
/// then from the first.
pub(crate) fn find_at(inputs: &mut [Input], port: Port, next: usize) -> Option<Spot>
    requires few { queue_count port (inputs_view inputs.old) < 2 ^ 32 }
    ensures stands { IfSome result (λ s. (s.port ≡ port) × ((x : Item) × Stands (inputs_view inputs.new) s x)) }
    ensures looked { IfSome result (λ s. Looked (inputs_view inputs.old) (inputs_view inputs.new)) }
    ensures first { IfSome result (λ s. IsFirst (inputs_view inputs.old) next s) }
    ensures nothing { IfNone result ((inputs_view inputs.new ≡ inputs_view inputs.old) × NoneKnownAt port (inputs_view inputs.old)) }
{
    let count = inputs.len();
    let start = start_at(next, count);
    match find_span(inputs, port, start, count) {
        Some(spot) => Some(spot),
        None => find_span(inputs, port, 0, start),
    }
}

// The place that has the turn, of so many: the first once the last has had it.
fn start_at(next: usize, count: usize) -> usize
    ensures inside { result ≤ count }
    ensures start { ((next < count) × (result ≡ next)) ⊎ ((count ≤ next) × (result ≡ 0)) }
{
    if next < count { next } else { 0 }
}

/// Finds the next item of the build queues, while one of them is not done, and then of the stream queues: of the first
/// input in turn that has one, from the place `next` on, and of the first queue in turn.
pub(crate) fn find(inputs: &mut [Input], next: usize) -> Option<Spot>
    requires few { (port : Port) → queue_count port (inputs_view inputs.old) < 2 ^ 32 }
    ensures stands { IfSome result (λ s. (x : Item) × Stands (inputs_view inputs.new) s x) }
    ensures looked { IfSome result (λ s. Looked (inputs_view inputs.old) (inputs_view inputs.new)) }
    ensures first { IfSome result (λ s. IsFirst (inputs_view inputs.old) next s) }
    ensures builds { IfSome result (λ s. s.port ≡ Stream → all_done Build (inputs_view inputs.old) ≡ true) }
    ensures open { IfSome result (λ s. s.port ≡ Build → all_done Build (inputs_view inputs.old) ≡ false) }
    ensures nothing { IfNone result (inputs_view inputs.new ≡ inputs_view inputs.old) }
    ensures cause { IfNone result (NoneToTake (inputs_view inputs.old)) }
{
    if are_done(inputs, Port::Build) {
        find_at(inputs, Port::Stream, next)
    } else {
        find_at(inputs, Port::Build, next)
    }
}

/// The input that has the turn after a look: the one behind a spot that was found.
pub(crate) fn turn_after(found: &Option<Spot>, next: usize) -> usize
    requires room { IfSome found.now (λ s. s.place < 2 ^ 63) }
    ensures moved { IfSome found.now (λ s. result ≡ s.place + 1) }
    ensures stays { IfNone found.now (result ≡ next) }
{
    match found {
        Some(spot) => spot.place + 1,
        None => next,
    }
}

/// The item at a spot, lent in its slot.
pub(crate) fn front<'a>(inputs: &'a [Input], spot: &Spot) -> &'a Item
    requires { (x : Item) × Stands (inputs_view inputs.now) spot.now x }
    ensures { Stands (inputs_view inputs.now) spot.now result.now }
{
    inputs[spot.place].conveyor.front(spot.within)
}

/// Takes the item at a spot, and drops it.
pub(crate) fn skip(inputs: &mut [Input], spot: &Spot)
    requires { (x : Item) × Stands (inputs_view inputs.old) spot.now x }
    ensures { (x : Item) → Stands (inputs_view inputs.old) spot.now x → TookAt (inputs_view inputs.old) (inputs_view inputs.new) spot.now x }
{
    inputs[spot.place].conveyor.skip(spot.within);
}

/// The item at a spot, as it comes.
pub(crate) fn arrival_at(spot: &Spot, item: &Item) -> Arrival
    ensures { result ≡ arrival_of spot.now item.now }
{
    Arrival {
        port: spot.port,
        queue: spot.queue,
        item: *item,
    }
}
