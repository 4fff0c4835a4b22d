// A tasklet over any processor.
ghost use Rattle.std.specs.Prelude.{◌≡◌, ◌↔◌, ◌⊎◌, ℕ, Bool, ◌<◌, ◌≤◌, ◌+◌, List, [], ◌∷◌, ◌++◌, true, false, ◌^◌, map, length, get_or, Ok, IfOk, IfSome, IfNone, OnErr};
ghost use Rattle.jet_items.specs.declared.item.Item.{Item};
ghost use Rattle.jet_boxes.specs.Calls.{Call, MayCall};
ghost use Rattle.jet_tasklet.specs.declared.arrival.Arrival.{Arrival};
ghost use Rattle.jet_tasklet.specs.declared.step.Step.TheVariants as step;
ghost use Rattle.jet_wire.specs.declared.progress.Progress.TheVariants as progress;
ghost use Rattle.jet_tasklet.specs.Steps.{entry_of, next_of};

use crate::call::{call, has_ended};
use crate::inputs::{Spot, arrival_at, count_queues, find, front, have_ended, skip, turn_after};
use crate::note::{is_data, note};
use crate::output::Output;
use crate::outputs::{give_out, over};
use crate::step::{Pending, Step};
use crate::{Arrival, Input, Progress};
use jet_boxes::{Outbox, Port, Processor};
use jet_coalescer::Coalescer;
use jet_items::{Item, NoMemory};
use jet_router::Router;
use std::alloc::Global;

/// Takes items from its inputs, hands them to a processor, and gives on what that puts.
#[derive(Drop)]
pub struct Tasklet<P> {
    processor: P,
    pub(crate) inputs: Vec<Input>,
    // The place of the input that is asked first for the next item.
    next: usize,
    pub(crate) outputs: Vec<Output>,
    // The watermark of the stream queues.
    coalescer: Coalescer,
    step: Step,
    outbox: Outbox,
}

impl<P: Processor> Tasklet<P> {
    ghost use Rattle.jet_tasklet.specs.Inputs.{inputs_view, received_count, received, dones, queue_count, all_done};
    ghost use Rattle.jet_items.specs.Bag.{SameBag};
    ghost use Rattle.jet_coalescer.specs.Low.{low};
    ghost use Rattle.jet_tasklet.specs.Trace.{histories};
    ghost use Rattle.jet_items.specs.Kinds.{data_of};
    ghost use Rattle.jet_tasklet.specs.Merging.{data_received, last_told};
    ghost use Rattle.jet_tasklet.specs.Keeps.{Keeps, told, IsLawful, Stays, Goes, IsUnread, IsUnsent};
    ghost use Rattle.jet_router.specs.Router.{view};
    ghost use Rattle.jet_items.specs.Order.{Each};
    ghost use Rattle.jet_boxes.specs.declared.port.Port.{Port};
    ghost use Rattle.jet_tasklet.specs.Taking.{NoneToTake, IsNext, Stands};
    ghost use Rattle.jet_boxes.specs.Entry.{IsData};
    ghost use Rattle.jet_items.specs.Order.{Sound, Closed as ClosedItems};
    ghost use Rattle.jet_boxes.specs.Entry.{CallEntry, items_of};
    ghost use Rattle.jet_boxes.specs.declared.port.Port.TheVariants.{Stream, Build};
    ghost use Rattle.jet_tasklet.specs.Outputs.{outputs_view, ready, HasDest, sent_count, Says};
    ghost use Rattle.jet_tasklet.specs.Sending.{EachReceived, EachSent, EachFront};
    ghost use Rattle.jet_tasklet.specs.Turning.{is_free, rank, HasEnded, Worked, TakesNone, BeginsFinish, IsFull, IsBlocked, IsStarved, Moves, IsStill};
    ghost use Rattle.jet_tasklet.specs.inner.Leaving.{IsStopped};
    ghost use Rattle.jet_tasklet.specs.Turned.{Turned};
    ghost use Rattle.jet_tasklet.specs.Wanting.{IsWanting};
    ghost use Rattle.jet_tasklet.specs.Fairness.{TookFairly, FoundInTurn, turns_of};
    ghost use Rattle.jet_tasklet.specs.Taking.{TookAt};

    /// A tasklet that has taken nothing, with an outbox for `room` items. The processor, the conveyors and the routers are
    /// new, and there is at least one router.
    pub fn new(
        alloc: Global,
        processor: P,
        inputs: Vec<Input>,
        outputs: Vec<Router>,
        room: u32,
    ) -> Result<Tasklet<P>, NoMemory>
    where
        P: Drop,
        requires room { 1 ≤ room }
        requires few { (port : Port) → queue_count port (inputs_view inputs.items) < 2 ^ 32 }
        requires new { P.stands processor [] [] }
        requires takes { (port : Port) → (q : ℕ) → q < queue_count port (inputs_view inputs.items) → P.takes processor port q }
        requires some { 0 < length outputs.items }
        requires dests { Each HasDest (map view outputs.items) }
        requires unread { Each IsUnread (inputs_view inputs.items) }
        requires unsent { Each IsUnsent (map view outputs.items) }
        ensures keeps { IfOk result (λ t. Keeps P.stands P.amid P.takes t [] []) }
        ensures room { IfOk result (λ t. t.outbox.room ≡ room) }
        ensures processor { IfOk result (λ t. t.processor ≡ processor) }
        ensures inputs { IfOk result (λ t. t.inputs ≡ inputs) }
        ensures outputs { IfOk result (λ t. outputs_view t.outputs.items ≡ map ready (map view outputs.items)) }
    {
        let queues = count_queues(&inputs, inputs.len(), Port::Stream);
        let coalescer = Coalescer::new(alloc, queues)?;
        let outputs = over(alloc, outputs)?;
        let outbox = Outbox::new(alloc, room)?;
        Ok(Tasklet {
            processor,
            inputs,
            next: 0,
            outputs,
            coalescer,
            step: Step::Poll,
            outbox,
        })
    }

    // Takes an item, and answers whether there was one.
    fn take(&mut self) -> Result<bool, NoMemory>
        requires free { self.old.step ≡ step.Poll }
        requires keeps { IsLawful P.stands P.amid P.takes self.old }
        ensures keeps { Goes P.stands P.amid P.takes self.old self.new }
        ensures turned { Turned P.same self.old self.new }
        ensures wants { OnErr result (P.frugal ≡ false) }
        ensures pending { OnErr result (IsWanting self.new.step) }
        ensures took { IfOk result (λ took. Says took (received_count (inputs_view self.old.inputs.items)) (received_count (inputs_view self.new.inputs.items))) }
        ensures few { received_count (inputs_view self.new.inputs.items) ≤ received_count (inputs_view self.old.inputs.items) + 1 }
        ensures fair { TookFairly self.old self.new }
        ensures outputs { self.new.outputs ≡ self.old.outputs }
        ensures same { result ≡ Ok false → Stays P.stands P.amid P.takes self.old self.new }
        ensures none { result ≡ Ok false → Worked self.old self.new × (self.new.step ≡ step.Poll) × NoneToTake (inputs_view self.new.inputs.items) }
    {
        let Some(spot) = self.find() else {
            return Ok(false);
        };
        if is_data(front(&self.inputs, &spot)) {
            self.hand_over(&spot)?;
        } else {
            self.note_front(&spot);
        }
        Ok(true)
    }

    // Finds the next item, and gives the turn to the input behind its own.
    fn find(&mut self) -> Option<Spot>
        requires keeps { IsLawful P.stands P.amid P.takes self.old }
        ensures keeps { Stays P.stands P.amid P.takes self.old self.new }
        ensures turned { Turned P.same self.old self.new }
        ensures rest { self.new ≡ record self.old { inputs = self.new.inputs; next = self.new.next } }
        ensures count { received_count (inputs_view self.new.inputs.items) ≡ received_count (inputs_view self.old.inputs.items) }
        ensures spot { IfSome result (λ s. IsNext (inputs_view self.new.inputs.items) s) }
        ensures in_turn { IfSome result (λ s. FoundInTurn (turns_of self.old) (turns_of self.new) s) }
        ensures none { IfNone result ((inputs_view self.new.inputs.items ≡ inputs_view self.old.inputs.items) × NoneToTake (inputs_view self.new.inputs.items)) }
        ensures next { IfNone result (self.new.next ≡ self.old.next) }
    {
        let found = find(&mut self.inputs, self.next);
        self.next = turn_after(&found, self.next);
        found
    }

    // Takes the mark or the end at a spot, and keeps the call that it asks for.
    fn note_front(&mut self, spot: &Spot)
        requires free { self.old.step ≡ step.Poll }
        requires keeps { IsLawful P.stands P.amid P.takes self.old }
        requires next { IsNext (inputs_view self.old.inputs.items) spot.now }
        ensures keeps { Goes P.stands P.amid P.takes self.old self.new }
        ensures turned { Turned P.same self.old self.new }
        ensures count { received_count (inputs_view self.new.inputs.items) ≡ received_count (inputs_view self.old.inputs.items) + 1 }
        ensures took { (x : Item) × TookAt (inputs_view self.old.inputs.items) (inputs_view self.new.inputs.items) spot.now x }
        ensures next { self.new.next ≡ self.old.next }
        ensures outputs { self.new.outputs ≡ self.old.outputs }
    {
        let arrival = arrival_at(spot, front(&self.inputs, spot));
        skip(&mut self.inputs, spot);
        self.step = note(&mut self.coalescer, arrival);
    }

    // Hands the data at a spot to the processor, in its slot. The call is kept, with a copy, only where it is not ended.
    fn hand_over(&mut self, spot: &Spot) -> Result<bool, NoMemory>
        requires free { self.old.step ≡ step.Poll }
        requires keeps { IsLawful P.stands P.amid P.takes self.old }
        requires next { IsNext (inputs_view self.old.inputs.items) spot.now }
        requires is_data { (x : Item) → Stands (inputs_view self.old.inputs.items) spot.now x → IsData x }
        ensures keeps { Goes P.stands P.amid P.takes self.old self.new }
        ensures turned { Turned P.same self.old self.new }
        ensures wants { OnErr result (P.frugal ≡ false) }
        ensures pending { OnErr result (IsWanting self.new.step) }
        ensures count { received_count (inputs_view self.new.inputs.items) ≡ received_count (inputs_view self.old.inputs.items) + 1 }
        ensures took { (x : Item) × TookAt (inputs_view self.old.inputs.items) (inputs_view self.new.inputs.items) spot.now x }
        ensures next { self.new.next ≡ self.old.next }
        ensures outputs { self.new.outputs ≡ self.old.outputs }
    {
        let item = front(&self.inputs, spot);
        let made = self
            .processor
            .accept(spot.port, spot.queue, item, &mut self.outbox);
        if !has_ended(&made) {
            self.step = Step::Make(Pending::Accept(arrival_at(spot, item)));
            skip(&mut self.inputs, spot);
            return made;
        }
        skip(&mut self.inputs, spot);
        made
    }

    // Makes the call that is pending, and answers whether it is ended.
    fn make(&mut self, pending: &Pending) -> Result<bool, NoMemory>
        requires pending { self.old.step ≡ step.Make pending.now }
        requires keeps { IsLawful P.stands P.amid P.takes self.old }
        ensures keeps { Stays P.stands P.amid P.takes self.old self.new }
        ensures turned { Turned P.same self.old self.new }
        ensures wants { OnErr result (P.frugal ≡ false) }
        ensures pending { OnErr result (IsWanting self.new.step) }
        ensures next { result ≡ Ok true → self.new.step ≡ next_of pending.now }
        ensures worked { Worked self.old self.new }
        ensures full { result ≡ Ok false → IsFull self.new.outbox }
    {
        let ended = call(&mut self.processor, pending, &mut self.outbox)?;
        if ended {
            self.step = pending.next();
        }
        Ok(ended)
    }

    // Puts Done, where there is room.
    fn put_done(&mut self) -> bool
        requires finished { self.old.step ≡ step.End }
        ensures keeps { Stays P.stands P.amid P.takes self.old self.new }
        ensures turned { Turned P.same self.old self.new }
        ensures ended { result ≡ true → self.new.step ≡ step.Ended }
        ensures worked { Worked self.old self.new }
        ensures full { result ≡ false → IsFull self.new.outbox }
    {
        if self.outbox.offer(Item::Done).is_err() {
            return false;
        }
        self.step = Step::Ended;
        true
    }

    // Does what is pending, and answers whether it is ended.
    fn advance(&mut self) -> Result<bool, NoMemory>
        requires pending { is_free self.old.step ≡ false }
        requires keeps { IsLawful P.stands P.amid P.takes self.old }
        ensures keeps { Stays P.stands P.amid P.takes self.old self.new }
        ensures turned { Turned P.same self.old self.new }
        ensures wants { OnErr result (P.frugal ≡ false) }
        ensures pending { OnErr result (IsWanting self.new.step) }
        ensures smaller { result ≡ Ok true → rank self.new.step < rank self.old.step }
        ensures worked { Worked self.old self.new }
        ensures full { result ≡ Ok false → IsFull self.new.outbox }
    {
        let step = self.step;
        match step {
            Step::Make(pending) => self.make(&pending),
            Step::End => Ok(self.put_done()),
            Step::Poll | Step::Ended => Ok(true),
        }
    }

    // Makes the calls that are pending, and answers whether none is left.
    fn work(&mut self) -> Result<bool, NoMemory>
        requires keeps { IsLawful P.stands P.amid P.takes self.old }
        ensures keeps { Stays P.stands P.amid P.takes self.old self.new }
        ensures turned { Turned P.same self.old self.new }
        ensures wants { OnErr result (P.frugal ≡ false) }
        ensures pending { OnErr result (IsWanting self.new.step) }
        ensures free { result ≡ Ok true → is_free self.new.step ≡ true }
        ensures worked { Worked self.old self.new }
        ensures full { result ≡ Ok false → IsFull self.new.outbox }
    {
        'calls: while !self.step.is_free() {
            if !self.advance()? {
                return Ok(false);
            }
        }
        Ok(true)
    }

    // Takes an item once nothing is pending, and answers whether there was one.
    fn take_next(&mut self) -> Result<bool, NoMemory>
        requires keeps { IsLawful P.stands P.amid P.takes self.old }
        ensures keeps { Goes P.stands P.amid P.takes self.old self.new }
        ensures turned { Turned P.same self.old self.new }
        ensures wants { OnErr result (P.frugal ≡ false) }
        ensures pending { OnErr result (IsWanting self.new.step) }
        ensures took { IfOk result (λ took. Says took (received_count (inputs_view self.old.inputs.items)) (received_count (inputs_view self.new.inputs.items))) }
        ensures few { received_count (inputs_view self.new.inputs.items) ≤ received_count (inputs_view self.old.inputs.items) + 1 }
        ensures fair { TookFairly self.old self.new }
        ensures outputs { self.new.outputs ≡ self.old.outputs }
        ensures same { result ≡ Ok false → Stays P.stands P.amid P.takes self.old self.new }
        ensures none { result ≡ Ok false → Worked self.old self.new × TakesNone self.new }
    {
        if !self.work()? {
            return Ok(false);
        }
        if !self.is_polling() {
            return Ok(false);
        }
        self.take()
    }

    // Takes at most 64 items, and answers whether there was one.
    fn take_items(&mut self) -> Result<bool, NoMemory>
        requires keeps { IsLawful P.stands P.amid P.takes self.old }
        ensures keeps { Goes P.stands P.amid P.takes self.old self.new }
        ensures turned { Turned P.same self.old self.new }
        ensures wants { OnErr result (P.frugal ≡ false) }
        ensures pending { OnErr result (IsWanting self.new.step) }
        ensures took { IfOk result (λ took. Says took (received_count (inputs_view self.old.inputs.items)) (received_count (inputs_view self.new.inputs.items))) }
        ensures few { received_count (inputs_view self.new.inputs.items) ≤ received_count (inputs_view self.old.inputs.items) + 64 }
        ensures fair { TookFairly self.old self.new }
        ensures outputs { self.new.outputs ≡ self.old.outputs }
        ensures same { result ≡ Ok false → Stays P.stands P.amid P.takes self.old self.new }
        ensures none { result ≡ Ok false → Worked self.old self.new × TakesNone self.new }
    {
        if !self.take_next()? {
            return Ok(false);
        }
        'items: for _taken in 1u32..64 {
            if !self.take_next()? {
                return Ok(true);
            }
        }
        Ok(true)
    }

    // Whether the tasklet takes an item next.
    fn is_polling(&self) -> bool
        ensures { result ≡ true ↔ (self.now.step ≡ step.Poll) }
    {
        matches!(self.step, Step::Poll)
    }

    // Begins the finish once every queue is done.
    fn begin_finish(&mut self)
        ensures keeps { Stays P.stands P.amid P.takes self.old self.new }
        ensures turned { Turned P.same self.old self.new }
        ensures begins { BeginsFinish self.old self.new }
    {
        if !self.is_polling() {
            return;
        }
        if have_ended(&self.inputs) {
            self.step = Step::Make(Pending::Finish);
        }
    }

    // Gives the items of the outbox as far as they go, and answers whether one was pushed into a ring.
    fn give(&mut self) -> bool
        requires keeps { IsLawful P.stands P.amid P.takes self.old }
        ensures keeps { Goes P.stands P.amid P.takes self.old self.new }
        ensures turned { Turned P.same self.old self.new }
        ensures stops { IsStopped self.new.outbox.items (outputs_view self.new.outputs.items) }
        ensures step { self.new.step ≡ self.old.step }
        ensures room { self.new.outbox.room ≡ self.old.outbox.room }
        ensures inputs { self.new.inputs ≡ self.old.inputs }
        ensures next { self.new.next ≡ self.old.next }
        ensures pushed { Says result (sent_count (outputs_view self.old.outputs.items)) (sent_count (outputs_view self.new.outputs.items)) }
        ensures same { result ≡ false → Stays P.stands P.amid P.takes self.old self.new }
        ensures stays { result ≡ false → self.new.outbox.items ≡ self.old.outbox.items }
    {
        give_out(&mut self.outputs, &mut self.outbox)
    }

    // Whether Done was given to all outputs.
    fn has_ended(&self) -> bool
        ensures { result ≡ true ↔ HasEnded self.now }
    {
        let Step::Ended = self.step else {
            return false;
        };
        self.outbox.front().is_none()
    }

    /// Gives the front of the outbox to every output, as far as slots are free, and then takes at most 64 items and hands each
    /// to the processor. Build queues come first, and stream queues only once every build queue is done. Each input has its
    /// turn, and so has each of its queues: none is taken from twice while another one that may be polled has an item.
    pub fn turn(&mut self) -> Result<Progress, NoMemory>
        requires keeps { IsLawful P.stands P.amid P.takes self.old }
        ensures keeps { Goes P.stands P.amid P.takes self.old self.new }
        ensures turned { Turned P.same self.old self.new }
        ensures few { received_count (inputs_view self.new.inputs.items) ≤ received_count (inputs_view self.old.inputs.items) + 64 }
        ensures fair { TookFairly self.old self.new }
        ensures wants { OnErr result (P.frugal ≡ false) }
        ensures pending { OnErr result (IsWanting self.new.step) }
        ensures done { result ≡ Ok progress.Done → HasEnded self.old × (self.new ≡ self.old) }
        ensures after { HasEnded self.old → result ≡ Ok progress.Done }
        ensures moved { result ≡ Ok progress.Moved → Moves self.old self.new }
        ensures same { result ≡ Ok progress.Idle → Stays P.stands P.amid P.takes self.old self.new }
        ensures still { result ≡ Ok progress.Idle → IsStill self.old self.new }
        ensures idle { result ≡ Ok progress.Idle → IsBlocked self.new ⊎ IsStarved self.new }
    {
        if self.has_ended() {
            return Ok(Progress::Done);
        }
        let pushed = self.give();
        let room = self.outbox.free();
        let took = self.take_items()?;
        self.begin_finish();
        self.work()?;
        let after = self.outbox.free();
        let moved = pushed | took | (after < room);
        if moved {
            Ok(Progress::Moved)
        } else {
            Ok(Progress::Idle)
        }
    }
}
