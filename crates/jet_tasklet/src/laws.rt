// What holds of every tasklet by what it keeps.
ghost use Rattle.std.specs.Prelude.{◌≡◌, ◌↔◌, ◌⊎◌, ℕ, Bool, ◌<◌, ◌≤◌, List, [], ◌∷◌, ◌++◌, true, false, ◌^◌, map, get_or, Ok, IfOk, OnErr, Some, slice_get};
ghost use Rattle.jet_items.specs.declared.item.Item.{Item};
ghost use Rattle.jet_boxes.specs.Calls.{Call, MayCall};
ghost use Rattle.jet_tasklet.specs.declared.arrival.Arrival.{Arrival};
ghost use Rattle.jet_tasklet.specs.declared.step.Step.TheVariants as step;
ghost use Rattle.jet_wire.specs.declared.progress.Progress.TheVariants as progress;
ghost use Rattle.jet_tasklet.specs.Steps.{entry_of, next_of};

use crate::Tasklet;
use jet_boxes::Processor;

impl<P: Processor> Tasklet<P> {
    ghost use Rattle.jet_tasklet.specs.Inputs.{inputs_view, received_count, received, dones, queue_count, all_done};
    ghost use Rattle.jet_items.specs.Bag.{SameBag};
    ghost use Rattle.jet_coalescer.specs.Low.{low};
    ghost use Rattle.jet_tasklet.specs.Trace.{histories};
    ghost use Rattle.jet_items.specs.Kinds.{data_of};
    ghost use Rattle.jet_tasklet.specs.Merging.{data_received, last_told};
    ghost use Rattle.jet_tasklet.specs.Keeps.{Keeps, told, IsLawful, Goes, IsUnread, IsUnsent};
    ghost use Rattle.jet_router.specs.Router.{view};
    ghost use Rattle.jet_items.specs.Order.{Each};
    ghost use Rattle.jet_boxes.specs.declared.port.Port.{Port};
    ghost use Rattle.jet_tasklet.specs.Taking.{NoneToTake};
    ghost use Rattle.jet_items.specs.Order.{Sound, Closed as ClosedItems};
    ghost use Rattle.jet_boxes.specs.Entry.{CallEntry, items_of};
    ghost use Rattle.jet_boxes.specs.declared.port.Port.TheVariants.{Stream, Build};
    ghost use Rattle.jet_tasklet.specs.Outputs.{outputs_view, sent_count, Says};
    ghost use Rattle.jet_tasklet.specs.Sending.{EachReceived, EachSent, EachFront};
    ghost use Rattle.jet_tasklet.specs.Turning.{is_free, rank, HasEnded, Worked, TakesNone, BeginsFinish, IsFull, IsBlocked, IsStarved, Moves, IsStill};
    ghost use Rattle.jet_tasklet.specs.inner.Leaving.{IsStopped};
    ghost use Rattle.jet_tasklet.specs.Lending.{with_input, with_output};
    ghost use Rattle.jet_conveyor.specs.Conveyor as conveyor;
    ghost use Rattle.jet_conveyor.specs.declared.conveyor.Conveyor.{Conveyor};
    ghost use Rattle.jet_router.specs.Router as router;
    ghost use Rattle.jet_router.specs.declared.router.Router.{Router};

    /// In a tasklet the laws of its processor hold of all that it was told, less what is pending.
    pub fn law_keeps(&self)
        ensures bag { (came : List Arrival) → (gave : List Item) → Keeps P.stands P.amid P.takes self.now came gave → Keeps P.bag P.bag_amid P.takes self.now came gave }
        ensures marks { (came : List Arrival) → (gave : List Item) → Keeps P.stands P.amid P.takes self.now came gave → Keeps P.marks P.marks_amid P.takes self.now came gave }
    {}

    /// Where the list that each queue received is sound, so is the list of items and marks that the processor was told,
    /// and where those lists are closed, so is it.
    pub fn law_told_in_order(&self)
        ensures sound { (behind : ℕ → ℕ → Bool) → (came : List Arrival) → (gave : List Item) → Keeps P.stands P.amid P.takes self.now came gave
            → EachReceived (Sound behind) (inputs_view self.now.inputs.items)
            → EachFront (λ taken. Sound behind (items_of taken)) (told self.now.step (queue_count Stream (inputs_view self.now.inputs.items)) came) }
        ensures closed { (came : List Arrival) → (gave : List Item) → Keeps P.stands P.amid P.takes self.now came gave
            → EachReceived ClosedItems (inputs_view self.now.inputs.items)
            → EachFront (λ taken. ClosedItems (items_of taken)) (told self.now.step (queue_count Stream (inputs_view self.now.inputs.items)) came) }
    {}

    /// Where the processor's premise holds of what it was told, the list that each destination was sent is sound, and
    /// closed: also after the end, since no processor gives a Done.
    pub fn law_sends_in_order(&self)
        ensures sound { (behind : ℕ → ℕ → Bool) → (came : List Arrival) → (gave : List Item) → Keeps P.stands P.amid P.takes self.now came gave
            → EachFront (P.sound_if self.now.processor behind) (told self.now.step (queue_count Stream (inputs_view self.now.inputs.items)) came)
            → EachSent (Sound behind) (outputs_view self.now.outputs.items) }
        ensures closed { (came : List Arrival) → (gave : List Item) → Keeps P.stands P.amid P.takes self.now came gave
            → EachFront (P.closed_if self.now.processor) (told self.now.step (queue_count Stream (inputs_view self.now.inputs.items)) came)
            → EachSent ClosedItems (outputs_view self.now.outputs.items) }
    {
        self.law_enters_in_order();
    }

    /// The data that the processor was told is that which all queues received, whatever the order in which it came, and
    /// while a stream queue is not done the last mark told or pending is the least of the greatest marks of those queues.
    pub fn law_takes_from_all(&self)
        ensures bag { (came : List Arrival) → (gave : List Item) → Keeps P.stands P.amid P.takes self.now came gave
            → SameBag (data_of (items_of (told self.now.step (queue_count Stream (inputs_view self.now.inputs.items)) came)))
            (data_received Stream (inputs_view self.now.inputs.items) ++ data_received Build (inputs_view self.now.inputs.items)) }
        ensures mark { (came : List Arrival) → (gave : List Item) → Keeps P.stands P.amid P.takes self.now came gave
            → (q : ℕ) → q < queue_count Stream (inputs_view self.now.inputs.items) → get_or (dones Stream (inputs_view self.now.inputs.items)) q true ≡ false
            → last_told (told self.now.step (queue_count Stream (inputs_view self.now.inputs.items)) came)
            ≡ low (histories (queue_count Stream (inputs_view self.now.inputs.items)) (λ q. get_or (received Stream (inputs_view self.now.inputs.items)) q [])) }
    {}

    /// A meeting of an end that the tasklet has lent out leaves what came to it, what it gave and what it keeps.
    pub fn law_keeps_at_meetings(&self)
        ensures input { (came : List Arrival) → (gave : List Item) → (n q : ℕ) → (was w : Conveyor) → Keeps P.stands P.amid P.takes self.now came gave
            → slice_get (map (λ i. i.conveyor) self.now.inputs.items) n ≡ Some was → conveyor.Refreshed (conveyor.view was) (conveyor.view w) q
            → Keeps P.stands P.amid P.takes (with_input self.now n was w) came gave }
        ensures output { (came : List Arrival) → (gave : List Item) → (n d : ℕ) → (was w : Router) → Keeps P.stands P.amid P.takes self.now came gave
            → slice_get (map (λ o. o.router) self.now.outputs.items) n ≡ Some was → router.Refreshed (router.view was) (router.view w) d
            → Keeps P.stands P.amid P.takes (with_output self.now n was w) came gave }
    {}
}
