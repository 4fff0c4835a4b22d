// The laws of tasklets for a tasklet of any kind: what it takes, what it gives so far and at its end, and in which order.
// Those of processors speak of tasklets that run one; senders and receivers have laws of their own in `jet_wire`.
ghost use Rattle.std.specs.Prelude.{◌≡◌, ℕ, Bool, ◌<◌, true, false, List, [], ◌∷◌, ◌++◌, get_or};
ghost use Rattle.jet_items.specs.declared.item.Item.{Item};
ghost use Rattle.jet_items.specs.declared.item.Item.TheVariants as item;
ghost use Rattle.jet_items.specs.Bag.{SameBag};
ghost use Rattle.jet_items.specs.Kinds.{data_of};
ghost use Rattle.jet_items.specs.Order.{Sound, Closed as ClosedItems};
ghost use Rattle.jet_boxes.specs.Entry.{items_of};
ghost use Rattle.jet_boxes.specs.declared.port.Port.TheVariants.{Stream, Build};
ghost use Rattle.jet_coalescer.specs.Low.{low};
ghost use Rattle.jet_tasklet.specs.declared.arrival.Arrival.{Arrival};

use crate::AnyTasklet;
use crate::stamp_laws::stamps_send_in_order;

impl AnyTasklet {
    ghost use Rattle.jet_tasklet.specs.Any.{AnyKeeps, AnyHasEnded};
    ghost use Rattle.jet_tasklet.specs.AnyOver.{any_told_of, AnyKeepsBag, AnyKeepsMarks, AnySoFar, AnyMarksSoFar, AnyOver, AnySoundIf, AnyClosedIf, IsFedSound, IsFedClosed};
    ghost use Rattle.jet_tasklet.specs.Inputs.{inputs_view, received, dones, queue_count};
    ghost use Rattle.jet_tasklet.specs.Kinds.{inputs_of, outputs_of, RunsProcessor};
    ghost use Rattle.jet_tasklet.specs.Merging.{data_received, last_told};
    ghost use Rattle.jet_tasklet.specs.Outputs.{outputs_view};
    ghost use Rattle.jet_tasklet.specs.Sending.{EachSent};
    ghost use Rattle.jet_tasklet.specs.Trace.{histories};

    /// The laws of its processor, where it runs one, hold of all that it was told, less what is pending.
    pub fn law_keeps(&self)
        ensures bag { RunsProcessor self.now → (came : List Arrival) → (gave : List Item) → AnyKeeps self.now came gave → AnyKeepsBag self.now came gave }
        ensures marks { RunsProcessor self.now → (came : List Arrival) → (gave : List Item) → AnyKeeps self.now came gave → AnyKeepsMarks self.now came gave }
    {
        match self {
            AnyTasklet::Stamp(tasklet) => tasklet.law_keeps(),
            AnyTasklet::Map(tasklet) => tasklet.law_keeps(),
            AnyTasklet::Filter(tasklet) => tasklet.law_keeps(),
            AnyTasklet::Flat(tasklet) => tasklet.law_keeps(),
            AnyTasklet::Join(tasklet) => tasklet.law_keeps(),
            AnyTasklet::Frame(tasklet) => tasklet.law_keeps(),
            AnyTasklet::Combine(tasklet) => tasklet.law_keeps(),
            AnyTasklet::Send(_) => {}
            AnyTasklet::Receive(_) => {}
        }
    }

    /// The data that its processor, where it runs one, was told is that which all queues received, and while a stream queue is
    /// not done the last mark told or pending is the least of the greatest marks of those queues.
    pub fn law_takes_from_all(&self)
        ensures bag { RunsProcessor self.now → (came : List Arrival) → (gave : List Item) → AnyKeeps self.now came gave
            → SameBag (data_of (items_of (any_told_of self.now came))) (data_received Stream (inputs_view (inputs_of self.now)) ++ data_received Build (inputs_view (inputs_of self.now))) }
        ensures mark { RunsProcessor self.now → (came : List Arrival) → (gave : List Item) → AnyKeeps self.now came gave
            → (q : ℕ) → q < queue_count Stream (inputs_view (inputs_of self.now)) → get_or (dones Stream (inputs_view (inputs_of self.now))) q true ≡ false
            → last_told (any_told_of self.now came)
            ≡ low (histories (queue_count Stream (inputs_view (inputs_of self.now))) (λ q. get_or (received Stream (inputs_view (inputs_of self.now))) q [])) }
    {
        match self {
            AnyTasklet::Stamp(tasklet) => tasklet.law_takes_from_all(),
            AnyTasklet::Map(tasklet) => tasklet.law_takes_from_all(),
            AnyTasklet::Filter(tasklet) => tasklet.law_takes_from_all(),
            AnyTasklet::Flat(tasklet) => tasklet.law_takes_from_all(),
            AnyTasklet::Join(tasklet) => tasklet.law_takes_from_all(),
            AnyTasklet::Frame(tasklet) => tasklet.law_takes_from_all(),
            AnyTasklet::Combine(tasklet) => tasklet.law_takes_from_all(),
            AnyTasklet::Send(_) => {}
            AnyTasklet::Receive(_) => {}
        }
    }

    /// Where the premise of its kind holds of what it was told, the list that each destination was sent is sound, and closed.
    pub fn law_sends_in_order(&self)
        ensures sound { (behind : ℕ → ℕ → Bool) → (came : List Arrival) → (gave : List Item) → AnyKeeps self.now came gave
            → AnySoundIf behind self.now came → EachSent (Sound behind) (outputs_view (outputs_of self.now)) }
        ensures closed { (came : List Arrival) → (gave : List Item) → AnyKeeps self.now came gave
            → AnyClosedIf self.now came → EachSent ClosedItems (outputs_view (outputs_of self.now)) }
    {
        match self {
            AnyTasklet::Stamp(tasklet) => tasklet.law_sends_in_order(),
            AnyTasklet::Map(tasklet) => tasklet.law_sends_in_order(),
            AnyTasklet::Filter(tasklet) => tasklet.law_sends_in_order(),
            AnyTasklet::Flat(tasklet) => tasklet.law_sends_in_order(),
            AnyTasklet::Join(tasklet) => tasklet.law_sends_in_order(),
            AnyTasklet::Frame(tasklet) => tasklet.law_sends_in_order(),
            AnyTasklet::Combine(tasklet) => tasklet.law_sends_in_order(),
            AnyTasklet::Send(_) => {}
            AnyTasklet::Receive(_) => {}
        }
    }

    /// Where what each queue of a tasklet that runs a processor received is in order, so is what each destination was sent. A
    /// stamp makes the order itself, of the events of files.
    pub fn law_passes_in_order(&self)
        ensures sound { RunsProcessor self.now → (behind : ℕ → ℕ → Bool) → (came : List Arrival) → (gave : List Item) → AnyKeeps self.now came gave
            → IsFedSound behind self.now → EachSent (Sound behind) (outputs_view (outputs_of self.now)) }
        ensures closed { RunsProcessor self.now → (came : List Arrival) → (gave : List Item) → AnyKeeps self.now came gave
            → IsFedClosed self.now → EachSent ClosedItems (outputs_view (outputs_of self.now)) }
    {
        self.law_sends_in_order();
        match self {
            AnyTasklet::Stamp(tasklet) => stamps_send_in_order(tasklet),
            AnyTasklet::Map(tasklet) => tasklet.law_told_in_order(),
            AnyTasklet::Filter(tasklet) => tasklet.law_told_in_order(),
            AnyTasklet::Flat(tasklet) => tasklet.law_told_in_order(),
            AnyTasklet::Join(tasklet) => tasklet.law_told_in_order(),
            AnyTasklet::Frame(tasklet) => tasklet.law_told_in_order(),
            AnyTasklet::Combine(tasklet) => tasklet.law_told_in_order(),
            AnyTasklet::Send(_) => {}
            AnyTasklet::Receive(_) => {}
        }
    }

    /// What its processor has given, in whatever state the tasklet is, of what its queues received; of an end of a link what it
    /// passed on of what came to it.
    pub fn law_gives_so_far(&self)
        ensures bag { (came : List Arrival) → (gave : List Item) → AnyKeeps self.now came gave → AnySoFar self.now came gave }
        ensures marks { (came : List Arrival) → (gave : List Item) → AnyKeeps self.now came gave → AnyMarksSoFar self.now came gave }
    {
        match self {
            AnyTasklet::Stamp(tasklet) => tasklet.law_gives_so_far(),
            AnyTasklet::Map(tasklet) => tasklet.law_gives_so_far(),
            AnyTasklet::Filter(tasklet) => tasklet.law_gives_so_far(),
            AnyTasklet::Flat(tasklet) => tasklet.law_gives_so_far(),
            AnyTasklet::Join(tasklet) => tasklet.law_gives_so_far(),
            AnyTasklet::Frame(tasklet) => tasklet.law_gives_so_far(),
            AnyTasklet::Combine(tasklet) => tasklet.law_gives_so_far(),
            AnyTasklet::Send(_) => {}
            AnyTasklet::Receive(_) => {}
        }
    }

    /// What its processor, where it runs one, has given once the tasklet has ended, of all that its queues received.
    pub fn law_ends(&self)
        ensures { RunsProcessor self.now → (came : List Arrival) → (gave : List Item) → AnyKeeps self.now came gave → AnyHasEnded self.now
            → (given : List Item) × (gave ≡ given ++ item.Done ∷ []) × AnyOver self.now came given }
    {
        match self {
            AnyTasklet::Stamp(tasklet) => tasklet.law_ends(),
            AnyTasklet::Map(tasklet) => tasklet.law_ends(),
            AnyTasklet::Filter(tasklet) => tasklet.law_ends(),
            AnyTasklet::Flat(tasklet) => tasklet.law_ends(),
            AnyTasklet::Join(tasklet) => tasklet.law_ends(),
            AnyTasklet::Frame(tasklet) => tasklet.law_ends(),
            AnyTasklet::Combine(tasklet) => tasklet.law_ends(),
            AnyTasklet::Send(_) => {}
            AnyTasklet::Receive(_) => {}
        }
    }
}
