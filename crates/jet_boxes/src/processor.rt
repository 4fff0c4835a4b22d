// The trait of all processors: four calls of one contract, and the laws that whoever drives a processor may rest on.
ghost use Rattle.std.specs.Prelude.{◌≡◌, ℕ, Bool, true, List, [], ◌∷◌, ◌++◌, Ok};
ghost use Rattle.jet_items.specs.declared.item.Item.{Item};
ghost use Rattle.jet_items.specs.Order.{Each, Sound, Closed as ClosedItems};
ghost use Rattle.jet_boxes.specs.declared.port.Port.{Port};
ghost use Rattle.jet_boxes.specs.Entry.{CallEntry, Given, MarkTold, QueueClosed, Finish, NotDone, items_of};
ghost use Rattle.jet_boxes.specs.Calls.{Call, MayCall};

use crate::{Outbox, Port};
use jet_items::{Item, Mark, NoMemory};

/// What turns items that are taken into items that are given, in calls that never wait: the processor of Hazelcast
/// Jet's Core API.
///
/// Each call answers true when its whole work is done. It answers false only where `out` is full, and it may want
/// memory; after either the same call is made again, with the same arguments, before any other. Contracts follow the
/// entries taken and the items given: `stands` between calls, `amid` from the first call for an entry until it
/// answers true. The laws speak of these two alone, so they hold after every order of calls.
pub trait Processor {
    /// The processor has taken these entries and given these items, and no call is unfinished.
    ghost stands: { Self → List CallEntry → List Item → Type 0 };

    /// It has taken these entries, is in the middle of one more, and has given these items.
    ghost amid: { Self → List CallEntry → CallEntry → List Item → Type 0 };

    /// It takes from this queue of this port.
    ghost takes: { Self → Port → ℕ → Type 0 };

    /// The two have the same settings.
    ghost same: { Self → Self → Type 0 };

    /// It never wants memory.
    ghost frugal: { Bool };

    /// What is asked of the entries taken, so that what is given is sound.
    ghost sound_if: { Self → (ℕ → ℕ → Bool) → List CallEntry → Type 0 };

    /// What is asked of the entries taken, so that what is given is closed.
    ghost closed_if: { Self → List CallEntry → Type 0 };

    /// How the data given follows from the entries taken, in whatever order.
    ghost bag: { Self → List CallEntry → List Item → Type 0 };

    /// The same in the middle of one entry more, less what is still to be given.
    ghost bag_amid: { Self → List CallEntry → CallEntry → List Item → Type 0 };

    /// Which marks are given for the entries taken.
    ghost marks: { Self → List CallEntry → List Item → Type 0 };

    /// The same in the middle of one entry more.
    ghost marks_amid: { Self → List CallEntry → CallEntry → List Item → Type 0 };

    /// Takes an item of a queue. An item of a kind that the processor does not treat is passed on as it is.
    fn accept(
        &mut self,
        port: Port,
        queue: u32,
        item: &Item,
        out: &mut Outbox,
    ) -> Result<bool, NoMemory>
        requires { MayCall amid (takes self.old) self.old (Given port queue item.now) }
        ensures { Call stands amid same frugal self.old (Given port queue item.now) out.old result self.new out.new };

    /// Takes the mark of all stream queues together: puts what it closes, and then the mark.
    fn mark(&mut self, mark: Mark, out: &mut Outbox) -> Result<bool, NoMemory>
        requires { MayCall amid (takes self.old) self.old (MarkTold mark) }
        ensures { Call stands amid same frugal self.old (MarkTold mark) out.old result self.new out.new };

    /// Takes that a queue has ended.
    fn close_queue(&mut self, port: Port, queue: u32, out: &mut Outbox) -> bool
        requires { MayCall amid (takes self.old) self.old (QueueClosed port queue) }
        ensures { Call stands amid same frugal self.old (QueueClosed port queue) out.old (Ok result) self.new out.new };

    /// Takes that all queues have ended: puts all that is still held.
    fn finish(&mut self, out: &mut Outbox) -> Result<bool, NoMemory>
        requires { MayCall amid (takes self.old) self.old Finish }
        ensures { Call stands amid same frugal self.old Finish out.old result self.new out.new };

    ghost same_refl: { (p : Self) → same p p };

    ghost same_trans: { (p q r : Self) → same p q → same q r → same p r };

    ghost takes_stays: { (p q : Self) (port : Port) (queue : ℕ) → same p q → takes p port queue → takes q port queue };

    /// A call may begin.
    ghost begins: { (p : Self) (taken : List CallEntry) (entry : CallEntry) (given : List Item) → stands p taken given → amid p taken entry given };

    /// Where `sound_if` holds, every event after a mark above it is behind, and every late item names an event that is
    /// behind.
    ghost sound_law: { (behind : ℕ → ℕ → Bool) (p : Self) (taken : List CallEntry) (given : List Item) → stands p taken given → sound_if p behind taken → Sound behind given };

    ghost sound_law_amid: { (behind : ℕ → ℕ → Bool) (p : Self) (taken : List CallEntry) (entry : CallEntry) (given : List Item) → amid p taken entry given → sound_if p behind (taken ++ entry ∷ []) → Sound behind given };

    /// Where `closed_if` holds, what a mark closes stays closed, marks rise, and nothing follows the end.
    ghost closed_law: { (p : Self) (taken : List CallEntry) (given : List Item) → stands p taken given → closed_if p taken → ClosedItems given };

    ghost closed_law_amid: { (p : Self) (taken : List CallEntry) (entry : CallEntry) (given : List Item) → amid p taken entry given → closed_if p (taken ++ entry ∷ []) → ClosedItems given };

    /// No processor gives the end of a queue: that is for whoever drives it.
    ghost open_law: { (p : Self) (taken : List CallEntry) (given : List Item) → stands p taken given → Each NotDone (items_of taken) → Each NotDone given };

    ghost open_law_amid: { (p : Self) (taken : List CallEntry) (entry : CallEntry) (given : List Item) → amid p taken entry given → Each NotDone (items_of (taken ++ entry ∷ [])) → Each NotDone given };

    /// The data given follows from the entries taken as `bag` says: nothing is lost, made up or given twice.
    ghost bag_law: { (p : Self) (taken : List CallEntry) (given : List Item) → stands p taken given → bag p taken given };

    ghost bag_law_amid: { (p : Self) (taken : List CallEntry) (entry : CallEntry) (given : List Item) → amid p taken entry given → bag_amid p taken entry given };

    /// The marks given are those that `marks` names: those that were taken, or for a source those of its queues.
    ghost marks_law: { (p : Self) (taken : List CallEntry) (given : List Item) → stands p taken given → marks p taken given };

    ghost marks_law_amid: { (p : Self) (taken : List CallEntry) (entry : CallEntry) (given : List Item) → amid p taken entry given → marks_amid p taken entry given };
}
