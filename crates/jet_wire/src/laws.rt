// What holds of every sender by what it keeps: the order of all that it passes on, and its marks and data.
ghost use Rattle.std.specs.Prelude.{◌≡◌, ℕ, Bool, ℤ, ◌≤ℤ◌, List, None};
ghost use Rattle.std.specs.Option.{IsSomeAnd};
ghost use Rattle.jet_items.specs.declared.item.Item.{Item};
ghost use Rattle.jet_items.specs.Bag.{SameBag};
ghost use Rattle.jet_items.specs.Kinds.{data_of, marks_of};
ghost use Rattle.jet_items.specs.Order.{Each, Sound, Closed};
ghost use Rattle.jet_wire.specs.InOrder.{passed_on, EachReceived, IsReceived, HasOpen, AllReached, last_mark, low_received, data_received};
ghost use Rattle.jet_wire.specs.Passing.{Taken};
ghost use Rattle.jet_wire.specs.Sender.{sender_view, SenderKeeps};

use crate::Sender;
use jet_coalescer::low_is_least;
use jet_spell::spellings_are_short;

impl Sender {
    /// A law for proofs above: where the list that each queue received is sound, so is all that the sender passed on, and
    /// what it sent of that; and where those lists are closed, so is it. The call does nothing.
    pub fn law_passes_in_order(&self)
        ensures sound { (behind : ℕ → ℕ → Bool) → (came : List Taken) → (sent : List Item) → (k : SenderKeeps (sender_view self.now) came sent)
            → EachReceived (Sound behind) (sender_view self.now).queues → Sound behind (passed_on (sender_view self.now) came sent k) }
        ensures sound_sent { (behind : ℕ → ℕ → Bool) → (came : List Taken) → (sent : List Item) → SenderKeeps (sender_view self.now) came sent
            → EachReceived (Sound behind) (sender_view self.now).queues → Sound behind sent }
        ensures closed { (came : List Taken) → (sent : List Item) → (k : SenderKeeps (sender_view self.now) came sent)
            → EachReceived Closed (sender_view self.now).queues → Closed (passed_on (sender_view self.now) came sent k) }
        ensures closed_sent { (came : List Taken) → (sent : List Item) → SenderKeeps (sender_view self.now) came sent
            → EachReceived Closed (sender_view self.now).queues → Closed sent }
    {
        low_is_least();
    }

    /// A law for proofs above: each mark that the sender passed on, or has sent, is one that a queue received. The call does
    /// nothing.
    pub fn law_marks_received(&self)
        ensures passed { (came : List Taken) → (sent : List Item) → (k : SenderKeeps (sender_view self.now) came sent)
            → Each (IsReceived (sender_view self.now).queues) (marks_of (passed_on (sender_view self.now) came sent k)) }
        ensures sent { (came : List Taken) → (sent : List Item) → SenderKeeps (sender_view self.now) came sent
            → Each (IsReceived (sender_view self.now).queues) (marks_of sent) }
    {
        low_is_least();
    }

    /// A law for proofs above: while a queue is not done, the last mark of all that the sender passed on is its watermark,
    /// which is the least of the greatest marks that such queues received; and where each of them has reached s, so has that
    /// mark. At rest all that was passed on was sent. The call does nothing.
    pub fn law_marks_at_rest(&self)
        ensures low { (came : List Taken) → (sent : List Item) → SenderKeeps (sender_view self.now) came sent → HasOpen (sender_view self.now).queues
            → (sender_view self.now).lows.low ≡ low_received (sender_view self.now).queues }
        ensures last { (came : List Taken) → (sent : List Item) → (k : SenderKeeps (sender_view self.now) came sent) → HasOpen (sender_view self.now).queues
            → last_mark (passed_on (sender_view self.now) came sent k) ≡ low_received (sender_view self.now).queues }
        ensures rest { (came : List Taken) → (sent : List Item) → SenderKeeps (sender_view self.now) came sent → HasOpen (sender_view self.now).queues
            → (sender_view self.now).hand ≡ None → (sender_view self.now).end.work ≡ None → last_mark sent ≡ low_received (sender_view self.now).queues }
        ensures passes { (s : ℤ) → (came : List Taken) → (sent : List Item) → (k : SenderKeeps (sender_view self.now) came sent) → HasOpen (sender_view self.now).queues
            → AllReached (sender_view self.now).queues s → IsSomeAnd (last_mark (passed_on (sender_view self.now) came sent k)) (λ m. s ≤ℤ m) }
    {
        low_is_least();
        spellings_are_short();
    }

    /// A law for proofs above: the data that the sender passed on is that which all its queues received, whatever the order in
    /// which it came. The call does nothing.
    pub fn law_takes_from_all(&self)
        ensures { (came : List Taken) → (sent : List Item) → (k : SenderKeeps (sender_view self.now) came sent)
            → SameBag (data_of (passed_on (sender_view self.now) came sent k)) (data_received (sender_view self.now).queues) }
    {}
}
