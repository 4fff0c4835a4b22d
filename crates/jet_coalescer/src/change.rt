// What the end of one queue does to the watermark of all.
use jet_items::Mark;

/// What changed when a queue ended.
#[derive(Clone, Copy)]
pub enum Change {
    /// A queue is left, and the watermark is as it was, or there is none.
    Unchanged,
    /// A queue is left, and this is the new watermark.
    Raised(Mark),
    /// No queue is left.
    AllDone,
}
