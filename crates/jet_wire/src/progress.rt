// What a turn did.

/// Whether a turn moved something, found nothing to do, or came after the end.
#[derive(Debug, Clone, Copy, PartialEq, Eq)]
pub enum Progress {
    /// An item, a packet or an acknowledgement was pushed into a ring or popped from one.
    Moved,
    /// Nothing moved.
    Idle,
    /// The end was passed on to all outputs before, and the turn did nothing.
    Done,
}
