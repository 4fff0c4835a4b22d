// What a join gives where no side row matches.

/// What a join gives for an event without a matching side row.
#[derive(Clone, Copy, Debug, PartialEq, Eq)]
pub enum Mode {
    /// Nothing: the event is dropped.
    Inner,
    /// The event as it is.
    Left,
}
