// What may grow too large.

/// What grows too large. A run takes the memory of all its rings when it begins, and with a bounded growth the events
/// that it counts stay far below 2^64.
#[derive(Clone, Copy, Debug, PartialEq, Eq)]
pub enum Large {
    /// More than 2^20 events may leave the vertex with this number for one that is read.
    Growth(u32),
    /// The rings have this many slots together, more than 4,000,000.
    Slots(u64),
}
