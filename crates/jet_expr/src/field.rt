// The fields of an event that an expression may read.

/// What an expression reads of an event.
#[derive(Clone, Copy, Debug, PartialEq, Eq)]
pub enum Field {
    /// `ts`, the event time.
    Ts,
    /// `part`, the number of the file.
    Part,
    V0,
    V1,
    V2,
    V3,
}
