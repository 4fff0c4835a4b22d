// Ports: what part a queue has in a join.

/// Where an item comes in: with the stream, or with the side rows that a join looks up.
#[derive(Clone, Copy, Debug, PartialEq, Eq)]
pub enum Port {
    /// With the stream.
    Stream,
    /// With the side rows.
    Build,
}
