// What a join does with an event that meets no row.

/// What a join does with an event whose key the side file lacks.
#[derive(Clone, Copy, Debug, PartialEq, Eq)]
pub enum ModeSpec {
    /// Drops it.
    Inner,
    /// Passes it on as it is.
    Left,
}
