// What a vertex at the end of an edge does, as far as edges are asked for it.

/// The kinds of vertices to which only some edges may lead.
#[derive(Clone, Copy)]
pub enum Role {
    /// It joins events with side rows.
    Join,
    /// It gathers events in frames.
    Accumulate,
    /// It makes rows of frames.
    Combine,
    /// It writes rows and late events.
    Sink,
}
