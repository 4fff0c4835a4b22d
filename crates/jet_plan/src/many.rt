// What a job may have too many of.

/// What a job has too many of. The limits keep the check short, and the numbers of a plan far below 2^64: 64 edges
/// between vertices with 8 instances on each of 4 members have fewer than 2^25 rings.
#[derive(Clone, Copy, Debug, PartialEq, Eq)]
pub enum Many {
    /// More than 32 vertices.
    Vertices,
    /// More than 64 edges.
    Edges,
    /// More than 256 files, of sources and side vertices together.
    Files,
    /// A parallelism outside 1 to 8.
    Instances,
    /// A flat vertex without 1 to 8 legs.
    Legs,
}
