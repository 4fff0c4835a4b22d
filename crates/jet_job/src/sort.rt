// What sort of vertex stands in a job file.

/// What a vertex is to do, before the members for it are read.
#[derive(Clone, Copy, Debug, PartialEq, Eq)]
pub enum Sort {
    Source,
    Side,
    Map,
    Filter,
    Flat,
    Join,
    Accumulate,
    Combine,
    Sink,
}
