// Vertices of a job.

use crate::Kind;
use jet_items::Key;

/// A vertex of a job.
#[derive(Drop)]
pub struct Vertex {
    /// Its name. In a valid job no other vertex has it.
    pub name: Key,
    /// How many instances of it run on each member, 1 to 8. A side vertex and the sink have one instance in all.
    pub parallelism: u8,
    /// What it does.
    pub kind: Kind,
}
