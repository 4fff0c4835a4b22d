// What a job is.

use crate::{Edge, Vertex};
use jet_items::List;

/// The vertices and edges of a job, each numbered from 0 in their order.
#[derive(Drop)]
pub struct Dag {
    pub vertices: List<Vertex>,
    pub edges: List<Edge>,
}
