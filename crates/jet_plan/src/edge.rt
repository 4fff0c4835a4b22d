// Edges of a job.

use crate::Route;
use jet_items::Key;

/// An edge between two vertices, by their names.
#[derive(Clone, Copy)]
pub struct Edge {
    /// The vertex whose items it carries.
    pub from: Key,
    /// The vertex that takes them.
    pub to: Key,
    /// How it picks the instance that takes an item.
    pub route: Route,
    /// Whether items also go to instances on other members.
    pub distributed: bool,
    /// Whether it carries the rows of a side file into a join. Every other edge is a stream edge.
    pub build: bool,
}
