// Edges with what stands at their ends.

use crate::EdgeEnd;
use jet_plan::Route;

/// An edge, by the instances at its ends.
#[derive(Clone, Copy, Debug, PartialEq, Eq)]
pub struct Joint {
    /// The number of the edge.
    pub edge: u32,
    pub from: EdgeEnd,
    pub to: EdgeEnd,
    pub route: Route,
    /// Whether items also go to instances on other members.
    pub distributed: bool,
}
