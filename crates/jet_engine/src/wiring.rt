// All ends of a job.

use crate::{DestAt, Junction, LinkAt, QueueAt};

/// Where the ends of all rings and links of a job stand.
#[derive(Drop)]
pub struct Wiring {
    /// The links between members.
    pub links: Vec<LinkAt>,
    /// The rings between tasklets.
    pub junctions: Vec<Junction>,
    /// The queue that takes the items of each file, by the number of the file.
    pub feeds: Vec<QueueAt>,
    /// The destination that leads to each queue of the sink, by the number of the queue.
    pub drains: Vec<DestAt>,
}
