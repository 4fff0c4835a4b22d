// Where the ends of rings stand among the tasklets of a job.

/// A destination of an output of a tasklet.
#[derive(Clone, Copy, Debug, PartialEq, Eq)]
pub struct DestAt {
    /// The place of the tasklet in the list of all.
    pub task: usize,
    pub output: u32,
    pub dest: u32,
}

/// A queue of an input of a tasklet.
#[derive(Clone, Copy, Debug, PartialEq, Eq)]
pub struct QueueAt {
    /// The place of the tasklet in the list of all.
    pub task: usize,
    pub input: u32,
    pub queue: u32,
}

/// A ring between two tasklets.
#[derive(Clone, Copy, Debug, PartialEq, Eq)]
pub struct Junction {
    /// Where it leads from.
    pub giver: DestAt,
    /// Where it leads to.
    pub taker: QueueAt,
}

/// A link between two tasklets.
#[derive(Clone, Copy, Debug, PartialEq, Eq)]
pub struct LinkAt {
    /// The place of the sender in the list of all tasklets.
    pub sender: usize,
    /// The place of the receiver.
    pub receiver: usize,
}
