// The rings of a deployed job.

/// An output or an input of a tasklet.
#[derive(Clone, Copy, Debug, PartialEq, Eq)]
pub struct Port {
    /// The number of the tasklet.
    pub task: usize,
    /// Which of its outputs or inputs.
    pub number: u32,
}

/// What takes the items of a ring.
#[derive(Clone, Copy, Debug, PartialEq, Eq)]
pub enum Taker {
    /// An input of a tasklet.
    Input(Port),
    /// The sink, which is the coordinator itself.
    Sink,
}

/// A ring: it leads from an output of a tasklet to what takes the items.
#[derive(Clone, Copy, Debug, PartialEq, Eq)]
pub struct Wire {
    /// The output.
    pub giver: Port,
    pub taker: Taker,
}
