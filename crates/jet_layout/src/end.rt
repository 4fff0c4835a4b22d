// The vertices at the ends of edges.
ghost use Rattle.std.specs.Prelude.{◌≡◌, ◌≤◌};
ghost use Rattle.jet_layout.specs.Joints.{count, port, taker};

use crate::{Port, Taker};

/// The instances of a vertex as one end of an edge.
#[derive(Clone, Copy, Debug, PartialEq, Eq)]
pub struct EdgeEnd {
    /// The number of the first of them among all tasklets.
    pub first: u32,
    /// How many stand on each member.
    pub parallelism: u8,
    /// Whether there is one in all instead, on member 0: a side vertex, or the sink.
    pub single: bool,
    /// Whether the vertex is the sink, which has no tasklet.
    pub sink: bool,
    /// Which of their outputs or inputs the edge is.
    pub number: u32,
}

impl EdgeEnd {
    /// How many of the instances stand on a member.
    pub fn count(self, member: u32) -> u32
        ensures value { result ≡ count self member }
        ensures bound { result ≤ 255 }
    {
        if self.single {
            u32::from(member == 0)
        } else {
            u32::from(self.parallelism)
        }
    }

    /// The output or input of an instance on a member.
    pub fn port(self, member: u32, instance: u32) -> Port
        ensures { result ≡ port self member instance }
    {
        Port {
            task: self.first as usize
                + member as usize * usize::from(self.parallelism)
                + instance as usize,
            number: self.number,
        }
    }

    /// What takes the items of an instance on a member.
    pub fn taker(self, member: u32, instance: u32) -> Taker
        ensures { result ≡ taker self member instance }
    {
        if self.sink {
            Taker::Sink
        } else {
            Taker::Input(self.port(member, instance))
        }
    }
}
