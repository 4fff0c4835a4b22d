// The tasklets of a deployed job.
ghost use Rattle.std.specs.Prelude.{◌≡◌};
ghost use Rattle.jet_layout.specs.Tasks.{member_of};

/// An instance of a vertex.
#[derive(Clone, Copy, Debug, PartialEq, Eq)]
pub struct Instance {
    /// The number of the vertex.
    pub vertex: u32,
    /// The member on which it stands.
    pub member: u32,
    /// Its number among the instances of the vertex on that member.
    pub number: u32,
}

/// A link, which carries the items of one edge from one member to another.
#[derive(Clone, Copy, Debug, PartialEq, Eq)]
pub struct Link {
    /// The number of the edge.
    pub edge: u32,
    /// The member that sends.
    pub from: u32,
    /// The member that receives.
    pub to: u32,
}

/// A tasklet of a deployed job.
#[derive(Clone, Copy, Debug, PartialEq, Eq)]
pub enum Task {
    /// It runs an instance of a vertex.
    Run(Instance),
    /// It sends over a link.
    Send(Link),
    /// It receives from a link.
    Receive(Link),
}

impl Task {
    /// The member on which it stands.
    pub fn member(self) -> u32
        ensures { result ≡ member_of self }
    {
        match self {
            Task::Run(instance) => instance.member,
            Task::Send(link) => link.from,
            Task::Receive(link) => link.to,
        }
    }
}
