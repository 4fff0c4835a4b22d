// Why a job is no plan.
ghost use Rattle.std.specs.Prelude.{◌≡◌};
ghost use Rattle.jet_plan.specs.FaultNumbers.{fault_number, fault_place};

use crate::{Large, Many, SettingName};
use jet_items::Refused;
use jet_policy::PolicyFault;
use thiserror::Error;

/// Why a job is refused, in the order in which it is looked for. Each has a number, from 1 on, and carries the number
/// of the first vertex or edge that has it.
#[derive(Clone, Copy, Debug, PartialEq, Eq, Error)]
pub enum PlanFault {
    /// There is no vertex.
    #[error("a job has a vertex")]
    NoVertex,
    /// There is too much of something.
    #[error("a job has at most 32 vertices, 64 edges, 256 files, and 8 instances and legs of a vertex")]
    TooMany(Many),
    /// The vertex has the name of an earlier one.
    #[error("vertex {0} has the name of an earlier one")]
    DoubleName(u32),
    /// The edge names no vertex at one end.
    #[error("edge {0} names no vertex at one end")]
    UnknownEnd(u32),
    /// The edges have a cycle.
    #[error("the edges have a cycle")]
    Cycle,
    /// No vertex is a source with a file.
    #[error("no vertex is a source with a file")]
    NoSource,
    /// There are this many sinks.
    #[error("a job has one sink, and not {0}")]
    SinkCount(u32),
    /// A source or side vertex has an input; a join has not one build input and at least one other; a combine vertex
    /// has not one input; another vertex has none; or a vertex that is no join has a build input.
    #[error("vertex {0} has wrong inputs")]
    WrongInputs(u32),
    /// A sink has an output; an accumulate or combine vertex has not one; or another vertex has none.
    #[error("vertex {0} has wrong outputs")]
    WrongOutputs(u32),
    /// The edge goes into a sink and not from a combine vertex, or the other way round, or into a combine vertex and
    /// not from an accumulate vertex, or the other way round.
    #[error("edge {0} leaves the path of a window")]
    WindowPath(u32),
    /// The vertex is a side vertex with a stream output, or no side vertex with a build output.
    #[error("vertex {0} mixes side rows and events")]
    SideMixed(u32),
    /// The edge is isolated and distributed.
    #[error("edge {0} is isolated and distributed")]
    IsolatedDistributed(u32),
    /// The edge is broadcast and no build edge.
    #[error("edge {0} broadcasts events")]
    BroadcastData(u32),
    /// What belongs together would not come together behind the edge.
    #[error("edge {0} does not gather what belongs together")]
    NotGathered(u32),
    /// A key of more than 40 bytes may leave the vertex, and no `Key` holds more.
    #[error("keys at vertex {0} may have more than 40 bytes")]
    KeyGrowth(u32),
    /// The sizes of the accumulate vertex are refused.
    #[error("vertex {0}: {1}")]
    Policy(u32, PolicyFault),
    /// A setting or the lag of a source is out of its range.
    #[error("a setting is out of its range")]
    Setting(SettingName),
    /// Events or ring slots grow too many.
    #[error("a job has a growth of at most 2^20 and at most 4,000,000 ring slots")]
    TooLarge(Large),
}

impl PlanFault {
    /// The number of the fault, 1 to 18, in the order of the variants.
    pub fn number(&self) -> u8
        ensures { result ≡ fault_number self.now }
    {
        match self {
            PlanFault::NoVertex => 1,
            PlanFault::TooMany(_) => 2,
            PlanFault::DoubleName(_) => 3,
            PlanFault::UnknownEnd(_) => 4,
            PlanFault::Cycle => 5,
            PlanFault::NoSource => 6,
            PlanFault::SinkCount(_) => 7,
            PlanFault::WrongInputs(_) => 8,
            PlanFault::WrongOutputs(_) => 9,
            PlanFault::WindowPath(_) => 10,
            PlanFault::SideMixed(_) => 11,
            PlanFault::IsolatedDistributed(_) => 12,
            PlanFault::BroadcastData(_) => 13,
            PlanFault::NotGathered(_) => 14,
            PlanFault::KeyGrowth(_) => 15,
            PlanFault::Policy(..) => 16,
            PlanFault::Setting(_) => 17,
            PlanFault::TooLarge(_) => 18,
        }
    }

    /// The number of the vertex or edge that has the fault, where it is one of a vertex or an edge.
    pub fn place(&self) -> Option<u32>
        ensures { result ≡ fault_place self.now }
    {
        match self {
            PlanFault::NoVertex
            | PlanFault::TooMany(_)
            | PlanFault::Cycle
            | PlanFault::NoSource
            | PlanFault::SinkCount(_)
            | PlanFault::TooLarge(Large::Slots(_)) => None,
            PlanFault::DoubleName(at)
            | PlanFault::UnknownEnd(at)
            | PlanFault::WrongInputs(at)
            | PlanFault::WrongOutputs(at)
            | PlanFault::WindowPath(at)
            | PlanFault::SideMixed(at)
            | PlanFault::IsolatedDistributed(at)
            | PlanFault::BroadcastData(at)
            | PlanFault::NotGathered(at)
            | PlanFault::KeyGrowth(at)
            | PlanFault::Policy(at, _)
            | PlanFault::Setting(SettingName::Lag(at))
            | PlanFault::TooLarge(Large::Growth(at)) => Some(*at),
            PlanFault::Setting(_) => None,
        }
    }
}

impl From<PlanFault> for Refused<PlanFault> {
    ghost use Rattle.std.specs.Prelude.{◌≡◌};
    ghost use Rattle.jet_items.specs.declared.no_memory.Refused.TheVariants as refused;

    ghost from_gives = { λ f e. e ≡ refused.Fault f };

    fn from(fault: PlanFault) -> Self {
        Refused::Fault(fault)
    }
}
