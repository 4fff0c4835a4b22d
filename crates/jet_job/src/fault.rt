// Why a text is no job.
ghost use Rattle.std.specs.Prelude.{◌≡◌};
ghost use Rattle.jet_job.specs.FaultNumbers.{fault_number, fault_place};

use crate::{Field, Place};
use jet_expr::ExprFault;
use jet_items::Refused;
use thiserror::Error;

/// Why a text is no job: the first fault that is met. Each has a number, from 1 on.
///
/// Objects are read from the outermost one on, then the vertices, each with its legs, the edges, and the settings.
#[derive(Clone, Copy, Debug, PartialEq, Eq, Error)]
pub enum JobFault {
    /// The text has more than 1,048,576 bytes.
    #[error("a job file has at most 1,048,576 bytes")]
    Long,
    /// The text is no JSON.
    #[error("a job file is a text in JSON")]
    NotJson,
    /// A member that has to be there is not.
    #[error("a member is missing")]
    Missing(Place, Field),
    /// A member, or the object itself, has another form than it should.
    #[error("a value has another form than it should")]
    WrongKind(Place, Field),
    /// The object has a member that such an object has not.
    #[error("an object has a member that it should not have")]
    UnknownField(Place),
    /// A member is a text that is no expression.
    #[error("{2}")]
    Expr(Place, Field, ExprFault),
}

impl JobFault {
    /// The number of the fault, 1 to 6, in the order of the variants.
    pub fn number(&self) -> u8
        ensures { result ≡ fault_number self.now }
    {
        match self {
            JobFault::Long => 1,
            JobFault::NotJson => 2,
            JobFault::Missing(..) => 3,
            JobFault::WrongKind(..) => 4,
            JobFault::UnknownField(_) => 5,
            JobFault::Expr(..) => 6,
        }
    }

    /// The object that has the fault, where it is one of an object.
    pub fn place(&self) -> Option<Place>
        ensures { result ≡ fault_place self.now }
    {
        match self {
            JobFault::Long | JobFault::NotJson => None,
            JobFault::Missing(place, _)
            | JobFault::WrongKind(place, _)
            | JobFault::UnknownField(place)
            | JobFault::Expr(place, ..) => Some(*place),
        }
    }
}

impl From<JobFault> for Refused<JobFault> {
    ghost use Rattle.std.specs.Prelude.{◌≡◌};
    ghost use Rattle.jet_items.specs.declared.no_memory.Refused.TheVariants as refused;

    ghost from_gives = { λ f e. e ≡ refused.Fault f };

    fn from(fault: JobFault) -> Self {
        Refused::Fault(fault)
    }
}
