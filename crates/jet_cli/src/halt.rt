// Why a command ends before its work is done.
use crate::{Refusal, Stop};
use jet_items::{NoMemory, Refused};
use jet_job::JobFault;
use jet_plan::PlanFault;

/// Why a command did not do its work.
#[derive(Clone, Copy, Debug, PartialEq, Eq)]
pub(crate) enum Halt {
    /// Its job was refused.
    Refused(Refusal),
    /// It stopped at a bad line, at a call on the outside, or for want of memory.
    Stopped(Stop),
}

impl From<Stop> for Halt {
    ghost use Rattle.std.specs.Prelude.{◌≡◌};
    ghost use Rattle.jet_cli.specs.declared.halt.Halt.TheVariants.{Stopped};

    ghost from_gives = { λ stop halt. halt ≡ Stopped stop };

    fn from(stop: Stop) -> Self {
        Halt::Stopped(stop)
    }
}

impl From<NoMemory> for Halt {
    ghost use Rattle.std.specs.Prelude.{◌≡◌};
    ghost use Rattle.jet_cli.specs.declared.halt.Halt.TheVariants.{Stopped};
    ghost use Rattle.jet_worker.specs.declared.stop.Stop.TheVariants as stop;

    ghost from_gives = { λ _ halt. halt ≡ Stopped stop.NoMemory };

    fn from(_: NoMemory) -> Self {
        Halt::Stopped(Stop::NoMemory)
    }
}

impl From<Refused<JobFault>> for Halt {
    ghost use Rattle.std.specs.Prelude.{◌≡◌};
    ghost use Rattle.jet_cli.specs.Halts.{job_halt};

    ghost from_gives = { λ refused halt. halt ≡ job_halt refused };

    fn from(refused: Refused<JobFault>) -> Self {
        match refused {
            Refused::Fault(why) => Halt::Refused(Refusal::Job(why)),
            Refused::NoMemory => Halt::Stopped(Stop::NoMemory),
        }
    }
}

impl From<Refused<PlanFault>> for Halt {
    ghost use Rattle.std.specs.Prelude.{◌≡◌};
    ghost use Rattle.jet_cli.specs.Halts.{plan_halt};

    ghost from_gives = { λ refused halt. halt ≡ plan_halt refused };

    fn from(refused: Refused<PlanFault>) -> Self {
        match refused {
            Refused::Fault(why) => Halt::Refused(Refusal::Plan(why)),
            Refused::NoMemory => Halt::Stopped(Stop::NoMemory),
        }
    }
}
