// A tasklet of any kind as a task of a worker.

use crate::{AnyTasklet, Progress};
use jet_crew::{EpochEnd, Turns};

impl Turns for AnyTasklet {
    ghost use Rattle.jet_tasklet.specs.Any.{AnyIsLawful};
    ghost use Rattle.jet_tasklet.specs.Turns.{AnyWent};
    ghost use Rattle.jet_tasklet.specs.Crew.{TaskSaid};

    ghost keeps = { AnyIsLawful };

    ghost went = { AnyWent };

    ghost said = { TaskSaid };

    fn take_turn(&mut self) -> EpochEnd {
        match self.turn() {
            Ok(Progress::Moved) => EpochEnd::Moved,
            Ok(Progress::Idle) => EpochEnd::Idle,
            Ok(Progress::Done) => EpochEnd::Done,
            Err(_) => EpochEnd::NoMemory,
        }
    }

    fn law_turns_in_a_row() {}
}
