// What a tasklet does next.
ghost use Rattle.std.specs.Prelude.{◌≡◌};
ghost use Rattle.jet_tasklet.specs.Steps.{next_of};
ghost use Rattle.jet_tasklet.specs.Turning.{is_free};

use crate::Arrival;
use jet_boxes::Port;
use jet_items::Mark;

/// A call of the processor that is to be made, or to be made again.
#[derive(Clone, Copy)]
pub enum Pending {
    Accept(Arrival),
    /// A queue has ended; the mark, if there is one, is told after that.
    Close(Port, u32, Option<Mark>),
    Tell(Mark),
    Finish,
}

/// What a tasklet does next.
#[derive(Clone, Copy)]
pub enum Step {
    /// It takes an item.
    Poll,
    /// It makes a call.
    Make(Pending),
    /// All has been finished, and it puts `Done`.
    End,
    /// It has put `Done`.
    Ended,
}

impl Pending {
    // What comes after the call has answered true.
    pub(crate) fn next(&self) -> Step
        ensures { result ≡ next_of self.now }
    {
        match self {
            Pending::Close(_, _, Some(mark)) => Step::Make(Pending::Tell(*mark)),
            Pending::Finish => Step::End,
            _ => Step::Poll,
        }
    }
}

impl Step {
    // Whether nothing is pending.
    pub(crate) fn is_free(&self) -> bool
        ensures { result ≡ is_free self.now }
    {
        match self {
            Step::Poll | Step::Ended => true,
            Step::Make(_) | Step::End => false,
        }
    }
}
