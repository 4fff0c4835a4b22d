// What turns came to.
ghost use Rattle.std.specs.Prelude.{◌≡◌};
ghost use Rattle.jet_crew.specs.inner.Worse.{worse};

/// What one turn, some turns or an epoch came to.
#[derive(Debug, Clone, Copy, PartialEq, Eq)]
pub enum EpochEnd {
    /// Something moved.
    Moved,
    /// Nothing moved, and some task has not ended.
    Idle,
    /// Nothing moved, and each task has ended.
    Done,
    /// A task wanted memory and found none.
    NoMemory,
}

// What answers came to of which some came to `before`, and one more.
pub fn worse(before: EpochEnd, next: EpochEnd) -> EpochEnd
    ensures { result ≡ worse before next }
{
    match (before, next) {
        (EpochEnd::NoMemory, _) | (_, EpochEnd::NoMemory) => EpochEnd::NoMemory,
        (EpochEnd::Moved, _) | (_, EpochEnd::Moved) => EpochEnd::Moved,
        (EpochEnd::Idle, _) | (_, EpochEnd::Idle) => EpochEnd::Idle,
        (EpochEnd::Done, EpochEnd::Done) => EpochEnd::Done,
    }
}
