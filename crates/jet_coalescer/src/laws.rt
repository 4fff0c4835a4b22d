// The laws of watermarks, for proofs above: each is the contract of a function that does nothing.
ghost use Rattle.jet_coalescer.specs.Laws.{LowIsLeast, LowHoldsNoneBack};

/// The watermark of what came from queues that are never idle is the least of their greatest marks, and holds back none of
/// them.
pub fn low_is_least()
    ensures least { LowIsLeast }
    ensures reaches { LowHoldsNoneBack }
{}
