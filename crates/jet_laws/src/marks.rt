// A law of watermarks: how far events may lag before one counts as behind.
ghost use Rattle.jet_laws.specs.InTime.{NoneIsBehind};

/// Where each timestamp is at least each earlier one of its file less the lag, no event is behind. The lag is the allowed
/// lag of Hazelcast Jet's watermarks.
pub fn none_is_behind()
    ensures { NoneIsBehind }
{}
