// Two laws of lists in which only how often each element stands matters: where elements can be told apart, whatever they
// weigh, such a list is another one in some order.
ghost use Rattle.jet_laws.specs.Bags.{EventsAsBags, LatesAsBags};

/// Lists of events weigh the same, whatever each event weighs, exactly where one is the other in some order.
pub fn events_as_bags()
    ensures { EventsAsBags }
{}

/// The same of late events.
pub fn lates_as_bags()
    ensures { LatesAsBags }
{}
