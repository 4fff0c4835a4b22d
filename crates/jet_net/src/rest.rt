// Two laws of a job in which nothing moves: nothing is on the way in it, and unless a file is cut it has ended.
ghost use Rattle.jet_net.specs.Net.{Net};
ghost use Rattle.jet_net.specs.Shape.{Shape};
ghost use Rattle.jet_net.specs.Meeting.{HasMet, WaitsForBuilds};
ghost use Rattle.jet_net.specs.Rest.{StandsStill, IsAligned, IsWhole, IsFinished};
ghost use Rattle.jet_net.specs.Marks.{MarksCome};

/// An epoch in which nothing moved, the coordinator's work included, has left every ring, outbox and link empty and carried
/// every side file to its end, be source files full, held back by the read-ahead rule or cut. What leads down from one that
/// has not ended is open.
pub fn comes_to_rest()
    ensures { (n : Net) → Shape n → HasMet n → WaitsForBuilds n → StandsStill n → IsAligned n }
{}

/// Where no file is cut, so that the read-ahead rule alone holds source files back, such an epoch has finished the job. So no job stands still, over
/// whatever rings, builds and links, and with whatever files idle.
pub fn standstill()
    ensures { (n : Net) → Shape n → HasMet n → WaitsForBuilds n → MarksCome n → IsWhole n → StandsStill n → IsFinished n }
{}
