// A law of the marks in a job in which nothing is on the way: which ones its rings have.
ghost use Rattle.jet_net.specs.Net.{Net};
ghost use Rattle.jet_net.specs.Shape.{Shape};
ghost use Rattle.jet_net.specs.Meeting.{HasMet};
ghost use Rattle.jet_net.specs.Rest.{IsAligned};
ghost use Rattle.jet_net.specs.Marks.{MarksCome, IdleMarksCome, NoneAbove, MarksPass, IdleMarksPass, MarksStay};

/// What the files above an open ring allow has come out of it, and no more. The queue of an idle file counts not; where a
/// tasklet has no other, all of them count.
pub fn marks_at_rest()
    ensures pass { (n : Net) → Shape n → HasMet n → MarksCome n → IsAligned n → MarksPass n }
    ensures pass_idle { (n : Net) → Shape n → HasMet n → MarksCome n → IdleMarksCome n → IsAligned n → IdleMarksPass n }
    ensures bound { (n : Net) → Shape n → NoneAbove n → IsAligned n → MarksStay n }
{}
