// How far a source file may be read ahead of the sink.
ghost use Rattle.std.specs.Prelude.{◌≡◌, ◌≤ℤ◌, pos};
ghost use Rattle.jet_items.specs.Ranges.{most_time};
ghost use Rattle.jet_feed.specs.Leaves.{allows};

use jet_items::Mark;

/// How far a source file may be read ahead of the sink: its mark is at most the sink's, and so much more.
#[derive(Clone, Copy)]
pub struct Leave {
    /// The mark of the sink, where it has one.
    pub sink: Option<Mark>,
    /// How much the mark of a file may be above it, from 0 to 10^15.
    pub ahead: i64,
}

impl Leave {
    /// Whether a file with this mark may be read on. One without a mark may.
    pub fn allows(&self, mark: Option<Mark>) -> bool
        requires { (pos 0 ≤ℤ self.now.ahead) × (self.now.ahead ≤ℤ pos most_time) }
        ensures { result ≡ allows self.now.ahead self.now.sink mark }
    {
        match (mark, self.sink) {
            (None, _) => true,
            (Some(_), None) => false,
            (Some(mark), Some(sink)) => mark.t <= sink.t + self.ahead,
        }
    }
}
