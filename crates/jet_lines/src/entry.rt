// What a line of a source file holds.
ghost use Rattle.std.specs.Prelude.{◌≡◌};
ghost use Rattle.jet_lines.specs.Readings.{event_in};

use jet_items::Event;

/// What a line of a source file holds.
#[derive(Clone, Copy)]
pub enum Entry {
    /// The line is empty.
    Nothing,
    /// One event.
    Event(Event),
    /// The line is `#idle`: the partition takes no part in the least watermark until its next event.
    Idle,
}

impl Entry {
    /// The event of the line, where it holds one.
    pub fn event(&self) -> Option<Event>
        ensures { result ≡ event_in self.now }
    {
        if let Entry::Event(event) = self {
            return Some(*event);
        }
        None
    }
}
