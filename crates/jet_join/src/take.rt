// Where the values of a joined event are from.
ghost use Rattle.std.specs.Prelude.{◌≡◌};
ghost use Rattle.jet_items.specs.Joins.{joint_field};
ghost use Rattle.jet_items.specs.Ranges.{IsWithin, most_time};
ghost use Rattle.jet_join.specs.Settings.{IsField, pick_of};

use jet_items::{Event, Side as SideRow};

/// The field of the event or of the side row that a joined event takes over, from 0 to 3.
#[derive(Clone, Copy, Debug, PartialEq, Eq)]
pub enum Take {
    /// This field of the event.
    Event(u8),
    /// This field of the side row.
    Side(u8),
}

impl Take {
    // The value of this field.
    pub(crate) fn value(self, event: &Event, row: &SideRow) -> i64
        requires { IsField self }
        ensures field { result ≡ joint_field event.now row.now (pick_of self) }
        ensures range { IsWithin most_time result }
    {
        match self {
            Take::Event(field) => event.v[field as usize],
            Take::Side(field) => row.v[field as usize],
        }
    }
}
