// How the plan's words for a join are those of its processor.
ghost use Rattle.std.specs.Prelude.{◌≡◌, map};
ghost use Rattle.jet_items.specs.Order.{Each};
ghost use Rattle.jet_join.specs.Calls.{setting_of};
ghost use Rattle.jet_join.specs.Settings as join;
ghost use Rattle.jet_join.specs.Stands.{JoinStands};
ghost use Rattle.jet_flow.specs.Flow.{joining, pick, is_left};

use jet_join::{Mode, Take};
use jet_plan::ModeSpec;

// Where a field is taken from: the fields 0 to 3 are the event's and 4 to 7 the row's; a number above 7 counts modulo 8.
pub fn take_of(field: u8) -> Take
    ensures pick { join.pick_of result ≡ pick field }
    ensures field { join.IsField result }
{
    let field = field % 8;
    if field < 4 {
        Take::Event(field)
    } else {
        Take::Side(field - 4)
    }
}

// What a join does with an event whose key has no row.
pub fn mode_of(mode: ModeSpec) -> Mode
    ensures { join.is_left result ≡ is_left mode }
{
    match mode {
        ModeSpec::Inner => Mode::Inner,
        ModeSpec::Left => Mode::Left,
    }
}
