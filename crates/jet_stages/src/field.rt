// The fields of an event, by their numbers.
ghost use Rattle.std.specs.Prelude.{◌≡◌, ◌<◌, pos, slice_index_or};
ghost use Rattle.jet_items.specs.Ranges.{IsWithin, most_time};

use jet_items::Event;

// What field i holds.
pub fn field_at(event: &Event, i: usize) -> i64
    requires { i < 4 }
    ensures value { result ≡ slice_index_or event.now.v i (pos 0) }
    ensures small { IsWithin most_time result }
{
    event.v[i]
}
