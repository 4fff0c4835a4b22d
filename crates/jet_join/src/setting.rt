// How a join is set, and what it makes of an event and a row.
ghost use Rattle.std.specs.Prelude.{◌≡◌, map, if◌then◌else◌};
ghost use Rattle.std.specs.List.{AllByRecursion};
ghost use Rattle.jet_items.specs.Joins.{joined_with, joint_field};
ghost use Rattle.jet_items.specs.Order.{Each};
ghost use Rattle.jet_items.specs.Ranges.{IsWithin, most_time};
ghost use Rattle.jet_join.specs.Settings.{IsField, joining};

use crate::mode::Mode;
use crate::take::Take;
use jet_items::{Event, Key, Side};
use std::marker::Model;

// What `JoinP::new` is given.
#[derive(Drop)]
pub struct Setting {
    mode: Mode,
    rekey: bool,
    fields: [Take; 4],
}

impl Model for Setting {
    ghost use Rattle.jet_items.specs.Joins.{Joining};
    ghost use Rattle.jet_items.specs.Order.{Each};
    ghost use Rattle.jet_join.specs.Settings.{IsField, joining};

    ghost Value = { Joining };

    ghost view = { λ s. joining s.mode s.rekey s.fields };

    ghost invariant = { λ s. Each IsField s.fields };
}

impl Setting {
    pub fn new(mode: Mode, rekey: bool, fields: [Take; 4]) -> Setting
        requires { Each IsField fields }
        ensures { result ≡ joining mode rekey fields }
    {
        Setting {
            mode,
            rekey,
            fields,
        }
    }

    // Whether an event without a matching row passes.
    pub fn is_left(&self) -> bool
        ensures { result ≡ self.now.left }
    {
        self.mode == Mode::Left
    }

    // The event and the row together.
    pub fn joined(&self, event: &Event, row: &Side) -> Event
        ensures { result ≡ joined_with self.now event.now row.now }
    {
        Event {
            part: event.part,
            line: event.line,
            ts: event.ts,
            key: self.key(event, row),
            v: self.values(event, row),
        }
    }

    fn key(&self, event: &Event, row: &Side) -> Key
        ensures { result ≡ (if self.now.rekey then row.now.label else event.now.key) }
    {
        if self.rekey { row.label } else { event.key }
    }

    fn values(&self, event: &Event, row: &Side) -> [i64; 4]
        ensures values { result ≡ map (joint_field event.now row.now) self.now.picks }
        ensures range { AllByRecursion (IsWithin most_time) result }
    {
        let [first, second, third, fourth] = self.fields;
        [
            first.value(event, row),
            second.value(event, row),
            third.value(event, row),
            fourth.value(event, row),
        ]
    }
}
