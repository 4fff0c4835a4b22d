// The windows of a job by the numbers of their combine vertices, for the lines of rows and of late events.
ghost use Rattle.std.specs.Prelude.{◌≡◌, ◌==◌, ◌++◌, option_map, OnOk};
ghost use Rattle.std.specs.List.{find};
ghost use Rattle.jet_file.specs.Text.{window_line, late_window_line};
ghost use Rattle.jet_sink.specs.Naming.{window_of};

use jet_file::{print_late, print_row};
use jet_items::{Key, Late, NoMemory, Row};
use jet_policy::WinPolicy;
use std::alloc::Global;
use std::marker::Model;

// A window under the number and the name of its combine vertex, with the sizes of the accumulate vertex before it.
#[derive(Clone, Copy)]
pub(crate) struct NamedWindow {
    pub(crate) vertex: u8,
    pub(crate) name: Key,
    pub(crate) policy: WinPolicy,
}

/// The windows of a job, in the order of their combine vertices.
#[derive(Drop)]
pub struct Windows {
    pub(crate) windows: Vec<NamedWindow>,
}

impl Model for Windows {
    ghost use Rattle.std.specs.Prelude.{List, map};
    ghost use Rattle.jet_items.specs.Rows.{Window};
    ghost use Rattle.jet_sink.specs.Naming.{window_of};

    ghost Value = { List Window };

    ghost view = { λ w. map window_of w.windows.items };
}

// The window of the combine vertex of this number, among these.
fn named(windows: &[NamedWindow], vertex: u8) -> Option<&NamedWindow>
    ensures { option_map (λ w. w.now) result ≡ find (λ w. w.vertex == vertex) windows.now }
{
    windows.iter().find(|window| window.vertex == vertex)
}

impl Windows {
    // The window of the combine vertex of this number.
    fn find(&self, vertex: u8) -> Option<&NamedWindow>
        ensures { option_map (λ w. window_of w.now) result ≡ find (λ w. w.vertex == vertex) self.now }
    {
        named(&self.windows, vertex)
    }

    /// Appends the line of a row under the name and the size of its window, or nothing where there is no such window.
    pub(crate) fn print_row(
        &self,
        alloc: Global,
        row: &Row,
        to: &mut Vec<u8>,
    ) -> Result<(), NoMemory>
        ensures { OnOk result (to.new.items ≡ to.old.items ++ window_line self.now row.now) }
    {
        match self.find(row.vertex) {
            Some(window) => print_row(alloc, row, window.policy.size(), &window.name, to),
            None => Ok(()),
        }
    }

    /// Appends the line of a late event under the name of its window, or nothing where there is no such window.
    pub(crate) fn print_late(
        &self,
        alloc: Global,
        late: &Late,
        to: &mut Vec<u8>,
    ) -> Result<(), NoMemory>
        ensures { OnOk result (to.new.items ≡ to.old.items ++ late_window_line self.now late.now) }
    {
        match self.find(late.vertex) {
            Some(window) => print_late(alloc, late, &window.name, to),
            None => Ok(()),
        }
    }
}
