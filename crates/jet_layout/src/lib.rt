//! Where the parts of a job stand once it is deployed, before any of them is made.
//!
//! A `Layout` lists the tasklets of a plan in their order (`specs/Tasks.antt`), the links between members
//! (`specs/Links.antt`), which tasklet takes each file (`specs/Files.antt`), and every ring as a wire from the output of
//! one tasklet to the input of another (`specs/Wires.antt`). Which place a wire has among those of its output, or of its
//! input, is told by its place in the list alone. `partition_table` says which destination takes a partition of keys.
#![tactic(auto)]

mod draft;
mod end;
mod files;
mod instances;
mod joint;
mod joints;
mod laws;
mod layout;
mod table;
mod task;
mod wire;
mod wires;

pub use end::EdgeEnd;
pub use joint::Joint;
pub use laws::{
    layouts_have_what_is_counted, links_have_their_wires, outputs_have_their_wires,
    tasks_have_their_places, wires_have_their_ports,
};
pub use layout::Layout;
pub use table::partition_table;
pub use task::{Instance, Link, Task};
pub use wire::{Port, Taker, Wire};

#[cfg(test)]
mod tests;
