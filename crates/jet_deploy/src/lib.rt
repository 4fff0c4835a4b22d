//! The parts of a plan, made before anything runs.
//!
//! `inputs` and `outputs` make the conveyors and routers of a tasklet over the ends of rings that a harness has for it
//! (`specs/Ends.antt`). `tasklet_of` makes the tasklet of an instance of a vertex over them, with the processor that the vertex
//! asks for (`specs/Instances.antt`). The two vertices of a window are found by the edge between them (`specs/Windows.antt`).
//! `instance_tasklet` and `link_tasklets` make those of a layout so, each with all its inputs and outputs, `tasklets` makes all
//! of them in their order (`specs/Making.antt`), and `wiring` notes where the ends of each ring and link stand (`specs/Sites.antt`).
//! `deal` gives the tasklets of each member to its workers in turn, and `deploy` makes the whole job (`specs/Deployed.antt`).
#![tactic(auto)]

mod dealing;
mod ends;
mod instance;
mod instances;
mod jobs;
mod laws;
mod layouts;
mod links;
mod processor;
mod sites;
mod spare;
mod standing;
mod take;
mod window;

pub use dealing::{Crew, deal};
pub use ends::{inputs, outputs, router};
pub use instance::tasklet_of;
pub use instances::{Ground, instance_tasklet};
pub use jobs::deploy;
pub use laws::valid_vertices_keep_their_ranges;
pub use layouts::tasklets;
pub use links::link_tasklets;
pub use sites::{link_places, wiring};
