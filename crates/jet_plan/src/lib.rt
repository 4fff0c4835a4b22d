//! Jobs as graphs of vertices and edges, and the planner that accepts them.
//!
//! A `Dag` has the vertices and edges of a job, `Settings` its numbers. `check` looks for the eighteen faults of a job in
//! their order and answers the first, or a `Plan`. A plan tells how many tasklets, rings, slots and links the job
//! takes, and `print_plan` writes them. The definitions of the faults stand in `specs/`, a file for each group, and
//! `specs/Faults.antt` has them in their order. Vertices, edges and routes are those of a Hazelcast Jet DAG.
#![tactic(auto)]

mod all_faults;
mod cycle;
mod dag;
mod edge;
mod edge_count;
mod ends;
mod fault;
mod gathering;
mod instances;
mod kind;
mod large;
mod laws;
mod leg;
mod many;
mod measure;
mod mode;
mod names;
mod numbers;
mod paths;
mod plan;
mod print;
mod role;
mod route;
mod setting_name;
mod setting_ranges;
mod settings;
mod shape;
mod sizes;
mod text;
mod vertex;

pub use cycle::cycle_means;
pub use dag::Dag;
pub use edge::Edge;
pub use fault::PlanFault;
pub use kind::Kind;
pub use large::Large;
pub use laws::{
    edges_lead_deeper, measures_keep_the_rules, valid_jobs_have_their_shape,
    valid_jobs_keep_their_ranges,
};
pub use leg::LegSpec;
pub use many::Many;
pub use mode::ModeSpec;
pub use plan::{Plan, check};
pub use print::print_plan;
pub use route::Route;
pub use setting_name::SettingName;
pub use settings::Settings;
pub use text::Text;
pub use vertex::Vertex;

#[cfg(test)]
mod tests;
