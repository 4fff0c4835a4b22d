//! The meetings of a job: between epochs the two ends of each ring learn of each other.
//!
//! All tasklets of a job stand in workers, behind one list (`jet_crew`). A `DestAt` and a `QueueAt` say where in that list the
//! two ends of a ring stand, and a `Junction` is a ring between two tasklets. To let ends meet, tasklets are taken out of the
//! list and put back; contracts tell what they know then, and that nothing else changed. A `Job` has the workers and the ends
//! that the coordinator holds: it meets, and has epochs in which all tasklets take their turns beside each other.
#![tactic(auto)]

mod drains;
mod feeds;
mod job;
mod junctions;
mod laws;
mod links;
mod places;
mod sweep;
mod wiring;

pub use drains::meet_drain;
pub use feeds::meet_feed;
pub use job::Job;
pub use junctions::{Spares, meet_junction, meet_junctions};
pub use laws::{giving_and_taking_keep_the_wiring, turns_keep_the_wiring};
pub use links::meet_link_at;
pub use places::{DestAt, Junction, LinkAt, QueueAt};
pub use sweep::meet_all;
pub use wiring::Wiring;
