//! The laws of a job's parts together, from the contracts of the crates below.
//!
//! Each law is the contract of a function that makes only other laws. What a tasklet of any kind has given is said in the
//! words of its kind: once it has ended (`specs/Ended.antt`), and so far, in whatever state (`specs/SoFar.antt`). Of the
//! proofs of the crates below it cites the laws that are generic in a property of lists, which no contract can be.
#![tactic(auto)]

mod ends;
mod flows;
mod so_far;

pub use ends::ends_by_kind;
pub use flows::tasklets_give_the_flow;
pub use so_far::gives_by_kind;
