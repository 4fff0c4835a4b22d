//! Why a job at rest has ended: a job as a net of rings between vertices, and what follows where nothing moves in it.
//!
//! Each law is the contract of a function that does nothing. A job is plain numbers here (`specs/Net.antt`), whatever its
//! tasklets do: how it stands together (`Shape`), what a meeting of all its rings leaves (`HasMet`), why each vertex does
//! nothing (`Causes`), and what comes of that (`Rest`). Which marks stand in the rings then has a file of its own (`Marks`),
//! and so have links (`Link`). Nothing here speaks of workers or of threads.
#![tactic(auto)]

mod links;
mod marks;
mod rest;

pub use links::links_let_through;
pub use marks::marks_at_rest;
pub use rest::{comes_to_rest, standstill};
