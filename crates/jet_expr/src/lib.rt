//! Expressions over the fields of an event: what the vertices map, filter and flat of a job compute.
//!
//! `Expr::read` reads a text, `Expr::value` walks the expression for an event. Contracts see an expression as the
//! term that it is, a tree of numbers, fields and operators; the grammar of the texts, and where a text stops to be
//! one, stand in `specs/`.
#![tactic(auto)]

mod arithmetic;
mod expr;
mod fault;
mod field;
mod laws;
mod level;
mod node;
mod operator;
mod read;
mod state;
mod step;
mod token;

pub use expr::Expr;
pub use fault::ExprFault;
pub use field::Field;
pub use laws::{
    faults_are_where_nothing_goes_on, quotients_are_rounded_down, terms_are_of_the_grammar,
};
pub use operator::{Operator, Unary};

#[cfg(test)]
mod tests;
