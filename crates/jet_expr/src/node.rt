// The tree that an expression is, in boxes.
ghost use Rattle.std.specs.Prelude.{◌≡◌, IfOk};
ghost use Rattle.jet_items.specs.Ranges.{IsWithin, most_time};
ghost use Rattle.jet_expr.specs.Nodes.{term_of};
ghost use Rattle.jet_expr.specs.Term.{AreSmall};
ghost use Rattle.jet_expr.specs.Value.{value};

use crate::arithmetic::{one_value, read_field, two_value};
use crate::field::Field;
use crate::operator::{Operator, Unary};
use jet_items::{Event, NoMemory};
use std::alloc::Global;

/// A node of the tree, with the nodes of its operands.
#[derive(Drop)]
pub enum Node {
    Number(i64),
    Read(Field),
    One(Unary, Box<Node>),
    Two(Operator, Box<Node>, Box<Node>),
    /// The condition, and the values where it is true and where it is not.
    Choose(Box<Node>, Box<Node>, Box<Node>),
}

/// The value of a node for an event.
pub fn value_of(node: &Node, event: &Event) -> i64
    requires { AreSmall (term_of node.now) }
    ensures value { result ≡ value (term_of node.now) event.now }
    ensures small { IsWithin most_time result }
{
    match node {
        Node::Number(z) => *z,
        Node::Read(field) => read_field(*field, event),
        Node::One(op, a) => one_value(*op, value_of(a, event)),
        Node::Two(op, a, b) => two_value(*op, value_of(a, event), value_of(b, event)),
        Node::Choose(c, a, b) => {
            if value_of(c, event) != 0 {
                value_of(a, event)
            } else {
                value_of(b, event)
            }
        }
    }
}

/// A node of the same term.
pub fn copy_of(alloc: Global, node: &Node) -> Result<Node, NoMemory>
    ensures { IfOk result (λ n. term_of n ≡ term_of node.now) }
{
    match node {
        Node::Number(z) => Ok(Node::Number(*z)),
        Node::Read(field) => Ok(Node::Read(*field)),
        Node::One(op, a) => Ok(Node::One(*op, boxed(alloc, copy_of(alloc, a)?)?)),
        Node::Two(op, a, b) => {
            let a = boxed(alloc, copy_of(alloc, a)?)?;
            let b = boxed(alloc, copy_of(alloc, b)?)?;
            Ok(Node::Two(*op, a, b))
        }
        Node::Choose(c, a, b) => {
            let c = boxed(alloc, copy_of(alloc, c)?)?;
            let a = boxed(alloc, copy_of(alloc, a)?)?;
            let b = boxed(alloc, copy_of(alloc, b)?)?;
            Ok(Node::Choose(c, a, b))
        }
    }
}

/// The node in a box.
pub fn boxed(alloc: Global, node: Node) -> Result<Box<Node>, NoMemory>
    ensures { IfOk result (λ b. b.value ≡ node) }
{
    Ok(Box::new(alloc, node)?)
}
