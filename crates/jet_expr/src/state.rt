// How far a text has been read: what waits for its operand, and what was read last.
ghost use Rattle.std.specs.Prelude.{◌≡◌, nat_le};
ghost use Rattle.jet_expr.specs.Machine.{openers, bracketed, open_in};
ghost use Rattle.jet_expr.specs.States.{stack_of, state_of};

use crate::node::Node;
use crate::operator::{Operator, Unary};

/// What stands before an open `(`, with the arguments that are read.
#[derive(Drop)]
pub enum Bracket {
    /// `(`
    Group,
    /// `abs(`
    Absolute,
    /// `min(` or `max(`
    First(Operator),
    /// `min(a,` or `max(a,`
    Second(Operator, Node),
    /// `if(`
    Condition,
    /// `if(c,`
    Then(Node),
    /// `if(c,a,`
    Else(Node, Node),
}

/// What waits for its last operand, the innermost first.
#[derive(Drop)]
pub enum Stack {
    Empty,
    /// A minus sign or `not`.
    Prefix(Unary, Box<Stack>),
    /// An operator with its left operand.
    Left(Operator, Node, Box<Stack>),
    /// An open bracket.
    Inside(Bracket, Box<Stack>),
}

/// What a text has been read to be so far.
#[derive(Drop)]
pub enum State {
    /// An operand has to follow.
    Want(Stack),
    /// The `(` of a function's arguments has to follow.
    Named(Bracket, Stack),
    /// An operand was read.
    Have(Stack, Node),
    /// The end of the text was read.
    Done(Node),
}

impl State {
    /// Whether at most so many openers are open, where signs whose operand may have ended count as closed.
    pub fn has_at_most(&self, most: u32) -> bool
        ensures { result ≡ nat_le (open_in (state_of self.now)) most }
    {
        match self {
            State::Want(stack) | State::Named(_, stack) => holds_at_most(stack, most),
            State::Have(stack, _) => holds_at_most(bracketed(stack), most),
            State::Done(_) => true,
        }
    }
}

// Whether at most so many openers wait in the stack.
fn holds_at_most(stack: &Stack, most: u32) -> bool
    ensures { result ≡ nat_le (openers (stack_of stack.now)) most }
{
    match stack {
        Stack::Empty => true,
        Stack::Left(_, _, below) => holds_at_most(below, most),
        Stack::Prefix(_, below) | Stack::Inside(_, below) => {
            most > 0 && holds_at_most(below, most - 1)
        }
    }
}

// The stack from its innermost bracket on.
fn bracketed(stack: &Stack) -> &Stack
    ensures { stack_of result.now ≡ bracketed (stack_of stack.now) }
{
    match stack {
        Stack::Prefix(_, below) | Stack::Left(_, _, below) => bracketed(below),
        Stack::Empty | Stack::Inside(_, _) => stack,
    }
}
