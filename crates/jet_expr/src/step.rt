// Reading a text from the left, a token at a time. An operand waits on the stack until the operator behind it shows
// what it belongs to: this is operator precedence parsing.
ghost use Rattle.std.specs.Prelude.{◌≡◌, ◌∷◌, IfOk, option_map};
ghost use Rattle.jet_expr.specs.Machine.{terms, want, prefix, inside, need, reduce, step, close, comma, on_want, on_named, on_have, on_sign, on_close, on_comma, on_end, fault_at};
ghost use Rattle.jet_expr.specs.Nodes.{term_of};
ghost use Rattle.jet_expr.specs.States.{bracket_of, stack_of, state_of, reduced_of};
ghost use Rattle.jet_expr.specs.Advances.{Advances};

use crate::fault::ExprFault;
use crate::level::{infix_least, is_infix, left_least, level_of, prefix_least, unary_level};
use crate::node::{Node, boxed};
use crate::operator::{Operator, Unary};
use crate::state::{Bracket, Stack, State};
use crate::token::Token;
use jet_items::{NoMemory, Refused};
use std::alloc::Global;

// Numbers lie within 10^15 of 0, so that sums and products have room in their types.
const MOST: u64 = 1_000_000_000_000_000;

// So many openers may be open: a reader of deep texts would take much room itself.
const MOST_OPEN: u32 = 32;

/// The state behind one token more, or the fault of that token.
pub fn advance(
    alloc: Global,
    state: State,
    at: u32,
    token: Token,
) -> Result<State, Refused<ExprFault>>
    ensures { Advances result (state_of state) at token }
{
    let full = !state.has_at_most(MOST_OPEN - 1);
    match step(alloc, state, token)? {
        Some(next) if next.has_at_most(MOST_OPEN) => Ok(next),
        _ => Err(Refused::Fault(fault_at(full, at, token))),
    }
}

// The fault of a token at which nothing goes on, where as many openers are open as may be, or fewer.
fn fault_at(full: bool, at: u32, token: Token) -> ExprFault
    ensures { result ≡ fault_at full at token }
{
    match token {
        Token::Unknown => ExprFault::Unknown(at),
        Token::Number(n) if n > MOST => ExprFault::NumberRange(at),
        Token::Open | Token::Not | Token::Sign(Operator::Subtract) if full => ExprFault::Deep,
        _ => ExprFault::Expected(at),
    }
}

fn step(alloc: Global, state: State, token: Token) -> Result<Option<State>, NoMemory>
    ensures { IfOk result (λ next. option_map state_of next ≡ step terms (state_of state) token) }
{
    match state {
        State::Want(stack) => on_want(alloc, stack, token),
        State::Named(bracket, stack) => on_named(alloc, bracket, stack, token),
        State::Have(stack, node) => on_have(alloc, stack, node, token),
        State::Done(_) => Ok(None),
    }
}

fn on_want(alloc: Global, stack: Stack, token: Token) -> Result<Option<State>, NoMemory>
    ensures { IfOk result (λ next. option_map state_of next ≡ on_want terms (stack_of stack) token) }
{
    let next = match token {
        Token::Number(n) if n <= MOST => State::Have(stack, Node::Number(n as i64)),
        Token::Read(field) => State::Have(stack, Node::Read(field)),
        Token::Sign(Operator::Subtract) => prefixed(alloc, Unary::Negate, stack)?,
        Token::Sign(Operator::Least) => State::Named(Bracket::First(Operator::Least), stack),
        Token::Sign(Operator::Greatest) => State::Named(Bracket::First(Operator::Greatest), stack),
        Token::Not if least_of(&stack) <= 2 => prefixed(alloc, Unary::Not, stack)?,
        Token::Absolute => State::Named(Bracket::Absolute, stack),
        Token::If => State::Named(Bracket::Condition, stack),
        Token::Open => opened(alloc, Bracket::Group, stack)?,
        _ => return Ok(None),
    };
    Ok(Some(next))
}

fn on_named(
    alloc: Global,
    bracket: Bracket,
    stack: Stack,
    token: Token,
) -> Result<Option<State>, NoMemory>
    ensures { IfOk result (λ next. option_map state_of next ≡ on_named (bracket_of bracket) (stack_of stack) token) }
{
    match token {
        Token::Open => Ok(Some(opened(alloc, bracket, stack)?)),
        _ => Ok(None),
    }
}

fn on_have(alloc: Global, stack: Stack, node: Node, token: Token) -> Result<Option<State>, NoMemory>
    ensures { IfOk result (λ next. option_map state_of next ≡ on_have terms (stack_of stack) (term_of node) token) }
{
    match token {
        Token::Sign(op) if is_infix(op) => {
            let (stack, node) = reduce(alloc, left_least(op), stack, node)?;
            on_sign(alloc, op, stack, node)
        }
        Token::Close => {
            let (stack, node) = reduce(alloc, 0, stack, node)?;
            on_close(alloc, stack, node)
        }
        Token::Comma => {
            let (stack, node) = reduce(alloc, 0, stack, node)?;
            on_comma(alloc, stack, node)
        }
        Token::End => {
            let (stack, node) = reduce(alloc, 0, stack, node)?;
            Ok(on_end(stack, node))
        }
        _ => Ok(None),
    }
}

// An operator takes the operand before it.
fn on_sign(alloc: Global, op: Operator, stack: Stack, node: Node) -> Result<Option<State>, NoMemory>
    ensures { IfOk result (λ next. option_map state_of next ≡ on_sign op (stack_of stack, term_of node)) }
{
    if least_of(&stack) <= level_of(op) {
        Ok(Some(State::Want(Stack::Left(op, node, kept(alloc, stack)?))))
    } else {
        Ok(None)
    }
}

// A `)` behind the last operand of its bracket.
fn on_close(alloc: Global, stack: Stack, node: Node) -> Result<Option<State>, NoMemory>
    ensures { IfOk result (λ next. option_map state_of next ≡ on_close terms (stack_of stack) (term_of node)) }
{
    match stack {
        Stack::Inside(bracket, below) => match closed(alloc, bracket, node)? {
            Some(node) => Ok(Some(State::Have(Box::into_inner(below), node))),
            None => Ok(None),
        },
        _ => Ok(None),
    }
}

fn closed(alloc: Global, bracket: Bracket, node: Node) -> Result<Option<Node>, NoMemory>
    ensures { IfOk result (λ o. option_map term_of o ≡ close terms (bracket_of bracket) (term_of node)) }
{
    let node = match bracket {
        Bracket::Group => node,
        Bracket::Absolute => Node::One(Unary::Absolute, boxed(alloc, node)?),
        Bracket::Second(op, a) => Node::Two(op, boxed(alloc, a)?, boxed(alloc, node)?),
        Bracket::Else(c, a) => {
            Node::Choose(boxed(alloc, c)?, boxed(alloc, a)?, boxed(alloc, node)?)
        }
        Bracket::First(_) | Bracket::Condition | Bracket::Then(_) => return Ok(None),
    };
    Ok(Some(node))
}

// A comma behind an operand that is not the last of its bracket.
fn on_comma(alloc: Global, stack: Stack, node: Node) -> Result<Option<State>, NoMemory>
    ensures { IfOk result (λ next. option_map state_of next ≡ on_comma (stack_of stack) (term_of node)) }
{
    match stack {
        Stack::Inside(bracket, below) => match continued(bracket, node) {
            Some(bracket) => Ok(Some(opened(alloc, bracket, Box::into_inner(below))?)),
            None => Ok(None),
        },
        _ => Ok(None),
    }
}

fn continued(bracket: Bracket, node: Node) -> Option<Bracket>
    ensures { option_map bracket_of result ≡ comma (bracket_of bracket) (term_of node) }
{
    match bracket {
        Bracket::First(op) => Some(Bracket::Second(op, node)),
        Bracket::Condition => Some(Bracket::Then(node)),
        Bracket::Then(c) => Some(Bracket::Else(c, node)),
        _ => None,
    }
}

// The end of the text, where nothing waits.
fn on_end(stack: Stack, node: Node) -> Option<State>
    ensures { option_map state_of result ≡ on_end (stack_of stack) (term_of node) }
{
    match stack {
        Stack::Empty => Some(State::Done(node)),
        _ => None,
    }
}

// What waits takes its operand, down to a bracket or to what has a lower level than this.
fn reduce(alloc: Global, least: u8, stack: Stack, node: Node) -> Result<(Stack, Node), NoMemory>
    ensures { IfOk result (λ r. reduced_of r ≡ reduce terms least (stack_of stack) (term_of node)) }
{
    match stack {
        Stack::Prefix(op, below) if least <= unary_level(op) => {
            reduce(
                alloc,
                least,
                Box::into_inner(below),
                Node::One(op, boxed(alloc, node)?),
            )
        }
        Stack::Left(op, a, below) if least <= level_of(op) => {
            let node = Node::Two(op, boxed(alloc, a)?, boxed(alloc, node)?);
            reduce(alloc, least, Box::into_inner(below), node)
        }
        stack => Ok((stack, node)),
    }
}

// The least level that the stack takes for its operand.
fn least_of(stack: &Stack) -> u8
    ensures { result ≡ need (stack_of stack.now) }
{
    match stack {
        Stack::Prefix(op, _) => prefix_least(*op),
        Stack::Left(op, _, _) => infix_least(*op),
        _ => 0,
    }
}

fn prefixed(alloc: Global, op: Unary, stack: Stack) -> Result<State, NoMemory>
    ensures { IfOk result (λ next. state_of next ≡ want (prefix op ∷ stack_of stack)) }
{
    Ok(State::Want(Stack::Prefix(op, kept(alloc, stack)?)))
}

fn opened(alloc: Global, bracket: Bracket, stack: Stack) -> Result<State, NoMemory>
    ensures { IfOk result (λ next. state_of next ≡ want (inside (bracket_of bracket) ∷ stack_of stack)) }
{
    Ok(State::Want(Stack::Inside(bracket, kept(alloc, stack)?)))
}

fn kept(alloc: Global, stack: Stack) -> Result<Box<Stack>, NoMemory>
    ensures { IfOk result (λ b. b.value ≡ stack) }
{
    Ok(Box::new(alloc, stack)?)
}
