// Reading the text of an expression, from the left.
ghost use Rattle.std.specs.Prelude.{◌≡◌, ◌≤◌, ◌<◌, length, []};
ghost use Rattle.jet_expr.specs.Gives.{GivesNode, ReadsToken, rest_of};
ghost use Rattle.jet_expr.specs.Machine.{expr_at, outcome, terms, want};
ghost use Rattle.jet_expr.specs.Tokens.{tokens_of};

use crate::fault::ExprFault;
use crate::node::Node;
use crate::state::{Stack, State};
use crate::step::advance;
use crate::token::{Token, token_of};
use jet_items::Refused;
use std::alloc::Global;

// Longer texts are refused unread: an expression is one line of a job.
const MOST_BYTES: usize = 1024;

/// The tree of a text, or its first fault.
pub fn read_text(alloc: Global, text: &[u8]) -> Result<Node, Refused<ExprFault>>
    ensures { GivesNode result (expr_at text.now) }
{
    if text.len() > MOST_BYTES {
        return Err(Refused::Fault(ExprFault::Large));
    }
    read_node(alloc, text)
}

fn read_node(alloc: Global, text: &[u8]) -> Result<Node, Refused<ExprFault>>
    requires { length text.now ≤ 1024 }
    ensures { GivesNode result (outcome terms (want []) (tokens_of text.now)) }
{
    let mut state = State::Want(Stack::Empty);
    let mut at = 0;
    while at < text.len() {
        let (next, behind) = read_token(alloc, text, at, state)?;
        state = next;
        at = behind;
    }
    read_end(alloc, text, at, state)
}

// Goes over one token or one blank.
fn read_token(
    alloc: Global,
    text: &[u8],
    at: usize,
    state: State,
) -> Result<(State, usize), Refused<ExprFault>>
    requires short { length text.now ≤ 1024 }
    requires within { at < length text.now }
    ensures { ReadsToken result text.now at (rest_of state text.now at) }
{
    if text[at] == b' ' {
        return Ok((state, at + 1));
    }
    let (token, size) = token_of(&text[at..]);
    let next = advance(alloc, state, at as u32, token)?;
    Ok((next, at + size))
}

// The tree, where the end of the text may follow.
fn read_end(alloc: Global, text: &[u8], at: usize, state: State) -> Result<Node, Refused<ExprFault>>
    requires short { length text.now ≤ 1024 }
    requires end { at ≡ length text.now }
    ensures { GivesNode result (rest_of state text.now at) }
{
    match advance(alloc, state, at as u32, Token::End)? {
        State::Done(node) => Ok(node),
        _ => Err(Refused::Fault(ExprFault::Expected(at as u32))),
    }
}
