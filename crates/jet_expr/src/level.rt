// The levels of the grammar, from the loosest: `or` 0, `and` 1, `not` 2, comparisons 3, sums 4, products 5, minus
// signs 6, and 7 for numbers, fields, groups and calls.
ghost use Rattle.std.specs.Prelude.{◌≡◌};
ghost use Rattle.jet_expr.specs.Syntax.{is_infix, level_of, unary_level, left_least};
ghost use Rattle.jet_expr.specs.Machine.{infix_least, prefix_least};

use crate::operator::{Operator, Unary};

/// Whether the operator stands between its operands.
pub fn is_infix(op: Operator) -> bool
    ensures { result ≡ is_infix op }
{
    !matches!(op, Operator::Least | Operator::Greatest)
}

/// The level of an operator on two values.
pub fn level_of(op: Operator) -> u8
    ensures { result ≡ level_of op }
{
    match op {
        Operator::Or => 0,
        Operator::And => 1,
        Operator::Equal
        | Operator::Unequal
        | Operator::Less
        | Operator::AtMost
        | Operator::Greater
        | Operator::AtLeast => 3,
        Operator::Add | Operator::Subtract => 4,
        Operator::Multiply | Operator::Divide | Operator::Remainder => 5,
        Operator::Least | Operator::Greatest => 7,
    }
}

/// The level of an operator on one value.
pub fn unary_level(op: Unary) -> u8
    ensures { result ≡ unary_level op }
{
    match op {
        Unary::Not => 2,
        Unary::Negate => 6,
        Unary::Absolute => 7,
    }
}

/// The least level of an operand on the left: the operator's own, and one more for a comparison, so that none is an
/// operand of another.
pub fn left_least(op: Operator) -> u8
    ensures { result ≡ left_least op }
{
    match op {
        Operator::Least | Operator::Greatest | Operator::Or => 0,
        Operator::And => 1,
        Operator::Multiply | Operator::Divide | Operator::Remainder => 5,
        // Sums and comparisons.
        _ => 4,
    }
}

/// The least level of an operand on the right, one more than the operator's own. `min` and `max` have their operands in
/// brackets, so no level is enough.
pub fn infix_least(op: Operator) -> u8
    ensures { result ≡ infix_least op }
{
    match op {
        Operator::Least | Operator::Greatest => 8,
        _ => level_of(op) + 1,
    }
}

/// The least level of what follows a sign before it. `abs` has its operand in a bracket.
pub fn prefix_least(op: Unary) -> u8
    ensures { result ≡ prefix_least op }
{
    match op {
        Unary::Not => 2,
        Unary::Negate => 6,
        Unary::Absolute => 8,
    }
}
