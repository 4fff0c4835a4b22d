// The operators of an expression.

/// An operator on one value.
#[derive(Clone, Copy, Debug, PartialEq, Eq)]
pub enum Unary {
    /// `-a`, held within 10^15.
    Negate,
    /// `abs(a)`.
    Absolute,
    /// `not a`: 1 where a is 0, else 0.
    Not,
}

/// An operator on two values.
///
/// The results of the first five are held within 10^15: a greater one becomes 10^15, a lesser one -10^15. Comparisons,
/// `And` and `Or` give 1 and 0.
#[derive(Clone, Copy, Debug, PartialEq, Eq)]
pub enum Operator {
    Add,
    Subtract,
    Multiply,
    /// `a / b`: the floor of the quotient, and 0 where b is 0.
    Divide,
    /// `a % b`: what b times the floor leaves of a, and 0 where b is 0.
    Remainder,
    Equal,
    Unequal,
    Less,
    AtMost,
    Greater,
    AtLeast,
    And,
    Or,
    /// `min(a, b)`.
    Least,
    /// `max(a, b)`.
    Greatest,
}
