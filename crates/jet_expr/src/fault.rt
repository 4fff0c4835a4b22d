// What may be wrong with the text of an expression.
ghost use Rattle.std.specs.Prelude.{◌≡◌};
ghost use Rattle.jet_expr.specs.Faults.{fault_number};

use thiserror::Error;

/// Why a text is no expression. Each has a number, from 1 on.
///
/// The fault is that of the first token, from the left, at which no expression goes on; `at` is the place of its first
/// byte, from 0 on. Large is looked for before all others.
#[derive(Clone, Copy, Debug, PartialEq, Eq, Error)]
pub enum ExprFault {
    /// A word outside those of the grammar.
    #[error("unknown word at {0}")]
    Unknown(u32),
    /// Any other token that does not fit, a byte that begins none, or the end of the text.
    #[error("something else was expected at {0}")]
    Expected(u32),
    /// A number above 10^15.
    #[error("the number at {0} is above 10^15")]
    NumberRange(u32),
    /// A `(`, a `not` or a minus sign where 32 such are open.
    #[error("more than 32 groups and signs are open")]
    Deep,
    /// The text has more than 1024 bytes.
    #[error("an expression has at most 1024 bytes")]
    Large,
}

impl ExprFault {
    /// The number of the fault: 1 Unknown, 2 Expected, 3 NumberRange, 4 Deep, 5 Large.
    pub fn number(&self) -> u8
        ensures { result ≡ fault_number self.now }
    {
        match self {
            ExprFault::Unknown(_) => 1,
            ExprFault::Expected(_) => 2,
            ExprFault::NumberRange(_) => 3,
            ExprFault::Deep => 4,
            ExprFault::Large => 5,
        }
    }
}
