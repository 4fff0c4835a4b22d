// Laws of the definitions. Their functions do nothing: what they promise holds of all that it speaks of.
ghost use Rattle.std.specs.Prelude.{◌≡◌, ◌≢◌, ◌↔◌, ℕ, ℤ, pos, ◌<ℤ◌, ◌≤ℤ◌, ◌+ℤ◌, ◌*ℤ◌, List, Ok, Err};
ghost use Rattle.jet_expr.specs.Floors.{IsGreatest};
ghost use Rattle.jet_expr.specs.Term.{Term};
ghost use Rattle.jet_expr.specs.Value.{floor_quotient, floor_remainder};
ghost use Rattle.jet_expr.specs.Grammar.{IsExpression, IsFaultOf};
ghost use Rattle.jet_expr.specs.Machine.{expr_at};
ghost use Rattle.jet_expr.specs.declared.fault.ExprFault.{ExprFault};

/// What is read of a text from the left is the expression that the grammar makes of it.
pub fn terms_are_of_the_grammar()
    ensures { (text : List ℕ) (term : Term) → (expr_at text ≡ Ok term) ↔ IsExpression text term }
{}

/// And its fault is told at the first token at which the grammar has no text that goes on.
pub fn faults_are_where_nothing_goes_on()
    ensures { (text : List ℕ) (fault : ExprFault) → (expr_at text ≡ Err fault) ↔ IsFaultOf text fault }
{}

/// A quotient is rounded down: it is the greatest whole number that is at most it, and the remainder is what the divisor
/// times that number leaves.
pub fn quotients_are_rounded_down()
    ensures above { (a b : ℤ) → pos 0 <ℤ b → IsGreatest (λ q. (q *ℤ b) ≤ℤ a) (floor_quotient a b) }
    ensures below { (a b : ℤ) → b <ℤ pos 0 → IsGreatest (λ q. a ≤ℤ (q *ℤ b)) (floor_quotient a b) }
    ensures leaves { (a b : ℤ) → b ≢ pos 0 → a ≡ b *ℤ floor_quotient a b +ℤ floor_remainder a b }
    ensures zero { (a : ℤ) → (floor_quotient a (pos 0) ≡ pos 0) × (floor_remainder a (pos 0) ≡ pos 0) }
{}
