// Expressions, as callers have them.
ghost use Rattle.std.specs.Prelude.{◌≡◌, pos, IfOk, IfErr};
ghost use Rattle.jet_items.specs.Ranges.{IsWithin, most_time};
ghost use Rattle.jet_items.specs.Gives.{Gives};
ghost use Rattle.jet_expr.specs.Grammar.{IsExpression, IsFaultOf, IsRefusal};
ghost use Rattle.jet_expr.specs.Machine.{expr_at};
ghost use Rattle.jet_expr.specs.Nodes.{term_of};
ghost use Rattle.jet_expr.specs.Term.{AreSmall, Term, number};
ghost use Rattle.jet_expr.specs.Value.{value, is_true};
ghost use Rattle.jet_expr.specs.declared.fault.ExprFault.{ExprFault};

use crate::fault::ExprFault;
use crate::node::{Node, copy_of, value_of};
use crate::read::read_text;
use jet_items::{Event, NoMemory, Refused};
use std::alloc::Global;
use std::marker::Model;

/// An expression. Contracts see the term that it is.
#[derive(Drop)]
pub struct Expr {
    node: Node,
}

impl Model for Expr {
    ghost use Rattle.jet_expr.specs.Term.{Term, term_code, AreSmall};

    ghost Value = { Term };

    ghost coded = { term_code };

    ghost use Rattle.jet_expr.specs.Nodes.{term_of};

    ghost view = { λ e. term_of e.node };

    ghost invariant = { λ e. AreSmall (term_of e.node) };
}

impl Expr {
    /// The expression of a text, or why it is none.
    ///
    /// A text has at most 1024 bytes, and at most 32 of its `(`, `not` and minus signs may be open at once. Blanks may
    /// stand between tokens, and the longest token counts. The grammar stands in `specs/Syntax.antt`, the faults in
    /// `specs/Grammar.antt`; both are this project's own.
    pub fn read(alloc: Global, text: &[u8]) -> Result<Expr, Refused<ExprFault>>
        ensures expression { IfOk result (λ e. IsExpression text.now e) }
        ensures fault { IfErr result (λ e. IsRefusal text.now e) }
        ensures of_expression { (term : Term) → IsExpression text.now term → Gives result (Ok term) }
        ensures of_fault { (fault : ExprFault) → IsFaultOf text.now fault → Gives result (Err fault) }
        ensures settled { Gives result (expr_at text.now) }
    {
        let node = read_text(alloc, text)?;
        Ok(Expr { node })
    }

    /// The expression `1`.
    pub fn one() -> Expr
        ensures { result ≡ number (pos 1) }
    {
        Expr {
            node: Node::Number(1),
        }
    }

    /// What the expression gives for an event, from -10^15 to 10^15.
    pub fn value(&self, event: &Event) -> i64
        ensures value { result ≡ value self.now event.now }
        ensures small { IsWithin most_time result }
    {
        value_of(&self.node, event)
    }

    /// Whether the value is not 0.
    pub fn test(&self, event: &Event) -> bool
        ensures { result ≡ is_true (value self.now event.now) }
    {
        self.value(event) != 0
    }

    /// An equal expression.
    pub fn copy(&self, alloc: Global) -> Result<Expr, NoMemory>
        ensures { IfOk result (λ e. e ≡ self.now) }
    {
        Ok(Expr {
            node: copy_of(alloc, &self.node)?,
        })
    }
}
