// Ways out of a flat vertex.

use jet_expr::Expr;
use jet_items::Key;

/// A way out of a flat vertex: an event that passes the test leaves with this value as its first one.
#[derive(Drop)]
pub struct LegSpec {
    pub test: Expr,
    pub value: Expr,
    /// What is put behind the key, if anything.
    pub tag: Option<Key>,
}
