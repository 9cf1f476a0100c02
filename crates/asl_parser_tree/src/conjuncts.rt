//! Formulas that are one literal, and conjunctions of simple parts.

ghost use Rattle.std.specs.Prelude.{◌≡◌};
ghost use Rattle.asl_parser_tree.specs.Conjuncts as spec;

use asl_term::syntax::Expr;

/// Whether it is one literal.
pub fn is_literal(e: &Expr) -> bool
    ensures { result ≡ spec.is_literal e.now }
{
    match e {
        Expr::Holds(_) => true,
        _ => false,
    }
}

/// Whether each part, of what `&` joins, is a literal, `not` before a literal, or a relation.
pub fn has_parts(e: &Expr) -> bool
    ensures { result ≡ spec.has_parts e.now }
{
    match e {
        Expr::Holds(_) | Expr::Rel(_) => true,
        Expr::Not(inner) => is_literal(inner.get()),
        Expr::And(a, b) => has_parts(a.get()) && has_parts(b.get()),
        Expr::True | Expr::False | Expr::Inner(_) | Expr::Or(_, _) => false,
    }
}
