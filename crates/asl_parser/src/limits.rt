//! The limits of the trees of a clause.

ghost use Rattle.std.specs.Prelude.{◌≡◌};
ghost use Rattle.std.specs.List.{list_all};
ghost use Rattle.asl_parser.specs.Limits as spec;

use crate::sentence::Sentence;
use asl_parser_tree::limits::{within_call, within_expr, within_literal, within_relation};
use asl_term::syntax::Formula;

fn within_formula(f: &Formula) -> bool
    ensures { result ≡ spec.within_formula f.now }
{
    match f {
        Formula::Achieve(l) => within_literal(l),
        Formula::Spawn(l) => within_literal(l),
        Formula::Test(l) => within_literal(l),
        Formula::Add(l) => within_literal(l),
        Formula::Del(l) => within_literal(l),
        Formula::Replace(l) => within_literal(l),
        Formula::Act(l) => within_literal(l),
        Formula::Inner(c) => within_call(c),
        Formula::Rel(r) => within_relation(r),
    }
}

fn within_all(fs: &[Formula]) -> bool
    ensures { result ≡ list_all spec.within_formula fs.now }
{
    let mut rest = fs;
    'formulas: while let Some((f, after)) = rest.split_first() {
        if !within_formula(f) {
            return false;
        }
        rest = after;
    }
    true
}

/// Whether each tree is within the limits.
pub fn is_within(s: &Sentence) -> bool
    ensures { result ≡ spec.is_within s.now }
{
    match s {
        Sentence::Belief(l) => within_literal(l),
        Sentence::Rule(c) => within_literal(&c.head) && within_expr(&c.body),
        Sentence::Goal(l) => within_literal(l),
        Sentence::Plan(p) => {
            within_literal(&p.trigger.lit)
                && within_expr(&p.context)
                && within_all(p.body.as_slice())
        }
    }
}
