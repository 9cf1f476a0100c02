//! The limits of the trees of a clause.

ghost use Rattle.std.specs.Prelude.{◌≡◌};
ghost use Rattle.std.specs.List.{list_all};
ghost use Rattle.env_file.specs.Limits as spec;

use crate::statement::{Effect, Statement};
use asl_parser_tree::limits::{within_expr, within_literal};
use asl_term::syntax::Expr;

fn within_guard(guard: &Option<Expr>) -> bool
    ensures { result ≡ spec.within_guard guard.now }
{
    match guard {
        Some(e) => within_expr(e),
        None => true,
    }
}

fn within_effect(e: &Effect) -> bool
    ensures { result ≡ spec.within_effect e.now }
{
    match e {
        Effect::Added(l) => within_literal(l),
        Effect::Deleted(l) => within_literal(l),
        Effect::Dropped(_) => true,
    }
}

fn within_effects(effects: &[Effect]) -> bool
    ensures { result ≡ list_all spec.within_effect effects.now }
{
    let mut rest = effects;
    'effects: while let Some((e, after)) = rest.split_first() {
        if !within_effect(e) {
            return false;
        }
        rest = after;
    }
    true
}

/// Whether each tree is within the limits.
pub fn is_within(s: &Statement) -> bool
    ensures { result ≡ spec.is_within s.now }
{
    match s {
        Statement::Fact(l) => within_literal(l),
        Statement::Hide(_) => true,
        Statement::Use(_) => true,
        Statement::Act(a) => {
            within_literal(&a.head)
                && within_guard(&a.guard)
                && within_effects(a.effects.as_slice())
        }
    }
}
