//! Where a variable stands.

ghost use Rattle.std.specs.Prelude.{◌≡◌};
ghost use Rattle.asl_unify.specs.Logs.{later};
ghost use Rattle.asl_intend.specs.Apart as spec;

use asl_term::compare::same_var;
use asl_term::syntax::{Term, Var};
use asl_term::variables::occurs;
use asl_unify::log::Later;
use asl_unify::subst::Pair;

/// Whether a variable stands in some of these terms.
pub fn stands(v: &Var, ts: &[Term]) -> bool
    ensures { result ≡ spec.stands v.now ts.now }
{
    for t in ts {
        if occurs(v, t) {
            return true;
        }
    }
    false
}

/// Whether a variable stands in a substitution, bound or in what is put in.
pub fn in_pairs(v: &Var, pairs: &[Pair]) -> bool
    ensures { result ≡ spec.in_pairs v.now pairs.now }
{
    for p in pairs {
        if same_var(&p.var, v) || occurs(v, &p.term) {
            return true;
        }
    }
    false
}

/// The same of substitutions one after another.
pub fn in_later(v: &Var, rest: Later<'_>) -> bool
    ensures { result ≡ spec.in_levels v.now (later rest.entry) }
{
    let mut left = rest;
    while let Some((next, more)) = left.split_first() {
        if in_pairs(v, next.pairs()) {
            return true;
        }
        left = more;
    }
    false
}
