//! Relations between sides that become numbers, which are compared without being built.

ghost use Rattle.std.specs.Prelude.{◌≡◌, ◌++◌, [], Some, None, cond, IfOk, IfErr, IfSome, option_map};
ghost use Rattle.asl_term.specs.declared.syntax.Term.TheVariants as term;
ghost use Rattle.asl_unify.specs.Puts.{IsSubst};
ghost use Rattle.asl_unify.specs.Turns.{apply_in};
ghost use Rattle.asl_unify.specs.Comparing as spec;
ghost use Rattle.asl_unify.specs.Comparing.{Gives};
ghost use Rattle.asl_unify_early.specs.inner.Numbers as sides;
ghost use Rattle.asl_unify_early.specs.inner.Numbers.{BecomesNumber};

use asl_term::sequence::Seq;
use asl_term::syntax::{Arith, Op, RelOp, Relation, Term};
use asl_unify::build::walk;
use asl_unify::comparing;
use asl_unify::comparing::CompareFault;
use asl_unify::log::Later;
use asl_unify::subst::{Pairs, Subst};
use std::alloc::Global;

/// The number that the pairs make of a term which is one, or a variable.
fn number<'a>(t: &'a Term, s: &'a Subst) -> Option<i64>
    requires { IsSubst s.now }
    ensures { IfSome result (λ n. apply_in s.now [] t.now ≡ term.Num n) }
{
    match walk(t, s, Later { log: None, from: 0 }) {
        Term::Num(n) => Some(*n),
        _ => None,
    }
}

/// What a sum, a difference or a product gives, where it lies in 64 bits.
fn computed(op: Op, m: i64, n: i64) -> Option<i64>
    ensures { result ≡ sides.computed op m n }
{
    match op {
        Op::Add => m.checked_add(n),
        Op::Sub => m.checked_sub(n),
        Op::Mul => m.checked_mul(n),
        Op::Div => None,
        Op::Mod => None,
    }
}

/// The number of a sum, a difference or a product of two such operands.
pub fn result_of(a: &Arith, s: &Subst) -> Option<i64>
    requires { IsSubst s.now }
    ensures { IfSome result (λ n. BecomesNumber s.now (term.Op a.now) n) }
{
    let first = a.left.get();
    let second = a.right.get();
    let left = number(first, s)?;
    let right = number(second, s)?;
    computed(a.op, left, right)
}

/// The number that a term settles to, where that is told by a number, a variable, or one operation on two of these.
fn settled_number<'a>(t: &'a Term, s: &'a Subst) -> Option<i64>
    requires { IsSubst s.now }
    ensures { IfSome result (λ n. BecomesNumber s.now t.now n) }
{
    match walk(t, s, Later { log: None, from: 0 }) {
        Term::Num(n) => Some(*n),
        Term::Op(a) => result_of(a, s),
        _ => None,
    }
}

/// Whether a relation holds between two numbers. Of `=` it is not told.
fn numbers_related(op: RelOp, m: i64, n: i64) -> Option<bool>
    ensures { result ≡ sides.of_numbers op m n }
{
    match op {
        RelOp::Unify => None,
        RelOp::Same => Some(m == n),
        RelOp::Differ => Some(m != n),
        RelOp::Less => Some(m < n),
        RelOp::LessEq => Some(m <= n),
        RelOp::More => Some(n < m),
        RelOp::MoreEq => Some(n <= m),
    }
}

/// Whether a relation holds, where both sides are told to be numbers. Then it binds nothing.
fn by_numbers(r: &Relation, s: &Subst) -> Option<bool>
    requires { IsSubst s.now }
    ensures { IfSome result (λ b. spec.holds r.now s.now ≡ Gives (cond b (Some s.now) None)) }
{
    let left = settled_number(&r.left, s)?;
    let right = settled_number(&r.right, s)?;
    numbers_related(r.op, left, right)
}

/// No pairs where a relation holds that binds nothing.
fn nothing_more(alloc: Global, is_so: bool) -> Option<Pairs>
    ensures { result ≡ cond is_so (Some []) None }
{
    if is_so { Some(Seq::new(alloc)) } else { None }
}

/// The pairs that a relation puts behind those of a substitution, or none where it does not hold, as in `comparing`.
pub fn compare_pairs(alloc: Global, r: &Relation, s: &Subst) -> Result<Option<Pairs>, CompareFault>
    ensures ok { IfOk result (λ o. spec.holds r.now s.now ≡ Gives (option_map (λ more. s.now ++ more) o)) }
    ensures sound { IfOk result (λ o. IfSome o (λ more. IsSubst (s.now ++ more))) }
    ensures fault { IfErr result (λ e. spec.Refused (spec.holds r.now s.now) e) }
{
    // That its pairs are sound is known once they are read.
    s.pairs();
    match by_numbers(r, s) {
        Some(is_so) => Ok(nothing_more(alloc, is_so)),
        None => comparing::compare_pairs(alloc, r, s),
    }
}
