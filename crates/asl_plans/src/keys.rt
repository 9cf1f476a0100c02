//! A number for each plan, which is the same for the same plans, and seldom so for others.

ghost use Rattle.std.specs.Prelude.{◌≡◌, map};
ghost use Rattle.asl_index_tables.specs.Prints as prints;
ghost use Rattle.asl_plans.specs.FiledPlaces as spec;

use asl_index_tables::prints::{literal_print, term_print};
use asl_term::syntax::{Arg, ArgOf, Formula, Plan};

/// One number of two: the first is spread by a prime before the second is added.
fn mix(a: u64, b: u64) -> u64
    ensures { result ≡ prints.mix a b }
{
    a.wrapping_mul(1_099_511_628_211).wrapping_add(b)
}

fn arg_key(a: &Arg) -> u64
    ensures { result ≡ spec.arg_key a.now }
{
    match a {
        ArgOf::Plain(t) => term_print(t),
        ArgOf::Logic(_) => 0,
    }
}

fn args_key(args: &[Arg]) -> u64
    ensures { result ≡ prints.mixed 8 (map spec.arg_key args.now) }
{
    let mut n = 8u64;
    for a in args {
        n = mix(n, arg_key(a));
    }
    n
}

fn formula_key(f: &Formula) -> u64
    ensures { result ≡ spec.formula_key f.now }
{
    match f {
        Formula::Achieve(l) => literal_print(l),
        Formula::Spawn(l) => literal_print(l),
        Formula::Test(l) => literal_print(l),
        Formula::Add(l) => literal_print(l),
        Formula::Del(l) => literal_print(l),
        Formula::Replace(l) => literal_print(l),
        Formula::Act(l) => literal_print(l),
        Formula::Inner(c) => args_key(c.args.as_slice()),
        Formula::Rel(r) => mix(term_print(&r.left), term_print(&r.right)),
    }
}

/// A number with those of formulas, in order.
fn body_key(first: u64, body: &[Formula]) -> u64
    ensures { result ≡ prints.mixed first (map spec.formula_key body.now) }
{
    let mut n = first;
    for f in body {
        n = mix(n, formula_key(f));
    }
    n
}

/// The number of the trigger and the body of a plan.
pub fn plan_key(p: &Plan) -> u64
    ensures { result ≡ spec.plan_key p.now }
{
    body_key(literal_print(&p.trigger.lit), p.body.as_slice())
}
