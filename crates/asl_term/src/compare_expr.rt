//! Whether two literals, expressions, formulas, triggers or plans are the same.

ghost use Rattle.std.specs.Prelude.{◌≡◌, ◌↔◌, IsTrue};

use crate::compare::{equal, equal_all, same_text};
use crate::syntax::{
    Arg, ArgOf, Call, Expr, Formula, Kind, Literal, Plan, RelOp, Relation, Text, Trigger,
};

/// Whether they are the same literal.
pub fn equal_literal(a: &Literal, b: &Literal) -> bool
    ensures { IsTrue result ↔ (a.now ≡ b.now) }
{
    a.neg == b.neg
        && same_text(&a.functor, &b.functor)
        && equal_all(a.args.as_slice(), b.args.as_slice())
        && equal_all(a.annots.as_slice(), b.annots.as_slice())
}

fn same_rel_op(a: RelOp, b: RelOp) -> bool
    ensures { IsTrue result ↔ (a ≡ b) }
{
    a == b
}

/// Whether they are the same relation.
pub fn equal_relation(a: &Relation, b: &Relation) -> bool
    ensures { IsTrue result ↔ (a.now ≡ b.now) }
{
    same_rel_op(a.op, b.op) && equal(&a.left, &b.left) && equal(&a.right, &b.right)
}

/// Whether they are the same expression.
#[cycle(equal_expr)]
pub fn equal_expr(a: &Expr, b: &Expr) -> bool
    ensures { IsTrue result ↔ (a.now ≡ b.now) }
{
    match (a, b) {
        (Expr::True, Expr::True) | (Expr::False, Expr::False) => true,
        (Expr::Holds(x), Expr::Holds(y)) => equal_literal(x, y),
        (Expr::Rel(x), Expr::Rel(y)) => equal_relation(x, y),
        (Expr::Inner(x), Expr::Inner(y)) => {
            same_text(&x.name, &y.name) && equal_args(x.args.as_slice(), y.args.as_slice())
        }
        (Expr::Not(x), Expr::Not(y)) => equal_expr(x.get(), y.get()),
        (Expr::And(x, v), Expr::And(y, w)) | (Expr::Or(x, v), Expr::Or(y, w)) => {
            equal_expr(x.get(), y.get()) && equal_expr(v.get(), w.get())
        }
        _ => false,
    }
}

#[cycle(equal_expr)]
fn equal_args(a: &[Arg], b: &[Arg]) -> bool
    ensures { IsTrue result ↔ (a.now ≡ b.now) }
{
    if a.len() != b.len() {
        return false;
    }
    for i in 0..a.len() {
        let same = match (&a[i], &b[i]) {
            (ArgOf::Plain(x), ArgOf::Plain(y)) => equal(x, y),
            (ArgOf::Logic(x), ArgOf::Logic(y)) => equal_expr(x, y),
            _ => false,
        };
        if !same {
            return false;
        }
    }
    true
}

/// Whether they are the same call.
pub fn equal_call(a: &Call, b: &Call) -> bool
    ensures { IsTrue result ↔ (a.now ≡ b.now) }
{
    same_text(&a.name, &b.name) && equal_args(a.args.as_slice(), b.args.as_slice())
}

/// Whether they are the same formula.
pub fn equal_formula(a: &Formula, b: &Formula) -> bool
    ensures { IsTrue result ↔ (a.now ≡ b.now) }
{
    match (a, b) {
        (Formula::Achieve(x), Formula::Achieve(y)) => equal_literal(x, y),
        (Formula::Spawn(x), Formula::Spawn(y)) => equal_literal(x, y),
        (Formula::Test(x), Formula::Test(y)) => equal_literal(x, y),
        (Formula::Add(x), Formula::Add(y)) => equal_literal(x, y),
        (Formula::Del(x), Formula::Del(y)) => equal_literal(x, y),
        (Formula::Replace(x), Formula::Replace(y)) => equal_literal(x, y),
        (Formula::Act(x), Formula::Act(y)) => equal_literal(x, y),
        (Formula::Inner(x), Formula::Inner(y)) => equal_call(x, y),
        (Formula::Rel(x), Formula::Rel(y)) => equal_relation(x, y),
        _ => false,
    }
}

/// Whether they are the same formulas in the same order.
pub fn equal_formulas(a: &[Formula], b: &[Formula]) -> bool
    ensures { IsTrue result ↔ (a.now ≡ b.now) }
{
    if a.len() != b.len() {
        return false;
    }
    for i in 0..a.len() {
        if !equal_formula(&a[i], &b[i]) {
            return false;
        }
    }
    true
}

fn same_kind(a: Kind, b: Kind) -> bool
    ensures { IsTrue result ↔ (a ≡ b) }
{
    a == b
}

/// Whether they are the same trigger.
pub fn equal_trigger(a: &Trigger, b: &Trigger) -> bool
    ensures { IsTrue result ↔ (a.now ≡ b.now) }
{
    a.add == b.add && same_kind(a.kind, b.kind) && equal_literal(&a.lit, &b.lit)
}

fn same_label(a: &Option<Text>, b: &Option<Text>) -> bool
    ensures { IsTrue result ↔ (a.now ≡ b.now) }
{
    match (a, b) {
        (None, None) => true,
        (Some(x), Some(y)) => same_text(x, y),
        _ => false,
    }
}

/// Whether they are the same plan, with the same label.
pub fn equal_plan(a: &Plan, b: &Plan) -> bool
    ensures { IsTrue result ↔ (a.now ≡ b.now) }
{
    same_label(&a.label, &b.label)
        && equal_trigger(&a.trigger, &b.trigger)
        && equal_expr(&a.context, &b.context)
        && equal_formulas(a.body.as_slice(), b.body.as_slice())
}
