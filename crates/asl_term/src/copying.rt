//! Copies of trees.

ghost use Rattle.std.specs.Prelude.{◌≡◌, IfOk};

use crate::boxed::Boxed;
use crate::name::copy_name;
use crate::sequence::{Seq, Starved};
use crate::syntax::{
    Arg, ArgOf, Args, ArithOf, Call, CallOf, Expr, Formula, Formulas, ListingOf, Literal,
    LiteralOf, Literals, Plan, Relation, Term, Terms, Text, Trigger, Var,
};
use std::alloc::Global;

/// A text of these bytes.
pub fn text_of(alloc: Global, bytes: &[u8]) -> Result<Text, Starved>
    ensures { IfOk result (λ r. r ≡ bytes.now) }
{
    match bytes.to_vec(alloc) {
        Ok(items) => Ok(Seq::from_vec(items)),
        Err(_) => Err(Starved),
    }
}

/// An equal text.
pub fn copy_text(alloc: Global, t: &Text) -> Result<Text, Starved>
    ensures { IfOk result (λ r. r ≡ t.now) }
{
    text_of(alloc, t.as_slice())
}

/// An equal variable, its number too. `Starved` comes only when memory runs out.
pub fn copy_var(alloc: Global, v: &Var) -> Result<Var, Starved>
    ensures { IfOk result (λ r. r ≡ v.now) }
{
    Ok(Var {
        name: copy_name(alloc, &v.name)?,
        number: v.number,
    })
}

/// An equal term.
#[cycle(copy)]
pub fn copy(alloc: Global, t: &Term) -> Result<Term, Starved>
    ensures { IfOk result (λ r. r ≡ t.now) }
{
    match t {
        Term::Num(n) => Ok(Term::Num(*n)),
        Term::Str(s) => Ok(Term::Str(copy_text(alloc, s)?)),
        Term::Var(v) => Ok(Term::Var(copy_var(alloc, v)?)),
        Term::Lit(l) => {
            let functor = copy_text(alloc, &l.functor)?;
            let args = copy_all(alloc, l.args.as_slice())?;
            let annots = copy_all(alloc, l.annots.as_slice())?;
            Ok(Term::Lit(LiteralOf {
                neg: l.neg,
                functor,
                args,
                annots,
            }))
        }
        Term::List(l) => {
            let items = copy_all(alloc, l.items.as_slice())?;
            match &l.tail {
                None => Ok(Term::List(ListingOf { items, tail: None })),
                Some(tail) => {
                    let tail = Boxed::new(alloc, copy(alloc, tail.get())?)?;
                    Ok(Term::List(ListingOf {
                        items,
                        tail: Some(tail),
                    }))
                }
            }
        }
        Term::Op(a) => {
            let left = Boxed::new(alloc, copy(alloc, a.left.get())?)?;
            let right = Boxed::new(alloc, copy(alloc, a.right.get())?)?;
            Ok(Term::Op(ArithOf {
                op: a.op,
                left,
                right,
            }))
        }
    }
}

/// Equal terms, in order: all of them, or `Starved` where memory runs out.
#[cycle(copy)]
pub fn copy_all(alloc: Global, ts: &[Term]) -> Result<Terms, Starved>
    ensures { IfOk result (λ r. r ≡ ts.now) }
{
    let mut r = Seq::new(alloc);
    r.reserve_exact(ts.len() as u64)?;
    for t in ts {
        r.push(copy(alloc, t)?)?;
    }
    Ok(r)
}

/// An equal literal.
pub fn copy_literal(alloc: Global, l: &Literal) -> Result<Literal, Starved>
    ensures { IfOk result (λ r. r ≡ l.now) }
{
    let functor = copy_text(alloc, &l.functor)?;
    let args = copy_all(alloc, l.args.as_slice())?;
    let annots = copy_all(alloc, l.annots.as_slice())?;
    Ok(LiteralOf {
        neg: l.neg,
        functor,
        args,
        annots,
    })
}

/// Equal literals, in order.
pub fn copy_literals(alloc: Global, literals: &[Literal]) -> Result<Literals, Starved>
    ensures { IfOk result (λ r. r ≡ literals.now) }
{
    let mut r = Seq::new(alloc);
    for l in literals {
        r.push(copy_literal(alloc, l)?)?;
    }
    Ok(r)
}

/// An equal relation.
pub fn copy_relation(alloc: Global, r: &Relation) -> Result<Relation, Starved>
    ensures { IfOk result (λ n. n ≡ r.now) }
{
    let left = copy(alloc, &r.left)?;
    let right = copy(alloc, &r.right)?;
    Ok(Relation {
        op: r.op,
        left,
        right,
    })
}

/// An equal expression.
#[cycle(copy_expr)]
pub fn copy_expr(alloc: Global, e: &Expr) -> Result<Expr, Starved>
    ensures { IfOk result (λ r. r ≡ e.now) }
{
    match e {
        Expr::True => Ok(Expr::True),
        Expr::False => Ok(Expr::False),
        Expr::Holds(l) => Ok(Expr::Holds(copy_literal(alloc, l)?)),
        Expr::Rel(r) => Ok(Expr::Rel(copy_relation(alloc, r)?)),
        Expr::Inner(c) => {
            let name = copy_text(alloc, &c.name)?;
            let args = copy_args(alloc, c.args.as_slice())?;
            Ok(Expr::Inner(CallOf { name, args }))
        }
        Expr::Not(e) => Ok(Expr::Not(Boxed::new(alloc, copy_expr(alloc, e.get())?)?)),
        Expr::And(a, b) => {
            let left = Boxed::new(alloc, copy_expr(alloc, a.get())?)?;
            let right = Boxed::new(alloc, copy_expr(alloc, b.get())?)?;
            Ok(Expr::And(left, right))
        }
        Expr::Or(a, b) => {
            let left = Boxed::new(alloc, copy_expr(alloc, a.get())?)?;
            let right = Boxed::new(alloc, copy_expr(alloc, b.get())?)?;
            Ok(Expr::Or(left, right))
        }
    }
}

#[cycle(copy_expr)]
fn copy_args(alloc: Global, args: &[Arg]) -> Result<Args, Starved>
    ensures { IfOk result (λ r. r ≡ args.now) }
{
    let mut r = Seq::new(alloc);
    r.reserve_exact(args.len() as u64)?;
    for arg in args {
        match arg {
            ArgOf::Plain(t) => r.push(ArgOf::Plain(copy(alloc, t)?))?,
            ArgOf::Logic(e) => r.push(ArgOf::Logic(copy_expr(alloc, e)?))?,
        }
    }
    Ok(r)
}

/// An equal call.
pub fn copy_call(alloc: Global, c: &Call) -> Result<Call, Starved>
    ensures { IfOk result (λ r. r ≡ c.now) }
{
    let name = copy_text(alloc, &c.name)?;
    let args = copy_args(alloc, c.args.as_slice())?;
    Ok(CallOf { name, args })
}

/// An equal formula.
pub fn copy_formula(alloc: Global, f: &Formula) -> Result<Formula, Starved>
    ensures { IfOk result (λ r. r ≡ f.now) }
{
    match f {
        Formula::Achieve(l) => Ok(Formula::Achieve(copy_literal(alloc, l)?)),
        Formula::Spawn(l) => Ok(Formula::Spawn(copy_literal(alloc, l)?)),
        Formula::Test(l) => Ok(Formula::Test(copy_literal(alloc, l)?)),
        Formula::Add(l) => Ok(Formula::Add(copy_literal(alloc, l)?)),
        Formula::Del(l) => Ok(Formula::Del(copy_literal(alloc, l)?)),
        Formula::Replace(l) => Ok(Formula::Replace(copy_literal(alloc, l)?)),
        Formula::Act(l) => Ok(Formula::Act(copy_literal(alloc, l)?)),
        Formula::Inner(c) => Ok(Formula::Inner(copy_call(alloc, c)?)),
        Formula::Rel(r) => Ok(Formula::Rel(copy_relation(alloc, r)?)),
    }
}

/// Equal formulas, in order.
pub fn copy_formulas(alloc: Global, fs: &[Formula]) -> Result<Formulas, Starved>
    ensures { IfOk result (λ r. r ≡ fs.now) }
{
    let mut r = Seq::new(alloc);
    r.reserve_exact(fs.len() as u64)?;
    for f in fs {
        r.push(copy_formula(alloc, f)?)?;
    }
    Ok(r)
}

/// An equal trigger.
pub fn copy_trigger(alloc: Global, t: &Trigger) -> Result<Trigger, Starved>
    ensures { IfOk result (λ r. r ≡ t.now) }
{
    let lit = copy_literal(alloc, &t.lit)?;
    Ok(Trigger {
        add: t.add,
        kind: t.kind,
        lit,
    })
}

fn copy_label(alloc: Global, label: &Option<Text>) -> Result<Option<Text>, Starved>
    ensures { IfOk result (λ r. r ≡ label.now) }
{
    match label {
        None => Ok(None),
        Some(t) => Ok(Some(copy_text(alloc, t)?)),
    }
}

/// An equal plan.
pub fn copy_plan(alloc: Global, p: &Plan) -> Result<Plan, Starved>
    ensures { IfOk result (λ r. r ≡ p.now) }
{
    let label = copy_label(alloc, &p.label)?;
    let trigger = copy_trigger(alloc, &p.trigger)?;
    let context = copy_expr(alloc, &p.context)?;
    let body = copy_formulas(alloc, p.body.as_slice())?;
    Ok(Plan {
        label,
        trigger,
        context,
        body,
    })
}
