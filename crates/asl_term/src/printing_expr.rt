//! The texts of literals, expressions and formulas.
//!
//! After `Starved` a `write` of this crate may leave a part of its text in `out`; a `print` leaves `out` as it was.

ghost use Rattle.std.specs.Prelude.{◌≡◌, ◌++◌, map, OnOk, OnErr};
ghost use Rattle.asl_term.specs.Texts as texts;
ghost use Rattle.asl_term.specs.Exprs as spec;

use crate::printing::{between, write};
use crate::sequence::{Seq, Starved};
use crate::syntax::{Arg, ArgOf, Call, Expr, Formula, Literal, RelOp, Relation, Text};
use std::alloc::Global;

/// Appends the text of a literal.
fn write_literal(alloc: Global, l: &Literal, out: &mut Text) -> Result<(), Starved>
    ensures { OnOk result (out.new ≡ out.old ++ spec.literal_text l.now) }
{
    if l.neg {
        out.push(b'~')?;
    }
    out.append(l.functor.as_slice())?;
    between(alloc, b'(', l.args.as_slice(), b')', out)?;
    between(alloc, b'[', l.annots.as_slice(), b']', out)
}

fn rel_operator(op: RelOp, out: &mut Text) -> Result<(), Starved>
    ensures { OnOk result (out.new ≡ out.old ++ spec.rel_text op) }
{
    match op {
        RelOp::Less => out.append(b"<"),
        RelOp::LessEq => out.append(b"<="),
        RelOp::More => out.append(b">"),
        RelOp::MoreEq => out.append(b">="),
        RelOp::Same => out.append(b"=="),
        RelOp::Differ => out.append(b"\\=="),
        RelOp::Unify => out.append(b"="),
    }
}

/// Appends the text of a relation.
fn write_relation(alloc: Global, r: &Relation, out: &mut Text) -> Result<(), Starved>
    ensures { OnOk result (out.new ≡ out.old ++ spec.relation_text r.now) }
{
    out.push(b'(')?;
    write(alloc, &r.left, out)?;
    out.push(b' ')?;
    rel_operator(r.op, out)?;
    out.push(b' ')?;
    write(alloc, &r.right, out)?;
    out.push(b')')
}

/// Appends the text of an expression.
#[cycle(write_expr)]
#[tactic(auto, using(crate::proofs::Args::texts_of, std::proofs::lemmas::Grind::common_steps))]
fn write_expr(alloc: Global, e: &Expr, out: &mut Text) -> Result<(), Starved>
    ensures { OnOk result (out.new ≡ out.old ++ spec.text e.now) }
{
    match e {
        Expr::True => out.append(b"true"),
        Expr::False => out.append(b"false"),
        Expr::Holds(l) => write_literal(alloc, l, out),
        Expr::Rel(r) => write_relation(alloc, r, out),
        Expr::Inner(c) => {
            out.push(b'.')?;
            out.append(c.name.as_slice())?;
            write_args(alloc, c.args.as_slice(), out)
        }
        Expr::Not(e) => {
            out.append(b"not ")?;
            write_expr(alloc, e.get(), out)
        }
        Expr::And(a, b) => {
            out.push(b'(')?;
            write_expr(alloc, a.get(), out)?;
            out.append(b" & ")?;
            write_expr(alloc, b.get(), out)?;
            out.push(b')')
        }
        Expr::Or(a, b) => {
            out.push(b'(')?;
            write_expr(alloc, a.get(), out)?;
            out.append(b" | ")?;
            write_expr(alloc, b.get(), out)?;
            out.push(b')')
        }
    }
}

#[cycle(write_expr)]
fn write_args(alloc: Global, args: &[Arg], out: &mut Text) -> Result<(), Starved>
    ensures { OnOk result (out.new ≡ out.old ++ texts.between 40 41 (map spec.arg_text (map (spec.map_arg spec.text) args.now))) }
{
    match args.split_first() {
        None => Ok(()),
        Some((first, rest)) => {
            out.push(b'(')?;
            match first {
                ArgOf::Plain(t) => write(alloc, t, out)?,
                ArgOf::Logic(e) => write_expr(alloc, e, out)?,
            }
            for arg in rest {
                out.push(b',')?;
                match arg {
                    ArgOf::Plain(t) => write(alloc, t, out)?,
                    ArgOf::Logic(e) => write_expr(alloc, e, out)?,
                }
            }
            out.push(b')')
        }
    }
}

/// Appends the text of a call.
#[tactic(auto, using(crate::proofs::Args::text_inner, std::proofs::lemmas::Grind::common_steps))]
fn write_call(alloc: Global, c: &Call, out: &mut Text) -> Result<(), Starved>
    ensures { OnOk result (out.new ≡ out.old ++ spec.call_text c.now) }
{
    out.push(b'.')?;
    out.append(c.name.as_slice())?;
    write_args(alloc, c.args.as_slice(), out)
}

fn signed_literal(alloc: Global, sign: &[u8], l: &Literal, out: &mut Text) -> Result<(), Starved>
    ensures { OnOk result (out.new ≡ out.old ++ sign.now ++ spec.literal_text l.now) }
{
    out.append(sign)?;
    write_literal(alloc, l, out)
}

/// Appends the text of a formula of a body.
fn write_formula(alloc: Global, f: &Formula, out: &mut Text) -> Result<(), Starved>
    ensures { OnOk result (out.new ≡ out.old ++ spec.formula_text f.now) }
{
    match f {
        Formula::Achieve(l) => signed_literal(alloc, b"!", l, out),
        Formula::Spawn(l) => signed_literal(alloc, b"!!", l, out),
        Formula::Test(l) => signed_literal(alloc, b"?", l, out),
        Formula::Add(l) => signed_literal(alloc, b"+", l, out),
        Formula::Del(l) => signed_literal(alloc, b"-", l, out),
        Formula::Replace(l) => signed_literal(alloc, b"-+", l, out),
        Formula::Act(l) => write_literal(alloc, l, out),
        Formula::Inner(c) => write_call(alloc, c, out),
        Formula::Rel(r) => write_relation(alloc, r, out),
    }
}

/// Appends the text of a literal, whole or not at all.
pub fn print_literal(l: &Literal, out: &mut Text) -> Result<(), Starved>
    ensures ok { OnOk result (out.new ≡ out.old ++ spec.literal_text l.now) }
    ensures err { OnErr result (out.new ≡ out.old) }
{
    let alloc = out.alloc();
    let mut text = Seq::new(alloc);
    write_literal(alloc, l, &mut text)?;
    out.append(text.as_slice())
}

/// Appends the text of an expression, whole or not at all.
pub fn print_expr(e: &Expr, out: &mut Text) -> Result<(), Starved>
    ensures ok { OnOk result (out.new ≡ out.old ++ spec.text e.now) }
    ensures err { OnErr result (out.new ≡ out.old) }
{
    let alloc = out.alloc();
    let mut text = Seq::new(alloc);
    write_expr(alloc, e, &mut text)?;
    out.append(text.as_slice())
}

/// Appends the text of a formula, whole or not at all.
pub fn print_formula(f: &Formula, out: &mut Text) -> Result<(), Starved>
    ensures ok { OnOk result (out.new ≡ out.old ++ spec.formula_text f.now) }
    ensures err { OnErr result (out.new ≡ out.old) }
{
    let alloc = out.alloc();
    let mut text = Seq::new(alloc);
    write_formula(alloc, f, &mut text)?;
    out.append(text.as_slice())
}
