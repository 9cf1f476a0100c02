//! The texts of terms.

ghost use Rattle.std.specs.Prelude.{◌≡◌, ◌++◌, map, OnOk, OnErr};
ghost use Rattle.std.specs.Fmt.{decimal, signed_decimal};
ghost use Rattle.asl_term.specs.Texts as spec;

use crate::sequence::{Seq, Starved};
use crate::syntax::{Op, Term, Text, Var};
use std::alloc::Global;

/// Appends a number in decimal.
pub fn write_number(alloc: Global, n: u64, out: &mut Text) -> Result<(), Starved>
    ensures ok { OnOk result (out.new ≡ out.old ++ decimal n) }
    ensures err { OnErr result (out.new ≡ out.old) }
{
    match format!(in alloc; "{n}") {
        Ok(s) => out.append(s.as_bytes()),
        Err(_) => Err(Starved),
    }
}

fn signed(alloc: Global, n: i64, out: &mut Text) -> Result<(), Starved>
    ensures { OnOk result (out.new ≡ out.old ++ signed_decimal n) }
{
    match format!(in alloc; "{n}") {
        Ok(s) => out.append(s.as_bytes()),
        Err(_) => Err(Starved),
    }
}

fn escaped(b: u8, out: &mut Text) -> Result<(), Starved>
    ensures { OnOk result (out.new ≡ out.old ++ spec.escape b) }
{
    match b {
        34 => out.append(b"\\\""),
        92 => out.append(b"\\\\"),
        10 => out.append(b"\\n"),
        9 => out.append(b"\\t"),
        _ => out.push(b),
    }
}

fn quoted(s: &[u8], out: &mut Text) -> Result<(), Starved>
    ensures { OnOk result (out.new ≡ out.old ++ spec.quoted s.now) }
{
    out.push(b'"')?;
    for b in s {
        escaped(*b, out)?;
    }
    out.push(b'"')
}

fn variable(alloc: Global, v: &Var, out: &mut Text) -> Result<(), Starved>
    ensures { OnOk result (out.new ≡ out.old ++ spec.var_text v.now) }
{
    let name = v.name.as_slice();
    let is_unnamed = name.len() >= 2 && name[0] == b'_' && name[1] == b' ';
    if v.number == 0 {
        return if is_unnamed {
            out.push(b'_')
        } else {
            out.append(name)
        };
    }
    out.push(b'_')?;
    write_number(alloc, v.number, out)?;
    if is_unnamed {
        out.push(b'_')?;
        return out.append(&name[2..]);
    }
    out.append(name)
}

fn operator(op: Op, out: &mut Text) -> Result<(), Starved>
    ensures { OnOk result (out.new ≡ out.old ++ spec.op_text op) }
{
    match op {
        Op::Add => out.append(b"+"),
        Op::Sub => out.append(b"-"),
        Op::Mul => out.append(b"*"),
        Op::Div => out.append(b"div"),
        Op::Mod => out.append(b"mod"),
    }
}

/// Appends its text. After `Starved` a part of it may stand in `out`.
#[cycle(write)]
pub(crate) fn write(alloc: Global, t: &Term, out: &mut Text) -> Result<(), Starved>
    ensures { OnOk result (out.new ≡ out.old ++ spec.text t.now) }
{
    match t {
        Term::Num(n) => signed(alloc, *n, out),
        Term::Str(s) => quoted(s.as_slice(), out),
        Term::Var(v) => variable(alloc, v, out),
        Term::Lit(l) => {
            if l.neg {
                out.push(b'~')?;
            }
            out.append(l.functor.as_slice())?;
            between(alloc, b'(', l.args.as_slice(), b')', out)?;
            between(alloc, b'[', l.annots.as_slice(), b']', out)
        }
        Term::List(l) => {
            out.push(b'[')?;
            commas(alloc, l.items.as_slice(), out)?;
            if let Some(tail) = &l.tail {
                out.push(b'|')?;
                write(alloc, tail.get(), out)?;
            }
            out.push(b']')
        }
        Term::Op(a) => {
            out.push(b'(')?;
            write(alloc, a.left.get(), out)?;
            out.push(b' ')?;
            operator(a.op, out)?;
            out.push(b' ')?;
            write(alloc, a.right.get(), out)?;
            out.push(b')')
        }
    }
}

#[cycle(write)]
fn commas(alloc: Global, ts: &[Term], out: &mut Text) -> Result<(), Starved>
    ensures { OnOk result (out.new ≡ out.old ++ spec.commas (map spec.text ts.now)) }
{
    match ts.split_first() {
        None => Ok(()),
        Some((first, rest)) => {
            write(alloc, first, out)?;
            for t in rest {
                out.push(b',')?;
                write(alloc, t, out)?;
            }
            Ok(())
        }
    }
}

#[cycle(write)]
pub(crate) fn between(
    alloc: Global,
    open_mark: u8,
    ts: &[Term],
    close_mark: u8,
    out: &mut Text,
) -> Result<(), Starved>
    ensures { OnOk result (out.new ≡ out.old ++ spec.between open_mark close_mark (map spec.text ts.now)) }
{
    if ts.is_empty() {
        return Ok(());
    }
    out.push(open_mark)?;
    commas(alloc, ts, out)?;
    out.push(close_mark)
}

/// Appends its text, whole or not at all.
pub fn print(t: &Term, out: &mut Text) -> Result<(), Starved>
    ensures ok { OnOk result (out.new ≡ out.old ++ spec.text t.now) }
    ensures err { OnErr result (out.new ≡ out.old) }
{
    let alloc = out.alloc();
    let mut text = Seq::new(alloc);
    write(alloc, t, &mut text)?;
    out.append(text.as_slice())
}
