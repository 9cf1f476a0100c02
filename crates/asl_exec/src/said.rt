//! What `.print` says.

ghost use Rattle.std.specs.Prelude.{◌≡◌, ◌++◌, IfOk, OnOk};
ghost use Rattle.asl_exec.specs.Said as spec;

use asl_term::printing::print;
use asl_term::sequence::{Seq, Starved};
use asl_term::syntax::{Arg, ArgOf, Term, Text};
use std::alloc::Global;

fn escaped(b: u8, out: &mut Text) -> Result<(), Starved>
    ensures { OnOk result (out.new ≡ out.old ++ spec.escape b) }
{
    match b {
        b'\\' => out.append(b"\\\\"),
        b'\n' => out.append(b"\\n"),
        b'\t' => out.append(b"\\t"),
        _ => out.push(b),
    }
}

fn unquoted(s: &[u8], out: &mut Text) -> Result<(), Starved>
    ensures { OnOk result (out.new ≡ out.old ++ spec.unquoted s.now) }
{
    for b in s {
        escaped(*b, out)?;
    }
    Ok(())
}

fn said(t: &Term, out: &mut Text) -> Result<(), Starved>
    ensures { OnOk result (out.new ≡ out.old ++ spec.said t.now) }
{
    match t {
        Term::Str(s) => unquoted(s.as_slice(), out),
        _ => print(t, out),
    }
}

fn said_arg(arg: &Arg, out: &mut Text) -> Result<(), Starved>
    ensures { OnOk result (out.new ≡ out.old ++ spec.said_arg arg.now) }
{
    match arg {
        ArgOf::Plain(t) => said(t, out),
        ArgOf::Logic(_) => Ok(()),
    }
}

/// The texts of the arguments, joined. A string has no quotes; a line feed, a tab and a backslash in it are escaped.
pub fn print_text(alloc: Global, args: &[Arg]) -> Result<Text, Starved>
    ensures { IfOk result (λ r. r ≡ spec.print_text args.now) }
{
    let mut r = Seq::new(alloc);
    for arg in args {
        said_arg(arg, &mut r)?;
    }
    Ok(r)
}
