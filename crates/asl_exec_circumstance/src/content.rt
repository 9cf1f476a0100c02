//! The literals and strings that contents of messages are.

ghost use Rattle.std.specs.Prelude.{◌≡◌, IfOk};
ghost use Rattle.std.specs.Option.{is_some};
ghost use Rattle.asl_exec_circumstance.specs.Contents as spec;

use asl_term::copying::copy_literal;
use asl_term::measure::ground;
use asl_term::sequence::{Seq, Starved};
use asl_term::syntax::{Literal, Literals, Term};
use std::alloc::Global;

/// A literal, where a term is one.
pub fn literal_of(alloc: Global, t: &Term) -> Result<Option<Literal>, Starved>
    ensures { IfOk result (λ r. r ≡ spec.literal_of t.now) }
{
    match t {
        Term::Lit(l) => Ok(Some(copy_literal(alloc, l)?)),
        _ => Ok(None),
    }
}

/// Terms that all are literals.
fn all_literals(alloc: Global, ts: &[Term]) -> Result<Option<Literals>, Starved>
    ensures { IfOk result (λ r. r ≡ spec.all_literals ts.now) }
{
    let mut r = Seq::new(alloc);
    for t in ts {
        match t {
            Term::Lit(l) => r.push(copy_literal(alloc, l)?)?,
            _ => return Ok(None),
        }
    }
    Ok(Some(r))
}

/// The literals of a content that is a literal, or a list of literals without a tail.
pub fn literals_of(alloc: Global, t: &Term) -> Result<Option<Literals>, Starved>
    ensures { IfOk result (λ r. r ≡ spec.literals_of t.now) }
{
    match t {
        Term::Lit(l) => {
            let mut r = Seq::new(alloc);
            r.push(copy_literal(alloc, l)?)?;
            Ok(Some(r))
        }
        Term::List(l) => {
            if l.tail.is_some() {
                return Ok(None);
            }
            all_literals(alloc, l.items.as_slice())
        }
        _ => Ok(None),
    }
}

/// The same of a content without variables.
pub fn ground_literals(alloc: Global, t: &Term) -> Result<Option<Literals>, Starved>
    ensures { IfOk result (λ r. r ≡ spec.ground_literals t.now) }
{
    if ground(t) {
        return literals_of(alloc, t);
    }
    Ok(None)
}

/// Whether a term is a string.
pub fn is_string(t: &Term) -> bool
    ensures { result ≡ is_some (spec.string_of t.now) }
{
    match t {
        Term::Str(_) => true,
        _ => false,
    }
}

/// Whether all terms are strings.
fn all_are_strings(ts: &[Term]) -> bool
    ensures { result ≡ is_some (spec.all_strings ts.now) }
{
    for t in ts {
        if !is_string(t) {
            return false;
        }
    }
    true
}

/// Whether a term is a string, or a list of strings without a tail.
pub fn are_strings(t: &Term) -> bool
    ensures { result ≡ is_some (spec.strings_of t.now) }
{
    match t {
        Term::Str(_) => true,
        Term::List(l) => l.tail.is_none() && all_are_strings(l.items.as_slice()),
        _ => false,
    }
}
