//! The literals of a message, with their sender as their source.

ghost use Rattle.std.specs.Prelude.{◌≡◌, filter, map, not, IfOk};
ghost use Rattle.asl_beliefs.specs.Sources.{is_source as names_one};
ghost use Rattle.asl_kqml.specs.Receive as spec;

use asl_beliefs::sources::{is_source, source};
use asl_term::sequence::{Seq, Starved};
use asl_term::syntax::{Literal, Literals, Terms, Text};
use std::alloc::Global;
use std::mem;

/// The annotations that are no sources.
fn others(alloc: Global, annots: Terms) -> Result<Terms, Starved>
    ensures { IfOk result (λ r. r ≡ filter (λ a. not (names_one a)) annots) }
{
    let mut r = Seq::new(alloc);
    for a in annots.into_vec() {
        if is_source(&a) {
            drop(a);
        } else {
            r.push(a)?;
        }
    }
    Ok(r)
}

/// The literal without its sources, and with this one as the last.
pub fn sourced(alloc: Global, name: &Text, l: Literal) -> Result<Literal, Starved>
    ensures { IfOk result (λ r. r ≡ spec.sourced name.now l) }
{
    let mut told = l;
    let annots = mem::replace(&mut told.annots, Seq::new(alloc));
    let mut kept = others(alloc, annots)?;
    kept.push(source(alloc, name.as_slice())?)?;
    drop(mem::replace(&mut told.annots, kept));
    Ok(told)
}

/// The literal with no annotation but this source.
fn only_from(alloc: Global, name: &Text, l: Literal) -> Result<Literal, Starved>
    ensures { IfOk result (λ r. r ≡ spec.only_from name.now l) }
{
    let mut annots = Seq::new(alloc);
    annots.push(source(alloc, name.as_slice())?)?;
    let mut told = l;
    drop(mem::replace(&mut told.annots, annots));
    Ok(told)
}

/// Each without its sources, and with this one as the last.
pub fn all_sourced(alloc: Global, name: &Text, ls: Literals) -> Result<Literals, Starved>
    ensures { IfOk result (λ r. r ≡ map (spec.sourced name.now) ls) }
{
    let mut r = Seq::new(alloc);
    for l in ls.into_vec() {
        r.push(sourced(alloc, name, l)?)?;
    }
    Ok(r)
}

/// Each with no annotation but this source.
pub fn all_only_from(alloc: Global, name: &Text, ls: Literals) -> Result<Literals, Starved>
    ensures { IfOk result (λ r. r ≡ map (spec.only_from name.now) ls) }
{
    let mut r = Seq::new(alloc);
    for l in ls.into_vec() {
        r.push(only_from(alloc, name, l)?)?;
    }
    Ok(r)
}
