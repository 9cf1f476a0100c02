//! The action that joins lists or texts.

ghost use Rattle.std.specs.Prelude.{◌≡◌, [], ◌++◌, IfOk, OnOk, map, flat_map, unwrap_or};
ghost use Rattle.asl_term.specs.Trees.{all};
ghost use Rattle.asl_unify.specs.Matches.{behind};
ghost use Rattle.asl_stdlib.specs.Findings.{solutions};
ghost use Rattle.asl_stdlib.specs.Kinds as kind;
ghost use Rattle.asl_stdlib.specs.Rows as spec;

use crate::findings::meet_made;
use crate::kinds::{items_of, string_of};
use asl_term::copying::copy_all;
use asl_term::printing::print;
use asl_term::sequence::{Seq, Starved};
use asl_term::syntax::{ListingOf, Term, Terms, Text};
use asl_unify::subst::{PairLists, Subst};
use std::alloc::Global;

fn all_lists(ts: &[Term]) -> bool
    ensures { result ≡ all (map kind.is_list ts.now) }
{
    for t in ts {
        if items_of(t).is_none() {
            return false;
        }
    }
    true
}

/// Appends the items of a list.
fn put_items(alloc: Global, t: &Term, out: &mut Terms) -> Result<(), Starved>
    ensures { OnOk result (out.new ≡ out.old ++ unwrap_or (kind.items_of t.now) []) }
{
    match items_of(t) {
        Some(items) => out.append_all(copy_all(alloc, items)?),
        None => Ok(()),
    }
}

/// The items of lists, one list after another.
fn joined_items(alloc: Global, ts: &[Term]) -> Result<Terms, Starved>
    ensures { IfOk result (λ r. r ≡ flat_map (λ t. unwrap_or (kind.items_of t) []) ts.now) }
{
    let mut out = Seq::new(alloc);
    for t in ts {
        put_items(alloc, t, &mut out)?;
    }
    Ok(out)
}

/// Appends the text of a term, a string unquoted.
fn put_text(t: &Term, out: &mut Text) -> Result<(), Starved>
    ensures { OnOk result (out.new ≡ out.old ++ spec.plain_text t.now) }
{
    match string_of(t) {
        Some(bytes) => out.append(bytes.as_slice()),
        None => print(t, out),
    }
}

/// The texts of terms, one after another.
fn joined_text(alloc: Global, ts: &[Term]) -> Result<Text, Starved>
    ensures { IfOk result (λ r. r ≡ flat_map spec.plain_text ts.now) }
{
    let mut out = Seq::new(alloc);
    for t in ts {
        put_text(t, &mut out)?;
    }
    Ok(out)
}

/// One list where all terms are lists, else one string.
fn joined(alloc: Global, ts: &[Term]) -> Result<Term, Starved>
    ensures { IfOk result (λ r. r ≡ spec.joined ts.now) }
{
    if all_lists(ts) {
        let items = joined_items(alloc, ts)?;
        Ok(Term::List(ListingOf { items, tail: None }))
    } else {
        let text = joined_text(alloc, ts)?;
        Ok(Term::Str(text))
    }
}

/// `.concat(A, .., R)`: three or more arguments, of which all but the last one are joined.
pub fn concat_row(alloc: Global, args: &[Term], s: &Subst) -> Result<PairLists, Starved>
    ensures { IfOk result (λ r. behind s.now r ≡ solutions (spec.concat_row args.now) s.now) }
{
    if args.len() < 3 {
        return Ok(Seq::new(alloc));
    }
    let last = args.len() - 1;
    let r = joined(alloc, &args[..last])?;
    meet_made(alloc, &args[last], r, s)
}
