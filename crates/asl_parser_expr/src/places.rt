//! The longest expression at a place of the tokens.

ghost use Rattle.std.specs.Prelude.{◌≡◌, ◌+◌, ◌<◌, ◌^◌, length, drop, IfOk};
ghost use Rattle.asl_parser_tree.specs.Lexemes.{lexemes};
ghost use Rattle.asl_parser_expr.specs.Places as spec;
ghost use Rattle.asl_parser_expr.specs.Places.{IsFound, IsWhole};

use crate::fault::TextFault;
use crate::reading::expression;
use asl_lexer::token::Tok;
use asl_parser_tree::bounded::{Bounded, Held};
use asl_parser_tree::lexeme::{Lexeme, lexemes};
use asl_parser_tree::limits::{MOST_BRACKETS, too_deep, within_expr, within_term};
use asl_parser_tree::meaning::Meaning;
use asl_term::sequence::Starved;
use asl_term::syntax::{Expr, Term};
use std::alloc::Global;

/// An expression: a term where it may be one.
#[derive(Drop)]
pub enum Raw {
    Plain(Term),
    Logic(Expr),
}

/// What an expression means, as a term where it may be one.
pub fn raw_of(m: Meaning) -> Raw
    ensures { result ≡ spec.raw_of m }
{
    match m {
        Meaning::Truth(_, l) => Raw::Plain(Term::Lit(l)),
        Meaning::Literal(l) => Raw::Plain(Term::Lit(l)),
        Meaning::Term(t) => Raw::Plain(t),
        Meaning::Relation(r) => Raw::Logic(Expr::Rel(r.into_inner())),
        Meaning::Call(c) => Raw::Logic(Expr::Inner(c)),
        Meaning::Formula(e) => Raw::Logic(e.into_inner()),
    }
}

/// What all the tokens mean, if they are an expression.
#[tactic(auto, using(crate::proofs::Fronts::is_whole, crate::proofs::Fronts::is_none, crate::proofs::Fronts::is_less))]
fn whole(alloc: Global, tokens: &[Lexeme]) -> Result<Option<Held>, Starved>
    ensures { IfOk result (IsWhole tokens.now) }
{
    let Some((h, rest)) = expression(alloc, tokens, MOST_BRACKETS)? else {
        return Ok(None);
    };
    if rest.len() == 0 {
        Ok(Some(h))
    } else {
        Ok(None)
    }
}

/// The longest expression at the front, and how many tokens it has.
#[tactic(auto, using(crate::proofs::Fronts::starts, crate::proofs::Fronts::one_less, crate::proofs::Fronts::none_at_all, crate::proofs::Fronts::is_longest))]
fn longest(alloc: Global, tokens: &[Lexeme]) -> Result<Option<(Held, usize)>, Starved>
    ensures { IfOk result (IsFound tokens.now) }
{
    let mut count = tokens.len();
    'lengths: while count > 0 {
        let (front, _) = tokens.split_at(count);
        if let Some(h) = whole(alloc, front)? {
            return Ok(Some((h, count)));
        }
        count -= 1;
    }
    Ok(None)
}

/// An expression that was found, and the place behind it.
#[derive(Drop)]
pub struct Found {
    pub raw: Raw,
    pub next: u64,
}

fn within_raw(raw: &Raw) -> bool
    ensures { result ≡ spec.within_raw raw.now }
{
    match raw {
        Raw::Plain(t) => within_term(t),
        Raw::Logic(e) => within_expr(e),
    }
}

fn found_of(m: Meaning, next: u64) -> Result<Option<Found>, TextFault>
    ensures { result ≡ spec.found_of m next }
{
    let raw = raw_of(m);
    if within_raw(&raw) {
        Ok(Some(Found { raw, next }))
    } else {
        Err(TextFault::Limit { number: 0 })
    }
}

fn found_of_held(h: Held, next: u64) -> Result<Option<Found>, TextFault>
    ensures { result ≡ spec.found_of_kept h next }
{
    match h {
        Bounded::Within(m) => found_of(m, next),
        Bounded::Past(_) => Err(TextFault::Limit { number: 0 }),
    }
}

#[tactic(auto, using(crate::proofs::Fronts::finds))]
fn found_in(alloc: Global, behind: &[Lexeme], from: u64) -> Result<Option<Found>, TextFault>
    requires { from + length behind.now < 2 ^ 64 }
    ensures { spec.FindsIn behind.now from result }
{
    if too_deep(behind) {
        return Err(TextFault::Limit { number: 0 });
    }
    match longest(alloc, behind)? {
        Some((h, count)) => found_of_held(h, from + count as u64),
        None => Ok(None),
    }
}

/// The longest expression that begins at a place of the tokens, none at a place behind them; a limit is answered with the number 0.
pub fn expr_at(alloc: Global, toks: &[Tok], from: u64) -> Result<Option<Found>, TextFault>
    ensures { spec.FindsIn (drop from (lexemes toks.now)) from result }
{
    let all = lexemes(alloc, toks)?;
    let (_, behind) = all.split_at((from as usize).min(all.len()));
    found_in(alloc, behind, from)
}
