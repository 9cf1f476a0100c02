//! The limits of the trees and of the brackets of a clause.

ghost use Rattle.std.specs.Prelude.{◌≡◌, map, sum};
ghost use Rattle.asl_term.specs.Trees as tree;
ghost use Rattle.asl_term.specs.Exprs as exprs;
ghost use Rattle.asl_term.specs.declared.syntax.Expr.TheVariants as expr;
ghost use Rattle.asl_parser_tree.specs.Limits as spec;

use crate::lexeme::Lexeme;
use asl_lexer::token::Sign;
use asl_term::expr_measure::{expr_depth, expr_size};
use asl_term::limits::{MOST_LEVELS, MOST_NODES};
use asl_term::measure::{depth, literal_depth, literal_size, size};
use asl_term::syntax::{Arg, ArgOf, Call, Expr, Literal, Relation, Term};

/// The most brackets that are open at one place of a clause, as many as a term has levels at most.
pub const MOST_BRACKETS: u32 = MOST_LEVELS as u32;

/// Whether a term has no more nodes and no more levels than it may have. What is past them is read,
/// and not kept.
pub fn within_term(t: &Term) -> bool
    ensures { result ≡ spec.within_term t.now }
{
    size(t) <= MOST_NODES && depth(t) <= MOST_LEVELS
}

/// Whether a literal is within the limits of a term. Its annotations count as its arguments do.
pub fn within_literal(l: &Literal) -> bool
    ensures { result ≡ spec.within_literal l.now }
{
    literal_size(l) <= MOST_NODES && literal_depth(l) <= MOST_LEVELS
}

/// Whether a formula has no more nodes and no more levels than it may have, the trees in it included.
pub fn within_expr(e: &Expr) -> bool
    ensures { result ≡ spec.within_expr e.now }
{
    expr_size(e) <= MOST_NODES && expr_depth(e) <= MOST_LEVELS
}

fn args_size(args: &[Arg]) -> u64
    ensures { result ≡ tree.capped (sum (map exprs.arg_size (map (exprs.map_arg exprs.size) args.now))) }
{
    let mut n = 0u64;
    for arg in args {
        let m = match arg {
            ArgOf::Plain(t) => size(t),
            ArgOf::Logic(e) => expr_size(e),
        };
        n = n.saturating_add(m);
    }
    n
}

fn args_depth(args: &[Arg]) -> u64
    ensures { result ≡ tree.capped (tree.greatest (map exprs.arg_depth (map (exprs.map_arg exprs.depth) args.now))) }
{
    let mut n = 0u64;
    for arg in args {
        let m = match arg {
            ArgOf::Plain(t) => depth(t),
            ArgOf::Logic(e) => expr_depth(e),
        };
        n = n.max(m);
    }
    n
}

#[tactic(auto, using(asl_term::proofs::Args::size_inner))]
fn call_size(c: &Call) -> u64
    ensures { result ≡ tree.capped (exprs.size (expr.Inner c.now)) }
{
    1u64.saturating_add(args_size(c.args.as_slice()))
}

#[tactic(auto, using(asl_term::proofs::Args::depth_inner))]
fn call_depth(c: &Call) -> u64
    ensures { result ≡ tree.capped (exprs.depth (expr.Inner c.now)) }
{
    1u64.saturating_add(args_depth(c.args.as_slice()))
}

/// Whether a call of an internal action is within the limits of a formula, which it counts as.
pub fn within_call(c: &Call) -> bool
    ensures { result ≡ spec.within_expr (expr.Inner c.now) }
{
    call_size(c) <= MOST_NODES && call_depth(c) <= MOST_LEVELS
}

#[tactic(auto, using(crate::proofs::Sized::size_relation))]
fn relation_size(r: &Relation) -> u64
    ensures { result ≡ tree.capped (exprs.size (expr.Rel r.now)) }
{
    1u64.saturating_add(size(&r.left))
        .saturating_add(size(&r.right))
}

#[tactic(auto, using(crate::proofs::Sized::depth_relation))]
fn relation_depth(r: &Relation) -> u64
    ensures { result ≡ tree.capped (exprs.depth (expr.Rel r.now)) }
{
    1u64.saturating_add(depth(&r.left).max(depth(&r.right)))
}

/// Whether a relation is within the limits of a formula: its two sides count together.
pub fn within_relation(r: &Relation) -> bool
    ensures { result ≡ spec.within_expr (expr.Rel r.now) }
{
    relation_size(r) <= MOST_NODES && relation_depth(r) <= MOST_LEVELS
}

/// Whether more brackets are open at one place than may be.
#[tactic(auto, unfolding(crate::specs::Limits::too_deep))]
pub fn too_deep(tokens: &[Lexeme]) -> bool
    ensures { result ≡ spec.too_deep spec.most_brackets 0 tokens.now }
{
    let mut count: u32 = 0;
    let mut rest = tokens;
    'tokens: while let Some((token, after)) = rest.split_first() {
        match token {
            Lexeme::Sign(Sign::Open) | Lexeme::Sign(Sign::OpenSquare) => {
                if count >= MOST_BRACKETS {
                    return true;
                }
                count += 1;
            }
            Lexeme::Sign(Sign::Close) | Lexeme::Sign(Sign::CloseSquare) => {
                count = count.saturating_sub(1);
            }
            _ => {}
        }
        rest = after;
    }
    false
}
