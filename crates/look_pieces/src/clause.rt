//! Clauses that are read, and the plans among them.

ghost use Rattle.std.specs.Prelude.{◌≡◌, IfOk};
ghost use Rattle.look_pieces.specs.Clauses as spec;

use crate::name::same_name;
use asl_lexer::token::{Tok, Toks};
use asl_parser::sentence::Sentence;
use asl_term::copying::copy_text;
use asl_term::sequence::{Seq, Starved};
use asl_term::syntax::{Kind, Literal, Trigger};
use std::alloc::Global;

/// A clause: its tokens, and what it says.
pub struct ReadClause {
    pub toks: Toks,
    pub said: Sentence,
}

/// By hand, so that who lets one go proves nothing of its parts.
impl Drop for ReadClause {
    fn drop(self) {
        let ReadClause { toks: _, said: _ } = self;
    }
}

pub type ReadClauses = Seq<ReadClause>;

fn copy_tok(alloc: Global, t: &Tok) -> Result<Tok, Starved>
    ensures { IfOk result (λ r. r ≡ t.now) }
{
    Ok(Tok {
        kind: t.kind,
        text: copy_text(alloc, &t.text)?,
        at: t.at,
        line: t.line,
        column: t.column,
    })
}

pub fn copy_toks(alloc: Global, toks: &[Tok]) -> Result<Toks, Starved>
    ensures { IfOk result (λ r. r ≡ toks.now) }
{
    let mut all = Seq::new(alloc);
    let mut rest = toks;
    'toks: while let Some((t, after)) = rest.split_first() {
        all.push(copy_tok(alloc, t)?)?;
        rest = after;
    }
    Ok(all)
}

fn same_kind(a: Kind, b: Kind) -> bool
    ensures { result ≡ spec.same_kind a b }
{
    match (a, b) {
        (Kind::Belief, Kind::Belief) => true,
        (Kind::Achieve, Kind::Achieve) => true,
        (Kind::Test, Kind::Test) => true,
        _ => false,
    }
}

fn is_trigger_of(t: &Trigger, add: bool, kind: Kind, l: &Literal) -> bool
    ensures { result ≡ spec.is_trigger_of add kind l.now t.now }
{
    t.add == add && same_kind(t.kind, kind) && same_name(&t.lit, l)
}

/// Whether a clause is a plan for events of this kind about the name of a literal.
pub fn is_plan_for(c: &ReadClause, add: bool, kind: Kind, l: &Literal) -> bool
    ensures { result ≡ spec.is_plan_for add kind l.now c.now }
{
    match &c.said {
        Sentence::Plan(p) => is_trigger_of(&p.trigger, add, kind, l),
        Sentence::Belief(_) => false,
        Sentence::Rule(_) => false,
        Sentence::Goal(_) => false,
    }
}

/// Whether there is such a plan.
pub fn has_plan(cs: &[ReadClause], add: bool, kind: Kind, l: &Literal) -> bool
    ensures { result ≡ spec.has_plan cs.now add kind l.now }
{
    cs.iter().any(|c| is_plan_for(c, add, kind, l))
}
