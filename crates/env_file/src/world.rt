//! World files, clause by clause.

ghost use Rattle.std.specs.Prelude.{◌≡◌, IfOk, IfErr};
ghost use Rattle.asl_lexer.specs.Lexing.{AreTokens};
ghost use Rattle.asl_lexer.specs.Words.{pieces, is_end};
ghost use Rattle.env_file.specs.Answering as answering;
ghost use Rattle.env_file.specs.Answering.{Makes, Told};
ghost use Rattle.env_file.specs.Worlds as spec;
ghost use Rattle.env_file.specs.Worlds.{IsWorld, IsNone};

use crate::clauses::statement;
use crate::fault::WorldFault;
use crate::statement::HeldStatement;
use crate::taking::{clause_fault, make};
use asl_lexer::lexing::tokens;
use asl_lexer::pieces::{ClausePieces, cut};
use asl_lexer::token::{LexFault, Tok};
use asl_parser_tree::bounded::Bounded;
use asl_parser_tree::lexeme::lexemes;
use asl_parser_tree::limits::{MOST_BRACKETS, too_deep};
use asl_term::names::Names;
use asl_term::sequence::{Seq, Starved};
use mas_world::acts::WorldText;
use std::alloc::Global;

fn said(
    alloc: Global,
    artifacts: &Names,
    text: &mut WorldText,
    number: u64,
    first: &Tok,
    s: Option<HeldStatement>,
) -> Result<(), WorldFault>
    ensures { Makes result text.new (answering.said artifacts.now text.old number first.now s) }
{
    match s {
        Some(Bounded::Within(s)) => {
            let made = make(alloc, artifacts, text, number, first, &s);
            // The proof of a function that ends a tree in place is long.
            drop(s);
            made
        }
        Some(Bounded::Past(())) => Err(WorldFault::Limit { number }),
        None => Err(clause_fault(number, first)),
    }
}

/// Makes of the world what a piece says; else the piece is refused.
#[tactic(auto, unfolding(crate::specs::Answering::piece_by))]
fn piece(
    alloc: Global,
    artifacts: &Names,
    text: &mut WorldText,
    number: u64,
    first: &Tok,
    toks: &[Tok],
) -> Result<(), WorldFault>
    ensures { Makes result text.new (answering.piece_by artifacts.now text.old number first.now toks.now) }
{
    let all = lexemes(alloc, toks)?;
    if too_deep(&all) {
        return Err(WorldFault::Limit { number });
    }
    match statement(alloc, &all, MOST_BRACKETS) {
        Ok(s) => said(alloc, artifacts, text, number, first, s),
        Err(_) => Err(WorldFault::Memory),
    }
}

fn piece_at(
    alloc: Global,
    artifacts: &Names,
    text: &mut WorldText,
    number: u64,
    toks: &[Tok],
) -> Result<(), WorldFault>
    ensures { Makes result text.new (answering.piece_at artifacts.now text.old number toks.now) }
{
    match toks {
        [first, ..] => piece(alloc, artifacts, text, number, first, toks),
        [] => Err(WorldFault::Limit { number }),
    }
}

fn nothing(alloc: Global) -> Result<WorldText, Starved>
    ensures { IfOk result (λ w. w ≡ spec.nothing) }
{
    Ok(WorldText {
        facts: Seq::new(alloc),
        hidden: Names::new(alloc)?,
        uses: Names::new(alloc)?,
        acts: Seq::new(alloc),
    })
}

#[tactic(auto, using(crate::proofs::Answered::more, crate::proofs::Answered::stops, crate::proofs::Answered::ends, crate::proofs::Answered::cut_shorter))]
fn clauses(alloc: Global, artifacts: &Names, toks: &[Tok]) -> Result<WorldText, WorldFault>
    ensures { Told result (answering.answer_by artifacts.now 1 spec.nothing (pieces is_end toks.now)) }
{
    let mut text = nothing(alloc)?;
    let mut number: u64 = 1;
    let mut rest = toks;
    'pieces: while let Some((toks, behind)) = cut::<ClausePieces>(rest) {
        match piece_at(alloc, artifacts, &mut text, number, toks) {
            Ok(()) => {}
            Err(fault) => return Err(fault),
        }
        number += 1;
        rest = behind;
    }
    Ok(text)
}

#[tactic(auto, using(crate::proofs::Answered::is_world_of, crate::proofs::Answered::is_none_of))]
fn world_of(
    alloc: Global,
    bytes: &[u8],
    artifacts: &Names,
    toks: &[Tok],
) -> Result<WorldText, WorldFault>
    requires { AreTokens bytes.now toks.now }
    ensures ok { IfOk result (IsWorld artifacts.now bytes.now) }
    ensures err { IfErr result (IsNone artifacts.now bytes.now) }
{
    clauses(alloc, artifacts, toks)
}

/// The world that a file describes, where there are artifacts of these names, or the first reason why it describes
/// none.
pub fn world(alloc: Global, bytes: &[u8], artifacts: &Names) -> Result<WorldText, WorldFault>
    ensures ok { IfOk result (IsWorld artifacts.now bytes.now) }
    ensures err { IfErr result (IsNone artifacts.now bytes.now) }
{
    match tokens(alloc, bytes) {
        Ok(toks) => world_of(alloc, bytes, artifacts, toks.as_slice()),
        Err(LexFault::Memory) => Err(WorldFault::Memory),
        Err(fault) => Err(WorldFault::Lex(fault)),
    }
}
