//! What is told of the source of an agent.

ghost use Rattle.std.specs.Prelude.{IfOk, is_ok};
ghost use Rattle.asl_lexer.specs.Lexing.{IsFirstFault};
ghost use Rattle.asl_lexer.specs.Words.{pieces, is_end};
ghost use Rattle.asl_parser.specs.Answering as answering;
ghost use Rattle.look_pieces.specs.Telling as spec;
ghost use Rattle.look_pieces.specs.Telling.{AreTold, TellsAgent, TellsByte};

use crate::findings::{Findings, findings_in, some_of};
use crate::spoilt::{is_dirty, is_ended, piece_end, with_bytes};
use asl_lexer::lexing::tokens;
use asl_lexer::pieces::{ClausePieces, cut};
use asl_lexer::token::{LexFault, Tok};
use asl_parser::clauses::sentence;
use asl_parser_tree::bounded::Bounded;
use asl_parser_tree::lexeme::lexemes;
use asl_parser_tree::limits::{MOST_BRACKETS, too_deep};
use asl_term::sequence::{Seq, Starved};
use look_reasons::bytes::{Mended, byte_at, mended_of};
use look_reasons::flaws::limit_reason;
use look_reasons::mark::{between, marks_of};
use look_reasons::mending::Piece;
use look_reasons::reason::{Reason, reasons};
use std::alloc::Global;

/// Why a piece is refused.
#[derive(Clone, Copy)]
pub enum Refusal {
    Clause,
    Limit,
}

/// Why the reader refuses a piece, where it does.
#[tactic(auto, unfolding(asl_parser::specs::Answering::piece_by))]
fn why_refused(alloc: Global, number: u64, toks: &[Tok]) -> Result<Option<Refusal>, Starved>
    ensures { IfOk result (spec.TellsWhether (is_ok (answering.piece_at number toks.now))) }
{
    if toks.is_empty() {
        return Ok(Some(Refusal::Limit));
    }
    let all = lexemes(alloc, toks)?;
    if too_deep(&all) {
        return Ok(Some(Refusal::Limit));
    }
    match sentence(alloc, &all, MOST_BRACKETS)? {
        None => Ok(Some(Refusal::Clause)),
        Some(Bounded::Past(())) => Ok(Some(Refusal::Limit)),
        Some(Bounded::Within(s)) => {
            drop(s);
            Ok(None)
        }
    }
}

/// Whether the digits before a place are a number.
fn is_number_before(bytes: &[u8], end: usize) -> bool {
    let mut rest = between(bytes, 0, end);
    let mut some = false;
    for _ in 0..end {
        let Some((b, before)) = rest.split_last() else {
            return some;
        };
        if !b.is_ascii_digit() {
            return some && !b.is_ascii_alphabetic() && *b != b'_';
        }
        some = true;
        rest = before;
    }
    some
}

/// Whether a decimal goes on at this place, whose dot ended the piece before.
pub fn is_behind_decimal(bytes: &[u8], at: usize) -> bool {
    if at < 2 || !byte_at(bytes, at).is_ascii_digit() || byte_at(bytes, at - 1) != b'.' {
        return false;
    }
    is_number_before(bytes, at - 1)
}

/// The reasons for the refusal of a piece.
fn reasons_for(
    alloc: Global,
    bytes: &[u8],
    text: &[u8],
    number: u64,
    why: Refusal,
    toks: &[Tok],
) -> Result<Seq<Reason>, Starved> {
    let marks = marks_of(alloc, text, toks)?;
    let at = match marks.first() {
        Some(m) => m.at,
        None => 0,
    };
    let piece = Piece {
        bytes: text,
        source: bytes,
        marks: marks.as_slice(),
        world: false,
        used: &[],
        number,
        behind_decimal: is_behind_decimal(text, at),
    };
    match why {
        Refusal::Clause => reasons(alloc, &piece),
        Refusal::Limit => {
            let mut all = Seq::new(alloc);
            all.push(limit_reason(alloc, &piece)?)?;
            Ok(all)
        }
    }
}

/// The findings of a piece of this text, the one of this number, where the reader refuses it. Lines are shown as they stand in the bytes.
#[tactic(auto, using(crate::proofs::Told::is_first))]
fn piece_told(
    alloc: Global,
    bytes: &[u8],
    text: &[u8],
    number: u64,
    toks: &[Tok],
) -> Result<Option<Findings>, Starved>
    ensures { IfOk result (spec.TellsPiece (is_ok (answering.piece_at number toks.now)) toks.now) }
{
    let Some(why) = why_refused(alloc, number, toks)? else {
        return Ok(None);
    };
    let [first, ..] = toks else {
        return Err(Starved);
    };
    let all = reasons_for(alloc, bytes, text, number, why, toks)?;
    let found = findings_in(alloc, bytes, toks, all.as_slice())?;
    drop(all);
    Ok(Some(some_of(alloc, first, toks, found)?))
}

/// The findings of all pieces.
#[tactic(auto, using(crate::proofs::Told::none, crate::proofs::Told::skip, crate::proofs::Told::add, crate::proofs::Told::ends, crate::proofs::Told::shorter))]
fn pieces_told(alloc: Global, bytes: &[u8], toks: &[Tok]) -> Result<Findings, Starved>
    ensures { IfOk result (AreTold (spec.refused 1 (pieces is_end toks.now))) }
{
    let mut all = Seq::new(alloc);
    let mut number: u64 = 1;
    let mut rest = toks;
    'pieces: while let Some((piece, behind)) = cut::<ClausePieces>(rest) {
        if let Some(found) = piece_told(alloc, bytes, bytes, number, piece)? {
            all.append_all(found)?;
        }
        number += 1;
        rest = behind;
    }
    Ok(all)
}

/// The findings of the pieces of mended bytes in which no fault lies that is not mended.
fn clean_told(alloc: Global, bytes: &[u8], m: &Mended) -> Result<Findings, Starved> {
    let mut all = Seq::new(alloc);
    let Some(toks) = &m.toks else {
        return Ok(all);
    };
    let text = m.text.as_slice();
    let mut number: u64 = 1;
    let mut from = 0;
    let mut rest = toks.as_slice();
    for _ in 0..toks.len() {
        let Some((piece, behind)) = cut::<ClausePieces>(rest) else {
            return Ok(all);
        };
        let end = piece_end(text, piece);
        if !is_dirty(
            m.faults.as_slice(),
            from,
            end,
            behind.is_empty() && !is_ended(piece),
        ) {
            if let Some(found) = piece_told(alloc, bytes, text, number, piece)? {
                all.append_all(found)?;
            }
        }
        from = end;
        number = number.saturating_add(1);
        rest = behind;
    }
    Ok(all)
}

/// What is told of bytes with this first fault.
fn spoilt_told(alloc: Global, bytes: &[u8], why: LexFault) -> Result<Findings, Starved>
    requires { IsFirstFault bytes.now why }
    ensures { IfOk result (TellsByte bytes.now) }
{
    let m = mended_of(alloc, bytes)?;
    let found = clean_told(alloc, bytes, &m)?;
    let told = with_bytes(alloc, bytes, why, m.faults.as_slice(), found);
    drop(m);
    told
}

/// What is told of the source of an agent.
pub fn agent_told(alloc: Global, bytes: &[u8]) -> Result<Findings, Starved>
    ensures { IfOk result (TellsAgent bytes.now) }
{
    match tokens(alloc, bytes) {
        Ok(toks) => match pieces_told(alloc, bytes, toks.as_slice()) {
            Ok(told) => {
                drop(toks);
                Ok(told)
            }
            Err(_) => Err(Starved),
        },
        Err(LexFault::Memory) => Err(Starved),
        Err(why) => spoilt_told(alloc, bytes, why),
    }
}
