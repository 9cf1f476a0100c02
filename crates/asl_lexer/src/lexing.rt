//! All tokens of bytes, or the first fault.

ghost use Rattle.std.specs.Prelude.{◌≡◌, ◌+◌, ◌<◌, ◌≤◌, ◌^◌, length, drop, IfOk, IfErr};
ghost use Rattle.asl_lexer.specs.Lexing as spec;
ghost use Rattle.asl_lexer.specs.Lexing.{AreTokens, IsFault, OneAnswer};
ghost use Rattle.asl_lexer.specs.Scan as scan;

use crate::blanks::{Blank, blank_at};
use crate::scan::{token_at, value};
use crate::strings::{bad_at, content, is_closed};
use crate::token::{LexFault, Place, Tok, TokKind, Toks};
use asl_term::copying;
use asl_term::sequence::{Seq, Starved};
use asl_term::syntax::Text;
use std::alloc::Global;

fn moved(place: Place, text: &[u8]) -> Place
    requires at { place.at + length text.now < 2 ^ 64 }
    requires line { place.line + length text.now < 2 ^ 64 }
    requires column { place.column + length text.now < 2 ^ 64 }
    ensures value { result ≡ spec.after place text.now }
    ensures at { result.at ≡ place.at + length text.now }
    ensures line { result.line ≤ place.line + length text.now }
    ensures column { result.column ≤ place.column + length text.now }
{
    let mut here = place;
    let mut rest = text;
    'bytes: while let Some((b, next)) = rest.split_first() {
        if *b == b'\n' {
            here = Place {
                at: here.at + 1,
                line: here.line + 1,
                column: 1,
            };
        } else {
            here = Place {
                at: here.at + 1,
                line: here.line,
                column: here.column + 1,
            };
        }
        rest = next;
    }
    here
}

fn is_allowed(kind: TokKind, text: &[u8]) -> bool
    ensures { result ≡ spec.is_allowed kind text.now }
{
    match kind {
        TokKind::Number => value(text).is_some(),
        _ => true,
    }
}

fn behind_first(bytes: &[u8]) -> &[u8]
    ensures { result.now ≡ drop 1 bytes.now }
{
    match bytes {
        [_, rest @ ..] => rest,
        [] => bytes,
    }
}

fn text_of(alloc: Global, kind: TokKind, spelled: &[u8]) -> Result<Text, Starved>
    ensures { IfOk result (λ text. text ≡ spec.text_of kind spelled.now) }
{
    match kind {
        TokKind::Str => content(alloc, behind_first(spelled)),
        TokKind::Inner => copying::text_of(alloc, behind_first(spelled)),
        _ => copying::text_of(alloc, spelled),
    }
}

fn tok_of(alloc: Global, kind: TokKind, spelled: &[u8], place: Place) -> Result<Tok, Starved>
    ensures { IfOk result (λ t. t ≡ spec.tok_of kind spelled.now place) }
{
    Ok(Tok {
        kind,
        text: text_of(alloc, kind, spelled)?,
        at: place.at,
        line: place.line,
        column: place.column,
    })
}

fn string_fault(at: u64, text: &[u8]) -> LexFault
    requires { at + length text.now < 2 ^ 64 }
    ensures { result ≡ scan.string_fault at text.now }
{
    if !is_closed(text) {
        return LexFault::OpenString(at);
    }
    match bad_at(text) {
        Some(k) => LexFault::BadByte(at + k as u64),
        None => LexFault::OpenString(at),
    }
}

fn starts_quote(bytes: &[u8]) -> bool
    ensures { result ≡ scan.starts_quote bytes.now }
{
    match bytes {
        [b, ..] => *b == b'"',
        _ => false,
    }
}

/// Why no token stands at the front.
fn fault_of(at: u64, bytes: &[u8]) -> LexFault
    requires { at + length bytes.now < 2 ^ 64 }
    ensures { result ≡ scan.fault_of at bytes.now }
{
    if starts_quote(bytes) {
        return string_fault(at, behind_first(bytes));
    }
    LexFault::BadByte(at)
}

/// The tokens, in order, or the first fault.
#[tactic(auto, using(crate::proofs::Rest::turns))]
pub fn tokens(alloc: Global, bytes: &[u8]) -> Result<Toks, LexFault>
    ensures ok { IfOk result (AreTokens bytes.now) }
    ensures err { IfErr result (IsFault bytes.now) }
{
    let mut all = Seq::new(alloc);
    let mut place = Place {
        at: 0,
        line: 1,
        column: 1,
    };
    let mut rest = bytes;
    'tokens: while !rest.is_empty() {
        match blank_at(rest) {
            Blank::Bytes(len) => {
                let (text, behind) = rest.split_at(len);
                place = moved(place, text);
                rest = behind;
            }
            Blank::OpenComment => return Err(LexFault::OpenComment(place.at)),
            Blank::None => {
                let Some((kind, len)) = token_at(rest) else {
                    return Err(fault_of(place.at, rest));
                };
                let (text, behind) = rest.split_at(len);
                if !is_allowed(kind, text) {
                    return Err(LexFault::NumberRange(place.at));
                }
                all.push(tok_of(alloc, kind, text, place)?)?;
                place = moved(place, text);
                rest = behind;
            }
        }
    }
    Ok(all)
}

/// Bytes have one list of tokens or one fault, and not both.
pub fn one_answer()
    ensures { OneAnswer }
{}
