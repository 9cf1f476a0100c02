//! What is told of faults of bytes.

ghost use Rattle.std.specs.Prelude.{IfOk};
ghost use Rattle.asl_lexer.specs.Lexing.{IsFirstFault};
ghost use Rattle.look_pieces.specs.Telling.{IsAtByte, TellsByte};

use crate::findings::{Finding, Findings, about};
use crate::places::{fault_place, place_in};
use asl_lexer::scan::token_at;
use asl_lexer::token::{LexFault, Tok, TokKind};
use asl_term::sequence::{Seq, Starved};
use look_reasons::bytes::{Flaw, Spoilt};
use look_reasons::flaws::byte_reason;
use look_reasons::mark::between;
use std::alloc::Global;

/// The place behind a piece of a text.
pub fn piece_end(text: &[u8], toks: &[Tok]) -> usize {
    let Some(last) = toks.last() else {
        return 0;
    };
    let at = last.at as usize;
    match token_at(between(text, at, text.len())) {
        Some((_, len)) => at.saturating_add(len),
        None => at,
    }
}

/// Whether a piece has its dot.
pub fn is_ended(toks: &[Tok]) -> bool {
    match toks.last() {
        Some(t) => matches!(t.kind, TokKind::End),
        None => true,
    }
}

/// Whether a fault that is not mended lies in these bytes, or behind them where all of those count.
pub fn is_dirty(faults: &[Spoilt], from: usize, to: usize, open: bool) -> bool {
    for x in faults {
        let last = x.end.saturating_sub(1);
        let begins = from <= x.at && x.at < to;
        let lies = begins || (from <= last && last < to) || (open && to <= x.at);
        if !x.mended && lies {
            return true;
        }
    }
    false
}

/// A finding for a fault of bytes, at this byte.
fn byte_found(alloc: Global, bytes: &[u8], x: &Spoilt, at: u64) -> Result<Finding, Starved>
    ensures { IfOk result (IsAtByte bytes.now at) }
{
    let place = place_in(bytes, at);
    let r = byte_reason(alloc, bytes, x)?;
    let about = about(alloc, bytes, place.line, place.column, &r);
    drop(r);
    Ok(Finding {
        line: place.line,
        column: place.column,
        about: about?,
    })
}

/// By line and column.
fn order_of(f: &Finding) -> u64 {
    f.line
        .saturating_mul(4_294_967_296)
        .saturating_add(f.column)
}

/// The findings before a place, and those behind.
struct Sides {
    before: Findings,
    behind: Findings,
}

/// Findings by their places, on the two sides of one.
fn sides_of(alloc: Global, at: &Finding, others: Vec<Finding>) -> Result<Sides, Starved> {
    let mut others = others;
    others.sort_by_key(|f| order_of(f))?;
    let place = order_of(at);
    let mut before = Seq::new(alloc);
    let mut behind = Seq::new(alloc);
    for f in others {
        if order_of(&f) < place {
            before.push(f)?;
        } else {
            behind.push(f)?;
        }
    }
    Ok(Sides { before, behind })
}

/// The findings of all faults but the first, and these.
fn others_of(
    alloc: Global,
    bytes: &[u8],
    faults: &[Spoilt],
    found: Findings,
) -> Result<Vec<Finding>, Starved> {
    let mut all = Seq::new(alloc);
    let mut spent = false;
    for (k, x) in faults.iter().enumerate() {
        if k > 0 {
            match byte_found(alloc, bytes, x, x.at as u64) {
                Ok(f) => spent = all.push(f).is_err() || spent,
                Err(_) => spent = true,
            }
        }
    }
    if spent || all.append_all(found).is_err() {
        drop(all);
        return Err(Starved);
    }
    Ok(all.into_vec())
}

/// The first of the faults, at its place.
fn first_of(faults: &[Spoilt], at: u64) -> Spoilt {
    match faults {
        [x, ..] => *x,
        [] => Spoilt {
            flaw: Flaw::Byte,
            at: at as usize,
            end: (at as usize).saturating_add(1),
            mended: false,
        },
    }
}

/// What is told of bytes with these faults and findings, where the first fault is this.
#[tactic(auto, using(crate::proofs::Bytes::told))]
pub fn with_bytes(
    alloc: Global,
    bytes: &[u8],
    why: LexFault,
    faults: &[Spoilt],
    found: Findings,
) -> Result<Findings, Starved>
    requires { IsFirstFault bytes.now why }
    ensures { IfOk result (TellsByte bytes.now) }
{
    let place = fault_place(why);
    let at = byte_found(alloc, bytes, &first_of(faults, place), place)?;
    let others = others_of(alloc, bytes, faults, found)?;
    let Sides { before, behind } = sides_of(alloc, &at, others)?;
    let mut all = before;
    all.push(at)?;
    all.append_all(behind)?;
    Ok(all)
}
