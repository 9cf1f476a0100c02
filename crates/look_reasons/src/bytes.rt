//! The faults of bytes, one behind the other: after each, the bytes are taken for others of the same length, and the lexer is asked again.

use crate::mark::between;
use asl_lexer::lexing::tokens;
use asl_lexer::token::{LexFault, Toks};
use asl_term::copying::text_of;
use asl_term::sequence::Starved;
use asl_term::syntax::Text;
use std::alloc::Global;

/// What is at fault.
#[derive(Clone, Copy, PartialEq, Eq)]
pub enum Flaw {
    Byte,
    /// A byte in a string.
    Inside,
    String,
    Comment,
    Number,
}

/// A fault of bytes, from one place to another. Where it is mended, what the bytes are taken for is what is meant.
#[derive(Clone, Copy)]
pub struct Spoilt {
    pub flaw: Flaw,
    pub at: usize,
    pub end: usize,
    pub mended: bool,
}

/// The faults of bytes, and what the bytes are taken for, with their tokens; no tokens where there are too many faults.
pub struct Mended {
    pub faults: Vec<Spoilt>,
    pub text: Text,
    pub toks: Option<Toks>,
}

/// By hand, so that who lets one go proves nothing of its parts.
impl Drop for Mended {
    fn drop(self) {
        let Mended {
            faults: _,
            text: _,
            toks: _,
        } = self;
    }
}

impl Mended {
    /// What the bytes are taken for.
    pub fn into_text(self) -> Text {
        let Mended {
            faults: _,
            text,
            toks: _,
        } = self;
        text
    }
}

/// How many faults are looked for.
const MOST_FAULTS: usize = 200;

pub const MARK: &[u8] = b"\xef\xbb\xbf";

const OPEN_QUOTE: &[u8] = b"\xe2\x80\x9c";

const CLOSE_QUOTE: &[u8] = b"\xe2\x80\x9d";

/// Bytes that are taken together.
#[derive(Clone, Copy)]
enum Run {
    Line,
    Digits,
    /// Bytes of no ASCII.
    Letters,
}

/// The place behind a run of bytes.
fn run_end(bytes: &[u8], from: usize, run: Run) -> usize {
    let mut at = from;
    for b in between(bytes, from, bytes.len()) {
        let within = match run {
            Run::Line => *b != b'\n',
            Run::Digits => b.is_ascii_digit(),
            Run::Letters => *b >= 128,
        };
        if !within {
            return at;
        }
        at = at.saturating_add(1);
    }
    at
}

pub fn line_end(bytes: &[u8], from: usize) -> usize {
    run_end(bytes, from, Run::Line)
}

pub fn byte_at(bytes: &[u8], at: usize) -> u8 {
    match bytes.get(at) {
        Some(b) => *b,
        None => 0,
    }
}

pub fn begins(bytes: &[u8], at: usize, with: &[u8]) -> bool {
    between(bytes, at, bytes.len()).starts_with(with)
}

fn is_quote(bytes: &[u8], at: usize) -> bool {
    begins(bytes, at, OPEN_QUOTE) || begins(bytes, at, CLOSE_QUOTE)
}

/// The place behind the first such bytes in the line, where they are there.
fn behind_in_line(bytes: &[u8], from: usize, with: &[u8]) -> Option<usize> {
    let end = line_end(bytes, from);
    for at in from..end {
        if begins(bytes, at, with) {
            return Some(at.saturating_add(with.len()).min(bytes.len()));
        }
    }
    None
}

/// The place behind the first of these bytes in the line that are there; with none of them, the place itself.
fn quote_end(bytes: &[u8], inside: usize, closing: &[&[u8]]) -> usize {
    for with in closing {
        if let Some(end) = behind_in_line(bytes, inside, *with) {
            return end;
        }
    }
    inside
}

/// Where the bytes end that a byte in no token belongs to.
fn byte_end(bytes: &[u8], at: usize) -> usize {
    let next = at.saturating_add(1);
    let behind = at.saturating_add(3);
    let byte = byte_at(bytes, at);
    if begins(bytes, at, MARK) {
        behind
    } else if byte == b'\'' {
        quote_end(bytes, next, &[b"'"])
    } else if byte == b'%' {
        line_end(bytes, at)
    } else if is_quote(bytes, at) {
        quote_end(bytes, behind, &[CLOSE_QUOTE, OPEN_QUOTE, b"\""])
    } else if byte >= 128 {
        run_end(bytes, next, Run::Letters)
    } else {
        next
    }
}

/// Whether the bytes are a string in other quotes, without which it is taken for a string.
fn is_quoted(raw: &[u8]) -> bool {
    let last = byte_at(raw, raw.len().saturating_sub(1));
    let closed = last == b'\'' || last == b'"' || last == 0x9c || last == 0x9d;
    let least = if byte_at(raw, 0) == b'\'' { 1 } else { 3 };
    let opened = least == 1 || is_quote(raw, 0);
    opened && closed && raw.len() > least
}

/// What bytes are taken for.
#[derive(Clone, Copy)]
enum Fill {
    Byte(u8),
    /// A string.
    String,
    /// Blanks for all but line feeds.
    Blank,
}

/// What bytes outside strings are taken for, and whether that is meant.
fn meant(raw: &[u8], behind: u8) -> (Fill, bool) {
    if raw == b"/".as_slice() {
        (Fill::Byte(b'*'), true)
    } else if raw == b"\\".as_slice() && behind == b'=' {
        (Fill::Byte(b'='), true)
    } else if is_quoted(raw) {
        (Fill::String, true)
    } else {
        (Fill::Byte(b' '), byte_at(raw, 0) == b'%' || raw == MARK)
    }
}

/// A fault, and what stands in its place.
type Patch = (Spoilt, Fill);

fn byte_patch(alloc: Global, bytes: &[u8], at: usize) -> Result<Patch, Starved> {
    let end = byte_end(bytes, at).min(bytes.len());
    let (fill, mended) = meant(between(bytes, at, end), byte_at(bytes, end));
    let fault = Spoilt {
        flaw: Flaw::Byte,
        at,
        end,
        mended,
    };
    match tokens(alloc, between(bytes, 0, at)) {
        Ok(_) => Ok((fault, fill)),
        Err(LexFault::Memory) => Err(Starved),
        Err(_) => {
            let inside = Spoilt {
                flaw: Flaw::Inside,
                at,
                end: at.saturating_add(1),
                mended: true,
            };
            Ok((inside, Fill::Byte(b'x')))
        }
    }
}

fn patch_for(alloc: Global, bytes: &[u8], why: LexFault) -> Result<Patch, Starved> {
    let (flaw, at, fill) = match why {
        LexFault::Memory => return Err(Starved),
        LexFault::BadByte(at) => return byte_patch(alloc, bytes, at as usize),
        LexFault::OpenString(at) => (Flaw::String, at, Fill::Byte(b' ')),
        LexFault::OpenComment(at) => (Flaw::Comment, at, Fill::Blank),
        LexFault::NumberRange(at) => (Flaw::Number, at, Fill::Byte(b'0')),
    };
    let at = at as usize;
    let end = match flaw {
        Flaw::String => line_end(bytes, at),
        Flaw::Number => run_end(bytes, at, Run::Digits),
        _ => bytes.len(),
    };
    let fault = Spoilt {
        flaw,
        at,
        end,
        mended: flaw == Flaw::Number,
    };
    Ok((fault, fill))
}

/// Puts in the place of a fault what stands for it.
fn patch(text: &mut Text, fault: Spoilt, fill: Fill) {
    let last = fault.end.saturating_sub(1);
    for at in fault.at..fault.end {
        if (at as u64) < text.len() {
            let byte = text.at_mut(at as u64);
            let edge = at == fault.at || at == last;
            *byte = match fill {
                Fill::Byte(b) => b,
                Fill::String => if edge { b'"' } else { b'x' },
                Fill::Blank => if *byte == b'\n' { b'\n' } else { b' ' },
            };
        }
    }
}

/// Takes the first fault that is left for what stands in its place, where there is one. Else the bytes are tokens.
fn mend_first(alloc: Global, m: &mut Mended) -> Result<(), Starved> {
    match tokens(alloc, m.text.as_slice()) {
        Ok(toks) => m.toks = Some(toks),
        Err(why) => {
            let (fault, fill) = patch_for(alloc, m.text.as_slice(), why)?;
            m.faults.push(fault)?;
            patch(&mut m.text, fault, fill);
        }
    }
    Ok(())
}

/// The faults of bytes, in order.
pub fn mended_of(alloc: Global, bytes: &[u8]) -> Result<Mended, Starved> {
    let mut m = Mended {
        faults: Vec::new(alloc),
        text: text_of(alloc, bytes)?,
        toks: None,
    };
    for _ in 0..MOST_FAULTS {
        mend_first(alloc, &mut m)?;
        if m.toks.is_some() {
            return Ok(m);
        }
    }
    Ok(m)
}
