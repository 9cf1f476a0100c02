//! Lines of sources as they are shown: as UTF-8, without a control byte.

use crate::bytes::{MARK, byte_at, line_end};
use crate::mark::between;
use crate::phrase::{Phrase, put_phrases};
use asl_term::sequence::{Seq, Starved};
use asl_term::syntax::Text;
use std::alloc::Global;

/// The most signs of a line that are shown.
const WIDE: usize = 120;

/// How many signs before the place stay of a long line, and at most how many of what is marked.
const BEFORE: usize = 60;

const KEPT: usize = 57;

const MARKED: usize = 40;

/// How many bytes the sign at the front has, as UTF-8; none where they are no UTF-8.
fn sign_len(bytes: &[u8]) -> usize {
    for len in 1..bytes.len().min(4).saturating_add(1) {
        if std::str::from_utf8(between(bytes, 0, len)).is_ok() {
            return len;
        }
    }
    0
}

/// Whether a sign is no control sign.
fn is_shown(sign: &[u8]) -> bool {
    let first = byte_at(sign, 0);
    if sign.len() == 1 {
        first == b'\t' || (first >= b' ' && first != 127)
    } else {
        (first != 0xc2 || byte_at(sign, 1) >= 0xa0) && sign != MARK
    }
}

const DIGITS: &[u8] = b"0123456789abcdef";

/// Puts bytes of a source as they are shown: a byte that is no UTF-8 as `\xNN`, a control sign as `?`.
pub fn put_shown(bytes: &[u8], out: &mut Text) -> Result<(), Starved> {
    let mut behind = 0;
    for (at, byte) in bytes.iter().enumerate() {
        if at < behind {
            continue;
        }
        let len = sign_len(between(bytes, at, bytes.len()));
        behind = at.saturating_add(len);
        let sign = between(bytes, at, behind);
        let high = byte_at(DIGITS, (*byte / 16) as usize);
        let low = byte_at(DIGITS, (*byte % 16) as usize);
        let escape = [b'\\', b'x', high, low];
        let shown: &[u8] = if len == 0 {
            &escape
        } else if is_shown(sign) {
            sign
        } else {
            b"?"
        };
        out.append(shown)?;
    }
    Ok(())
}

/// Bytes of a source as they are shown.
pub fn shown(alloc: Global, bytes: &[u8]) -> Result<Text, Starved> {
    let mut out = Seq::new(alloc);
    put_shown(bytes, &mut out)?;
    Ok(out)
}

/// Bytes without these at the end.
fn without<'a>(bytes: &'a [u8], ends: &[u8]) -> &'a [u8] {
    let mut end = 0;
    for (at, byte) in bytes.iter().enumerate() {
        if !ends.contains(byte) {
            end = at.saturating_add(1);
        }
    }
    between(bytes, 0, end)
}

/// Whether a byte of UTF-8 is the first of a sign.
fn is_first(byte: u8) -> bool {
    byte < 128 || byte >= 192
}

/// How many signs stand at the front of UTF-8, at most so many, and the place behind them.
fn signs_in(text: &[u8], most: usize) -> (usize, usize) {
    let mut count: usize = 0;
    for (at, byte) in text.iter().enumerate() {
        if is_first(*byte) {
            if count == most {
                return (count, at);
            }
            count = count.saturating_add(1);
        }
    }
    (count, text.len())
}

/// The parts of a line that is shown, of which the bytes from one place to another are marked: what stands for what is left out of a long line, what
/// stands before the place, what is marked, what is behind, and what stands for what is left out there.
fn parts_of(text: &[u8], from: usize, to: usize) -> [&[u8]; 5] {
    let head = between(text, 0, from);
    let marked = between(text, from, to);
    let tail = between(text, to, text.len());
    if signs_in(text, WIDE).1 == text.len() {
        return [b"", head, marked, tail, b""];
    }
    let (count, _) = signs_in(head, head.len());
    let (most, marked_end) = signs_in(marked, MARKED);
    let wide = count.min(BEFORE).saturating_add(most);
    let (_, rest) = signs_in(tail, WIDE.saturating_sub(wide));
    let (_, left) = signs_in(head, count.saturating_sub(KEPT));
    let long = count > BEFORE;
    [
        if long { b".. " } else { b"" },
        if long {
            between(head, left, head.len())
        } else {
            head
        },
        between(marked, 0, marked_end),
        between(tail, 0, rest),
        b" ..",
    ]
}

/// The blanks before a number, with which it stands in five columns at least.
fn blanks_before(n: u64) -> &'static [u8] {
    if n < 10 {
        b"    "
    } else if n < 100 {
        b"   "
    } else if n < 1000 {
        b"  "
    } else if n < 10_000 {
        b" "
    } else {
        b""
    }
}

/// Puts a line with its number.
fn put_line(alloc: Global, number: u64, parts: [&[u8]; 5], out: &mut Text) -> Result<(), Starved> {
    let [before, head, marked, tail, behind] = parts;
    let phrases = [
        Phrase::Words(blanks_before(number)),
        Phrase::Number(number),
        Phrase::Words(b" | "),
        Phrase::Words(before),
        Phrase::Words(head),
        Phrase::Words(marked),
        Phrase::Words(tail),
        Phrase::Words(behind),
    ];
    put_phrases(alloc, &phrases, out)?;
    let len = without(out.as_slice(), b" \t").len();
    out.truncate(len as u64);
    Ok(())
}

/// Puts carets below what is marked. The tabs before it stay, and blanks stand for all other signs.
fn put_carets(parts: [&[u8]; 5], out: &mut Text) -> Result<(), Starved> {
    let [before, head, marked, _, _] = parts;
    let mut spent = out.append(b"\n      | ").is_err();
    for part in &[before, head] {
        for byte in *part {
            if is_first(*byte) {
                let below = if *byte == b'\t' { b'\t' } else { b' ' };
                spent = spent || out.push(below).is_err();
            }
        }
    }
    let (count, _) = signs_in(marked, marked.len());
    for _ in 0..count.max(1) {
        spent = spent || out.push(b'^').is_err();
    }
    if spent || out.push(b'\n').is_err() {
        Err(Starved)
    } else {
        Ok(())
    }
}

/// Which bytes are marked: they stand in this line and begin in this column.
#[derive(Clone, Copy)]
pub struct Marked {
    pub line: u64,
    pub column: u64,
    pub at: usize,
    pub end: usize,
}

/// Puts the line of a source with its number, and carets below the bytes that are marked.
pub fn put_excerpt(alloc: Global, bytes: &[u8], m: Marked, out: &mut Text) -> Result<(), Starved> {
    let before = (m.column as usize).saturating_sub(1);
    let start = m.at.saturating_sub(before);
    let line = without(between(bytes, start, line_end(bytes, start)), b"\r");
    let from = before.min(line.len());
    let len = m.end.saturating_sub(m.at).max(1);
    let to = from.saturating_add(len).min(line.len());
    let mut text = Seq::new(alloc);
    put_shown(between(line, 0, from), &mut text)?;
    let first = text.as_slice().len();
    put_shown(between(line, from, to), &mut text)?;
    let last = text.as_slice().len();
    put_shown(between(line, to, line.len()), &mut text)?;
    let parts = parts_of(text.as_slice(), first, last);
    put_line(alloc, m.line, parts, out)?;
    put_carets(parts, out)
}
