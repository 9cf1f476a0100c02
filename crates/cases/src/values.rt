//! Numbers and texts under a key.

ghost use Rattle.std.specs.Prelude.{◌≤◌};

use crate::form::{CaseEntry, CaseLine, Desk, Section};
use crate::lines::{find, is_blank};
use asl_term::syntax::{Numbers, Text};

/// The number that these digits write.
fn number_of(digits: &[u8]) -> Option<u64> {
    if digits.starts_with(b"+") {
        return None;
    }
    match std::str::from_utf8(digits) {
        Ok(text) => text.parse::<u64>().ok(),
        Err(_) => None,
    }
}

/// The number that stands here, within its limits; the lower one where there is none.
pub fn number(line: u64, digits: &[u8], low: u64, high: u64, desk: &mut Desk) -> u64
    requires { low ≤ high }
    ensures least { low ≤ result }
    ensures most { result ≤ high }
{
    match number_of(digits) {
        Some(n) if low <= n && n <= high => n,
        _ => {
            desk.refuse(line, "no number within its limits");
            low
        }
    }
}

/// The number under this key, or another where there is none.
pub fn number_at(
    section: &Section<'_>,
    key: &str,
    low: u64,
    high: u64,
    default: u64,
    desk: &mut Desk,
) -> u64
    requires low { low ≤ default }
    requires high { default ≤ high }
    ensures least { low ≤ result }
    ensures most { result ≤ high }
{
    match find(section, key) {
        None => default,
        Some(entry) => number(entry.number, entry.rest, low, high, desk),
    }
}

/// The numbers under this key, if any, with a blank between two.
pub fn numbers_into(
    section: &Section<'_>,
    key: &str,
    high: u64,
    numbers: &mut Numbers,
    desk: &mut Desk,
)
    requires { 1 ≤ high }
{
    if let Some(entry) = find(section, key) {
        for digits in entry.rest.split(is_blank) {
            let n = number(entry.number, digits, 1, high, desk);
            desk.check(numbers.push(n));
        }
    }
}

/// Bytes by their numbers.
fn put_bytes(piece: &CaseLine<'_>, out: &mut Text, desk: &mut Desk) {
    for digits in piece.rest.split(is_blank) {
        let byte = number(piece.number, digits, 0, 255, desk) as u8;
        desk.check(out.push(byte));
    }
}

/// What a line says, so many times.
fn put_times(piece: &CaseLine<'_>, times: u64, out: &mut Text, desk: &mut Desk) {
    for _ in 0..times {
        if piece.word == b"!".as_slice() {
            put_bytes(piece, out, desk);
        } else {
            desk.put(piece.rest, out);
        }
        if piece.word == b"|".as_slice() {
            desk.put(b"\n", out);
        }
    }
}

/// The lines of a text. One that tells how often is for the next one.
pub fn put_pieces(pieces: &[CaseLine<'_>], out: &mut Text, desk: &mut Desk) {
    let mut times = 1;
    for piece in pieces {
        if piece.word == b"*".as_slice() {
            if times > 1 {
                desk.refuse(piece.number, "it stands behind another");
            }
            times = number(piece.number, piece.rest, 2, 10_000_000, desk);
        } else {
            put_times(piece, times, out, desk);
            times = 1;
        }
    }
    match pieces.last() {
        Some(piece) if times > 1 => desk.refuse(piece.number, "nothing stands behind it"),
        _ => {}
    }
}

/// A text: what stands in the line of its key, and the lines behind it.
pub fn text_into(entry: &CaseEntry<'_>, out: &mut Text, desk: &mut Desk) {
    desk.put(entry.rest, out);
    put_pieces(entry.pieces, out, desk);
}

/// A text of lines, none of them in the line of its key.
pub fn lines_into(entry: &CaseEntry<'_>, out: &mut Text, desk: &mut Desk) {
    if !entry.rest.is_empty() {
        desk.refuse(entry.number, "the lines stand behind this one");
    }
    put_pieces(entry.pieces, out, desk);
}

/// The text under this key, if any.
pub fn text_at(section: &Section<'_>, key: &str, out: &mut Text, desk: &mut Desk) {
    if let Some(entry) = find(section, key) {
        text_into(&entry, out, desk);
    }
}
