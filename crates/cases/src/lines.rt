//! The lines of a file of cases, and what stands under a key.

ghost use Rattle.std.specs.Prelude.{◌≡◌, ◌==◌, ◌<◌, length};

use crate::form::{CaseEntry, CaseLine, Desk, Section};
use asl_term::sequence::Starved;

/// The words that begin a line of a text.
const PIECES: [&str; 4] = ["|", "+", "!", "*"];

/// The keys of a case that take a text.
const TEXT_KEYS: [&str; 14] = [
    "source", "world", "schedule", "file", "disk", "words", "project", "fault", "output", "trace",
    "facts", "has", "old", "kept",
];

/// The keys of a case that take a number, numbers or a word.
const PLAIN_KEYS: [&str; 17] = [
    "cut",
    "workers",
    "cycles",
    "lead",
    "depth",
    "tries",
    "level",
    "shelf_fails",
    "sink_fails",
    "disk_fails",
    "crashes",
    "short",
    "room",
    "status",
    "turns",
    "wrote",
    "differs",
];

const REFUSED_KEYS: [&str; 2] = ["text", "message"];

/// Whether a byte is a line feed, which ends a line.
pub fn is_feed(byte: &u8) -> bool
    ensures { result ≡ (byte.now == 10) }
{
    *byte == b'\n'
}

/// Whether a byte is a space. A tab is none.
pub fn is_blank(byte: &u8) -> bool
    ensures { result ≡ (byte.now == 32) }
{
    *byte == b' '
}

/// A line by its first word.
pub fn line_of(number: u64, bytes: &[u8]) -> CaseLine<'_> {
    for at in 0..bytes.len() {
        if bytes[at] == b' ' {
            return CaseLine {
                number,
                word: &bytes[..at],
                rest: &bytes[at + 1..],
            };
        }
    }
    CaseLine {
        number,
        word: bytes,
        rest: &[],
    }
}

/// The lines that are neither empty nor comments.
pub fn read_lines<'a>(text: &'a [u8], lines: &mut Vec<CaseLine<'a>>) -> Result<(), Starved> {
    let mut number = 0u64;
    for bytes in text.split(is_feed) {
        number = number.saturating_add(1);
        if !bytes.is_empty() && !bytes.starts_with(b"#") {
            lines.push(line_of(number, bytes))?;
        }
    }
    Ok(())
}

fn is_among(word: &[u8], words: &[&str]) -> bool {
    for known in words {
        if known.as_bytes() == word {
            return true;
        }
    }
    false
}

/// Whether a line begins a case or a refused file.
pub fn is_head(line: &CaseLine<'_>) -> bool {
    line.word == b"case".as_slice() || line.word == b"refused".as_slice()
}

fn is_key(line: &CaseLine<'_>) -> bool {
    !is_among(line.word, &PIECES)
}

/// These lines up to the first that begins a case or a refused file.
pub fn before_head<'a>(lines: &'a [CaseLine<'a>]) -> &'a [CaseLine<'a>] {
    for at in 0..lines.len() {
        if is_head(&lines[at]) {
            return &lines[..at];
        }
    }
    lines
}

/// These lines up to the first that begins with a key.
fn before_key<'a>(lines: &'a [CaseLine<'a>]) -> &'a [CaseLine<'a>] {
    for at in 0..lines.len() {
        if is_key(&lines[at]) {
            return &lines[..at];
        }
    }
    lines
}

/// What stands under the key of the line at this place.
pub fn entry_at<'a>(lines: &'a [CaseLine<'a>], at: usize) -> CaseEntry<'a>
    requires { at < length lines.now }
{
    CaseEntry {
        number: lines[at].number,
        rest: lines[at].rest,
        pieces: before_key(&lines[at + 1..]),
    }
}

/// The section that the line at this place begins.
pub fn section_at<'a>(lines: &'a [CaseLine<'a>], at: usize) -> Section<'a>
    requires { at < length lines.now }
{
    Section {
        number: lines[at].number,
        is_case: lines[at].word == b"case".as_slice(),
        name: lines[at].rest,
        body: before_head(&lines[at + 1..]),
    }
}

/// What stands first under this key.
pub fn find<'a>(section: &Section<'a>, key: &str) -> Option<CaseEntry<'a>> {
    let lines = section.body;
    for at in 0..lines.len() {
        if lines[at].word == key.as_bytes() {
            return Some(entry_at(lines, at));
        }
    }
    None
}

/// Whether a word begins one of these lines.
pub fn has_word(lines: &[CaseLine<'_>], word: &[u8]) -> bool {
    for line in lines {
        if line.word == word {
            return true;
        }
    }
    false
}

/// The keys that name a file, each of which may stand more than once.
const FILE_KEYS: [&str; 3] = ["file", "disk", "kept"];

/// Refuses a line that has no known key and is no part of a text, and a key that stands twice.
fn check_lines(lines: &[CaseLine<'_>], texts: &[&str], plain: &[&str], desk: &mut Desk) {
    let mut takes_text = false;
    for at in 0..lines.len() {
        let line = lines[at];
        if is_key(&line) {
            takes_text = is_among(line.word, texts);
            if !takes_text && !is_among(line.word, plain) {
                desk.refuse(line.number, "unknown key");
            }
            let is_file = is_among(line.word, &FILE_KEYS);
            if !is_file && has_word(&lines[..at], line.word) {
                desk.refuse(line.number, "this key stands twice");
            }
        } else if !takes_text {
            desk.refuse(line.number, "no text stands here");
        }
    }
}

/// Refuses what has no known key, or one twice, in a case or in a refused file.
pub fn check_section(section: &Section<'_>, desk: &mut Desk) {
    if section.is_case {
        check_lines(section.body, &TEXT_KEYS, &PLAIN_KEYS, desk);
    } else {
        check_lines(section.body, &REFUSED_KEYS, &[], desk);
    }
}

/// Refuses a name that is empty or stands twice.
pub fn check_name(lines: &[CaseLine<'_>], head: &CaseLine<'_>, desk: &mut Desk) {
    if head.rest.is_empty() {
        desk.refuse(head.number, "it has no name");
    }
    for line in lines {
        if is_head(line) && line.rest == head.rest {
            desk.refuse(head.number, "this name stands twice");
        }
    }
}
