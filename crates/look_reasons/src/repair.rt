//! A fault taken for what is meant, where that is known: the reading goes on behind it.

use crate::mark::{Mark, is_any_sign, is_listed, is_sign, mark_at, spliced};
use crate::reading::{Halt, Reading};
use asl_lexer::token::{Sign, Word};
use asl_term::sequence::Starved;
use std::alloc::Global;

/// Tokens that are taken away from a place on, and up to two that stand there instead.
#[derive(Clone, Copy)]
struct Repair {
    at: usize,
    removed: usize,
    put: &'static [u8],
    behind: &'static [u8],
}

/// Without a label's annotations.
fn without_annotations(marks: &[Mark<'_>], here: Repair) -> Option<Repair> {
    for end in here.at..marks.len() {
        if is_sign(mark_at(marks, end).word, Sign::CloseSquare) {
            let removed = (end - here.at).saturating_add(1);
            return Some(Repair { removed, ..here });
        }
    }
    None
}

/// How many brackets are open behind a token where so many are before it.
fn depth_behind(word: Word, depth: i64) -> i64 {
    match word {
        Word::Sign(Sign::Open | Sign::OpenSquare | Sign::OpenBrace) => depth.saturating_add(1),
        Word::Sign(Sign::Close | Sign::CloseSquare | Sign::CloseBrace) => depth.saturating_sub(1),
        _ => depth,
    }
}

/// Whether an item ends before this token.
fn ends_item(word: Word) -> bool {
    matches!(word, Word::Sign(Sign::Semicolon) | Word::End)
}

/// Where a control item ends that begins at a place: at its `;` or dot, or behind its last brace.
fn control_end(marks: &[Mark<'_>], from: usize) -> Option<usize> {
    let mut depth: i64 = 0;
    for at in from..marks.len() {
        let word = mark_at(marks, at).word;
        depth = depth_behind(word, depth);
        if depth == 0 && ends_item(word) {
            return Some(at);
        }
        let next = at.saturating_add(1);
        let goes_on = is_listed(b"else elif", mark_at(marks, next).text);
        if depth == 0 && is_sign(word, Sign::CloseBrace) && !goes_on {
            return if next < marks.len() { Some(next) } else { None };
        }
    }
    None
}

/// The control item taken for one item.
fn without_control(marks: &[Mark<'_>], from: usize) -> Option<Repair> {
    let end = control_end(marks, from)?;
    let ends = ends_item(mark_at(marks, end).word);
    Some(Repair {
        at: from,
        removed: end.saturating_sub(from),
        put: b".fail",
        behind: if ends { b"" } else { b";" },
    })
}

/// Without a sign that follows another, or begins no relation here.
fn relation(marks: &[Mark<'_>], here: Repair) -> Option<Repair> {
    let m = mark_at(marks, here.at);
    let before = mark_at(marks, here.at.saturating_sub(1));
    let touched = here.at > 0 && is_any_sign(before.word) && before.end == m.at;
    if touched || is_sign(m.word, Sign::Bang) {
        Some(here)
    } else {
        None
    }
}

/// The item that stands for an internal action of so many tokens that is not there.
fn action(marks: &[Mark<'_>], item: Option<usize>, removed: usize, here: Repair) -> Option<Repair> {
    if item != Some(here.at) {
        return None;
    }
    let behind = mark_at(marks, here.at.saturating_add(removed));
    let put: &'static [u8] = if is_sign(behind.word, Sign::Open) {
        b".print"
    } else {
        b".fail"
    };
    Some(Repair {
        removed,
        put,
        ..here
    })
}

/// What is done for a fault.
#[derive(Clone, Copy)]
enum Way {
    None,
    /// Another token in its place.
    Put,
    Label,
    Control,
    Own,
    Inner,
    Relation,
}

/// At what a reading stopped: at anything, or at this.
#[derive(Clone, Copy)]
enum At {
    Any,
    Halt(Halt),
}

/// The word for a fault, at what the reading stopped, what is done, and what is put.
type WayRow = (&'static [u8], At, Way, &'static [u8]);

/// The first that fits counts.
const WAYS: [WayRow; 9] = [
    (b"arrow", At::Any, Way::Put, b"<-"),
    (b"comma", At::Halt(Halt::ItemEnd), Way::Put, b";"),
    (b"comma", At::Any, Way::Put, b"&"),
    (b"variable", At::Halt(Halt::Literal), Way::Put, b"p"),
    (b"label", At::Any, Way::Label, b""),
    (b"control", At::Any, Way::Control, b""),
    (b"own-inner", At::Any, Way::Own, b""),
    (b"no-inner", At::Any, Way::Inner, b""),
    (b"relation", At::Any, Way::Relation, b""),
];

fn way_rows() -> &'static [WayRow] {
    &WAYS
}

fn way_for(code: &[u8], halt: Option<Halt>) -> (Way, &'static [u8]) {
    for (name, at, way, put) in way_rows() {
        let fits = match *at {
            At::Any => true,
            At::Halt(at) => halt == Some(at),
        };
        if fits && *name == code {
            return (*way, *put);
        }
    }
    (Way::None, b"")
}

/// What the fault of this code is taken for.
fn repair_of(marks: &[Mark<'_>], r: &Reading<'_>, code: &[u8]) -> Option<Repair> {
    let (way, put) = way_for(code, r.halt);
    let here = Repair {
        at: r.at,
        removed: 1,
        put,
        behind: b"",
    };
    match way {
        Way::None => None,
        Way::Put => Some(here),
        Way::Label => without_annotations(marks, here),
        Way::Control => without_control(marks, r.item?),
        Way::Own => match mark_at(marks, r.at.saturating_add(1)).word {
            Word::Inner => action(marks, r.item, 2, here),
            _ => None,
        },
        Way::Inner => action(marks, r.item, 1, here),
        Way::Relation => relation(marks, here),
    }
}

/// The piece, which was read so far, with the fault of this code taken for what is meant.
pub fn repaired<'a>(
    alloc: Global,
    marks: &[Mark<'a>],
    r: &Reading<'_>,
    code: &[u8],
) -> Result<Option<Vec<Mark<'a>>>, Starved> {
    if r.at >= marks.len() {
        return Ok(None);
    }
    match repair_of(marks, r, code) {
        Some(x) => match spliced(alloc, marks, x.at, x.removed, &[x.put, x.behind]) {
            Ok(marks) => Ok(Some(marks)),
            Err(_) => Err(Starved),
        },
        None => Ok(None),
    }
}
