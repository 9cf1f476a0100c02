//! Where the parts of a clause stand among its tokens. The clause is one that is read.

use asl_lexer::token::{Sign, Word};
use look_reasons::mark::{Mark, cut_at, is_relation, is_sign};

/// A token that is looked for.
#[derive(Clone, Copy)]
pub enum Sought<'a> {
    /// One of this spelling.
    Text(&'a [u8]),
    Sign(Sign),
    /// The internal action of this name.
    Inner(&'a [u8]),
    /// An atom, as the functor of a literal is.
    Atom,
}

fn is_sought(m: &Mark<'_>, sought: Sought<'_>) -> bool {
    match sought {
        Sought::Text(text) => m.text == text,
        Sought::Sign(sign) => is_sign(m.word, sign),
        Sought::Inner(name) => {
            let (front, behind) = cut_at(m.text, b'.');
            front.is_empty() && behind == name
        }
        Sought::Atom => matches!(m.word, Word::Atom),
    }
}

/// The first place from this one on with such a token; behind all where there is none.
pub fn place_of(marks: &[Mark<'_>], from: usize, sought: Sought<'_>) -> usize {
    for k in from..marks.len() {
        if let Some(m) = marks.get(k) {
            if is_sought(m, sought) {
                return k;
            }
        }
    }
    marks.len()
}

/// What the token at a place is.
pub fn word_at(marks: &[Mark<'_>], at: usize) -> Word {
    match marks.get(at) {
        Some(m) => m.word,
        None => Word::Other,
    }
}

/// How many brackets are open behind a token, where so many are before it.
fn depth_behind(depth: u64, word: Word) -> u64 {
    match word {
        Word::Sign(Sign::Open | Sign::OpenSquare) => depth.saturating_add(1),
        Word::Sign(Sign::Close | Sign::CloseSquare) => depth.saturating_sub(1),
        _ => depth,
    }
}

/// The place behind the brackets that open here; the same place where none do.
pub fn behind_brackets(marks: &[Mark<'_>], at: usize) -> usize {
    let mut depth: u64 = 0;
    for k in at..marks.len() {
        depth = depth_behind(depth, word_at(marks, k));
        if depth == 0 {
            return if k == at { k } else { k.saturating_add(1) };
        }
    }
    marks.len()
}

/// The place behind a literal whose functor stands here: behind its arguments and its annotations.
pub fn behind_literal(marks: &[Mark<'_>], functor: usize) -> usize {
    behind_brackets(marks, behind_brackets(marks, functor.saturating_add(1)))
}

/// Where an argument begins between the brackets that open here, the one of this number, from 0.
pub fn argument(marks: &[Mark<'_>], open: usize, number: u64) -> Option<usize> {
    let mut depth: u64 = 0;
    let mut count: u64 = 0;
    for k in open..marks.len() {
        let word = word_at(marks, k);
        depth = depth_behind(depth, word);
        if depth == 0 {
            return None;
        }
        if depth == 1 && (k == open || is_sign(word, Sign::Comma)) {
            if count == number {
                return Some(k.saturating_add(1));
            }
            count = count.saturating_add(1);
        }
    }
    None
}

/// Whether the right side of a relation ends with this token, where no bracket is open.
fn ends_side(word: Word) -> bool {
    match word {
        Word::End => true,
        Word::Sign(s) => matches!(
            s,
            Sign::Ampersand
                | Sign::Bar
                | Sign::Comma
                | Sign::Semicolon
                | Sign::Colon
                | Sign::LeftArrow
                | Sign::Close
                | Sign::CloseSquare
        ),
        _ => false,
    }
}

/// The place behind a relation whose left side begins here.
pub fn behind_relation(marks: &[Mark<'_>], from: usize) -> usize {
    let mut right = false;
    let mut depth: u64 = 0;
    for k in from..marks.len() {
        let word = word_at(marks, k);
        if right && depth == 0 && ends_side(word) {
            return k;
        }
        if right {
            depth = depth_behind(depth, word);
        }
        right = right || is_relation(word);
    }
    marks.len()
}

/// Whether the item that begins here is `true`, which does nothing.
fn is_nothing(marks: &[Mark<'_>], from: usize) -> bool {
    let mut seen = false;
    for k in from..marks.len() {
        match word_at(marks, k) {
            Word::True if !seen => seen = true,
            Word::End | Word::Sign(Sign::Semicolon) => return seen,
            Word::Sign(Sign::Open | Sign::Close) => {}
            _ => return false,
        }
    }
    false
}

/// Where the next item of a body begins behind an arrow or a `;` from this place on, but for those that are `true`; behind all where there is none.
pub fn next_item(marks: &[Mark<'_>], from: usize) -> usize {
    for k in from..marks.len() {
        let ends = matches!(
            word_at(marks, k),
            Word::Sign(Sign::LeftArrow | Sign::Semicolon)
        );
        let item = k.saturating_add(1);
        if ends && !is_nothing(marks, item) {
            return item;
        }
    }
    marks.len()
}

/// Where the literal of a plan's trigger begins.
pub fn trigger_at(marks: &[Mark<'_>]) -> usize {
    let labelled = is_sign(word_at(marks, 0), Sign::At);
    let at = if labelled { 3 } else { 1 };
    match word_at(marks, at) {
        Word::Sign(Sign::Bang | Sign::Question) => at + 1,
        _ => at,
    }
}
