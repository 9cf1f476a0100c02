//! What the words of a call ask for.

use crate::numbers::{cut_at, number};
use std::alloc::{AllocError, Global};

/// Turns from one to another, both counted from 1, and both among them.
#[derive(Clone, Copy)]
pub struct Stretch {
    pub from: u64,
    pub to: u64,
}

/// What the words of a call say.
#[derive(Clone, Copy)]
pub struct Asked<'a> {
    pub is_page: bool,
    pub is_all: bool,
    /// Names with a comma between two; None where no names are said.
    pub names: Option<&'a [u8]>,
    pub turns: Option<Stretch>,
}

/// What is drawn of a report, and how.
#[derive(Clone, Copy)]
pub struct Choice<'a> {
    /// A page in place of a picture.
    pub is_page: bool,
    /// Turns in which nothing is shown have their place too, and no lane has several agents.
    pub is_all: bool,
    /// The names of the agents that are drawn; all agents where there are none.
    pub names: &'a [&'a [u8]],
    /// The turns that are drawn; None for all turns.
    pub turns: Option<Stretch>,
}

/// What the next word is.
#[derive(Clone, Copy)]
enum Awaited {
    Option,
    Names,
    Turns,
}

/// From `FROM..TO`.
fn stretch_of(word: &[u8]) -> Option<Stretch> {
    let (from, behind) = cut_at(b'.', word);
    let (dot, to) = cut_at(b'.', behind);
    let (from, to) = (number(from)?, number(to)?);
    if !dot.is_empty() || from == 0 || to < from {
        return None;
    }
    Some(Stretch { from, to })
}

/// Whether a word is this option.
fn is_option(word: &[u8], option: &[u8]) -> bool {
    word == option
}

/// Takes an option; then what the next word is.
fn take_option(asked: &mut Asked<'_>, word: &[u8]) -> Option<Awaited> {
    if is_option(word, b"--agents") {
        return Some(Awaited::Names);
    }
    if is_option(word, b"--turns") {
        return Some(Awaited::Turns);
    }
    if is_option(word, b"--all") {
        asked.is_all = true;
    } else if is_option(word, b"--page") {
        asked.is_page = true;
    } else {
        return None;
    }
    Some(Awaited::Option)
}

/// Takes one word; then what the next one is.
fn take<'a>(asked: &mut Asked<'a>, awaited: Awaited, word: &'a [u8]) -> Option<Awaited> {
    match awaited {
        Awaited::Names => asked.names = Some(word),
        Awaited::Turns => asked.turns = Some(stretch_of(word)?),
        Awaited::Option => return take_option(asked, word),
    }
    Some(Awaited::Option)
}

/// What these words ask for; None where they are not such.
pub fn asked_of<'a>(words: &'a [String]) -> Option<Asked<'a>> {
    let mut asked = Asked {
        is_page: false,
        is_all: false,
        names: None,
        turns: None,
    };
    let mut awaited = Awaited::Option;
    for word in words {
        awaited = take(&mut asked, awaited, word.as_bytes())?;
    }
    match awaited {
        Awaited::Option => Some(asked),
        _ => None,
    }
}

/// The names that are said, each for itself.
pub fn names_of<'a>(alloc: Global, asked: Asked<'a>) -> Result<Vec<&'a [u8]>, AllocError> {
    let mut names = Vec::new(alloc);
    let Some(said) = asked.names else {
        return Ok(names);
    };
    for name in said.split(|b| *b == b',') {
        names.push(name)?;
    }
    Ok(names)
}
