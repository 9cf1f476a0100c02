//! Tokens with their places, and tokens that are put in the place of others. Lists of words.

use asl_lexer::lexing::tokens;
use asl_lexer::scan::token_at;
use asl_lexer::token::{LexFault, Sign, Tok, Word};
use asl_lexer::words::word;
use asl_term::sequence::Starved;
use std::alloc::Global;

/// A token: what it is to a grammar, its spelling, and where its bytes begin and end.
#[derive(Clone, Copy)]
pub struct Mark<'a> {
    pub word: Word,
    pub text: &'a [u8],
    pub at: usize,
    pub end: usize,
    pub line: u64,
    pub column: u64,
}

/// The bytes from one place to another; none where there are none.
pub fn between(bytes: &[u8], from: usize, to: usize) -> &[u8] {
    if from <= to && to <= bytes.len() {
        &bytes[from..to]
    } else {
        &[]
    }
}

/// The tokens of a piece of these bytes.
pub fn marks_of<'a>(
    alloc: Global,
    bytes: &'a [u8],
    toks: &[Tok],
) -> Result<Vec<Mark<'a>>, Starved> {
    let mut all = Vec::new(alloc);
    let mut spent = false;
    for t in toks {
        let at = (t.at as usize).min(bytes.len());
        let len = match token_at(between(bytes, at, bytes.len())) {
            Some((_, len)) => len,
            None => 0,
        };
        let end = at.saturating_add(len).min(bytes.len());
        let m = Mark {
            word: word(t),
            text: between(bytes, at, end),
            at,
            end,
            line: t.line,
            column: t.column,
        };
        spent = spent || all.push(m).is_err();
    }
    if spent {
        drop(all);
        return Err(Starved);
    }
    Ok(all)
}

/// What the first token of a text is.
fn word_of(alloc: Global, text: &[u8]) -> Result<Word, Starved> {
    match tokens(alloc, text) {
        Ok(toks) => match toks.as_slice() {
            [t, ..] => Ok(word(t)),
            [] => Ok(Word::Other),
        },
        Err(LexFault::Memory) => Err(Starved),
        Err(_) => Ok(Word::Other),
    }
}

/// What stands where there is no token: no word, and a place that no token has.
pub const NO_MARK: Mark<'static> = Mark {
    word: Word::Other,
    text: b"",
    at: usize::MAX,
    end: usize::MAX,
    line: 0,
    column: 0,
};

/// The token at a place of a piece.
pub fn mark_at<'a>(marks: &[Mark<'a>], place: usize) -> Mark<'a> {
    match marks.get(place) {
        Some(m) => *m,
        None => NO_MARK,
    }
}

/// Puts a token of this text that stands before another.
fn put_text<'a>(
    alloc: Global,
    text: &'static [u8],
    like: Mark<'a>,
    all: &mut Vec<Mark<'a>>,
) -> Result<(), Starved> {
    let m = Mark {
        word: word_of(alloc, text)?,
        text,
        end: like.at,
        ..like
    };
    match all.push(m) {
        Ok(()) => Ok(()),
        Err(_) => Err(Starved),
    }
}

/// A piece in which `removed` tokens from a place on give way to tokens of these texts, but for empty ones.
pub fn spliced<'a>(
    alloc: Global,
    marks: &[Mark<'a>],
    at: usize,
    removed: usize,
    put: &[&'static [u8]],
) -> Result<Vec<Mark<'a>>, Starved> {
    let mut all = Vec::new(alloc);
    let from = at.min(marks.len());
    let to = from.saturating_add(removed).min(marks.len());
    let like = mark_at(marks, at.min(marks.len().saturating_sub(1)));
    let mut spent = all.extend_from_slice(&marks[..from]).is_err();
    for text in put {
        if !text.is_empty() {
            spent = spent || put_text(alloc, *text, like, &mut all).is_err();
        }
    }
    if spent || all.extend_from_slice(&marks[to..]).is_err() {
        drop(all);
        return Err(Starved);
    }
    Ok(all)
}

/// The bytes before the first such byte, and those behind it.
pub fn cut_at(bytes: &[u8], byte: u8) -> (&[u8], &[u8]) {
    for (at, b) in bytes.iter().enumerate() {
        if *b == byte {
            return (
                between(bytes, 0, at),
                between(bytes, at.saturating_add(1), bytes.len()),
            );
        }
    }
    (bytes, b"")
}

/// Whether a word is one of these, which have a blank between them.
pub fn is_listed(words: &[u8], word: &[u8]) -> bool {
    let mut rest = words;
    for _ in words {
        let (first, behind) = cut_at(rest, b' ');
        if first == word && !word.is_empty() {
            return true;
        }
        rest = behind;
    }
    false
}

/// Whether it is spelled as an atom is; the reserved words are.
pub fn is_atom(word: Word) -> bool {
    matches!(
        word,
        Word::Atom | Word::Not | Word::Div | Word::Mod | Word::True | Word::False
    )
}

/// Whether it is this sign.
pub fn is_sign(word: Word, sign: Sign) -> bool {
    match word {
        Word::Sign(s) => s == sign,
        _ => false,
    }
}

pub fn is_any_sign(word: Word) -> bool {
    matches!(word, Word::Sign(_))
}

/// Whether it is the sign of a relation.
pub fn is_relation(word: Word) -> bool {
    match word {
        Word::Sign(s) => matches!(
            s,
            Sign::Less
                | Sign::LessEq
                | Sign::More
                | Sign::MoreEq
                | Sign::Same
                | Sign::Differ
                | Sign::Unify
        ),
        _ => false,
    }
}
