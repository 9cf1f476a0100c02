//! Changes at the place where a reading stops: the first with which the whole piece is read, and what may stand there.

use crate::bytes::byte_at;
use crate::mark::{Mark, cut_at, is_any_sign, mark_at, spliced};
use crate::reading::read;
use asl_lexer::token::Word;
use asl_term::sequence::{Seq, Starved};
use asl_term::syntax::Text;
use std::alloc::Global;

/// A piece, of a world that uses these names or of an agent's source.
#[derive(Clone, Copy)]
pub struct Piece<'a> {
    pub bytes: &'a [u8],
    /// The bytes as they stand in the file, where some of those are mended.
    pub source: &'a [u8],
    pub marks: &'a [Mark<'a>],
    pub world: bool,
    pub used: &'a [Mark<'a>],
    pub number: u64,
    /// Whether it begins directly behind the dot of a decimal.
    pub behind_decimal: bool,
}

#[derive(Clone, Copy, PartialEq, Eq)]
pub enum FixKind {
    /// No change mends the piece.
    None,
    Dot,
    Bracket,
    Missing,
    Instead,
    Relation,
    Extra,
}

/// A change: what is put, in place of which pair of signs, or behind which line and column.
#[derive(Clone, Copy)]
pub struct Fix {
    pub kind: FixKind,
    pub put: &'static [u8],
    pub pair: &'static [u8],
    pub line: u64,
    pub column: u64,
}

/// Changes in the order in which they are tried, one in each line: a letter for what is done, what is put, and in place of which pair of signs.
const CHANGES: &[u8] =
    b"l .\nm ;\nb )\nb ]\nm &\nm ,\nm <-\nm :\nm <=\ne .\ni ;\ni )\ni ]\ni &\ni ,\ni <-\ni :\ni <=\ni .print\ni .\n\
    p <= =<\nr <= =<\np >= =>\nr >= =>\np \\== !=\nr \\== !=\np & &&\nr & &&\np | ||\nr | ||\nx";

/// A piece of which changes are tried, and whether memory was refused.
#[derive(Clone, Copy)]
struct Trial<'a> {
    alloc: Global,
    piece: Piece<'a>,
    at: usize,
    spent: bool,
}

fn trial_at<'a>(alloc: Global, p: &Piece<'a>, at: usize) -> Trial<'a> {
    Trial {
        alloc,
        piece: *p,
        at: at.min(p.marks.len()),
        spent: false,
    }
}

impl<'a> Trial<'a> {
    /// Whether the piece is read whole where this stands in place of so many tokens, and how far it is read.
    fn try_with(&mut self, at: usize, removed: usize, put: &'static [u8]) -> (bool, usize) {
        let Ok(changed) = spliced(self.alloc, self.piece.marks, at, removed, &[put]) else {
            self.spent = true;
            return (false, 0);
        };
        let piece = Piece {
            marks: changed.as_slice(),
            ..self.piece
        };
        let r = read(self.alloc, &piece);
        if r.spent {
            self.spent = true;
        }
        (r.halt.is_none() && r.wants.is_empty(), r.at)
    }

    fn is_read(&mut self, at: usize, removed: usize, put: &'static [u8]) -> bool {
        self.try_with(at, removed, put).0
    }

    /// The change at the place; its line and column are those behind the token before.
    fn fix(&self, kind: FixKind, put: &'static [u8], pair: &'static [u8]) -> Fix {
        let m = mark_at(self.piece.marks, self.at.saturating_sub(1));
        let len = m.end.saturating_sub(m.at) as u64;
        Fix {
            kind,
            put,
            pair,
            line: m.line,
            column: m.column.saturating_add(len),
        }
    }

    /// How many tokens a change takes away, and from which on, where it may be tried.
    fn place_of(&self, letter: u8, put: &[u8], pair: &[u8]) -> Option<(usize, usize)> {
        let marks = self.piece.marks;
        let at = self.at;
        let before = at.saturating_sub(1);
        let m = mark_at(marks, at);
        let end = matches!(m.word, Word::End);
        let within = at > 0 && at < marks.len();
        let left = within && !end && m.column <= mark_at(marks, 0).column;
        let sign = is_any_sign(m.word) || matches!(m.word, Word::Inner);
        let (is, from, removed) = match letter {
            b'l' => (left || at >= marks.len(), at, marks.len()),
            b'e' => (within && !end, at, marks.len()),
            b'b' | b'm' => (within, at, 0),
            b'i' => (sign && is_other(put, m.text), at, 1),
            b'p' => (sign && is_pair(marks, before, pair), before, 2),
            b'r' => (sign && is_pair(marks, at, pair), at, 2),
            b'x' => (!end && at.saturating_add(1) < marks.len(), at, 1),
            _ => (false, at, 0),
        };
        if is { Some((from, removed)) } else { None }
    }

    /// Whether the piece is read with a change. Where a dot is put, what stands before it has to be read, and what is behind it in some cases.
    fn is_mended(&mut self, letter: u8, put: &'static [u8], pair: &[u8]) -> bool {
        match self.place_of(letter, put, pair) {
            Some((from, removed)) => {
                self.is_read(from, removed, put) && (letter != b'e' || self.is_read(0, from, b""))
            }
            None => false,
        }
    }
}

/// Whether this may be tried in place of a token of this text.
fn is_other(put: &[u8], text: &[u8]) -> bool {
    if put == b".print".as_slice() {
        text == b".println".as_slice()
    } else {
        put != text
    }
}

/// Whether the tokens here are spelled as a pair.
pub fn is_pair(marks: &[Mark<'_>], at: usize, pair: &[u8]) -> bool {
    let first = mark_at(marks, at).text;
    let second = mark_at(marks, at.saturating_add(1)).text;
    pair.len() == first.len().saturating_add(second.len())
        && pair.starts_with(first)
        && pair.ends_with(second)
}

/// What is done by a change of this letter.
fn kind_of(letter: u8) -> FixKind {
    match letter {
        // A dot before a token that stands as far left as the first, and before any.
        b'l' | b'e' => FixKind::Dot,
        b'b' => FixKind::Bracket,
        b'm' => FixKind::Missing,
        b'i' => FixKind::Instead,
        // In place of a pair that begins before the token, or with it.
        b'p' | b'r' => FixKind::Relation,
        _ => FixKind::Extra,
    }
}

/// The first change at the place with which the whole piece is read.
fn first_fix(t: &mut Trial<'_>) -> Fix {
    let mut rest = CHANGES;
    for _ in CHANGES {
        let (line, behind) = cut_at(rest, b'\n');
        let (way, words) = cut_at(line, b' ');
        let (put, pair) = cut_at(words, b' ');
        let letter = byte_at(way, 0);
        if t.is_mended(letter, put, pair) {
            return t.fix(kind_of(letter), put, pair);
        }
        rest = behind;
    }
    t.fix(FixKind::None, b"", b"")
}

/// The first change at the place with which the whole piece is read.
pub fn mend(alloc: Global, p: &Piece<'_>, at: usize) -> Result<Fix, Starved> {
    let mut t = trial_at(alloc, p, at);
    let fix = first_fix(&mut t);
    if t.spent { Err(Starved) } else { Ok(fix) }
}

/// What may stand at a place: in each line its name, and a token of the kind.
const KINDS: &[u8] = b"a name\tp
a variable\tX
a number\t1
a string\t\"s\"
an internal action\t.print
an internal action\t.length
an operator\t+
an operator\t*
a relation\t<
a relation\t==
the dot\t.
(\t(
)\t)
[\t[
]\t]
,\t,
;\t;
:\t:
&\t&
|\t|
:-\t:-
<-\t<-
->\t->
!\t!
?\t?
-+\t-+
~\t~
@\t@
not\tnot
by\tby
true\ttrue";

/// At most so many kinds are named.
const MOST_KINDS: usize = 9;

/// What may stand at the place, in words, where it is at most so many kinds; else nothing.
pub fn expected(alloc: Global, p: &Piece<'_>, at: usize) -> Result<Text, Starved> {
    let mut t = trial_at(alloc, p, at);
    let at = t.at;
    let mut words = Seq::new(alloc);
    let mut blanks: &[u8] = b"here may stand: ";
    let mut count: usize = 0;
    let mut last: &[u8] = b"";
    let mut rest = KINDS;
    for _ in KINDS {
        let (line, behind) = cut_at(rest, b'\n');
        let (name, put) = cut_at(line, b'\t');
        if !put.is_empty() && name != last && t.try_with(at, p.marks.len(), put).1 > at {
            t.spent = t.spent || words.append(blanks).is_err() || words.append(name).is_err();
            blanks = b"  ";
            count = count.saturating_add(1);
            last = name;
        }
        rest = behind;
    }
    if t.spent {
        drop(words);
        return Err(Starved);
    }
    if count > MOST_KINDS {
        words.truncate(0);
    }
    Ok(words)
}
