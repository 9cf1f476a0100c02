//! Why bytes are refused, in words.

use crate::bytes::{Flaw, Spoilt, byte_at};
use crate::mark::{Mark, between, cut_at, is_sign};
use crate::mending::Piece;
use crate::phrase::Phrase;
use crate::reading::read;
use crate::reason::{Reason, reason_of};
use asl_lexer::token::{Sign, Word};
use asl_parser_tree::limits::MOST_BRACKETS;
use asl_term::sequence::Starved;
use std::alloc::Global;

/// What is told of bytes.
struct Rule {
    flaw: Flaw,
    /// They begin with these, and the first is this byte at least, and at most.
    begins: &'static [u8],
    least: u8,
    most: u8,
    also: Also,
    /// Of them, or of the first two.
    pair: bool,
    /// In lines: a stable word, the reason, and a note where there is one. `$b` stands for the bytes as they are shown, `$n` for the number of
    /// the first, `$i` for the bytes without the first and the last.
    told: &'static [u8],
}

/// What else has to hold.
#[derive(Clone, Copy)]
enum Also {
    Nothing,
    /// They begin the file.
    Front,
    /// They are one byte, and this one is behind it.
    Single,
    Next(u8),
}

/// The first that holds is told, or else the other.
const RULES: [Rule; 18] = [
    Rule {
        flaw: Flaw::String,
        begins: b"",
        least: 0,
        most: 255,
        also: Also::Nothing,
        pair: false,
        told: b"open-string\nthe string that begins here is not closed in its line\na \" is missing; \\n stands for a line feed",
    },
    Rule {
        flaw: Flaw::Comment,
        begins: b"",
        least: 0,
        most: 255,
        also: Also::Nothing,
        pair: true,
        told: b"open-comment\nthe comment that begins here is not closed\n*/ is missing",
    },
    Rule {
        flaw: Flaw::Number,
        begins: b"",
        least: 0,
        most: 255,
        also: Also::Nothing,
        pair: false,
        told: b"number\nno number above 9223372036854775807",
    },
    Rule {
        flaw: Flaw::Inside,
        begins: b"\\",
        least: 0,
        most: 255,
        also: Also::Nothing,
        pair: true,
        told: b"escape\nin a string \\ stands before \" \\ n t alone\n\\\\ is the sign itself",
    },
    Rule {
        flaw: Flaw::Inside,
        begins: b"\t",
        least: 0,
        most: 255,
        also: Also::Nothing,
        pair: false,
        told: b"control\na tab in a string\nwrite \\t",
    },
    Rule {
        flaw: Flaw::Inside,
        begins: b"",
        least: 0,
        most: 255,
        also: Also::Nothing,
        pair: false,
        told: b"control\nthe byte $n in a string",
    },
    Rule {
        flaw: Flaw::Byte,
        begins: b"\xef\xbb\xbf",
        least: 0,
        most: 255,
        also: Also::Nothing,
        pair: false,
        told: b"bom\nthe file begins with a byte order mark\nsave it as UTF-8 without BOM",
    },
    Rule {
        flaw: Flaw::Byte,
        begins: b"\xff\xfe",
        least: 0,
        most: 255,
        also: Also::Front,
        pair: true,
        told: b"utf16\nthe file is in UTF-16\nsave it as UTF-8 without BOM",
    },
    Rule {
        flaw: Flaw::Byte,
        begins: b"\xfe\xff",
        least: 0,
        most: 255,
        also: Also::Front,
        pair: true,
        told: b"utf16\nthe file is in UTF-16\nsave it as UTF-8 without BOM",
    },
    Rule {
        flaw: Flaw::Byte,
        begins: b"'",
        least: 0,
        most: 255,
        also: Also::Single,
        pair: false,
        told: b"byte\n' stands in no token\nstrings have double quotes",
    },
    Rule {
        flaw: Flaw::Byte,
        begins: b"'",
        least: 0,
        most: 255,
        also: Also::Nothing,
        pair: false,
        told: b"quoted-atom\nno quoted atoms, and no strings in single quotes\na string is \"$i\"",
    },
    Rule {
        flaw: Flaw::Byte,
        begins: b"%",
        least: 0,
        most: 255,
        also: Also::Nothing,
        pair: false,
        told: b"comment-sign\n% begins no comment here\nwrite //",
    },
    Rule {
        flaw: Flaw::Byte,
        begins: b"/",
        least: 0,
        most: 255,
        also: Also::Nothing,
        pair: false,
        told: b"division\nno / here\nwhole numbers: A div B",
    },
    Rule {
        flaw: Flaw::Byte,
        begins: b"\\",
        least: 0,
        most: 255,
        also: Also::Next(b'='),
        pair: true,
        told: b"relation\nno \\= here\nwrite \\==",
    },
    Rule {
        flaw: Flaw::Byte,
        begins: b"\xe2\x80\x9c",
        least: 0,
        most: 255,
        also: Also::Nothing,
        pair: false,
        told: b"typographic\ntypographic quotes\nstrings have the plain sign \"",
    },
    Rule {
        flaw: Flaw::Byte,
        begins: b"\xe2\x80\x9d",
        least: 0,
        most: 255,
        also: Also::Nothing,
        pair: false,
        told: b"typographic\ntypographic quotes\nstrings have the plain sign \"",
    },
    Rule {
        flaw: Flaw::Byte,
        begins: b"",
        least: 128,
        most: 255,
        also: Also::Nothing,
        pair: false,
        told: b"letter\n$b is no letter of the language\nin strings and comments it may stand",
    },
    Rule {
        flaw: Flaw::Byte,
        begins: b"",
        least: 33,
        most: 126,
        also: Also::Nothing,
        pair: false,
        told: b"byte\n$b stands in no token",
    },
];

const OTHERWISE: Rule = Rule {
    flaw: Flaw::Byte,
    begins: b"",
    least: 0,
    most: 255,
    also: Also::Nothing,
    pair: false,
    told: b"byte\nthe byte $n stands in no token",
};

fn byte_rules() -> &'static [Rule] {
    &RULES
}

/// The first rule that fits.
fn rule_for(bytes: &[u8], x: &Spoilt, raw: &[u8]) -> &'static Rule {
    let first = byte_at(raw, 0);
    for rule in byte_rules() {
        let also = match rule.also {
            Also::Nothing => true,
            Also::Front => x.at == 0,
            Also::Single => raw.len() < 2,
            Also::Next(byte) => byte_at(bytes, x.at.saturating_add(1)) == byte,
        };
        let within = rule.least <= first && first <= rule.most;
        if also && within && x.flaw == rule.flaw && raw.starts_with(rule.begins) {
            return rule;
        }
    }
    &OTHERWISE
}

/// What is told of bytes, with what stands for `$` and the letter behind it.
fn phrases_of<'a>(raw: &'a [u8], told: &'static [u8]) -> [Phrase<'a>; 3] {
    let (front, behind) = cut_at(told, b'$');
    let inner = between(raw, 1, raw.len().saturating_sub(1));
    let (phrase, rest) = match behind.split_first() {
        Some((letter, rest)) => {
            let phrase = match *letter {
                b'b' => Phrase::Shown(raw),
                b'n' => Phrase::Number(byte_at(raw, 0) as u64),
                _ => Phrase::Shown(inner),
            };
            (phrase, rest)
        }
        None => (Phrase::Words(b""), behind),
    };
    [Phrase::Words(front), phrase, Phrase::Words(rest)]
}

/// Why these bytes are refused.
pub fn byte_reason(alloc: Global, bytes: &[u8], x: &Spoilt) -> Result<Reason, Starved> {
    let raw = between(bytes, x.at, x.end);
    let rule = rule_for(bytes, x, raw);
    let (code, told) = cut_at(rule.told, b'\n');
    let (words, note) = cut_at(told, b'\n');
    let end = if rule.pair {
        x.at.saturating_add(2)
    } else {
        x.end
    };
    reason_of(
        alloc,
        (x.at, end),
        code,
        &phrases_of(raw, words),
        &phrases_of(raw, note),
    )
}

/// The token with which too many brackets are open.
fn too_deep<'a>(marks: &[Mark<'a>]) -> Option<Mark<'a>> {
    let mut depth: usize = 0;
    for m in marks {
        if is_sign(m.word, Sign::Open) || is_sign(m.word, Sign::OpenSquare) {
            depth = depth.saturating_add(1);
        }
        if is_sign(m.word, Sign::Close) || is_sign(m.word, Sign::CloseSquare) {
            depth = depth.saturating_sub(1);
        }
        if depth > MOST_BRACKETS as usize {
            return Some(*m);
        }
    }
    None
}

/// Which limit a piece passes.
pub fn limit_reason(alloc: Global, p: &Piece<'_>) -> Result<Reason, Starved> {
    let deep = too_deep(p.marks);
    let (words, note) = match &deep {
        Some(_) => (TOO_DEEP, b"".as_slice()),
        None => (TOO_LARGE, BREAK_UP),
    };
    let span = match deep.or(p.marks.first().copied()) {
        Some(m) => (m.at, m.end),
        None => (0, 1),
    };
    let words = [Phrase::Words(words)];
    reason_of(alloc, span, b"limit", &words, &[Phrase::Words(note)])
}

const TOO_DEEP: &[u8] = b"more than 250 brackets are open here";

const TOO_LARGE: &[u8] =
    b"a term or formula of this clause has more than 10,000 nodes or 250 levels";

const BREAK_UP: &[u8] = b"break it up into rules";

/// A reason that names a token behind some words.
fn reason_naming(
    alloc: Global,
    m: &Mark<'_>,
    code: &'static [u8],
    words: &[u8],
    note: &[Phrase<'_>],
) -> Result<Option<Reason>, Starved> {
    let words = [Phrase::Words(words), Phrase::Words(m.text)];
    match reason_of(alloc, (m.at, m.end), code, &words, note) {
        Ok(r) => Ok(Some(r)),
        Err(_) => Err(Starved),
    }
}

/// Why a piece is refused that uses an artifact which is not there, where these are.
pub fn artifact_reason(
    alloc: Global,
    p: &Piece<'_>,
    known: &[u8],
) -> Result<Option<Reason>, Starved> {
    match p.marks.get(1) {
        Some(m) => {
            let note = [Phrase::Words(b"there are:"), Phrase::Words(known)];
            reason_naming(alloc, m, b"artifact", b"no artifact ", &note)
        }
        None => Ok(None),
    }
}

const UNBOUND: &[u8] =
    b"a variable of an effect stands in the act, behind by, or in a literal of the guard without not";

/// The first variable of this name in the effects of an act. One without a name stands as `_`, and its name goes on with a blank.
fn unbound_in<'a>(effects: &[Mark<'a>], name: &[u8]) -> Option<Mark<'a>> {
    let spelled: &[u8] = if name.starts_with(b"_ ") { b"_" } else { name };
    for m in effects {
        if matches!(m.word, Word::Var) && m.text == spelled {
            return Some(*m);
        }
    }
    None
}

/// Why a piece is refused of which an effect has a variable of this name that nothing binds.
pub fn unbound_reason(
    alloc: Global,
    p: &Piece<'_>,
    name: &[u8],
) -> Result<Option<Reason>, Starved> {
    let world = Piece { world: true, ..*p };
    let r = read(alloc, &world);
    let spent = r.spent;
    let from = r.arrow.min(p.marks.len());
    drop(r);
    if spent {
        return Err(Starved);
    }
    match unbound_in(&p.marks[from..], name) {
        Some(m) => {
            let note = [Phrase::Words(UNBOUND)];
            reason_naming(alloc, &m, b"unbound", b"nothing binds ", &note)
        }
        None => Ok(None),
    }
}
