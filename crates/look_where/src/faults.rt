//! What is at fault in the file of a project, as a table: what holds of a place, and what is told then.

use crate::leads::world_place;
use asl_lexer::token::{Sign, Word};
use asl_term::sequence::{Seq, Starved};
use asl_term::syntax::Text;
use look_reasons::bytes::byte_at;
use look_reasons::grammar::Class;
use look_reasons::mark::{Mark, between, cut_at, is_listed, mark_at};
use look_reasons::phrase::{Phrase, put_phrases};
use look_reasons::reading::is_of;
use look_reasons::reason::{Reason, reason_of};
use std::alloc::Global;

const COUNTS: &[Word] = &[
    Word::Atom,
    Word::Not,
    Word::Div,
    Word::Mod,
    Word::True,
    Word::False,
    Word::Number,
    Word::Var,
];

const NAMES: &[Word] = &[
    Word::Atom,
    Word::Not,
    Word::Div,
    Word::Mod,
    Word::True,
    Word::False,
    Word::Inner,
    Word::Var,
];

/// What holds of a place at which a piece is refused. Texts have blanks between them.
#[derive(Clone, Copy)]
enum Test {
    /// The piece is the title, or the one with the options.
    Title,
    First,
    /// So many tokens stand before, or so many at least.
    At(usize),
    Behind(usize),
    /// The token is of this class, or one of these.
    Token(Class),
    TokenOf(&'static [Word]),
    Text(&'static [u8]),
    /// The one before is of this class, or one of these.
    Before(Class),
    BeforeText(&'static [u8]),
    /// The one before that one is this.
    Second(&'static [u8]),
    /// `environment` stands before.
    World,
}

/// What is told of a place where all of these tests hold, or of another fault. The lines of what is told are a stable word for it, the reason, and a
/// note where there is one; each `$` and the letter behind it stand for what the fault speaks of: see `phrase_of`.
pub struct Rule {
    tests: &'static [Test],
    told: &'static [u8],
}

impl Rule {
    /// The word for it.
    pub fn code(&self) -> &'static [u8] {
        cut_at(self.told, b'\n').0
    }
}

/// The first of which all tests hold is told.
const RULES: [Rule; 16] = [
    Rule {
        tests: &[Test::Title, Test::At(0)],
        told: b"mas\na project begins with MAS",
    },
    Rule {
        tests: &[Test::Title, Test::At(1)],
        told: b"mas\nthe project's name begins with a small letter",
    },
    Rule {
        tests: &[Test::Title],
        told: b"mas\n{ is wanted behind the project's name",
    },
    Rule {
        tests: &[Test::BeforeText(b":"), Test::Second(b"infrastructure")],
        told: b"option\n$t is not there\ninfrastructure: Centralised is the only one",
    },
    Rule {
        tests: &[
            Test::Text(b": . ("),
            Test::First,
            Test::Behind(1),
            Test::World,
        ],
        told: b"option\na world is a file, named by one word: environment: E is E.env\nno Java environments, no arguments",
    },
    Rule {
        tests: &[
            Test::Token(Class::Atom),
            // Options of other programs.
            Test::Text(
                b"aslSourcePath classpath controlClass executionControl directives beliefBaseClass agentArchClass agentClass at",
            ),
        ],
        told: b"option\n$t is no option here",
    },
    Rule {
        tests: &[Test::Token(Class::Sign(Sign::OpenSquare))],
        told: b"option\nan agent has no options here",
    },
    Rule {
        tests: &[Test::Token(Class::Sign(Sign::CloseBrace)), Test::Behind(1)],
        told: b"missing\n; is missing in front of }",
    },
    Rule {
        tests: &[Test::Token(Class::Sign(Sign::CloseBrace))],
        told: b"missing\nan agent is wanted before the }",
    },
    Rule {
        tests: &[
            Test::Text(b":"),
            Test::BeforeText(b"environment infrastructure"),
        ],
        told: b"option\nno option $b",
    },
    Rule {
        tests: &[Test::Text(b":"), Test::Before(Class::Atom)],
        told: b"option\nno option $b\nin front of agents: infrastructure: Centralised and environment: E may stand; behind it entries alone",
    },
    Rule {
        tests: &[Test::Text(b"agents environment infrastructure")],
        told: b"option\n$t stands once, before the entries",
    },
    Rule {
        tests: &[
            Test::Behind(2),
            Test::Before(Class::Atom),
            Test::TokenOf(NAMES),
        ],
        told: b"entry\n$t cannot stand here: an entry is NAME, NAME file.asl or NAME file.asl #N, and ;",
    },
    Rule {
        tests: &[Test::TokenOf(COUNTS), Test::BeforeText(b"#")],
        told: b"entry\nbehind # stands a number from 1",
    },
    Rule {
        tests: &[Test::Token(Class::Atom)],
        told: b"option\n$t cannot stand here",
    },
    Rule {
        tests: &[Test::Token(Class::Word(Word::Var))],
        told: b"entry\n$t: names of agents begin with a small letter",
    },
];

fn piece_rules() -> &'static [Rule] {
    &RULES
}

/// What is told where none of these holds.
const ELSE: Rule = Rule {
    tests: &[],
    told: b"entry\n$t cannot stand here",
};

const ENDS: Rule = Rule {
    tests: &[],
    told: b"missing\nthe file ends in the middle of a project",
};

pub const BEHIND: Rule = Rule {
    tests: &[],
    told: b"behind\nnothing may stand behind the }",
};

pub const NO_END: Rule = Rule {
    tests: &[],
    told: b"missing\nthe } of the project is missing",
};

pub const TOO_MANY: Rule = Rule {
    tests: &[],
    told: b"limit\n$n agents, and there may be 1024",
};

pub const TWICE: Rule = Rule {
    tests: &[],
    told: b"name\na second agent has the name $t$n\nthe first is at $l:$c",
};

pub const MISSING: Rule = Rule {
    tests: &[],
    told: b"missing-file\nno such file: $b$t$e",
};

pub const TOO_LARGE: Rule = Rule {
    tests: &[],
    told: b"missing-file\nmore than 1048576 bytes: $b$t$e",
};

pub const UNREAD: Rule = Rule {
    tests: &[],
    told: b"missing-file\ncannot be read: $b$t$e",
};

/// Bytes at fault, what is told of them, and what that speaks of.
#[derive(Clone, Copy)]
pub struct Fault<'a> {
    pub at: usize,
    pub end: usize,
    pub rule: &'static Rule,
    pub token: &'a [u8],
    pub before: &'a [u8],
    pub ending: &'static [u8],
    /// How many there are, or the number behind a name.
    pub number: Phrase<'a>,
    pub line: u64,
    pub column: u64,
}

pub type Faults<'a> = Seq<Fault<'a>>;

/// A fault of which no more is told than a rule says.
pub fn fault_at<'a>(rule: &'static Rule, at: usize, end: usize) -> Fault<'a> {
    Fault {
        at,
        end,
        rule,
        token: &[],
        before: &[],
        ending: &[],
        number: Phrase::Words(b""),
        line: 0,
        column: 0,
    }
}

/// The place at which a piece is refused, the one of this number, and the tokens before it. Where there are none these have no text.
#[derive(Clone, Copy)]
struct Spot<'a> {
    number: u64,
    place: usize,
    token: Mark<'a>,
    before: Mark<'a>,
    second: Mark<'a>,
    world: bool,
}

fn holds(s: &Spot<'_>, test: Test) -> bool {
    match test {
        Test::Title => s.number == 1,
        Test::First => s.number == 2,
        Test::At(place) => s.place == place,
        Test::Behind(place) => s.place >= place,
        Test::Token(class) => is_of(s.token.word, class),
        Test::TokenOf(words) => words.contains(&s.token.word),
        Test::Text(texts) => is_listed(texts, s.token.text),
        Test::Before(class) => is_of(s.before.word, class),
        Test::BeforeText(texts) => is_listed(texts, s.before.text),
        Test::Second(text) => s.second.text == text,
        Test::World => s.world,
    }
}

fn rule_for(s: &Spot<'_>) -> &'static Rule {
    for rule in piece_rules() {
        let mut all = true;
        for test in rule.tests {
            all = all && holds(s, *test);
        }
        if all {
            return rule;
        }
    }
    &ELSE
}

/// Why a piece, the one of this number, is refused at a place.
pub fn fault_in<'a>(number: u64, marks: &[Mark<'a>], place: usize) -> Fault<'a> {
    let count = marks.len();
    let Some(token) = marks.get(place) else {
        let end = match marks.last() {
            Some(m) => m.end,
            None => 0,
        };
        return fault_at(&ENDS, end, end.saturating_add(1));
    };
    let spot = Spot {
        number,
        place,
        token: *token,
        before: mark_at(marks, place.checked_sub(1).unwrap_or(count)),
        second: mark_at(marks, place.checked_sub(2).unwrap_or(count)),
        world: world_place(marks) < place,
    };
    Fault {
        token: token.text,
        before: spot.before.text,
        ..fault_at(rule_for(&spot), token.at, token.end)
    }
}

/// What a letter behind `$` stands for in what a rule tells.
fn phrase_of<'a>(f: &Fault<'a>, letter: u8) -> Phrase<'a> {
    match letter {
        // The token, the one before and what ends a name; a number.
        b't' => Phrase::Shown(f.token),
        b'b' => Phrase::Shown(f.before),
        b'e' => Phrase::Words(f.ending),
        b'n' => f.number,
        // The line and the column of another token.
        b'l' => Phrase::Number(f.line),
        b'c' => Phrase::Number(f.column),
        _ => Phrase::Words(b""),
    }
}

/// These words, with what stands for each `$` and its letter.
fn said_of(alloc: Global, f: &Fault<'_>, words: &[u8]) -> Result<Text, Starved> {
    let mut out = Seq::new(alloc);
    let mut spent = false;
    let mut rest = words;
    for _ in words {
        let (plain, behind) = cut_at(rest, b'$');
        let parts = [Phrase::Words(plain), phrase_of(f, byte_at(behind, 0))];
        spent = spent || put_phrases(alloc, &parts, &mut out).is_err();
        rest = between(behind, 1, behind.len());
    }
    if spent {
        drop(out);
        return Err(Starved);
    }
    Ok(out)
}

fn put_reason(alloc: Global, f: &Fault<'_>, all: &mut Seq<Reason>) -> Result<(), Starved> {
    let (code, told) = cut_at(f.rule.told, b'\n');
    let (words, note) = cut_at(told, b'\n');
    let said = said_of(alloc, f, words)?;
    let note = said_of(alloc, f, note)?;
    let span = (f.at, f.end);
    let words = [Phrase::Words(said.as_slice())];
    match reason_of(alloc, span, code, &words, &[Phrase::Words(note.as_slice())]) {
        Ok(r) => all.push(r),
        Err(_) => Err(Starved),
    }
}

/// Faults in words.
pub fn reasons_of(alloc: Global, faults: &[Fault<'_>]) -> Result<Seq<Reason>, Starved> {
    let mut all = Seq::new(alloc);
    let mut spent = false;
    for f in faults {
        spent = spent || put_reason(alloc, f, &mut all).is_err();
    }
    if spent {
        drop(all);
        return Err(Starved);
    }
    Ok(all)
}
