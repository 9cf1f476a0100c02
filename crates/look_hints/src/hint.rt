//! A hint: a place in a file, a stable word for what it is, a reason and notes.

use asl_lexer::token::Place;
use asl_term::sequence::Seq;
use look_reasons::mark::Mark;
use look_reasons::reason::Reason;

/// What a hint is about, in the order of the words.
#[derive(Clone, Copy)]
pub enum Code {
    Covered,
    Endless,
    Jason,
    Never,
    NoAct,
    NoAgent,
    NoAnswer,
    NoPlan,
    NoVerb,
    NotCalled,
    Once,
    OpenBelief,
    Unused,
}

/// The word of a code.
pub fn code_word(code: Code) -> &'static [u8] {
    match code {
        Code::Covered => b"covered",
        Code::Endless => b"endless",
        Code::Jason => b"jason",
        Code::Never => b"never",
        Code::NoAct => b"no-act",
        Code::NoAgent => b"no-agent",
        Code::NoAnswer => b"no-answer",
        Code::NoPlan => b"no-plan",
        Code::NoVerb => b"no-verb",
        Code::NotCalled => b"not-called",
        Code::Once => b"once",
        Code::OpenBelief => b"open-belief",
        Code::Unused => b"unused",
    }
}

/// The bytes that a hint marks: where they begin, and the byte behind them.
#[derive(Clone, Copy)]
pub struct Span {
    pub place: Place,
    pub end: u64,
}

/// Where a hint stands, what it is about, and the reason.
pub struct Hint {
    pub place: Place,
    pub code: Code,
    pub reason: Reason,
}

/// By hand, so that who lets one go proves nothing of its parts.
impl Drop for Hint {
    fn drop(self) {
        let Hint {
            place: _,
            code: _,
            reason: _,
        } = self;
    }
}

pub type Hints = Seq<Hint>;

/// The bytes from the token at a place to the end of one behind it; of the last one where there is none.
pub fn span_to(marks: &[Mark<'_>], at: usize, last: usize) -> Span {
    let most = marks.len().saturating_sub(1);
    match (marks.get(at.min(most)), marks.get(last.min(most))) {
        (Some(m), Some(n)) => Span {
            place: Place {
                at: m.at as u64,
                line: m.line,
                column: m.column,
            },
            end: n.end as u64,
        },
        _ => Span {
            place: Place {
                at: 0,
                line: 1,
                column: 1,
            },
            end: 0,
        },
    }
}
