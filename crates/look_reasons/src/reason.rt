//! Why a reading stops, in words.

use crate::bytes::byte_at;
use crate::mark::{Mark, between, cut_at, is_listed, mark_at, spliced};
use crate::mending::{Fix, FixKind, Piece, expected, is_pair, mend};
use crate::phrase::{Phrase, put_phrase, sentence};
use crate::reading::{Halt, Part, Reading, Sort, is_of, read};
use crate::repair::repaired;
use crate::rules::{
    Rule, Span, Test, action_rules, brace_rules, item_rules, last_rule, sign_rules, term_rules,
    world_rules,
};
use crate::table::{ANY, Arity};
use asl_lexer::token::Word;
use asl_term::sequence::{Seq, Starved};
use asl_term::syntax::Text;
use std::alloc::Global;

/// Which bytes are at fault, a stable word for it, the reason, and notes.
pub struct Reason {
    pub at: usize,
    pub end: usize,
    pub code: &'static [u8],
    pub text: Text,
    pub notes: Seq<Text>,
}

/// By hand, so that who lets one go proves nothing of its parts.
impl Drop for Reason {
    fn drop(self) {
        let Reason {
            at: _,
            end: _,
            code: _,
            text: _,
            notes: _,
        } = self;
    }
}

/// Puts a note, where it is not empty, and keeps whether memory was refused.
fn put_note(note: Result<Text, Starved>, notes: &mut Seq<Text>, spent: &mut bool) {
    match note {
        Ok(note) => {
            if note.len() > 0 && notes.push(note).is_err() {
                *spent = true;
            }
        }
        Err(_) => *spent = true,
    }
}

/// A reason of these parts, for these bytes, with a note where it is not empty.
pub fn reason_of(
    alloc: Global,
    span: (usize, usize),
    code: &'static [u8],
    words: &[Phrase<'_>],
    note: &[Phrase<'_>],
) -> Result<Reason, Starved> {
    let mut notes = Seq::new(alloc);
    let mut spent = false;
    put_note(sentence(alloc, note), &mut notes, &mut spent);
    match sentence(alloc, words) {
        Ok(text) if !spent => Ok(Reason {
            at: span.0,
            end: span.1,
            code,
            text,
            notes,
        }),
        _ => {
            drop(notes);
            Err(Starved)
        }
    }
}

/// The place where a reading stopped, the tokens around it, and a change with which the piece is read.
#[derive(Clone, Copy)]
struct Around<'a> {
    piece: Piece<'a>,
    halt: Halt,
    sort: Sort,
    part: Part,
    arity: Arity,
    place: usize,
    plain: bool,
    in_body: bool,
    item_place: usize,
    is_open: bool,
    token: Mark<'a>,
    before: Mark<'a>,
    next: Mark<'a>,
    item: Mark<'a>,
    opened: Mark<'a>,
    counted: Mark<'a>,
    fix: Fix,
}

fn holds(a: &Around<'_>, test: Test) -> bool {
    match test {
        Test::Token(class) => is_of(a.token.word, class),
        Test::TokenOf(words) => words.contains(&a.token.word),
        Test::Before(class) => is_of(a.before.word, class),
        Test::BeforeOf(words) => words.contains(&a.before.word),
        Test::Next(class) => is_of(a.next.word, class),
        Test::At(halt) => a.halt == halt,
        Test::AtOf(halts) => halts.contains(&a.halt),
        Test::Plan => a.sort == Sort::Plan,
        Test::NoPlan => matches!(a.sort, Sort::Belief | Sort::Rule | Sort::Goal),
        Test::Item(words) => is_listed(words, a.item.text),
        Test::Pair(pair) => is_pair(a.piece.marks, a.place.saturating_sub(1), pair),
        Test::Mends(kind) => a.fix.kind == kind,
        Test::Ended => a.place >= a.piece.marks.len(),
        Test::First => a.place == 0,
        Test::BehindDecimal => a.piece.behind_decimal,
        Test::Touches => a.before.end == a.token.at,
        Test::NextTouches => a.token.end == a.next.at,
        Test::Digit => byte_at(a.piece.bytes, a.token.end).is_ascii_digit(),
        Test::InItem => a.place > a.item_place,
        Test::InBody => a.in_body,
        Test::Agent => !a.piece.world,
        Test::Plain => a.plain,
        Test::Opened => a.is_open,
    }
}

/// Whether all that a rule asks for holds.
fn fits(a: &Around<'_>, rule: &Rule) -> bool {
    for test in rule.tests {
        if !holds(a, *test) {
            return false;
        }
    }
    true
}

/// Words of control and internal actions of other programs, and what stands in their place.
const ELSEWHERE: [(&[u8], &[u8]); 8] = [
    (
        b"if",
        b"two plans for one goal: +!g : p <- .. and +!g <- ..",
    ),
    (b"for", b".findall into a list, and a goal over the list"),
    (
        b"while",
        b"a plan that calls its goal again: +!g : p <- ..; !g. and +!g.",
    ),
    (b".println", b"write .print: it ends its line itself"),
    (
        b".wait .at",
        b"no clock and no waiting: a plan for the event, or a goal that calls itself",
    ),
    (
        b".random .date .time",
        b"no chance and no time: a run depends on its files and its schedule alone",
    ),
    (
        b".sort .range .union .difference .intersection .delete .empty .sublist .shuffle \
    .prefix .suffix .set .replace .substring .term2string .eval",
        b"not in the table of internal actions: a rule does it",
    ),
    (
        b".suspend .resume .suspended .current_intention .add_plan .remove_plan \
    .relevant_plans .drop_all_desires .drop_all_intentions .drop_all_events .drop_event \
    .fork .include .create_agent .kill_agent .puts .printf .log .asserta .assertz \
    .foreach .if_then_else .loop .belief .plan_label .version .abort .perceive \
    .structure .ground_all .namespace .list_plans .list_rules .add_nested_source",
        b"not in the table of internal actions",
    ),
];

fn words_elsewhere() -> &'static [(&'static [u8], &'static [u8])] {
    &ELSEWHERE
}

/// What stands in place of a word of control, or of an internal action that is not there; no bytes where nothing does.
fn instead_of(word: &[u8]) -> &'static [u8] {
    for (words, note) in words_elsewhere() {
        if is_listed(words, word) {
            return note;
        }
    }
    b""
}

fn part_name(part: Part) -> &'static [u8] {
    match part {
        Part::Goal | Part::Posted => b"a goal",
        Part::Tested => b"a question",
        Part::Changed => b"a belief",
        Part::Trigger => b"a trigger",
        Part::Belief => b"a clause",
        Part::Act => b"an action",
        _ => b"a literal",
    }
}

fn sort_name(sort: Sort) -> &'static [u8] {
    match sort {
        Sort::Belief => b"a belief or a rule's head",
        Sort::Goal => b"an initial goal",
        Sort::Plan => b"a trigger",
        Sort::Act => b"an act",
        _ => b"a fact",
    }
}

/// What a letter behind `$` stands for in what a rule tells.
fn phrase_of<'a>(a: &Around<'a>, letter: u8) -> Phrase<'a> {
    match letter {
        // The token as it is spelled, and as it stands in the file; the tokens beside it.
        b't' => Phrase::Words(a.token.text),
        b's' => Phrase::Shown(between(a.piece.source, a.token.at, a.token.end)),
        b'b' => Phrase::Shown(a.before.text),
        b'n' => Phrase::Shown(a.next.text),
        b'B' => Phrase::Words(a.before.text),
        // The first word of the item, and what stands for it here; what stands for the token.
        b'i' => Phrase::Words(a.item.text),
        b'I' => Phrase::Words(instead_of(a.item.text)),
        b'e' => Phrase::Words(instead_of(a.token.text)),
        // What the literal is, and the clause; its number and place.
        b'p' => Phrase::Words(part_name(a.part)),
        b'k' => Phrase::Words(sort_name(a.sort)),
        b'N' => Phrase::Number(a.piece.number),
        b'x' => Phrase::Number(mark_at(a.piece.marks, 0).line),
        b'y' => Phrase::Number(mark_at(a.piece.marks, 0).column),
        // The bracket that is open, and its place; the internal action of which the arguments are counted.
        b'o' => Phrase::Words(a.opened.text),
        b'v' => Phrase::Number(a.opened.line),
        b'w' => Phrase::Number(a.opened.column),
        b'm' => Phrase::Words(a.counted.text),
        // What is put by a change, in place of which pair, and where.
        b'u' => Phrase::Words(a.fix.put),
        b'r' => Phrase::Words(a.fix.pair),
        b'f' => Phrase::Number(a.fix.line),
        b'g' => Phrase::Number(a.fix.column),
        other => arguments_phrase(a.arity, other),
    }
}

/// A part of how many arguments an internal action takes: the least number, what stands before the most, that, and the word.
fn arguments_phrase(arity: Arity, letter: u8) -> Phrase<'static> {
    let Arity { low, high, .. } = arity;
    match letter {
        b'l' if high == 0 => Phrase::Words(b"no"),
        b'l' => Phrase::Number(low as u64),
        b'A' if high == 1 => Phrase::Words(b" argument"),
        b'A' => Phrase::Words(b" arguments"),
        b'q' if high == ANY => Phrase::Words(b" or more"),
        b'q' if high > low => Phrase::Words(b" or "),
        b'h' if high > low && high < ANY => Phrase::Number(high as u64),
        _ => Phrase::Words(b""),
    }
}

/// These words at the place, with what stands for each `$` and its letter.
fn said_at(alloc: Global, a: &Around<'_>, words: &[u8]) -> Result<Text, Starved> {
    let mut out = Seq::new(alloc);
    let mut rest = words;
    for _ in words {
        let (plain, behind) = cut_at(rest, b'$');
        out.append(plain)?;
        let Some((letter, after)) = behind.split_first() else {
            return Ok(out);
        };
        put_phrase(alloc, phrase_of(a, *letter), &mut out)?;
        rest = after;
    }
    Ok(out)
}

/// The bytes at fault.
fn bytes_at(a: &Around<'_>, span: Span) -> (usize, usize) {
    match span {
        Span::Token => (a.token.at, a.token.end),
        Span::Before => (a.before.at, a.before.end),
        Span::Item => (a.item.at, a.item.end),
        Span::FromBefore => (a.before.at, a.token.end),
        Span::ToNext => (a.token.at, a.next.end),
        Span::Decimal => (a.before.at, a.token.end.saturating_add(1)),
    }
}

/// The first rule that fits.
fn rule_at(a: &Around<'_>) -> &'static Rule {
    let tables = [
        action_rules(),
        brace_rules(),
        sign_rules(),
        term_rules(),
        item_rules(),
        world_rules(),
    ];
    for rules in tables {
        for rule in rules {
            if fits(a, rule) {
                return rule;
            }
        }
    }
    last_rule()
}

/// Reasons for which a change is of no use, and those that say nothing of the place.
const UNMENDED: &[u8] =
    b"decimal decimal-rest glued-dot own-inner goal-term control directive braces context";

const GENERAL: &[u8] = b"syntax world no-formula";

/// The change with which the piece is read, in words.
fn told_fix(kind: FixKind) -> &'static [u8] {
    match kind {
        FixKind::None => b"",
        FixKind::Extra => b"without it the clause is read",
        FixKind::Instead => b"write $u in its place: then the clause is read",
        FixKind::Relation => b"write $u in place of $r: then the clause is read",
        FixKind::Dot | FixKind::Bracket | FixKind::Missing => {
            b"put $u at $f:$g: then the clause is read"
        }
    }
}

/// Puts the note of a reason, what may be changed or may stand at the place, and in which clause it is. The change stands in place of a note that
/// says what to write.
fn notes_of(
    alloc: Global,
    a: &Around<'_>,
    at: usize,
    code: &[u8],
    note: &[u8],
) -> Result<Seq<Text>, Starved> {
    let mut notes = Seq::new(alloc);
    let mut spent = false;
    let mended = a.fix.kind != FixKind::None;
    let mends = mended && !is_listed(UNMENDED, code);
    let note = said_at(alloc, a, note);
    let writes = match &note {
        Ok(note) => note.as_slice().starts_with(b"write "),
        Err(_) => false,
    };
    if mends && writes {
        drop(note);
    } else {
        put_note(note, &mut notes, &mut spent);
    }
    if mends {
        put_note(
            said_at(alloc, a, told_fix(a.fix.kind)),
            &mut notes,
            &mut spent,
        );
    }
    if !mended && is_listed(GENERAL, code) {
        put_note(expected(alloc, &a.piece, a.place), &mut notes, &mut spent);
    }
    if is_below(a, at) {
        put_note(
            said_at(alloc, a, b"in clause $N, from $x:$y"),
            &mut notes,
            &mut spent,
        );
    }
    if spent { Err(Starved) } else { Ok(notes) }
}

/// Whether the bytes from a place on stand in another line than the clause begins in.
fn is_below(a: &Around<'_>, at: usize) -> bool {
    let mut line = 0;
    for m in a.piece.marks {
        if m.at <= at {
            line = m.line;
        }
    }
    a.place < a.piece.marks.len() && mark_at(a.piece.marks, 0).line != line
}

/// The bytes behind the last token, as a token that is none.
fn behind_all<'a>(marks: &[Mark<'a>]) -> Mark<'a> {
    let end = match marks.last() {
        Some(m) => m.end,
        None => 0,
    };
    Mark {
        word: Word::Other,
        text: b"",
        at: end,
        end: end.saturating_add(1),
        line: 0,
        column: 0,
    }
}

fn around_of<'a>(p: &Piece<'a>, r: &Reading<'_>, halt: Halt, fix: Fix) -> Around<'a> {
    let marks = p.marks;
    let count = marks.len();
    Around {
        piece: *p,
        halt,
        sort: r.sort,
        part: r.part,
        arity: r.arity,
        place: r.at,
        plain: r.plain,
        in_body: r.item.is_some(),
        item_place: r.item.unwrap_or(0),
        is_open: !r.opened.is_empty(),
        token: if r.at < count {
            mark_at(marks, r.at)
        } else {
            behind_all(marks)
        },
        before: mark_at(marks, r.at.checked_sub(1).unwrap_or(count)),
        next: mark_at(marks, r.at.saturating_add(1)),
        item: mark_at(marks, r.item.unwrap_or(count)),
        opened: mark_at(marks, r.opened.last().copied().unwrap_or(count)),
        counted: mark_at(marks, r.counted),
        fix,
    }
}

/// Why the reading stopped.
fn reason_for(
    alloc: Global,
    p: &Piece<'_>,
    r: &Reading<'_>,
    halt: Halt,
) -> Result<Reason, Starved> {
    let a = around_of(p, r, halt, mend(alloc, p, r.at)?);
    let rule = rule_at(&a);
    let (at, end) = bytes_at(&a, rule.span);
    let (code, told) = cut_at(rule.told, b'\n');
    let (words, note) = cut_at(told, b'\n');
    let notes = notes_of(alloc, &a, at, code, note)?;
    match said_at(alloc, &a, words) {
        Ok(text) => Ok(Reason {
            at,
            end,
            code,
            text,
            notes,
        }),
        Err(_) => {
            drop(notes);
            Err(Starved)
        }
    }
}

/// At most so many reasons are told of a piece.
const MOST_REASONS: usize = 20;

/// Whether a reading stopped behind the place of the reason before, where there is one.
fn is_further(r: &Reading<'_>, all: &Seq<Reason>) -> bool {
    match all.as_slice() {
        [.., last] => match r.piece.marks.get(r.at) {
            Some(m) => m.at > last.at,
            None => false,
        },
        [] => true,
    }
}

/// Puts why a reading stopped, where it did and behind the place of the reason before, and gives the word for it.
fn put_reason(
    alloc: Global,
    p: &Piece<'_>,
    r: &Reading<'_>,
    all: &mut Seq<Reason>,
) -> Result<Option<&'static [u8]>, Starved> {
    match r.halt {
        Some(halt) if is_further(r, &*all) => {
            let told = reason_for(alloc, p, r, halt)?;
            let code = told.code;
            match all.push(told) {
                Ok(()) => Ok(Some(code)),
                Err(_) => Err(Starved),
            }
        }
        _ => Ok(None),
    }
}

/// Puts the reason at the first place where no reading of these tokens of the piece goes on, and gives them with what is meant there, where
/// that is known.
fn put_first<'a>(
    alloc: Global,
    piece: &Piece<'a>,
    marks: &[Mark<'a>],
    all: &mut Seq<Reason>,
) -> Result<Option<Vec<Mark<'a>>>, Starved> {
    let p = Piece {
        marks: &*marks,
        ..*piece
    };
    let r = read(alloc, &p);
    if r.spent {
        return Err(Starved);
    }
    match put_reason(alloc, &p, &r, all) {
        Ok(Some(code)) => repaired(alloc, marks, &r, code),
        Ok(None) => Ok(None),
        Err(_) => Err(Starved),
    }
}

/// The reason at the first place where no reading of the piece goes on, and those behind it, as far as what is meant is known. None
/// where the piece is read.
pub fn reasons(alloc: Global, piece: &Piece<'_>) -> Result<Seq<Reason>, Starved> {
    let mut all = Seq::new(alloc);
    let mut marks = spliced(alloc, piece.marks, 0, 0, &[])?;
    for _ in 0..MOST_REASONS {
        match put_first(alloc, piece, marks.as_slice(), &mut all) {
            Ok(Some(next)) => marks = next,
            Ok(None) => return Ok(all),
            Err(_) => {
                drop(all);
                return Err(Starved);
            }
        }
    }
    Ok(all)
}
