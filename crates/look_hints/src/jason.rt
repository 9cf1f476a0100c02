//! Forms of a plan that are read and mean something else than in Jason.

use crate::messages::put_message;
use crate::places::{Sought, place_of, trigger_at, word_at};
use crate::project::Here;
use crate::rules::Subject;
use crate::sends::atom_of;
use crate::sight::{Sight, asked_of, sight_at};
use crate::telling::Sheet;
use crate::uses::{Called, Uses};
use asl_lexer::token::{Sign, Word};
use asl_parser_tree::plain::is_plain;
use asl_term::syntax::{ArgOf, Kind, Literal, Term, Trigger};
use look_reasons::mark::{Mark, is_listed};

/// Annotations that a failure has in Jason, and not here.
const FOREIGN: &[u8] = b"error_msg code code_src code_line reason env_failure_reason";

/// The errors of failures.
const ERRORS: &[u8] =
    b"no_relevant no_applicable action_failed ia_failed test_failed arith term_limit not_ground";

/// Errors that have another name here.
const RENAMED: &[u8] = b"constraint_failed test_goal_failed";

/// The internal actions that are about a goal.
const OF_GOALS: &[u8] = b"succeed_goal fail_goal intend";

/// Puts a hint about a word of a failure's trigger.
fn put_word<'a>(
    here: &Here<'_>,
    subject: Subject,
    text: &'a [u8],
    rest: &'a [u8],
    sheet: &mut Sheet,
) {
    let at = place_of(here.marks, trigger_at(here.marks), Sought::Text(text));
    sheet.look(&Sight {
        text,
        rest,
        ..sight_at(here, subject, at)
    });
}

/// Puts hints at an annotation of a failure's trigger.
fn put_annotation(here: &Here<'_>, l: &Literal, sheet: &mut Sheet) {
    let functor = l.functor.as_slice();
    if is_listed(FOREIGN, functor) {
        put_word(here, Subject::Annotation, functor, b"", sheet);
    }
    let name = match l.args.as_slice() {
        [t] if functor == b"error".as_slice() => atom_of(t),
        _ => None,
    };
    if let Some(name) = name {
        let name = name.as_slice();
        let note: &[u8] = if is_listed(RENAMED, name) {
            b"it is test_failed here"
        } else {
            b"there are: no_relevant no_applicable action_failed ia_failed test_failed arith term_limit not_ground"
        };
        if !is_listed(ERRORS, name) {
            put_word(here, Subject::Error, name, note, sheet);
        }
    }
}

/// Puts a hint where an internal action in a failure plan is about the goal that has failed.
fn put_of_goal<'a>(here: &Here<'a>, goal: &'a Literal, c: &Called<'a>, sheet: &mut Sheet) {
    let name = c.call.name.as_slice();
    let same = match here.marks.get(c.at.saturating_add(2)) {
        Some(m) => m.text == goal.functor.as_slice(),
        None => false,
    };
    if same && is_listed(OF_GOALS, name) {
        sheet.look(&Sight {
            text: name,
            asked: asked_of(here, here.member, goal),
            ..sight_at(here, Subject::FailedGoal, c.at)
        });
    }
}

/// Puts the hints at a plan for a failure.
fn put_failure<'a>(here: &Here<'a>, t: &'a Trigger, uses: &Uses<'a>, sheet: &mut Sheet) {
    for a in t.lit.annots.as_slice() {
        if let Term::Lit(l) = a {
            put_annotation(here, l, sheet);
        }
    }
    for c in uses.calls.as_slice() {
        put_of_goal(here, &t.lit, c, sheet);
    }
}

/// Whether a string stands beside a place.
fn is_beside_string(marks: &[Mark<'_>], at: usize) -> bool {
    let before = at > 0 && matches!(word_at(marks, at.saturating_sub(1)), Word::Str);
    before || matches!(word_at(marks, at.saturating_add(1)), Word::Str)
}

/// Puts hints at signs beside strings: at the first `+`, and at each relation of numbers.
fn put_signs(here: &Here<'_>, sheet: &mut Sheet) {
    let mut joined = false;
    for (k, m) in here.marks.iter().enumerate() {
        let subject = match m.word {
            Word::Sign(Sign::Plus) if !joined => Subject::Joined,
            Word::Sign(Sign::Less | Sign::LessEq | Sign::More | Sign::MoreEq) => Subject::Compared,
            _ => continue,
        };
        if is_beside_string(here.marks, k) {
            joined = joined || matches!(subject, Subject::Joined);
            sheet.look(&Sight {
                text: m.text,
                ..sight_at(here, subject, k)
            });
        }
    }
}

/// Puts a hint where what is collected has arithmetic.
fn put_collected(here: &Here<'_>, c: &Called<'_>, sheet: &mut Sheet) {
    let collects = c.call.name.as_slice() == b"findall".as_slice();
    match c.call.args.as_slice() {
        [ArgOf::Plain(t), ..] if collects && !is_plain(t) => sheet.look(&Sight {
            term: Some(t),
            ..sight_at(here, Subject::Collected, c.at)
        }),
        _ => {}
    }
}

/// Puts the hints at the forms of a plan, and at what its body sends.
pub fn put_forms<'a>(here: &Here<'a>, t: &'a Trigger, uses: &Uses<'a>, sheet: &mut Sheet) {
    if !t.add && !matches!(t.kind, Kind::Belief) {
        put_failure(here, t, uses, sheet);
    }
    put_signs(here, sheet);
    let arrow = place_of(here.marks, 0, Sought::Sign(Sign::LeftArrow));
    for c in uses.calls.as_slice() {
        if c.at > arrow {
            put_message(here, c, sheet);
            put_collected(here, c, sheet);
        }
    }
}
