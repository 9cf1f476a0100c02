//! What hints are about: a literal, a token or a variable of a clause, with what is known around it.

use crate::deeds::{Group, Groups, Set};
use crate::hint::{Span, span_to};
use crate::project::{Here, Member};
use crate::rules::{Among, Subject, Test};
use asl_term::syntax::{Formula, Literal, Term};
use asl_term_actions::action::stands_in_formula;
use asl_term_actions::named::named;
use look_pieces::clause::has_plan;
use look_pieces::name::has_name;

/// A literal, the source of whose agents something is asked about its name, and the names of the world.
#[derive(Clone, Copy)]
pub struct Asked<'a> {
    pub literal: &'a Literal,
    pub member: &'a Member,
    pub world: Option<&'a Groups>,
    /// Whether some message may tell a plan.
    pub tells_plans: bool,
}

/// What a hint may be about, and what is said of it.
#[derive(Clone, Copy)]
pub struct Sight<'a> {
    pub subject: Subject,
    pub span: Span,
    pub asked: Option<Asked<'a>>,
    /// A name or a token, and what follows from it.
    pub text: &'a [u8],
    pub rest: &'a [u8],
    /// The sources whose agents are named.
    pub members: &'a [Member],
    pub term: Option<&'a Term>,
    pub item: Option<&'a Formula>,
    pub line: u64,
}

pub fn sight_of(subject: Subject, span: Span) -> Sight<'static> {
    Sight {
        subject,
        span,
        asked: None,
        text: b"",
        rest: b"",
        members: &[],
        term: None,
        item: None,
        line: 0,
    }
}

/// What is seen at the token at a place.
pub fn sight_at(here: &Here<'_>, subject: Subject, at: usize) -> Sight<'static> {
    sight_of(subject, span_to(here.marks, at, at))
}

/// A literal, of which this source is asked.
pub fn asked_of<'a>(
    here: &Here<'a>,
    member: &'a Member,
    literal: &'a Literal,
) -> Option<Asked<'a>> {
    let world = match &here.project.world {
        Some(w) => Some(&w.names),
        None => None,
    };
    Some(Asked {
        literal,
        member,
        world,
        tells_plans: here.project.tells_plans,
    })
}

/// The groups among which some names are looked for.
pub fn sets_in(among: Among) -> &'static [Set] {
    match among {
        Among::Known => &[Set::Made, Set::Rules, Set::Told, Set::Facts],
        Among::Changing => &[Set::Made, Set::Told, Set::Facts],
        Among::Goals => &[Set::Goals],
        Among::Posted => &[Set::Goals, Set::Asked],
        Among::Questions => &[Set::Questions],
        Among::Planned => &[Set::Planned],
        Among::Used => &[Set::Heard, Set::Watched],
        Among::Changed => &[Set::Watched, Set::Changed],
        Among::Acts => &[Set::Acts],
    }
}

/// A group of the world, where there is one, or of the source.
pub fn group_of<'a>(a: &Asked<'a>, set: Set) -> Option<&'a Group> {
    let groups = match set {
        Set::Facts | Set::Acts => a.world,
        _ => Some(&a.member.deeds),
    };
    match groups {
        Some(groups) => groups.all.at(set as u64),
        None => None,
    }
}

/// Whether the name of the literal is one of these, or, where that counts, may be.
fn is_in(a: &Asked<'_>, among: Among, may: bool) -> bool {
    for set in sets_in(among) {
        if let Some(g) = group_of(a, *set) {
            if (may && g.any) || has_name(g.names.as_slice(), a.literal) {
                return true;
            }
        }
    }
    false
}

fn holds_of(a: &Asked<'_>, test: Test) -> bool {
    match test {
        Test::May(among) => is_in(a, among, true),
        Test::Is(among) => is_in(a, among, false),
        Test::TellsPlans => a.tells_plans,
        Test::Plan(add, kind) => {
            has_plan(a.member.source.clauses.as_slice(), add, kind, a.literal)
        }
        Test::World => a.world.is_some(),
        Test::Internal => named(&a.literal.functor).is_some(),
        Test::Deed => match named(&a.literal.functor) {
            Some(action) => !stands_in_formula(action),
            None => false,
        },
        Test::Item => false,
    }
}

/// Whether each of these tests holds, or does not, as is wanted. One of a literal does not hold where there is none.
pub fn hold(s: &Sight<'_>, tests: &[(Test, bool)]) -> bool {
    for (test, wanted) in tests {
        let holds = match (*test, &s.asked) {
            (Test::Item, _) => s.item.is_some(),
            (test, Some(a)) => holds_of(a, test),
            (_, None) => false,
        };
        if holds != *wanted {
            return false;
        }
    }
    true
}
