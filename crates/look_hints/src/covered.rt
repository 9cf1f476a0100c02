//! Plans that are never taken, and goals that never end.

use crate::places::trigger_at;
use crate::project::Here;
use crate::rules::Subject;
use crate::sight::{Sight, asked_of, sight_at};
use crate::telling::Sheet;
use crate::uses::literal_of;
use asl_lint::covers::covers;
use asl_parser::sentence::Sentence;
use asl_term::syntax::{Expr, Formula, Kind, Literal, Plan, Trigger};
use asl_term_actions::action::{Action, Deed};
use asl_term_actions::named::named;
use look_pieces::clause::{ReadClause, is_plan_for};
use look_pieces::name::same_name;
use look_reasons::mark::is_listed;

/// The plan that a clause is for events of this kind about the name of a literal.
fn plan_for<'a>(c: &'a ReadClause, add: bool, kind: Kind, l: &Literal) -> Option<&'a Plan> {
    match &c.said {
        Sentence::Plan(p) if is_plan_for(c, add, kind, l) => Some(p),
        _ => None,
    }
}

/// Whether an earlier plan takes each event that a plan takes: it has no context and no annotations, and its arguments match all that the plan's do.
fn takes_all(here: &Here<'_>, earlier: &ReadClause, t: &Trigger, sheet: &mut Sheet) -> bool {
    let takes = match plan_for(earlier, t.add, t.kind, &t.lit) {
        Some(p) if matches!(p.context, Expr::True) && p.trigger.lit.annots.len() == 0 => {
            covers(here.alloc, &p.trigger.lit, &t.lit)
        }
        _ => Ok(false),
    };
    match takes {
        Ok(takes) => takes,
        Err(_) => {
            sheet.spent = true;
            false
        }
    }
}

/// The line of the first plan before this one that takes all of its events.
fn taken_before(here: &Here<'_>, number: usize, t: &Trigger, sheet: &mut Sheet) -> Option<u64> {
    let clauses = here.member.source.clauses.as_slice();
    for c in &clauses[..number.min(clauses.len())] {
        if let [first, ..] = c.toks.as_slice() {
            if takes_all(here, c, t, sheet) {
                return Some(first.line);
            }
        }
    }
    None
}

/// Puts what is said of a plan's trigger; it has the line of an earlier plan, or 0.
fn put_trigger<'a>(
    here: &Here<'a>,
    subject: Subject,
    t: &'a Trigger,
    line: u64,
    sheet: &mut Sheet,
) {
    sheet.look(&Sight {
        asked: asked_of(here, here.member, &t.lit),
        line,
        ..sight_at(here, subject, trigger_at(here.marks))
    });
}

/// Puts a hint at a plan that is never taken, the one of this number of its source, from 0. Of the names of messages only the goals are looked at.
pub fn put_untaken<'a>(here: &Here<'a>, number: usize, t: &'a Trigger, sheet: &mut Sheet) {
    let functor = t.lit.functor.as_slice();
    let (subject, line) = if functor.starts_with(b"kqml_received") {
        let goal = is_listed(b"kqml_received kqml_received_error", functor);
        if !goal || !matches!(t.kind, Kind::Achieve) {
            return;
        }
        (Subject::Received, 0)
    } else {
        match (taken_before(here, number, t, sheet), t.kind, t.add) {
            (Some(line), _, _) => (Subject::Covered, line),
            (None, Kind::Achieve, _) => (Subject::Goal, 0),
            (None, Kind::Test, _) => (Subject::Question, 0),
            (None, Kind::Belief, true) => (Subject::Comes, 0),
            (None, Kind::Belief, false) => (Subject::Goes, 0),
        }
    };
    put_trigger(here, subject, t, line, sheet);
}

fn stops(f: &Formula) -> bool {
    match f {
        Formula::Inner(c) => matches!(named(&c.name), Some(Action::Does(Deed::StopMas))),
        _ => false,
    }
}

/// Whether a plan posts a goal, and does not stop the run.
fn goes_on(p: &Plan, l: &Literal) -> bool {
    let mut again = false;
    for f in p.body.as_slice() {
        if stops(f) {
            return false;
        }
        again = again
            || match literal_of(f) {
                Some((Subject::Posted, g)) => same_name(g, l),
                _ => false,
            };
    }
    again
}

/// Whether this clause is the first plan for a goal, and each plan for it goes on with it.
fn is_endless(clauses: &[ReadClause], number: usize, l: &Literal) -> bool {
    for (k, c) in clauses.iter().enumerate() {
        if let Some(p) = plan_for(c, true, Kind::Achieve, l) {
            if k < number || !goes_on(p, l) {
                return false;
            }
        }
    }
    true
}

/// Puts a hint at the first plan of a goal that never ends.
pub fn put_endless<'a>(here: &Here<'a>, number: usize, t: &'a Trigger, sheet: &mut Sheet) {
    let goal = t.add && matches!(t.kind, Kind::Achieve);
    if goal && is_endless(here.member.source.clauses.as_slice(), number, &t.lit) {
        put_trigger(here, Subject::Endless, t, 0, sheet);
    }
}
