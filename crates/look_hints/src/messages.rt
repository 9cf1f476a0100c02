//! Messages to nobody, with a verb that is none, of goals, questions and beliefs for which a receiver has nothing.

use crate::places::{Sought, argument, place_of};
use crate::project::Here;
use crate::rules::Subject;
use crate::sends::{Sent, atom_of, is_among, is_one_of, sent_by};
use crate::sight::{Sight, asked_of, sight_at};
use crate::telling::Sheet;
use crate::uses::Called;
use asl_term::syntax::{Term, Text};
use look_reasons::mark::is_listed;

/// The verbs of messages to one agent and to all, and those of messages to one agent alone.
const VERBS: &[u8] = b"tell untell achieve unachieve tellHow untellHow";

const ASKS: &[u8] = b"askOne askAll askHow";

/// What is looked at of the content of a message with this verb.
fn looked_at(verb: &[u8]) -> Option<Subject> {
    if verb == b"tell".as_slice() {
        Some(Subject::Told)
    } else if verb == b"achieve".as_slice() {
        Some(Subject::Achieved)
    } else if is_listed(b"askOne askAll", verb) {
        Some(Subject::Asked)
    } else {
        None
    }
}

/// A message of a plan, and where its receiver or else its verb, its verb and its content begin.
#[derive(Clone, Copy)]
struct Written<'a> {
    sent: Sent<'a>,
    name: usize,
    first: usize,
    verb: usize,
    content: usize,
}

/// Puts a hint where the verb is none; a variable may be one. Else what is looked at of the content.
fn put_verb(here: &Here<'_>, w: &Written<'_>, sheet: &mut Sheet) -> Option<Subject> {
    let all = w.sent.to.is_none();
    let mut at = w.verb;
    if let Some(name) = atom_of(w.sent.verb) {
        let verb = name.as_slice();
        if is_listed(VERBS, verb) || (!all && is_listed(ASKS, verb)) {
            return looked_at(verb);
        }
        at = place_of(here.marks, w.verb, Sought::Atom);
    } else if !matches!(w.sent.verb, Term::Num(_) | Term::Str(_) | Term::List(_)) {
        return None;
    }
    let subject = if all {
        Subject::VerbToAll
    } else {
        Subject::Verb
    };
    sheet.look(&Sight {
        term: Some(w.sent.verb),
        ..sight_at(here, subject, at)
    });
    None
}

/// Puts the hints at what a message says to each of its receivers; one to a variable is left out.
fn put_content<'a>(here: &Here<'a>, w: &Written<'a>, subject: Subject, sheet: &mut Sheet) {
    let Term::Lit(l) = w.sent.content else {
        return;
    };
    let at = place_of(here.marks, w.content, Sought::Atom);
    for (k, m) in here.project.members.as_slice().iter().enumerate() {
        let agents = m.source.agents.as_slice();
        let goes = match w.sent.to {
            None => k != here.place || agents.len() > 1,
            Some(to) => is_one_of(to, agents),
        };
        if goes {
            sheet.look(&Sight {
                asked: asked_of(here, m, l),
                ..sight_at(here, subject, at)
            });
        }
    }
}

/// Whether an agent of the project has this name.
fn is_agent(here: &Here<'_>, name: &Text) -> bool {
    for m in here.project.members.as_slice() {
        if is_among(m.source.agents.as_slice(), name) {
            return true;
        }
    }
    false
}

/// Puts a hint where a message goes to a list or a string, or to a name that no agent has.
fn put_receiver<'a>(here: &Here<'a>, w: &Written<'a>, to: &'a Term, sheet: &mut Sheet) {
    match (to, atom_of(to)) {
        (Term::List(_), _) => sheet.look(&sight_at(here, Subject::ToList, w.name)),
        (Term::Str(_), _) => sheet.look(&sight_at(here, Subject::ToString, w.name)),
        (_, Some(name)) if !is_agent(here, name) => {
            let at = place_of(here.marks, w.first, Sought::Atom);
            sheet.look(&Sight {
                text: name.as_slice(),
                members: here.project.members.as_slice(),
                ..sight_at(here, Subject::ToNobody, at)
            });
        }
        _ => {}
    }
}

/// Puts the hints at a message.
pub fn put_message<'a>(here: &Here<'a>, c: &Called<'a>, sheet: &mut Sheet) {
    let Some(sent) = sent_by(c.call) else {
        return;
    };
    let open = c.at.saturating_add(1);
    let number: u64 = if sent.to.is_some() { 1 } else { 0 };
    let verb = argument(here.marks, open, number);
    let content = argument(here.marks, open, number.saturating_add(1));
    let (Some(verb), Some(content)) = (verb, content) else {
        return;
    };
    let w = Written {
        sent,
        name: c.at,
        first: open.saturating_add(1),
        verb,
        content,
    };
    if let Some(to) = sent.to {
        put_receiver(here, &w, to, sheet);
    }
    if let Some(subject) = put_verb(here, &w, sheet) {
        put_content(here, &w, subject, sheet);
    }
}
