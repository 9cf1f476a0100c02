//! What the plans of a project send.

use crate::reading::ReadSource;
use asl_lint::goals::is_atom;
use asl_parser::sentence::Sentence;
use asl_term::compare::same_text;
use asl_term::sequence::Starved;
use asl_term::syntax::{ArgOf, Call, Formula, Term, Text};
use asl_term_actions::action::{Action, Deed};
use asl_term_actions::named::known;
use look_reasons::mark::is_listed;
use std::alloc::Global;

/// A message as it is written: to whom it goes, which is to all where there is none, its verb, what it says.
#[derive(Clone, Copy)]
pub struct Sent<'a> {
    pub to: Option<&'a Term>,
    pub verb: &'a Term,
    pub content: &'a Term,
}

/// The message that a call sends.
pub fn sent_by(c: &Call) -> Option<Sent<'_>> {
    let all = match known(&c.name, c.args.len()) {
        Some(Action::Does(Deed::Send)) => false,
        Some(Action::Does(Deed::Broadcast)) => true,
        _ => return None,
    };
    match c.args.as_slice() {
        [ArgOf::Plain(verb), ArgOf::Plain(content)] if all => Some(Sent {
            to: None,
            verb,
            content,
        }),
        [
            ArgOf::Plain(to),
            ArgOf::Plain(verb),
            ArgOf::Plain(content),
            ..
        ] if !all => Some(Sent {
            to: Some(to),
            verb,
            content,
        }),
        _ => None,
    }
}

/// The name that a term is, where it is an atom.
pub fn atom_of(t: &Term) -> Option<&Text> {
    match t {
        Term::Lit(l) if is_atom(l) => Some(&l.functor),
        _ => None,
    }
}

/// Whether a verb is one of these words, or may be, since it is no atom.
pub fn may_be(verb: &Term, words: &[u8]) -> bool {
    match atom_of(verb) {
        Some(v) => is_listed(words, v.as_slice()),
        None => true,
    }
}

/// Whether one of the names is this.
pub fn is_among(names: &[Text], name: &Text) -> bool {
    for n in names {
        if same_text(n, name) {
            return true;
        }
    }
    false
}

/// Whether a term is the name of one of these agents.
pub fn is_one_of(to: &Term, agents: &[Text]) -> bool {
    match atom_of(to) {
        Some(name) => is_among(agents, name),
        None => false,
    }
}

/// The messages of all plans.
pub fn all_sent<'a>(alloc: Global, sources: &'a [ReadSource]) -> Result<Vec<Sent<'a>>, Starved> {
    let mut all = Vec::new(alloc);
    let mut spent = false;
    for s in sources {
        for c in s.clauses.as_slice() {
            for f in body_of(&c.said) {
                if let Formula::Inner(call) = f {
                    if let Some(sent) = sent_by(call) {
                        spent = all.push(sent).is_err() || spent;
                    }
                }
            }
        }
    }
    if spent { Err(Starved) } else { Ok(all) }
}

/// The items of a plan.
fn body_of(said: &Sentence) -> &[Formula] {
    match said {
        Sentence::Plan(p) => p.body.as_slice(),
        _ => &[],
    }
}

/// Whether some message may tell a plan.
pub fn tells_plans(all: &[Sent<'_>]) -> bool {
    for s in all {
        if may_be(s.verb, b"tellHow") {
            return true;
        }
    }
    false
}
