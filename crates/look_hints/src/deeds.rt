//! The names of a source or of a world, in groups: what a source does with names, what it may be told, what a world shows and does.

use crate::reading::ReadSource;
use crate::rules::Subject;
use crate::sends::{Sent, is_one_of, may_be};
use crate::uses::{Uses, uses_of};
use asl_parser::sentence::Sentence;
use asl_term::copying::text_of;
use asl_term::sequence::Seq;
use asl_term::syntax::{Kind, Literal, Term};
use look_pieces::clause::ReadClause;
use look_pieces::name::{Name, NameSet, put_name};
use look_reasons::mark::marks_of;
use std::alloc::Global;

/// What the names of a group are.
#[derive(Clone, Copy)]
pub enum Set {
    /// Of beliefs that are written, added or replaced, and of the heads of rules.
    Made,
    Rules,
    /// Of goals and questions that are posted.
    Goals,
    Questions,
    /// Of beliefs and goals that messages may bring.
    Told,
    Asked,
    /// Of goals for which there are plans, and of beliefs in triggers.
    Planned,
    Heard,
    /// Of what is looked at, by contexts, rules and questions, and of what is taken away or replaced; `.abolish` may do so with any.
    Watched,
    Changed,
    /// Of the facts of a world that agents may see, and of its acts.
    Facts,
    Acts,
}

/// How many groups there are.
const GROUPS: u64 = 12;

/// The groups of the literals of a clause, by what they are for.
static USED: [(Subject, Set); 8] = [
    (Subject::Held, Set::Watched),
    (Subject::Posted, Set::Goals),
    (Subject::Tested, Set::Watched),
    (Subject::Tested, Set::Questions),
    (Subject::Added, Set::Made),
    (Subject::Deleted, Set::Changed),
    (Subject::Replaced, Set::Changed),
    (Subject::Replaced, Set::Made),
];

/// Names, and whether there may be any others.
pub struct Group {
    pub any: bool,
    pub names: NameSet,
}

/// By hand, so that who lets one go proves nothing of its parts.
impl Drop for Group {
    fn drop(self) {
        let Group { any: _, names: _ } = self;
    }
}

/// All groups, in the order of `Set`, and whether memory was refused.
pub struct Groups {
    pub alloc: Global,
    pub all: Seq<Group>,
    pub spent: bool,
}

/// By hand, so that who lets one go proves nothing of its parts.
impl Drop for Groups {
    fn drop(self) {
        let Groups {
            alloc: _,
            all: _,
            spent: _,
        } = self;
    }
}

pub fn new_groups(alloc: Global) -> Groups {
    let mut groups = Groups {
        alloc,
        all: Seq::new(alloc),
        spent: false,
    };
    for _ in 0..GROUPS {
        let group = Group {
            any: false,
            names: Seq::new(alloc),
        };
        if groups.all.push(group).is_err() {
            groups.spent = true;
        }
    }
    groups
}

impl Groups {
    pub fn put(&mut self, set: Set, l: &Literal) {
        let k = set as u64;
        if k < self.all.len() {
            let put = put_name(self.alloc, &mut self.all.at_mut(k).names, l);
            if put.is_err() {
                self.spent = true;
            }
        }
    }

    pub fn put_any(&mut self, set: Set) {
        let k = set as u64;
        if k < self.all.len() {
            self.all.at_mut(k).any = true;
        }
    }

    /// Puts a name of so many arguments.
    pub fn put_plain(&mut self, set: Set, functor: &[u8], count: u64) {
        let k = set as u64;
        if k < self.all.len() {
            match text_of(self.alloc, functor) {
                Ok(functor) => {
                    let name = Name {
                        neg: false,
                        functor,
                        count,
                    };
                    if self.all.at_mut(k).names.push(name).is_err() {
                        self.spent = true;
                    }
                }
                Err(_) => self.spent = true,
            }
        }
    }

    /// Puts the literal that a term is; one that is none may be any.
    pub fn put_term(&mut self, set: Set, t: &Term) {
        match t {
            Term::Lit(l) => self.put(set, l),
            _ => self.put_any(set),
        }
    }

    fn put_sentence(&mut self, s: &Sentence) {
        match s {
            Sentence::Belief(l) => self.put(Set::Made, l),
            Sentence::Rule(r) => self.put(Set::Rules, &r.head),
            Sentence::Goal(l) => self.put(Set::Goals, l),
            Sentence::Plan(p) => match p.trigger.kind {
                Kind::Achieve if p.trigger.add => self.put(Set::Planned, &p.trigger.lit),
                Kind::Belief => self.put(Set::Heard, &p.trigger.lit),
                _ => {}
            },
        }
    }

    /// Puts what a message may bring. Of a list each item is told.
    fn put_message(&mut self, s: &Sent<'_>) {
        if may_be(s.verb, b"tell untell") {
            match s.content {
                Term::List(l) if l.tail.is_none() => {
                    for t in l.items.as_slice() {
                        self.put_term(Set::Told, t);
                    }
                }
                t => self.put_term(Set::Told, t),
            }
        }
        if may_be(s.verb, b"achieve unachieve") {
            self.put_term(Set::Asked, s.content);
        }
    }

    /// Puts what a clause of this text does with literals.
    fn put_clause(&mut self, text: &[u8], c: &ReadClause) {
        self.put_sentence(&c.said);
        match marks_of(self.alloc, text, c.toks.as_slice()) {
            Ok(marks) => {
                let uses = uses_of(self.alloc, marks.as_slice(), &c.said);
                self.put_uses(&uses);
            }
            Err(_) => self.spent = true,
        }
    }

    fn put_uses(&mut self, uses: &Uses<'_>) {
        self.spent = self.spent || uses.spent;
        for u in uses.literals.as_slice() {
            for (part, set) in &USED {
                if *part as u64 == u.part as u64 {
                    self.put(*set, u.literal);
                }
            }
        }
        for c in uses.calls.as_slice() {
            if c.call.name.as_slice() == b"abolish".as_slice() {
                self.put_any(Set::Changed);
            }
        }
    }
}

/// What a source does, where these messages are sent in its project; where memory is refused, some of it.
pub fn deeds_of(alloc: Global, s: &ReadSource, sent: &[Sent<'_>]) -> Groups {
    let mut all = new_groups(alloc);
    for c in s.clauses.as_slice() {
        all.put_clause(s.text.as_slice(), c);
    }
    for m in sent {
        let reaches = match m.to {
            Some(Term::Var(_)) | None => true,
            Some(to) => is_one_of(to, s.agents.as_slice()),
        };
        if reaches {
            all.put_message(m);
        }
    }
    all
}
