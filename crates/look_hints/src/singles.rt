//! Variables that occur once.

use crate::hint::span_to;
use crate::places::{Sought, place_of};
use crate::rules::Subject;
use crate::sight::{Sight, sight_of};
use crate::telling::Sheet;
use crate::uses::literal_of;
use asl_lexer::token::{Sign, Word};
use asl_parser::sentence::Sentence;
use asl_parser_tree::plain::{is_plain, is_plain_literal};
use asl_term::name::name_of;
use asl_term::syntax::{ArgOf, Call, Expr, Formula, Literal, Plan, Term, Var};
use asl_term::variables::occurs;
use look_reasons::mark::Mark;
use std::alloc::Global;

/// Whether a variable has this one token in its clause, and no `_` in front.
fn is_single(marks: &[Mark<'_>], m: &Mark<'_>) -> bool {
    if !matches!(m.word, Word::Var) || m.text.starts_with(b"_") {
        return false;
    }
    let mut count: u64 = 0;
    for other in marks {
        if matches!(other.word, Word::Var) && other.text == m.text {
            count = count.saturating_add(1);
        }
    }
    count == 1
}

fn stands_in(ts: &[Term], x: &Var) -> bool {
    for t in ts {
        if occurs(x, t) {
            return true;
        }
    }
    false
}

fn stands_in_literal(l: &Literal, x: &Var) -> bool {
    stands_in(l.args.as_slice(), x) || stands_in(l.annots.as_slice(), x)
}

/// Whether a term with this variable is calculated.
fn is_calculated(t: &Term, x: &Var) -> bool {
    !is_plain(t) && occurs(x, t)
}

/// The most parts of a formula.
const MOST_PARTS: u64 = 10_000;

/// The parts of a formula that are still to be looked at, and whether memory was refused.
struct Parts<'a> {
    left: Vec<&'a Expr>,
    spent: bool,
}

/// By hand, so that who lets one go proves nothing of its parts.
impl<'a> Drop for Parts<'a> {
    fn drop(self) {
        let Parts { left: _, spent: _ } = self;
    }
}

impl<'a> Parts<'a> {
    fn keep(&mut self, e: &'a Expr) {
        if self.left.push(e).is_err() {
            self.spent = true;
        }
    }

    /// Whether a part of a formula has a calculated term with this variable; other parts in it are kept for later.
    fn is_calculated(&mut self, e: &'a Expr, x: &Var) -> bool {
        match e {
            Expr::True | Expr::False => {}
            Expr::Holds(l) => return !is_plain_literal(l) && stands_in_literal(l, x),
            Expr::Rel(r) => return is_calculated(&r.left, x) || is_calculated(&r.right, x),
            Expr::Inner(c) => return self.is_call_calculated(c, x),
            Expr::Not(inner) => self.keep(inner.get()),
            Expr::And(first, second) | Expr::Or(first, second) => {
                self.keep(first.get());
                self.keep(second.get());
            }
        }
        false
    }

    /// The same of the arguments of a call.
    fn is_call_calculated(&mut self, c: &'a Call, x: &Var) -> bool {
        for a in c.args.as_slice() {
            match a {
                ArgOf::Plain(t) => {
                    if is_calculated(t, x) {
                        return true;
                    }
                }
                ArgOf::Logic(e) => self.keep(e),
            }
        }
        false
    }

    /// Whether a call has a calculated term with this variable.
    fn has_calculated(&mut self, c: &'a Call, x: &Var) -> bool {
        self.left.clear();
        let mut found = self.is_call_calculated(c, x);
        for _ in 0..MOST_PARTS {
            if found {
                break;
            }
            let Some(e) = self.left.pop() else {
                break;
            };
            found = self.is_calculated(e, x);
        }
        found
    }

    /// How an item fails since this variable has no value.
    fn failure(&mut self, f: &'a Formula, x: &Var) -> &'static [u8] {
        let fails = match (f, literal_of(f)) {
            (_, Some((part, l))) => {
                let plain = is_plain_literal(l);
                let wants = matches!(part, Subject::Added | Subject::Replaced | Subject::Acted);
                if wants && stands_in_literal(l, x) {
                    return if plain {
                        b" fails with not_ground"
                    } else {
                        b" fails with arith"
                    };
                }
                !wants && !plain && stands_in_literal(l, x)
            }
            (Formula::Rel(r), _) => is_calculated(&r.left, x) || is_calculated(&r.right, x),
            (Formula::Inner(c), _) => self.has_calculated(c, x),
            _ => false,
        };
        if fails { b" may fail with arith" } else { b"" }
    }
}

/// An item that fails, and how.
#[derive(Clone, Copy)]
struct Failing<'a> {
    item: Option<&'a Formula>,
    how: &'static [u8],
}

/// The first item of a plan that wants a value for a variable without one.
fn first_failing<'a>(alloc: Global, p: &'a Plan, x: &Var, sheet: &mut Sheet) -> Failing<'a> {
    let mut parts = Parts {
        left: Vec::new(alloc),
        spent: false,
    };
    let mut failing = Failing {
        item: None,
        how: b"",
    };
    for item in p.body.as_slice() {
        let how = parts.failure(item, x);
        if !how.is_empty() {
            failing = Failing {
                item: Some(item),
                how,
            };
            break;
        }
    }
    if parts.spent {
        sheet.spent = true;
    }
    failing
}

/// The same for the variable of this name.
fn failing_item<'a>(
    alloc: Global,
    plan: Option<&'a Plan>,
    name: &[u8],
    sheet: &mut Sheet,
) -> Failing<'a> {
    if let Some(p) = plan {
        match name_of(alloc, name) {
            Ok(name) => {
                let x = Var { name, number: 0 };
                let failing = first_failing(alloc, p, &x, sheet);
                drop(x);
                return failing;
            }
            Err(_) => sheet.spent = true,
        }
    }
    Failing {
        item: None,
        how: b"",
    }
}

/// Puts the hints at the variables of a clause that occur once; of the plan that it is.
pub fn put_singles<'a>(
    alloc: Global,
    marks: &'a [Mark<'a>],
    subject: Subject,
    plan: Option<&'a Plan>,
    sheet: &mut Sheet,
) {
    for (k, m) in marks.iter().enumerate() {
        if is_single(marks, m) {
            let failing = failing_item(alloc, plan, m.text, sheet);
            sheet.look(&Sight {
                text: m.text,
                rest: failing.how,
                item: failing.item,
                ..sight_of(subject, span_to(marks, k, k))
            });
        }
    }
}

/// Puts the hints at the variables of a source's clause that occur once. A rule without a body is a belief.
pub fn put_once<'a>(alloc: Global, marks: &'a [Mark<'a>], said: &'a Sentence, sheet: &mut Sheet) {
    let belief = place_of(marks, 0, Sought::Sign(Sign::If)) >= marks.len();
    let (subject, plan) = match said {
        Sentence::Plan(p) => (Subject::Once, Some(p)),
        Sentence::Rule(_) if belief => (Subject::OpenBelief, None),
        _ => (Subject::Once, None),
    };
    put_singles(alloc, marks, subject, plan, sheet);
}
