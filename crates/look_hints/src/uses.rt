//! The literals and internal actions of a clause, by what they are for, each with the place of its token.

use crate::places::{
    Sought, argument, behind_brackets, behind_literal, behind_relation, next_item, place_of,
    trigger_at, word_at,
};
use crate::rules::Subject;
use asl_lexer::token::Sign;
use asl_parser::sentence::Sentence;
use asl_term::syntax::{ArgOf, Call, Expr, Formula, Literal, Plan};
use look_reasons::mark::{Mark, is_sign};
use std::alloc::Global;

/// A literal, what it is for, and where it begins: at its `~` or its functor.
#[derive(Clone, Copy)]
pub struct Use<'a> {
    pub part: Subject,
    pub literal: &'a Literal,
    pub at: usize,
}

/// A call of an internal action, and the place of its name.
#[derive(Clone, Copy)]
pub struct Called<'a> {
    pub call: &'a Call,
    pub at: usize,
}

/// What is still to be gone through: a formula, or the place at which it goes on.
#[derive(Clone, Copy)]
enum Step<'a> {
    Formula(&'a Expr),
    From(usize),
}

/// The uses so far, what is still to be gone through, and whether memory was refused.
pub struct Uses<'a> {
    pub literals: Vec<Use<'a>>,
    pub calls: Vec<Called<'a>>,
    steps: Vec<Step<'a>>,
    pub spent: bool,
}

/// By hand, so that who lets one go proves nothing of its parts.
impl<'a> Drop for Uses<'a> {
    fn drop(self) {
        let Uses {
            literals: _,
            calls: _,
            steps: _,
            spent: _,
        } = self;
    }
}

impl<'a> Uses<'a> {
    fn step(&mut self, step: Step<'a>) {
        if self.steps.push(step).is_err() {
            self.spent = true;
        }
    }

    /// Puts a literal whose functor stands at or behind a place. The place behind it.
    fn put_literal(
        &mut self,
        marks: &[Mark<'_>],
        from: usize,
        part: Subject,
        literal: &'a Literal,
    ) -> usize {
        let functor = place_of(marks, from, Sought::Atom);
        let at = if literal.neg {
            functor.saturating_sub(1)
        } else {
            functor
        };
        if self.literals.push(Use { part, literal, at }).is_err() {
            self.spent = true;
        }
        behind_literal(marks, functor)
    }

    /// Puts a call whose name stands at or behind a place, and what is still to be gone through of it. The place of its name.
    fn put_call(&mut self, marks: &[Mark<'_>], from: usize, call: &'a Call) -> usize {
        let at = place_of(marks, from, Sought::Inner(call.name.as_slice()));
        if self.calls.push(Called { call, at }).is_err() {
            self.spent = true;
        }
        let open = at.saturating_add(1);
        self.step(Step::From(behind_brackets(marks, open)));
        let mut number: u64 = 0;
        for arg in call.args.as_slice() {
            if let ArgOf::Logic(e) = arg {
                if let Some(start) = argument(marks, open, number) {
                    self.step(Step::Formula(e));
                    self.step(Step::From(start));
                }
            }
            number = number.saturating_add(1);
        }
        at
    }

    /// Goes over a formula that begins at or behind a place, and tells the place where it goes on.
    fn go_over(&mut self, marks: &[Mark<'_>], at: usize, e: &'a Expr) -> usize {
        match e {
            Expr::True | Expr::False => at,
            Expr::Holds(l) => self.put_literal(marks, at, Subject::Held, l),
            Expr::Rel(_) => behind_relation(marks, at),
            Expr::Inner(c) => self.put_call(marks, at, c),
            Expr::Not(inner) => {
                self.step(Step::Formula(inner.get()));
                at
            }
            Expr::And(left, right) | Expr::Or(left, right) => {
                self.step(Step::Formula(right.get()));
                self.step(Step::Formula(left.get()));
                at
            }
        }
    }

    /// Goes through all that is left, and begins at or behind a place.
    fn walk(&mut self, marks: &[Mark<'_>], from: usize) {
        let mut at = from;
        // Each part of a formula has a token of its own.
        let most = marks.len().saturating_mul(4).saturating_add(4);
        for _ in 0..most {
            let Some(next) = self.steps.pop() else {
                return;
            };
            at = match next {
                Step::From(place) => place,
                Step::Formula(e) => self.go_over(marks, at, e),
            };
        }
        self.steps.clear();
    }

    fn put_plan(&mut self, marks: &[Mark<'_>], p: &'a Plan) {
        let functor = place_of(marks, trigger_at(marks), Sought::Atom);
        let colon = behind_literal(marks, functor);
        if is_sign(word_at(marks, colon), Sign::Colon) {
            self.step(Step::Formula(&p.context));
            self.walk(marks, colon.saturating_add(1));
        }
        let mut at = place_of(marks, 0, Sought::Sign(Sign::LeftArrow));
        for f in p.body.as_slice() {
            at = next_item(marks, at);
            if let Formula::Inner(c) = f {
                let name = self.put_call(marks, at, c);
                self.walk(marks, name);
            }
            if let Some((part, l)) = literal_of(f) {
                self.put_literal(marks, at, part, l);
            }
        }
    }
}

/// The literal of an item, and what it is for.
pub fn literal_of(f: &Formula) -> Option<(Subject, &Literal)> {
    match f {
        Formula::Achieve(l) | Formula::Spawn(l) => Some((Subject::Posted, l)),
        Formula::Test(l) => Some((Subject::Tested, l)),
        Formula::Add(l) => Some((Subject::Added, l)),
        Formula::Del(l) => Some((Subject::Deleted, l)),
        Formula::Replace(l) => Some((Subject::Replaced, l)),
        Formula::Act(l) => Some((Subject::Acted, l)),
        Formula::Inner(_) | Formula::Rel(_) => None,
    }
}

/// The uses of a clause with these tokens; where memory is refused, some of them.
pub fn uses_of<'a>(alloc: Global, marks: &[Mark<'_>], said: &'a Sentence) -> Uses<'a> {
    let mut uses = Uses {
        literals: Vec::new(alloc),
        calls: Vec::new(alloc),
        steps: Vec::new(alloc),
        spent: false,
    };
    match said {
        Sentence::Plan(p) => uses.put_plan(marks, p),
        Sentence::Rule(r) => {
            let sign = place_of(marks, 0, Sought::Sign(Sign::If));
            if sign < marks.len() {
                uses.step(Step::Formula(&r.body));
                uses.walk(marks, sign.saturating_add(1));
            }
        }
        Sentence::Belief(_) => {}
        Sentence::Goal(_) => {}
    }
    uses
}
