//! What a call answers.

use asl_term::copying::copy_var;
use asl_term::printing::{print, write_number};
use asl_term::printing_expr::{print_expr, print_formula, print_literal};
use asl_term::sequence::{Seq, Starved};
use asl_term::syntax::{Expr, Formula, Literal, Term, Text, Trigger, Var};
use asl_unify::subst::Subst;
use std::alloc::Global;
use std::fmt::Debug;

/// A text, as far as it came, and the first reason, if any, for which there is no answer.
#[derive(Drop)]
pub struct Out {
    pub alloc: Global,
    pub text: Text,
    pub fault: Option<&'static str>,
}

impl Out {
    /// An empty text, and no reason against an answer.
    pub fn new(alloc: Global) -> Out {
        Out {
            alloc,
            text: Seq::new(alloc),
            fault: None,
        }
    }

    /// Says why there is no answer. The first reason stays.
    pub fn refuse(&mut self, reason: &'static str) {
        if self.fault.is_none() {
            self.fault = Some(reason);
        }
    }

    /// Refuses where memory is short.
    pub fn check(&mut self, outcome: Result<(), Starved>) {
        if outcome.is_err() {
            self.refuse("memory");
        }
    }

    /// Some bytes, as they are.
    pub fn put(&mut self, bytes: &[u8]) {
        let outcome = self.text.append(bytes);
        self.check(outcome);
    }

    /// A number in decimal.
    pub fn number(&mut self, number: u64) {
        let outcome = write_number(self.alloc, number, &mut self.text);
        self.check(outcome);
    }

    /// A word, a blank and a number.
    pub fn counted(&mut self, word: &[u8], number: u64) {
        self.put(word);
        self.put(b" ");
        self.number(number);
    }

    /// What stands between two answers: nothing before the first.
    pub fn between(&mut self, mark: &[u8]) {
        if self.text.len() > 0 {
            self.put(mark);
        }
    }

    /// The word `yes` where something holds, and `no` where it does not.
    pub fn yes(&mut self, holds: bool) {
        self.put(if holds { b"yes" } else { b"no" });
    }

    /// What is told of a value to those who look for a fault.
    pub fn told<T: Debug>(&mut self, value: &T) {
        match format!(in self.alloc; "{value:?}") {
            Ok(text) => self.put(text.as_bytes()),
            Err(_) => self.refuse("memory"),
        }
    }

    /// A term, as it is printed.
    pub fn term(&mut self, term: &Term) {
        let outcome = print(term, &mut self.text);
        self.check(outcome);
    }

    /// A literal, with its sign and its annotations.
    pub fn literal(&mut self, literal: &Literal) {
        let outcome = print_literal(literal, &mut self.text);
        self.check(outcome);
    }

    /// A formula of a context or of the body of a rule.
    pub fn expr(&mut self, expr: &Expr) {
        let outcome = print_expr(expr, &mut self.text);
        self.check(outcome);
    }

    /// An item of the body of a plan.
    pub fn formula(&mut self, formula: &Formula) {
        let outcome = print_formula(formula, &mut self.text);
        self.check(outcome);
    }

    /// A variable, with its number where a renaming gave it one.
    pub fn var(&mut self, var: &Var) {
        match copy_var(self.alloc, var) {
            Ok(var) => {
                let term = Term::Var(var);
                self.term(&term);
                drop(term);
            }
            Err(starved) => self.check(Err(starved)),
        }
    }

    /// The pairs in the order in which they were bound, `none` where there are none.
    pub fn subst(&mut self, subst: &Subst) {
        let mut mark = b"".as_slice();
        for pair in subst.pairs() {
            self.put(mark);
            self.var(&pair.var);
            self.put(b" = ");
            self.term(&pair.term);
            mark = b", ".as_slice();
        }
        if subst.pairs().is_empty() {
            self.put(b"none");
        }
    }

    /// Substitutions in order, `nothing` where there is none.
    pub fn substs(&mut self, all: &[Subst]) {
        let mut mark = b"".as_slice();
        for subst in all {
            self.put(mark);
            self.subst(subst);
            mark = b" | ".as_slice();
        }
        if all.is_empty() {
            self.put(b"nothing");
        }
    }

    /// An event of a belief.
    pub fn event(&mut self, event: &Trigger) {
        self.between(b" ");
        self.put(if event.add { b"+" } else { b"-" });
        self.literal(&event.lit);
    }

    /// Events of beliefs, in order, with a blank between two of them.
    pub fn events(&mut self, events: &[Trigger]) {
        for event in events {
            self.event(event);
        }
    }
}
