//! What a clause says.

use asl_parser_tree::bounded::Bounded;
use asl_term::sequence::Seq;
use asl_term::syntax::{Clause, Formula, Formulas, Literal, Plan, Trigger};

/// The signs of the items of a body.
#[derive(Clone, Copy, Drop)]
pub enum ItemSign {
    Achieve,
    Spawn,
    Test,
    Add,
    Del,
    Replace,
}

/// What a clause says.
#[derive(Drop)]
pub enum Sentence {
    Belief(Literal),
    Rule(Clause),
    Goal(Literal),
    Plan(Plan),
}

pub type Sentences = Seq<Sentence>;

pub type HeldTrigger = Bounded<Trigger, ()>;

pub type HeldItem = Bounded<Formula, ()>;

pub type HeldBody = Bounded<Formulas, ()>;

/// A sentence, unless a tree of it is past the limits.
pub type HeldSentence = Bounded<Sentence, ()>;
