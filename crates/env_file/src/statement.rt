//! What a clause of a world file says.

use asl_parser_tree::bounded::Bounded;
use asl_term::sequence::Seq;
use asl_term::syntax::{Expr, Literal, Relation, Term, Text};

/// A part of a guard.
pub enum Part {
    Holds(Literal),
    /// `not` before a literal.
    Denied(Literal),
    Related(Relation),
}

/// By hand, so that a crate above that lets one go proves nothing of its parts.
impl Drop for Part {
    fn drop(self) {
        match self {
            Part::Holds(_) => {}
            Part::Denied(_) => {}
            Part::Related(_) => {}
        }
    }
}

pub type StatementParts = Seq<Part>;

/// What an act does: it adds a literal to the facts, takes one away, or drops the artifact of a name.
pub enum Effect {
    Added(Literal),
    Deleted(Literal),
    Dropped(Text),
}

/// By hand, so that a crate above that lets one go proves nothing of its parts.
impl Drop for Effect {
    fn drop(self) {
        match self {
            Effect::Added(_) => {}
            Effect::Deleted(_) => {}
            Effect::Dropped(_) => {}
        }
    }
}

pub type Effects = Seq<Effect>;

/// An act as it is written: its guard as one expression, and its effects in their order, without `true`.
pub struct WrittenAct {
    pub head: Literal,
    pub by: Term,
    pub guard: Option<Expr>,
    pub effects: Effects,
}

/// By hand, so that a crate above that lets one go proves nothing of its parts.
impl Drop for WrittenAct {
    fn drop(self) {
        let WrittenAct {
            head: _,
            by: _,
            guard: _,
            effects: _,
        } = self;
    }
}

/// What a clause says.
pub enum Statement {
    Fact(Literal),
    Hide(Text),
    Use(Text),
    Act(WrittenAct),
}

/// By hand, so that a crate above that lets one go proves nothing of its parts.
impl Drop for Statement {
    fn drop(self) {
        match self {
            Statement::Fact(_) => {}
            Statement::Hide(_) => {}
            Statement::Use(_) => {}
            Statement::Act(_) => {}
        }
    }
}

pub type HeldGuard = Bounded<Option<Expr>, ()>;

pub type HeldEffect = Bounded<Effect, ()>;

pub type HeldEffects = Bounded<Effects, ()>;

/// A statement, unless a tree of it is past the limits.
pub type HeldStatement = Bounded<Statement, ()>;
