//! What is read, kept within the limits of trees.

use crate::meaning::Meaning;
use asl_term::syntax::{Arg, Args, Expr, Listing, Literal, Term, Terms};

/// A tree within the limits, or what is still asked of one that is past them.
#[derive(Drop)]
pub enum Bounded<T, L> {
    Within(T),
    Past(L),
}

/// What is still asked of an expression that is past the limits, since a clause may yet be none.
#[derive(Clone, Copy, Drop)]
pub struct Outline {
    /// It may stand as a term.
    pub term: bool,
    /// It may stand as a formula.
    pub formula: bool,
    /// It may stand as an item of a body without a sign.
    pub item: bool,
    /// It is a term without arithmetic.
    pub plain: bool,
    /// As a formula it is one literal.
    pub literal: bool,
    /// As a formula, each of its parts, which `&` joins, is a literal, `not` before a literal, or a relation.
    pub parts: bool,
}

/// What an expression means, or what is still asked of it.
pub type Held = Bounded<Meaning, Outline>;

/// A term, or whether it is one without arithmetic.
pub type HeldTerm = Bounded<Term, bool>;

pub type HeldTerms = Bounded<Terms, bool>;

pub type HeldListing = Bounded<Listing, bool>;

pub type HeldLiteral = Bounded<Literal, Outline>;

/// A formula, or whether each of its parts is a literal, `not` before a literal, or a relation.
pub type HeldExpr = Bounded<Expr, bool>;

pub type HeldArg = Bounded<Arg, ()>;

pub type HeldArgs = Bounded<Args, ()>;
