//! What expressions mean as they are read, before it is known whether a term or a formula is wanted.

ghost use Rattle.std.specs.Prelude.{◌≡◌, IfOk};
ghost use Rattle.asl_parser_tree.specs.declared.meaning.Meaning.TheVariants as variant;
ghost use Rattle.asl_parser_tree.specs.Meanings as spec;

use asl_term::boxed::Boxed;
use asl_term::copying::text_of;
use asl_term::sequence::{Seq, Starved};
use asl_term::syntax::{ArithOf, Call, Expr, Literal, LiteralOf, Op, RelOp, Relation, Term, Text};
use asl_term_actions::action::{Action, Collector, stands_in_formula};
use asl_term_actions::named::{known, named};
use std::alloc::Global;

/// What an expression means. The large ones are boxed, since the reader's frames hold many of them at each level of brackets.
#[derive(Drop)]
pub enum Meaning {
    /// The word `true` or `false`: a constant where a formula is wanted, and this atom where a term is.
    Truth(bool, Literal),
    /// A term, and a formula too.
    Literal(Literal),
    /// Another term.
    Term(Term),
    Relation(Boxed<Relation>),
    Call(Call),
    /// A formula with `not`, `&` or `|`.
    Formula(Boxed<Expr>),
}

/// What stands between two operands of one level.
#[derive(Clone, Copy, Drop)]
pub enum Joint {
    Or,
    And,
    Arith(Op),
}

/// What stands before an operand.
#[derive(Clone, Copy, Drop)]
pub enum Prefix {
    Not,
    Minus,
}

/// Whether there is a pure internal action of this name with so many arguments: one that may stand
/// in contexts, rules and bodies.
#[tactic(auto, unfolding(crate::specs::Meanings::is_pure))]
pub fn is_pure(name: &Text, count: u64) -> bool
    ensures { result ≡ spec.is_pure name.now count }
{
    match known(name, count) {
        Some(action) => stands_in_formula(action),
        None => false,
    }
}

/// Whether there is an internal action of this name with so many arguments that is an item
/// of bodies alone.
#[tactic(auto, unfolding(crate::specs::Meanings::is_deed))]
pub fn is_deed(name: &Text, count: u64) -> bool
    ensures { result ≡ spec.is_deed name.now count }
{
    match known(name, count) {
        Some(action) => !stands_in_formula(action),
        None => false,
    }
}

/// Whether an internal action takes a formula at this place of its arguments, counted from 0. Only
/// `.findall` and `.count` do; all other arguments are terms.
#[tactic(auto, unfolding(crate::specs::Meanings::wants_formula))]
pub fn wants_formula(name: &Text, place: u64) -> bool
    ensures { result ≡ spec.wants_formula name.now place }
{
    match named(name) {
        Some(Action::Collects(Collector::Findall)) => place == 1,
        Some(Action::Collects(Collector::Count)) => place == 0,
        Some(Action::Looks(_) | Action::Print | Action::Fail | Action::Does(_)) | None => false,
    }
}

/// A positive literal that is a name alone. The name moves into it, and no memory is taken.
pub fn atom(alloc: Global, name: Text) -> Literal
    ensures { result ≡ spec.atom name }
{
    LiteralOf {
        neg: false,
        functor: name,
        args: Seq::new(alloc),
        annots: Seq::new(alloc),
    }
}

/// The text of the word, for where it stands as an atom or as a label. `Starved` comes only when
/// memory runs out.
pub fn truth_name(alloc: Global, b: bool) -> Result<Text, Starved>
    ensures { IfOk result (λ r. r ≡ spec.truth_name b) }
{
    if b {
        text_of(alloc, b"true".as_slice())
    } else {
        text_of(alloc, b"false".as_slice())
    }
}

/// The word as an expression of its own.
pub fn truth(alloc: Global, b: bool) -> Result<Meaning, Starved>
    ensures { IfOk result (λ m. m ≡ spec.truth b) }
{
    Ok(Meaning::Truth(b, atom(alloc, truth_name(alloc, b)?)))
}

/// As a term.
pub fn as_term(m: Meaning) -> Option<Term>
    ensures { result ≡ spec.as_term m }
{
    match m {
        Meaning::Truth(_, l) => Some(Term::Lit(l)),
        Meaning::Literal(l) => Some(Term::Lit(l)),
        Meaning::Term(t) => Some(t),
        Meaning::Relation(r) => {
            drop(r);
            None
        }
        Meaning::Call(c) => {
            drop(c);
            None
        }
        Meaning::Formula(e) => {
            drop(e);
            None
        }
    }
}

/// As a formula, which holds no action of a body.
pub fn as_formula(m: Meaning) -> Option<Expr>
    ensures { result ≡ spec.as_formula m }
{
    match m {
        Meaning::Truth(b, l) => {
            drop(l);
            if b {
                Some(Expr::True)
            } else {
                Some(Expr::False)
            }
        }
        Meaning::Literal(l) => Some(Expr::Holds(l)),
        Meaning::Term(t) => {
            drop(t);
            None
        }
        Meaning::Relation(r) => Some(Expr::Rel(r.into_inner())),
        Meaning::Call(c) => {
            if is_pure(&c.name, c.args.len()) {
                Some(Expr::Inner(c))
            } else {
                drop(c);
                None
            }
        }
        Meaning::Formula(e) => Some(e.into_inner()),
    }
}

fn arith(alloc: Global, op: Op, left: Term, right: Term) -> Result<Term, Starved>
    ensures { IfOk result (λ t. t ≡ spec.arith op left right) }
{
    let left = match Boxed::new(alloc, left) {
        Ok(left) => left,
        Err(starved) => {
            drop(right);
            return Err(starved);
        }
    };
    let right = Boxed::new(alloc, right)?;
    Ok(Term::Op(ArithOf { op, left, right }))
}

fn both_terms(left: Meaning, right: Meaning) -> Option<(Term, Term)>
    ensures { result ≡ spec.both_terms left right }
{
    let Some(left) = as_term(left) else {
        drop(right);
        return None;
    };
    let Some(right) = as_term(right) else {
        drop(left);
        return None;
    };
    Some((left, right))
}

fn both_formulas(left: Meaning, right: Meaning) -> Option<(Expr, Expr)>
    ensures { result ≡ spec.both_formulas left right }
{
    let Some(left) = as_formula(left) else {
        drop(right);
        return None;
    };
    let Some(right) = as_formula(right) else {
        drop(left);
        return None;
    };
    Some((left, right))
}

fn either_of(alloc: Global, left: Expr, right: Expr) -> Result<Expr, Starved>
    ensures { IfOk result (λ e. e ≡ spec.either_of left right) }
{
    let left = match Boxed::new(alloc, left) {
        Ok(left) => left,
        Err(starved) => {
            drop(right);
            return Err(starved);
        }
    };
    let right = Boxed::new(alloc, right)?;
    Ok(Expr::Or(left, right))
}

fn both_of(alloc: Global, left: Expr, right: Expr) -> Result<Expr, Starved>
    ensures { IfOk result (λ e. e ≡ spec.both_of left right) }
{
    let left = match Boxed::new(alloc, left) {
        Ok(left) => left,
        Err(starved) => {
            drop(right);
            return Err(starved);
        }
    };
    let right = Boxed::new(alloc, right)?;
    Ok(Expr::And(left, right))
}

fn formula(alloc: Global, e: Expr) -> Result<Meaning, Starved>
    ensures { IfOk result (λ m. m ≡ variant.Formula e) }
{
    Ok(Meaning::Formula(Boxed::new(alloc, e)?))
}

/// Two operands and what stands between them.
#[tactic(auto, unfolding(crate::specs::Meanings::joined))]
pub fn joined(
    alloc: Global,
    joint: Joint,
    left: Meaning,
    right: Meaning,
) -> Result<Option<Meaning>, Starved>
    ensures { IfOk result (λ r. r ≡ spec.joined joint left right) }
{
    match joint {
        Joint::Or => match both_formulas(left, right) {
            Some((left, right)) => Ok(Some(formula(alloc, either_of(alloc, left, right)?)?)),
            None => Ok(None),
        },
        Joint::And => match both_formulas(left, right) {
            Some((left, right)) => Ok(Some(formula(alloc, both_of(alloc, left, right)?)?)),
            None => Ok(None),
        },
        Joint::Arith(op) => match both_terms(left, right) {
            Some((left, right)) => Ok(Some(Meaning::Term(arith(alloc, op, left, right)?))),
            None => Ok(None),
        },
    }
}

/// Two terms and a relation between them.
#[tactic(auto, unfolding(crate::specs::Meanings::compared))]
pub fn compared(
    alloc: Global,
    op: RelOp,
    left: Meaning,
    right: Meaning,
) -> Result<Option<Meaning>, Starved>
    ensures { IfOk result (λ r. r ≡ spec.compared op left right) }
{
    match both_terms(left, right) {
        Some((left, right)) => {
            let related = Boxed::new(alloc, Relation { op, left, right })?;
            Ok(Some(Meaning::Relation(related)))
        }
        None => Ok(None),
    }
}

/// An operand and what stands before it.
#[tactic(auto, unfolding(crate::specs::Meanings::prefixed))]
pub fn prefixed(alloc: Global, prefix: Prefix, m: Meaning) -> Result<Option<Meaning>, Starved>
    ensures { IfOk result (λ r. r ≡ spec.prefixed prefix m) }
{
    match prefix {
        Prefix::Not => {
            let Some(e) = as_formula(m) else {
                return Ok(None);
            };
            Ok(Some(formula(alloc, Expr::Not(Boxed::new(alloc, e)?))?))
        }
        Prefix::Minus => {
            let Some(t) = as_term(m) else {
                return Ok(None);
            };
            Ok(Some(Meaning::Term(arith(alloc, Op::Sub, Term::Num(0), t)?)))
        }
    }
}
