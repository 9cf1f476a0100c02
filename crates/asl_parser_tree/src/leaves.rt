//! What single tokens are to the reader.

ghost use Rattle.std.specs.Prelude.{◌≡◌, IfOk, true};
ghost use Rattle.asl_parser_tree.specs.Leaves as spec;
ghost use Rattle.asl_parser_tree.specs.Leaves.{Gives, view_front, view_rest, view_text};

use crate::bounded::{Bounded, Held};
use crate::lexeme::Lexeme;
use crate::meaning::{Joint, Meaning, Prefix, truth};
use asl_lexer::token::Sign;
use asl_term::copying::copy_text;
use asl_term::name::name_of;
use asl_term::sequence::Starved;
use asl_term::syntax::{Op, RelOp, Term, Text, Var};
use std::alloc::Global;

/// A level of operators of one strength, which associate to the left.
#[derive(Clone, Copy, Drop)]
pub enum OperatorLevel {
    Or,
    And,
    Sum,
    Product,
}

/// Brackets.
#[derive(Clone, Copy, Drop)]
pub enum BracketShape {
    Round,
    Square,
}

/// How a primary begins.
#[derive(Clone, Copy, Drop)]
pub enum Start {
    /// `(`
    Bracket,
    /// `[`
    Square,
    /// The first token of a literal.
    Name,
    /// The name of an internal action.
    Dotted,
    Other,
}

/// Behind a comma at the front: one more argument, annotation, item of a list, or effect
/// has to follow.
pub fn after_comma(tokens: &[Lexeme]) -> Option<&[Lexeme]>
    ensures { view_rest result ≡ spec.after_comma tokens.now }
{
    match tokens {
        [Lexeme::Sign(Sign::Comma), rest @ ..] => Some(rest),
        _ => None,
    }
}

/// Behind the `|` before the tail of a list. Between formulas the same sign is an operator.
pub fn after_bar(tokens: &[Lexeme]) -> Option<&[Lexeme]>
    ensures { view_rest result ≡ spec.after_bar tokens.now }
{
    match tokens {
        [Lexeme::Sign(Sign::Bar), rest @ ..] => Some(rest),
        _ => None,
    }
}

/// Behind the `~` of a literal that is said to be false.
pub fn after_tilde(tokens: &[Lexeme]) -> Option<&[Lexeme]>
    ensures { view_rest result ≡ spec.after_tilde tokens.now }
{
    match tokens {
        [Lexeme::Sign(Sign::Tilde), rest @ ..] => Some(rest),
        _ => None,
    }
}

/// Behind an opening bracket of this shape. How many brackets may be open is not asked here.
pub fn after_open(shape: BracketShape, tokens: &[Lexeme]) -> Option<&[Lexeme]>
    ensures { view_rest result ≡ spec.after_open shape tokens.now }
{
    match (shape, tokens) {
        (BracketShape::Round, [Lexeme::Sign(Sign::Open), rest @ ..]) => Some(rest),
        (BracketShape::Square, [Lexeme::Sign(Sign::OpenSquare), rest @ ..]) => Some(rest),
        _ => None,
    }
}

/// Behind a closing bracket of this shape. One of the other shape does not close it.
pub fn after_close(shape: BracketShape, tokens: &[Lexeme]) -> Option<&[Lexeme]>
    ensures { view_rest result ≡ spec.after_close shape tokens.now }
{
    match (shape, tokens) {
        (BracketShape::Round, [Lexeme::Sign(Sign::Close), rest @ ..]) => Some(rest),
        (BracketShape::Square, [Lexeme::Sign(Sign::CloseSquare), rest @ ..]) => Some(rest),
        _ => None,
    }
}

/// The name of a literal, and what is behind it. `not`, `div`, `mod`, `true` and `false`
/// are no names.
pub fn name_at(tokens: &[Lexeme]) -> Option<(&Text, &[Lexeme])>
    ensures { view_text result ≡ spec.name_at tokens.now }
{
    match tokens {
        [Lexeme::Atom(name), rest @ ..] => Some((name, rest)),
        _ => None,
    }
}

/// The name of a variable, and what is behind it. Each `_` of a clause has a name of its own here.
pub fn variable_at(tokens: &[Lexeme]) -> Option<(&Text, &[Lexeme])>
    ensures { view_text result ≡ spec.variable_at tokens.now }
{
    match tokens {
        [Lexeme::Var(name), rest @ ..] => Some((name, rest)),
        _ => None,
    }
}

/// The name of an internal action without its dot, and what is behind it. Whether there is such an
/// action is asked with its arguments, by `called`.
pub fn inner_at(tokens: &[Lexeme]) -> Option<(&Text, &[Lexeme])>
    ensures { view_text result ≡ spec.inner_at tokens.now }
{
    match tokens {
        [Lexeme::Inner(name), rest @ ..] => Some((name, rest)),
        _ => None,
    }
}

fn joint_of(level: OperatorLevel, token: &Lexeme) -> Option<Joint>
    ensures { result ≡ spec.joint_of level token.now }
{
    match (level, token) {
        (OperatorLevel::Or, Lexeme::Sign(Sign::Bar)) => Some(Joint::Or),
        (OperatorLevel::And, Lexeme::Sign(Sign::Ampersand)) => Some(Joint::And),
        (OperatorLevel::Sum, Lexeme::Sign(Sign::Plus)) => Some(Joint::Arith(Op::Add)),
        (OperatorLevel::Sum, Lexeme::Sign(Sign::Minus)) => Some(Joint::Arith(Op::Sub)),
        (OperatorLevel::Product, Lexeme::Sign(Sign::Star)) => Some(Joint::Arith(Op::Mul)),
        (OperatorLevel::Product, Lexeme::Div) => Some(Joint::Arith(Op::Div)),
        (OperatorLevel::Product, Lexeme::Mod) => Some(Joint::Arith(Op::Mod)),
        _ => None,
    }
}

/// The operator of this level at the front, and what is behind it. None where the chain of operands
/// of this level ends.
pub fn joint_at(level: OperatorLevel, tokens: &[Lexeme]) -> Option<(Joint, &[Lexeme])>
    ensures { view_front result ≡ spec.joint_at level tokens.now }
{
    match tokens {
        [first, rest @ ..] => match joint_of(level, first) {
            Some(joint) => Some((joint, rest)),
            None => None,
        },
        [] => None,
    }
}

fn relation_of(token: &Lexeme) -> Option<RelOp>
    ensures { result ≡ spec.relation_of token.now }
{
    match token {
        Lexeme::Sign(Sign::Less) => Some(RelOp::Less),
        Lexeme::Sign(Sign::LessEq) => Some(RelOp::LessEq),
        Lexeme::Sign(Sign::More) => Some(RelOp::More),
        Lexeme::Sign(Sign::MoreEq) => Some(RelOp::MoreEq),
        Lexeme::Sign(Sign::Same) => Some(RelOp::Same),
        Lexeme::Sign(Sign::Differ) => Some(RelOp::Differ),
        Lexeme::Sign(Sign::Unify) => Some(RelOp::Unify),
        _ => None,
    }
}

/// The sign of a relation, and what is behind it. It stands between two sums, whose
/// operators bind closer.
pub fn relation_at(tokens: &[Lexeme]) -> Option<(RelOp, &[Lexeme])>
    ensures { view_front result ≡ spec.relation_at tokens.now }
{
    match tokens {
        [first, rest @ ..] => match relation_of(first) {
            Some(op) => Some((op, rest)),
            None => None,
        },
        [] => None,
    }
}

fn starts_number(tokens: &[Lexeme]) -> bool
    ensures { result ≡ spec.starts_number tokens.now }
{
    match tokens {
        [Lexeme::Num(_), ..] => true,
        _ => false,
    }
}

fn is_prefix(prefix: Prefix, token: &Lexeme, rest: &[Lexeme]) -> bool
    ensures { result ≡ spec.is_prefix prefix token.now rest.now }
{
    match (prefix, token) {
        (Prefix::Not, Lexeme::Not) => true,
        (Prefix::Minus, Lexeme::Sign(Sign::Minus)) => !starts_number(rest),
        _ => false,
    }
}

/// Behind a `not` or a minus at the front. A minus before a number is no prefix, but part
/// of the number.
pub fn after_prefix(prefix: Prefix, tokens: &[Lexeme]) -> Option<&[Lexeme]>
    ensures { view_rest result ≡ spec.after_prefix prefix tokens.now }
{
    match tokens {
        [first, rest @ ..] => {
            if is_prefix(prefix, first, rest) {
                Some(rest)
            } else {
                None
            }
        }
        [] => None,
    }
}

/// How the primary at the front begins, by its first token. `Other` is a number, a string, a
/// variable, `true` or `false`, and what begins none.
pub fn start_of(tokens: &[Lexeme]) -> Start
    ensures { result ≡ spec.start_of tokens.now }
{
    match tokens {
        [Lexeme::Sign(Sign::Open), ..] => Start::Bracket,
        [Lexeme::Sign(Sign::OpenSquare), ..] => Start::Square,
        [Lexeme::Sign(Sign::Tilde), ..] => Start::Name,
        [Lexeme::Atom(_), ..] => Start::Name,
        [Lexeme::Inner(_), ..] => Start::Dotted,
        _ => Start::Other,
    }
}

fn positive(k: u64) -> Option<i64>
    ensures { result ≡ spec.positive k }
{
    if k <= 9223372036854775807 {
        Some(k as i64)
    } else {
        None
    }
}

fn negative(k: u64) -> Option<i64>
    ensures { result ≡ spec.negative k }
{
    if k <= 9223372036854775807 {
        Some(0 - k as i64)
    } else {
        None
    }
}

fn number(n: Option<i64>, rest: &[Lexeme]) -> Option<(Held, &[Lexeme])>
    ensures { view_front result ≡ spec.number_by n rest.now }
{
    match n {
        Some(z) => Some((Bounded::Within(Meaning::Term(Term::Num(z))), rest)),
        None => None,
    }
}

fn negative_at(tokens: &[Lexeme]) -> Option<(Held, &[Lexeme])>
    ensures { view_front result ≡ spec.negative_by tokens.now }
{
    match tokens {
        [Lexeme::Num(k), rest @ ..] => number(negative(*k), rest),
        _ => None,
    }
}

/// A variable as it stands in a source, with the number 0. `Starved` comes only when
/// memory runs out.
pub fn variable(alloc: Global, name: &Text) -> Result<Term, Starved>
    ensures { IfOk result (λ t. t ≡ spec.variable name.now) }
{
    Ok(Term::Var(Var {
        name: name_of(alloc, name.as_slice())?,
        number: 0,
    }))
}

fn plain_at(tokens: &[Lexeme]) -> Option<(Held, &[Lexeme])>
    ensures { view_front result ≡ spec.plain_by tokens.now }
{
    match tokens {
        [Lexeme::Num(k), rest @ ..] => number(positive(*k), rest),
        [Lexeme::Sign(Sign::Minus), rest @ ..] => negative_at(rest),
        _ => None,
    }
}

fn truth_at(tokens: &[Lexeme]) -> Option<(bool, &[Lexeme])>
    ensures { view_front result ≡ spec.truth_at tokens.now }
{
    match tokens {
        [Lexeme::Truth(b), rest @ ..] => Some((*b, rest)),
        _ => None,
    }
}

fn string_at(tokens: &[Lexeme]) -> Option<(&Text, &[Lexeme])>
    ensures { view_text result ≡ spec.string_at tokens.now }
{
    match tokens {
        [Lexeme::Str(s), rest @ ..] => Some((s, rest)),
        _ => None,
    }
}

fn string(alloc: Global, s: &Text) -> Result<Held, Starved>
    ensures { IfOk result (λ m. m ≡ spec.string_of s.now) }
{
    Ok(Bounded::Within(Meaning::Term(Term::Str(copy_text(alloc, s)?))))
}

/// What is a token or two.
#[tactic(auto, unfolding(crate::specs::Leaves::token_by))]
pub fn token(alloc: Global, tokens: &[Lexeme]) -> Result<Option<(Held, &[Lexeme])>, Starved>
    ensures { Gives (λ x. (x.0, x.1.now)) result (spec.token_by tokens.now) }
{
    if let Some((s, rest)) = string_at(tokens) {
        return Ok(Some((string(alloc, s)?, rest)));
    }
    if let Some((name, rest)) = variable_at(tokens) {
        return Ok(Some((Bounded::Within(Meaning::Term(variable(alloc, name)?)), rest)));
    }
    if let Some((b, rest)) = truth_at(tokens) {
        return Ok(Some((Bounded::Within(truth(alloc, b)?), rest)));
    }
    Ok(plain_at(tokens))
}
