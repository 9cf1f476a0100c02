//! What single tokens are to the reader of clauses.

ghost use Rattle.std.specs.Prelude.{◌≡◌};
ghost use Rattle.asl_parser_tree.specs.Leaves.{Gives, view_front, view_rest};
ghost use Rattle.asl_parser.specs.Sentences as grammar;
ghost use Rattle.asl_parser.specs.Speaking as spec;

use crate::sentence::ItemSign;
use asl_lexer::token::Sign;
use asl_parser_tree::lexeme::Lexeme;
use asl_parser_tree::meaning::truth_name;
use asl_term::copying::{copy_text, text_of};
use asl_term::sequence::Starved;
use asl_term::syntax::{Kind, Text};
use std::alloc::Global;

/// Behind the `@` of a label. A plan may be without one.
pub fn after_at(tokens: &[Lexeme]) -> Option<&[Lexeme]>
    ensures { view_rest result ≡ spec.after_at tokens.now }
{
    match tokens {
        [Lexeme::Sign(Sign::At), rest @ ..] => Some(rest),
        _ => None,
    }
}

/// Behind the `!` that begins the clause of an initial goal.
pub fn after_bang(tokens: &[Lexeme]) -> Option<&[Lexeme]>
    ensures { view_rest result ≡ spec.after_bang tokens.now }
{
    match tokens {
        [Lexeme::Sign(Sign::Bang), rest @ ..] => Some(rest),
        _ => None,
    }
}

/// Behind the `:-` of a rule. A clause without it is a belief.
pub fn after_if(tokens: &[Lexeme]) -> Option<&[Lexeme]>
    ensures { view_rest result ≡ spec.after_if tokens.now }
{
    match tokens {
        [Lexeme::Sign(Sign::If), rest @ ..] => Some(rest),
        _ => None,
    }
}

/// Behind the `:` of a context, which is `true` where none is written.
pub fn after_colon(tokens: &[Lexeme]) -> Option<&[Lexeme]>
    ensures { view_rest result ≡ spec.after_colon tokens.now }
{
    match tokens {
        [Lexeme::Sign(Sign::Colon), rest @ ..] => Some(rest),
        _ => None,
    }
}

/// Behind the `<-` of a body, which is empty where none is written.
pub fn after_arrow(tokens: &[Lexeme]) -> Option<&[Lexeme]>
    ensures { view_rest result ≡ spec.after_arrow tokens.now }
{
    match tokens {
        [Lexeme::Sign(Sign::LeftArrow), rest @ ..] => Some(rest),
        _ => None,
    }
}

/// Behind the `;` of a body: one more item has to follow.
pub fn after_semicolon(tokens: &[Lexeme]) -> Option<&[Lexeme]>
    ensures { view_rest result ≡ spec.after_semicolon tokens.now }
{
    match tokens {
        [Lexeme::Sign(Sign::Semicolon), rest @ ..] => Some(rest),
        _ => None,
    }
}

/// Whether only the dot is left that ends the clause. If anything else is left, it is no clause.
pub fn is_last(tokens: &[Lexeme]) -> bool
    ensures { result ≡ spec.is_last tokens.now }
{
    match tokens {
        [Lexeme::End] => true,
        _ => false,
    }
}

/// Whether the first token begins a plan.
pub fn starts_plan(tokens: &[Lexeme]) -> bool
    ensures { result ≡ spec.starts_plan tokens.now }
{
    match tokens {
        [Lexeme::Sign(Sign::At), ..] => true,
        [Lexeme::Sign(Sign::Plus), ..] => true,
        [Lexeme::Sign(Sign::Minus), ..] => true,
        _ => false,
    }
}

fn adds_of(token: &Lexeme) -> Option<bool>
    ensures { result ≡ grammar.adds_of token.now }
{
    match token {
        Lexeme::Sign(Sign::Plus) => Some(true),
        Lexeme::Sign(Sign::Minus) => Some(false),
        _ => None,
    }
}

/// The sign of a trigger, true for `+`, and what is behind it. Each trigger begins with one.
pub fn add_at(tokens: &[Lexeme]) -> Option<(bool, &[Lexeme])>
    ensures { view_front result ≡ spec.first_of grammar.adds_of tokens.now }
{
    match tokens {
        [first, rest @ ..] => match adds_of(first) {
            Some(add) => Some((add, rest)),
            None => None,
        },
        [] => None,
    }
}

/// The kind of a trigger, and what is behind it: `!` is of a goal to achieve, `?` of a question,
/// and without either it is of a belief.
pub fn kind_at(tokens: &[Lexeme]) -> (Kind, &[Lexeme])
    ensures { spec.view_kind result ≡ spec.kind_at tokens.now }
{
    match tokens {
        [Lexeme::Sign(Sign::Bang), rest @ ..] => (Kind::Achieve, rest),
        [Lexeme::Sign(Sign::Question), rest @ ..] => (Kind::Test, rest),
        _ => (Kind::Belief, tokens),
    }
}

fn deed_of(token: &Lexeme) -> Option<ItemSign>
    ensures { result ≡ grammar.deed_of token.now }
{
    match token {
        Lexeme::Sign(Sign::Bang) => Some(ItemSign::Achieve),
        Lexeme::Sign(Sign::Bangs) => Some(ItemSign::Spawn),
        Lexeme::Sign(Sign::Question) => Some(ItemSign::Test),
        Lexeme::Sign(Sign::Plus) => Some(ItemSign::Add),
        Lexeme::Sign(Sign::Minus) => Some(ItemSign::Del),
        Lexeme::Sign(Sign::MinusPlus) => Some(ItemSign::Replace),
        _ => None,
    }
}

/// The sign that an item of a body begins with, and what is behind it. Relations, actions, internal
/// actions and `true` have none.
pub fn deed_at(tokens: &[Lexeme]) -> Option<(ItemSign, &[Lexeme])>
    ensures { view_front result ≡ spec.first_of grammar.deed_of tokens.now }
{
    match tokens {
        [first, rest @ ..] => match deed_of(first) {
            Some(deed) => Some((deed, rest)),
            None => None,
        },
        [] => None,
    }
}

fn label_of(alloc: Global, token: &Lexeme) -> Result<Option<Text>, Starved>
    ensures { Gives (λ x. x) result (grammar.label_of token.now) }
{
    match token {
        Lexeme::Atom(name) => Ok(Some(copy_text(alloc, name)?)),
        Lexeme::Not => Ok(Some(text_of(alloc, b"not".as_slice())?)),
        Lexeme::Div => Ok(Some(text_of(alloc, b"div".as_slice())?)),
        Lexeme::Mod => Ok(Some(text_of(alloc, b"mod".as_slice())?)),
        Lexeme::Truth(b) => Ok(Some(truth_name(alloc, *b)?)),
        _ => Ok(None),
    }
}

/// The name of a label; any word may be one.
pub fn label_at(
    alloc: Global,
    tokens: &[Lexeme],
) -> Result<Option<(Option<Text>, &[Lexeme])>, Starved>
    ensures { Gives (λ x. (x.0, x.1.now)) result (spec.named tokens.now) }
{
    match tokens {
        [first, rest @ ..] => match label_of(alloc, first)? {
            Some(name) => Ok(Some((Some(name), rest))),
            None => Ok(None),
        },
        [] => Ok(None),
    }
}
