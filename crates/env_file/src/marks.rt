//! What single tokens are to the reader of world files.

ghost use Rattle.std.specs.Prelude.{◌≡◌};
ghost use Rattle.std.specs.List.{list_any};
ghost use Rattle.asl_parser.specs.Sentences as grammar;
ghost use Rattle.asl_parser.specs.Speaking as speaking;
ghost use Rattle.asl_parser_tree.specs.Leaves.{Gives, view_rest};
ghost use Rattle.env_file.specs.Speaking as spec;
ghost use Rattle.env_file.specs.Statements as tokens;

use asl_lexer::token::Sign;
use asl_parser_tree::leaves::variable;
use asl_parser_tree::lexeme::Lexeme;
use asl_parser_tree::meaning::{atom, truth_name};
use asl_term::copying::{copy_text, text_of};
use asl_term::sequence::Starved;
use asl_term::syntax::{Term, Text};
use std::alloc::Global;

fn is_word(text: &[u8], token: &Lexeme) -> bool
    ensures { result ≡ tokens.is_word text.now token.now }
{
    match token {
        Lexeme::Atom(name) => name.as_slice() == text,
        _ => false,
    }
}

fn is_variable(token: &Lexeme) -> bool
    ensures { result ≡ tokens.is_variable token.now }
{
    match token {
        Lexeme::Var(_) => true,
        _ => false,
    }
}

/// Whether a variable is among the tokens.
pub fn has_variable(all: &[Lexeme]) -> bool
    ensures { result ≡ list_any tokens.is_variable all.now }
{
    let mut rest = all;
    'tokens: while let Some((token, after)) = rest.split_first() {
        if is_variable(token) {
            return true;
        }
        rest = after;
    }
    false
}

fn ends_literal(token: &Lexeme) -> bool
    ensures { result ≡ tokens.ends_literal token.now }
{
    match token {
        Lexeme::Atom(_) => true,
        Lexeme::Sign(Sign::Close) => true,
        _ => false,
    }
}

fn opens_square(all: &[Lexeme]) -> bool
    ensures { result ≡ tokens.opens_square all.now }
{
    match all {
        [Lexeme::Sign(Sign::OpenSquare), ..] => true,
        _ => false,
    }
}

/// Whether a literal among the tokens has annotations.
#[tactic(auto, unfolding(crate::specs::Statements::has_annots))]
pub fn has_annots(all: &[Lexeme]) -> bool
    ensures { result ≡ tokens.has_annots all.now }
{
    let mut rest = all;
    'tokens: while let Some((token, after)) = rest.split_first() {
        if ends_literal(token) && opens_square(after) {
            return true;
        }
        rest = after;
    }
    false
}

/// Behind an atom of this text, as `by` and `drop` are: the words of world files are atoms
/// to the lexer.
pub fn after_word<'a>(text: &[u8], all: &'a [Lexeme]) -> Option<&'a [Lexeme]>
    ensures { view_rest result ≡ spec.after_word text.now all.now }
{
    match all {
        [first, rest @ ..] => {
            if is_word(text, first) {
                Some(rest)
            } else {
                None
            }
        }
        [] => None,
    }
}

/// Behind the `->` of an act. Its effects have to follow.
pub fn after_right_arrow(all: &[Lexeme]) -> Option<&[Lexeme]>
    ensures { view_rest result ≡ spec.after_right_arrow all.now }
{
    match all {
        [Lexeme::Sign(Sign::RightArrow), rest @ ..] => Some(rest),
        _ => None,
    }
}

/// Behind the word `true` in the place of an effect, which changes nothing.
pub fn after_true(all: &[Lexeme]) -> Option<&[Lexeme]>
    ensures { view_rest result ≡ spec.after_true all.now }
{
    match all {
        [Lexeme::Truth(true), rest @ ..] => Some(rest),
        _ => None,
    }
}

fn is_name(token: &Lexeme) -> bool
    ensures { result ≡ spec.is_name token.now }
{
    match token {
        Lexeme::Atom(_) => true,
        Lexeme::Not => true,
        Lexeme::Div => true,
        Lexeme::Mod => true,
        Lexeme::Truth(_) => true,
        _ => false,
    }
}

fn starts_with_name(all: &[Lexeme]) -> bool
    ensures { result ≡ spec.starts_with_name all.now }
{
    match all {
        [first, ..] => is_name(first),
        [] => false,
    }
}

/// Behind this word, where another word follows.
pub fn before_name<'a>(text: &[u8], all: &'a [Lexeme]) -> Option<&'a [Lexeme]>
    ensures { view_rest result ≡ spec.before_name text.now all.now }
{
    let rest = after_word(text, all)?;
    if starts_with_name(rest) {
        Some(rest)
    } else {
        None
    }
}

fn label_of(alloc: Global, token: &Lexeme) -> Result<Option<Text>, Starved>
    ensures { Gives (λ x. x) result (grammar.label_of token.now) }
{
    match token {
        Lexeme::Atom(name) => Ok(Some(copy_text(alloc, name)?)),
        Lexeme::Not => Ok(Some(text_of(alloc, b"not".as_slice())?)),
        Lexeme::Div => Ok(Some(text_of(alloc, b"div".as_slice())?)),
        Lexeme::Mod => Ok(Some(text_of(alloc, b"mod".as_slice())?)),
        Lexeme::Truth(b) => Ok(Some(truth_name(alloc, *b)?)),
        _ => Ok(None),
    }
}

/// A name, which any word may be.
pub fn name_at(alloc: Global, all: &[Lexeme]) -> Result<Option<(Text, &[Lexeme])>, Starved>
    ensures { Gives (λ x. (x.0, x.1.now)) result (speaking.first_of grammar.label_of all.now) }
{
    match all {
        [first, rest @ ..] => match label_of(alloc, first)? {
            Some(name) => Ok(Some((name, rest))),
            None => Ok(None),
        },
        [] => Ok(None),
    }
}

fn named(alloc: Global, token: &Lexeme) -> Result<Option<Term>, Starved>
    ensures { Gives (λ x. x) result (tokens.name_term token.now) }
{
    match label_of(alloc, token)? {
        Some(name) => Ok(Some(Term::Lit(atom(alloc, name)))),
        None => Ok(None),
    }
}

fn doer_of(alloc: Global, token: &Lexeme) -> Result<Option<Term>, Starved>
    ensures { Gives (λ x. x) result (tokens.doer_of token.now) }
{
    match token {
        Lexeme::Var(name) => Ok(Some(variable(alloc, name)?)),
        _ => named(alloc, token),
    }
}

/// Whom an act is for.
pub fn doer_at(alloc: Global, all: &[Lexeme]) -> Result<Option<(Term, &[Lexeme])>, Starved>
    ensures { Gives (λ x. (x.0, x.1.now)) result (speaking.first_of tokens.doer_of all.now) }
{
    match all {
        [first, rest @ ..] => match doer_of(alloc, first)? {
            Some(by) => Ok(Some((by, rest))),
            None => Ok(None),
        },
        [] => Ok(None),
    }
}
