//! The tokens of a clause as the grammar sees them.

ghost use Rattle.std.specs.Prelude.{◌≡◌, ◌≤◌, IfOk};
ghost use Rattle.std.specs.Str.{bytes_eq};
ghost use Rattle.asl_parser_tree.specs.Lexemes as spec;

use asl_lexer::scan::value;
use asl_lexer::token::{Sign, Tok, Word};
use asl_lexer::words::word;
use asl_term::copying::{copy_text, text_of};
use asl_term::printing::write_number;
use asl_term::sequence::{Seq, Starved};
use asl_term::syntax::Text;
use std::alloc::Global;

/// A token without its place. An unnamed variable has a name of its own: `_`, a space and its number among the
/// unnamed ones of the clause.
#[derive(Drop)]
pub enum Lexeme {
    Num(u64),
    Str(Text),
    Var(Text),
    /// The name without its dot.
    Inner(Text),
    /// A word that may name a functor.
    Atom(Text),
    /// `true` or `false`
    Truth(bool),
    Not,
    Div,
    Mod,
    Sign(Sign),
    End,
    Other,
}

fn is_unnamed(text: &Text) -> bool
    ensures { result ≡ bytes_eq text.now spec.unnamed }
{
    text.as_slice() == b"_".as_slice()
}

fn name_of(alloc: Global, k: u64, text: &Text) -> Result<Text, Starved>
    ensures { IfOk result (λ r. r ≡ spec.name_of k text.now) }
{
    if !is_unnamed(text) {
        return copy_text(alloc, text);
    }
    let mut name = text_of(alloc, b"_ ".as_slice())?;
    write_number(alloc, k, &mut name)?;
    Ok(name)
}

#[tactic(auto, unfolding(crate::specs::Lexemes::lexeme_of))]
fn lexeme_of(alloc: Global, k: u64, word: Word, text: &Text) -> Result<Lexeme, Starved>
    ensures { IfOk result (λ r. r ≡ spec.lexeme_of k word text.now) }
{
    match word {
        Word::Not => Ok(Lexeme::Not),
        Word::Div => Ok(Lexeme::Div),
        Word::Mod => Ok(Lexeme::Mod),
        Word::True => Ok(Lexeme::Truth(true)),
        Word::False => Ok(Lexeme::Truth(false)),
        Word::Atom => Ok(Lexeme::Atom(copy_text(alloc, text)?)),
        Word::Var => Ok(Lexeme::Var(name_of(alloc, k, text)?)),
        Word::Inner => Ok(Lexeme::Inner(copy_text(alloc, text)?)),
        Word::Number => match value(text.as_slice()) {
            Some(n) => Ok(Lexeme::Num(n)),
            None => Ok(Lexeme::Other),
        },
        Word::Str => Ok(Lexeme::Str(copy_text(alloc, text)?)),
        Word::Sign(sign) => Ok(Lexeme::Sign(sign)),
        Word::End => Ok(Lexeme::End),
        Word::Other => Ok(Lexeme::Other),
    }
}

fn counts(word: Word, text: &Text) -> u64
    ensures value { result ≡ spec.counts word text.now }
    ensures small { result ≤ 1 }
{
    match word {
        Word::Var => { if is_unnamed(text) { 1 } else { 0 } }
        _ => 0,
    }
}

/// The tokens of a clause.
#[tactic(auto, using(crate::proofs::Numbering::one_more, crate::proofs::Numbering::none_left))]
pub fn lexemes(alloc: Global, toks: &[Tok]) -> Result<Vec<Lexeme>, Starved>
    ensures { IfOk result (λ r. r.items ≡ spec.lexemes toks.now) }
{
    let mut all = Vec::new(alloc);
    let mut k: u64 = 1;
    let mut rest = toks;
    'toks: while let Some((t, after)) = rest.split_first() {
        let next = lexeme_of(alloc, k, word(t), &t.text)?;
        match all.push(next) {
            Ok(()) => {}
            Err(_) => return Err(Starved),
        }
        k += counts(word(t), &t.text);
        rest = after;
    }
    Ok(all)
}
