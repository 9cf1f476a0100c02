//! What a token is to a grammar.

ghost use Rattle.std.specs.Prelude.{◌≡◌};
ghost use Rattle.asl_lexer.specs.Words as spec;
ghost use Rattle.asl_lexer.specs.Words.{AllKnown};

use crate::signs::sign_of;
use crate::token::{Tok, TokKind, Word};

#[tactic(auto, unfolding(crate::specs::Words::atom_word))]
fn atom_word(text: &[u8]) -> Word
    ensures { result ≡ spec.atom_word text.now }
{
    if text == b"not".as_slice() {
        return Word::Not;
    }
    if text == b"div".as_slice() {
        return Word::Div;
    }
    if text == b"mod".as_slice() {
        return Word::Mod;
    }
    if text == b"true".as_slice() {
        return Word::True;
    }
    if text == b"false".as_slice() {
        return Word::False;
    }
    Word::Atom
}

/// The word that a token is. `not`, `div`, `mod`, `true` and `false` are words of their own,
/// and no atoms.
pub fn word(t: &Tok) -> Word
    ensures { result ≡ spec.word t.now }
{
    match t.kind {
        TokKind::Atom => atom_word(t.text.as_slice()),
        TokKind::Var => Word::Var,
        TokKind::Inner => Word::Inner,
        TokKind::Number => Word::Number,
        TokKind::Str => Word::Str,
        TokKind::Sign => match sign_of(t.text.as_slice()) {
            Some(sign) => Word::Sign(sign),
            None => Word::Other,
        },
        TokKind::End => Word::End,
    }
}

/// Tokens of bytes are never `Other`.
pub fn all_known()
    ensures { AllKnown }
{}
