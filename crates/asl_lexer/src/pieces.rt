//! Tokens, cut into pieces.

ghost use Rattle.std.specs.Prelude.{◌≡◌, ◌≤◌, length};
ghost use Rattle.asl_lexer.specs.Words as spec;
ghost use Rattle.asl_lexer.specs.Words.{Cuts, view_cut};

use crate::token::{Tok, Word};
use crate::words::word;

/// Which words end a piece.
pub trait Ends {
    ghost use Rattle.std.specs.Prelude.{Bool};
    ghost use Rattle.asl_lexer.specs.declared.token.Word.{Word};

    ghost ends: { Word → Bool };

    fn ends_piece(word: Word) -> bool
        ensures { result ≡ ends word };
}

/// Each End ends a clause.
pub struct ClausePieces;

impl Ends for ClausePieces {
    ghost ends = { spec.is_end };

    fn ends_piece(word: Word) -> bool {
        match word {
            Word::End => true,
            _ => false,
        }
    }
}

fn piece_len<E: Ends>(toks: &[Tok]) -> usize
    ensures len { result ≡ spec.piece_len E.ends toks.now }
    ensures within { result ≤ length toks.now }
{
    let mut count = 0;
    let mut rest = toks;
    'toks: while let Some((t, after)) = rest.split_first() {
        count += 1;
        if E::ends_piece(word(t)) {
            return count;
        }
        rest = after;
    }
    count
}

/// The first piece, and the tokens behind it.
#[tactic(auto, using(crate::proofs::Cutting::no_piece, crate::proofs::Cutting::is_cut))]
pub fn cut<E: Ends>(toks: &[Tok]) -> Option<(&[Tok], &[Tok])>
    ensures { Cuts E.ends toks.now (view_cut result) }
{
    if toks.is_empty() {
        return None;
    }
    Some(toks.split_at(piece_len::<E>(toks)))
}
