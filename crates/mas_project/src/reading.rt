//! The reading of one piece.

ghost use Rattle.std.specs.Prelude.{◌≡◌, IfOk};
ghost use Rattle.mas_project.specs.Lexemes.{lexemes};
ghost use Rattle.mas_project.specs.inner.Outcomes as spec;
ghost use Rattle.mas_project.specs.inner.Outcomes.{IsOutcome};

use crate::lexeme::{ProjectLexeme, lexeme_behind};
use crate::piece::{NextPiece, PieceMeaning};
use crate::state::State;
use crate::step::{begin, step};
use asl_lexer::token::Tok;
use asl_term::sequence::Starved;
use std::alloc::Global;

/// How a piece reads.
#[derive(Drop)]
pub enum Outcome {
    Whole(PieceMeaning),
    /// It ends, and a reading wants more.
    Early,
    /// No reading goes on with this word.
    Stops(ProjectLexeme),
}

fn ended(state: State) -> Outcome
    ensures { result ≡ spec.ended state }
{
    match state {
        State::Whole(said) => Outcome::Whole(said),
        _other => Outcome::Early,
    }
}

/// What a piece says, or where it leaves the grammar.
#[tactic(auto, using(crate::proofs::Words::words))]
pub fn read(alloc: Global, turn: NextPiece, piece: &[Tok]) -> Result<Outcome, Starved>
    ensures { IfOk result (IsOutcome turn (lexemes piece.now)) }
{
    let mut state = begin(turn);
    let mut before = None;
    let mut rest = piece;
    'words: while let Some((t, after)) = rest.split_first() {
        let Some(next) = step(alloc, state, lexeme_behind(alloc, before, t)?)? else {
            return Ok(Outcome::Stops(lexeme_behind(alloc, before, t)?));
        };
        state = next;
        before = Some(t);
        rest = after;
    }
    Ok(ended(state))
}
