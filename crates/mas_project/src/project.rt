//! The file of a project, piece by piece.

ghost use Rattle.std.specs.Prelude.{◌≡◌, Some, IfOk, IfErr};
ghost use Rattle.std.specs.Option.{option_copied};
ghost use Rattle.asl_lexer.specs.Lexing.{AreTokens};
ghost use Rattle.mas_project.specs.Lexemes.{lexemes};
ghost use Rattle.mas_project.specs.Grammar as grammar;
ghost use Rattle.mas_project.specs.Grammar.{Reads};
ghost use Rattle.mas_project.specs.Pieces.{ends_piece, pieces};
ghost use Rattle.mas_project.specs.Faults as faults;
ghost use Rattle.mas_project.specs.Faults.{UnlessMemory, IsRefusedPiece, FirstRefused};
ghost use Rattle.mas_project.specs.Projects.{IsProject, IsNone};
ghost use Rattle.mas_project.specs.inner.Drafts.{SayDraft, SomeDraft, IsTested, FailsTests};

use crate::draft::{Draft, add, no_draft};
use crate::fault::ProjectFault;
use crate::lexeme::ProjectLexeme;
use crate::names::{MOST_AGENTS, name_twice};
use crate::piece::{NextPiece, PieceMeaning};
use crate::reading::{Outcome, read};
use crate::syntax::ProjectText;
use asl_lexer::lexing::tokens;
use asl_lexer::pieces::{Ends, cut};
use asl_lexer::token::{LexFault, Sign, Tok, Word};
use asl_term::copying::text_of;
use asl_term::sequence::Starved;
use std::alloc::Global;

/// `{`, `;` and `}` end the pieces of a project.
pub struct ProjectPieces;

impl Ends for ProjectPieces {
    ghost ends = { ends_piece };

    fn ends_piece(word: Word) -> bool {
        match word {
            Word::Sign(Sign::OpenBrace) => true,
            Word::Sign(Sign::Semicolon) => true,
            Word::Sign(Sign::CloseBrace) => true,
            _ => false,
        }
    }
}

fn next_turn(said: &PieceMeaning) -> Option<NextPiece>
    ensures { result ≡ grammar.next_turn said.now }
{
    match said {
        PieceMeaning::Title(_) => Some(NextPiece::First),
        PieceMeaning::First(_, _) => Some(NextPiece::Later),
        PieceMeaning::Next(_) => Some(NextPiece::Later),
        PieceMeaning::End => None,
    }
}

fn clause(number: u64, t: Option<&Tok>) -> ProjectFault
    ensures { result ≡ faults.clause_at number (option_copied t.entry) }
{
    match t {
        Some(t) => ProjectFault::Clause {
            number,
            line: t.line,
            column: t.column,
        },
        None => ProjectFault::Clause {
            number,
            line: 1,
            column: 1,
        },
    }
}

fn stop(
    alloc: Global,
    number: u64,
    piece: &[Tok],
    word: ProjectLexeme,
) -> Result<ProjectFault, Starved>
    ensures { IfOk result (λ f. f ≡ faults.stop_fault number piece.now word) }
{
    match word {
        ProjectLexeme::Atom(word) => Ok(ProjectFault::Option { number, word }),
        ProjectLexeme::Var(word) => Ok(ProjectFault::Option { number, word }),
        ProjectLexeme::OpenSquare => Ok(ProjectFault::Option {
            number,
            word: text_of(alloc, b"[")?,
        }),
        _other => Ok(clause(number, piece.first())),
    }
}

/// What a piece says, the one of this number.
#[tactic(auto, using(crate::proofs::Refused::of_piece))]
fn said(
    alloc: Global,
    turn: NextPiece,
    number: u64,
    piece: &[Tok],
) -> Result<PieceMeaning, ProjectFault>
    ensures ok { IfOk result (Reads turn (lexemes piece.now)) }
    ensures err { IfErr result (UnlessMemory (IsRefusedPiece piece.now number (Some turn))) }
{
    match read(alloc, turn, piece)? {
        Outcome::Whole(said) => Ok(said),
        Outcome::Early => Err(clause(number, piece.first())),
        Outcome::Stops(word) => Err(stop(alloc, number, piece, word)?),
    }
}

/// What all pieces say.
#[tactic(auto, using(crate::proofs::Told::turns))]
fn draft_of(alloc: Global, toks: &[Tok]) -> Result<Draft, ProjectFault>
    ensures ok { IfOk result (SayDraft (pieces toks.now)) }
    ensures err { IfErr result (UnlessMemory (FirstRefused toks.now)) }
{
    let mut draft = no_draft(alloc);
    let mut turn = Some(NextPiece::Title);
    let mut number: u64 = 0;
    let mut rest = toks;
    'pieces: while let Some((piece, behind)) = cut::<ProjectPieces>(rest) {
        number += 1;
        let Some(at) = turn else {
            return Err(clause(number, piece.first()));
        };
        let said = said(alloc, at, number, piece)?;
        turn = next_turn(&said);
        add(&mut draft, said)?;
        rest = behind;
    }
    match turn {
        None => Ok(draft),
        Some(_) => Err(clause(number + 1, toks.last())),
    }
}

/// The project of a draft, if it passes the tests of the agents.
#[tactic(auto, using(crate::proofs::Tested::tests))]
fn tested(alloc: Global, draft: Draft) -> Result<ProjectText, ProjectFault>
    requires { SomeDraft draft }
    ensures ok { IfOk result (IsTested draft) }
    ensures err { IfErr result (UnlessMemory (FailsTests draft)) }
{
    if draft.agents > MOST_AGENTS {
        return Err(ProjectFault::TooMany(draft.agents));
    }
    match name_twice(alloc, draft.text.agents.as_slice())? {
        Some((place, name)) => Err(ProjectFault::TwoNames { place, name }),
        None => Ok(draft.text),
    }
}

#[tactic(auto, using(crate::proofs::Whole::parts))]
fn project_of(alloc: Global, bytes: &[u8], toks: &[Tok]) -> Result<ProjectText, ProjectFault>
    requires { AreTokens bytes.now toks.now }
    ensures ok { IfOk result (IsProject bytes.now) }
    ensures err { IfErr result (IsNone bytes.now) }
{
    let draft = draft_of(alloc, toks)?;
    tested(alloc, draft)
}

/// The project that a file describes, or the first reason why it describes none.
#[tactic(auto, using(crate::proofs::Whole::no_tokens))]
pub fn project(alloc: Global, bytes: &[u8]) -> Result<ProjectText, ProjectFault>
    ensures ok { IfOk result (IsProject bytes.now) }
    ensures err { IfErr result (IsNone bytes.now) }
{
    match tokens(alloc, bytes) {
        Ok(toks) => project_of(alloc, bytes, toks.as_slice()),
        Err(LexFault::Memory) => Err(ProjectFault::Memory),
        Err(fault) => Err(ProjectFault::Lex(fault)),
    }
}
