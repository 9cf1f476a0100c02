//! A source, as far as it is read: its clauses but for those that are refused.

use asl_lexer::pieces::{ClausePieces, cut};
use asl_lexer::token::Tok;
use asl_parser::clauses::sentence;
use asl_parser::sentence::Sentence;
use asl_parser_tree::bounded::Bounded;
use asl_parser_tree::lexeme::lexemes;
use asl_parser_tree::limits::{MOST_BRACKETS, too_deep};
use asl_term::copying::copy_text;
use asl_term::sequence::{Seq, Starved};
use asl_term::syntax::Text;
use look_pieces::clause::{ReadClause, ReadClauses, copy_toks};
use look_pieces::spoilt::{is_dirty, is_ended, piece_end};
use look_reasons::bytes::{Mended, mended_of};
use std::alloc::Global;

/// A source: the names of its agents, that of its file, its bytes, what they are taken for, and the clauses.
pub struct ReadSource {
    pub agents: Seq<Text>,
    pub file: Text,
    pub bytes: Text,
    pub text: Text,
    pub clauses: ReadClauses,
}

/// By hand, so that who lets one go proves nothing of its parts.
impl Drop for ReadSource {
    fn drop(self) {
        let ReadSource {
            agents: _,
            file: _,
            bytes: _,
            text: _,
            clauses: _,
        } = self;
    }
}

/// What the tokens of a piece say, where they are read.
fn said(alloc: Global, toks: &[Tok]) -> Result<Option<Sentence>, Starved> {
    let all = lexemes(alloc, toks)?;
    let said = if too_deep(&all) {
        Ok(None)
    } else {
        sentence(alloc, &all, MOST_BRACKETS)
    };
    drop(all);
    match said {
        Ok(Some(Bounded::Within(s))) => Ok(Some(s)),
        Ok(Some(Bounded::Past(()))) => Ok(None),
        Ok(None) => Ok(None),
        Err(e) => Err(e),
    }
}

/// The pieces of mended bytes that are still to be looked at, and where the first of them begins.
#[derive(Clone, Copy)]
pub struct Pieces<'a> {
    of: &'a Mended,
    rest: &'a [Tok],
    from: usize,
}

/// All pieces of mended bytes.
pub fn pieces_of(m: &Mended) -> Pieces<'_> {
    let rest: &[Tok] = match &m.toks {
        Some(toks) => toks.as_slice(),
        None => &[],
    };
    Pieces {
        of: m,
        rest,
        from: 0,
    }
}

impl<'a> Pieces<'a> {
    /// The next piece in which no fault lies that is not mended.
    pub fn next_clean(&mut self) -> Option<&'a [Tok]> {
        for _ in 0..self.rest.len() {
            let Some((piece, behind)) = cut::<ClausePieces>(self.rest) else {
                return None;
            };
            let from = self.from;
            let end = piece_end(self.of.text.as_slice(), piece);
            let open = behind.is_empty() && !is_ended(piece);
            self.rest = behind;
            self.from = end;
            if !is_dirty(self.of.faults.as_slice(), from, end, open) {
                return Some(piece);
            }
        }
        None
    }
}

/// Puts the clause that a piece is, where it is read.
fn put_clause(alloc: Global, piece: &[Tok], all: &mut ReadClauses) -> Result<(), Starved> {
    match said(alloc, piece)? {
        Some(said) => {
            let toks = copy_toks(alloc, piece)?;
            all.push(ReadClause { toks, said })
        }
        None => Ok(()),
    }
}

/// The clauses of mended bytes.
fn clauses_of(alloc: Global, m: &Mended) -> Result<ReadClauses, Starved> {
    let mut all = Seq::new(alloc);
    let mut pieces = pieces_of(m);
    for _ in 0..u64::MAX {
        let Some(piece) = pieces.next_clean() else {
            break;
        };
        put_clause(alloc, piece, &mut all)?;
    }
    Ok(all)
}

/// The source of a file of this name with these bytes, of these agents.
pub fn source_of(
    alloc: Global,
    agents: Seq<Text>,
    name: &Text,
    bytes: Text,
) -> Result<ReadSource, Starved> {
    let file = copy_text(alloc, name)?;
    let m = mended_of(alloc, bytes.as_slice())?;
    let clauses = clauses_of(alloc, &m)?;
    Ok(ReadSource {
        agents,
        file,
        bytes,
        text: m.into_text(),
        clauses,
    })
}
