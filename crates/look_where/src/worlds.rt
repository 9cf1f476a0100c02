//! What is told of the file of a world.

ghost use Rattle.std.specs.Prelude.{◌≡◌, IfOk};
ghost use Rattle.asl_lexer.specs.Lexing.{IsFirstFault};
ghost use Rattle.look_pieces.specs.Telling.{IsSome, TellsByte};
ghost use Rattle.look_where.specs.Others as spec;
ghost use Rattle.look_where.specs.Others.{TellsWorld};

use asl_lexer::pieces::{ClausePieces, cut};
use asl_lexer::token::{LexFault, Tok};
use asl_parser_tree::bounded::Bounded;
use asl_parser_tree::lexeme::{Lexeme, lexemes};
use asl_parser_tree::limits::{MOST_BRACKETS, too_deep};
use asl_term::names::Names;
use asl_term::sequence::{Seq, Starved};
use asl_term::syntax::Text;
use env_file::clauses::statement;
use env_file::fault::WorldFault;
use env_file::taking::make;
use env_file::world::world;
use look_pieces::agents::is_behind_decimal;
use look_pieces::findings::{Findings, at_least_one, findings_in};
use look_pieces::spoilt::{is_dirty, is_ended, piece_end, with_bytes};
use look_reasons::bytes::{Mended, Spoilt, mended_of};
use look_reasons::flaws::{artifact_reason, limit_reason, unbound_reason};
use look_reasons::mark::{Mark, mark_at, marks_of};
use look_reasons::mending::Piece;
use look_reasons::reason::{Reason, reasons};
use mas_world::acts::WorldText;
use std::alloc::Global;

/// Makes of a world what a piece with these lexemes says, the one of this number, which begins with this token.
fn made_by(
    alloc: Global,
    known: &Names,
    made: &mut WorldText,
    number: u64,
    first: &Tok,
    all: &[Lexeme],
) -> Result<(), WorldFault> {
    if too_deep(all) {
        return Err(WorldFault::Limit { number });
    }
    match statement(alloc, all, MOST_BRACKETS) {
        Ok(Some(Bounded::Within(s))) => {
            let answer = make(alloc, known, made, number, first, &s);
            drop(s);
            answer
        }
        Ok(Some(Bounded::Past(()))) => Err(WorldFault::Limit { number }),
        Ok(None) => Err(WorldFault::Clause {
            number,
            line: first.line,
            column: first.column,
        }),
        Err(_) => Err(WorldFault::Memory),
    }
}

/// Makes of a world what a piece says, or tells why the piece is refused.
fn made_of(
    alloc: Global,
    known: &Names,
    made: &mut WorldText,
    number: u64,
    toks: &[Tok],
) -> Result<(), WorldFault> {
    let [first, ..] = toks else {
        return Ok(());
    };
    match lexemes(alloc, toks) {
        Ok(all) => made_by(alloc, known, made, number, first, &all),
        Err(_) => Err(WorldFault::Memory),
    }
}

/// The known names, each behind a blank.
fn names_text(alloc: Global, known: &Names) -> Result<Text, Starved> {
    let mut out = Seq::new(alloc);
    let mut spent = false;
    for k in 0..known.len() {
        if let Some(name) = known.at(k.saturating_add(1)) {
            spent = spent || out.push(b' ').is_err() || out.append(name.as_slice()).is_err();
        }
    }
    if spent { Err(Starved) } else { Ok(out) }
}

/// The reason for the refusal of a piece that is a clause, where there is one.
fn own_reason(
    alloc: Global,
    known: &Names,
    why: &WorldFault,
    p: &Piece<'_>,
) -> Result<Option<Reason>, Starved> {
    match why {
        WorldFault::Memory => Err(Starved),
        WorldFault::Limit { .. } => match limit_reason(alloc, p) {
            Ok(r) => Ok(Some(r)),
            Err(_) => Err(Starved),
        },
        WorldFault::Unbound { name, .. } => unbound_reason(alloc, p, name.as_slice()),
        WorldFault::UnknownArtifact { .. } => {
            let names = names_text(alloc, known)?;
            artifact_reason(alloc, p, names.as_slice())
        }
        _ => Ok(None),
    }
}

/// The reasons for the refusal of a piece.
fn reasons_for(
    alloc: Global,
    known: &Names,
    why: &WorldFault,
    p: &Piece<'_>,
) -> Result<Seq<Reason>, Starved> {
    if matches!(why, WorldFault::Clause { .. }) {
        return reasons(alloc, p);
    }
    let mut all = Seq::new(alloc);
    match own_reason(alloc, known, why, p) {
        Ok(Some(r)) => match all.push(r) {
            Ok(()) => Ok(all),
            Err(_) => Err(Starved),
        },
        Ok(None) => Ok(all),
        Err(_) => Err(Starved),
    }
}

/// The findings of the piece of this number that is refused so, which has these tokens in a text, the mended bytes of a source.
fn refused_piece(
    alloc: Global,
    known: &Names,
    why: &WorldFault,
    source: &[u8],
    text: &[u8],
    number: u64,
    toks: &[Tok],
    marks: &[Mark<'_>],
    used: &[Mark<'_>],
) -> Result<Findings, Starved> {
    let at = match marks.first() {
        Some(m) => m.at,
        None => 0,
    };
    let piece = Piece {
        bytes: text,
        source,
        marks,
        world: true,
        used,
        number,
        behind_decimal: is_behind_decimal(text, at),
    };
    let all = reasons_for(alloc, known, why, &piece)?;
    findings_in(alloc, source, toks, all.as_slice())
}

/// What is kept of the pieces while they are read: the world, the tokens of the names that it uses, and what is found.
struct Draft<'a> {
    world: WorldText,
    used: Seq<Mark<'a>>,
    found: Findings,
    /// Whether memory was wanting.
    spent: bool,
}

/// By hand, so that who lets one go proves nothing of its parts.
impl<'a> Drop for Draft<'a> {
    fn drop(self) {
        let Draft {
            world: _,
            used: _,
            found: _,
            spent: _,
        } = self;
    }
}

impl<'a> Draft<'a> {
    fn put_found(&mut self, found: Result<Findings, Starved>) {
        match found {
            Ok(found) => {
                if self.found.append_all(found).is_err() {
                    self.spent = true;
                }
            }
            Err(_) => self.spent = true,
        }
    }

    /// Keeps the token of the name that a piece uses.
    fn put_used(&mut self, marks: &[Mark<'a>]) {
        let uses = marks.len() > 1 && mark_at(marks, 0).text == b"use".as_slice();
        if uses && self.used.push(mark_at(marks, 1)).is_err() {
            self.spent = true;
        }
    }

    fn into_found(self) -> Result<Findings, Starved> {
        let Draft {
            world: _,
            used: _,
            found,
            spent,
        } = self;
        if spent {
            drop(found);
            return Err(Starved);
        }
        Ok(found)
    }
}

/// Reads a piece of a text, the one of this number: puts its findings, or keeps what it says.
fn put_piece<'a>(
    alloc: Global,
    known: &Names,
    bytes: &[u8],
    text: &'a [u8],
    number: u64,
    toks: &[Tok],
    draft: &mut Draft<'a>,
) {
    let Ok(marks) = marks_of(alloc, text, toks) else {
        draft.spent = true;
        return;
    };
    match made_of(alloc, known, &mut draft.world, number, toks) {
        Ok(()) => draft.put_used(marks.as_slice()),
        Err(why) => {
            let used = draft.used.as_slice();
            let marks = marks.as_slice();
            let found = refused_piece(alloc, known, &why, bytes, text, number, toks, marks, used);
            drop(why);
            draft.put_found(found);
        }
    }
}

/// Reads the pieces of a text in which no fault lies that is not mended.
fn put_pieces<'a>(
    alloc: Global,
    known: &Names,
    bytes: &[u8],
    text: &'a [u8],
    toks: &[Tok],
    faults: &[Spoilt],
    draft: &mut Draft<'a>,
) {
    let mut number: u64 = 1;
    let mut from = 0;
    let mut rest = toks;
    for _ in 0..toks.len() {
        let Some((piece, behind)) = cut::<ClausePieces>(rest) else {
            break;
        };
        let end = piece_end(text, piece);
        let open = behind.is_empty() && !is_ended(piece);
        if !is_dirty(faults, from, end, open) {
            put_piece(alloc, known, bytes, text, number, piece, draft);
        }
        from = end;
        number = number.saturating_add(1);
        rest = behind;
    }
}

/// The findings of the pieces of these bytes, as they are mended, in which no fault lies that is not.
fn pieces_told(
    alloc: Global,
    known: &Names,
    bytes: &[u8],
    m: &Mended,
) -> Result<Findings, Starved> {
    let Ok(nothing) = world(alloc, b"", known) else {
        return Err(Starved);
    };
    let mut draft = Draft {
        world: nothing,
        used: Seq::new(alloc),
        found: Seq::new(alloc),
        spent: false,
    };
    if let Some(toks) = &m.toks {
        let text = m.text.as_slice();
        let faults = m.faults.as_slice();
        put_pieces(
            alloc,
            known,
            bytes,
            text,
            toks.as_slice(),
            faults,
            &mut draft,
        );
    }
    draft.into_found()
}

/// The findings of a world that is refused for a piece.
fn refused_told(alloc: Global, known: &Names, bytes: &[u8]) -> Result<Findings, Starved>
    ensures { IfOk result IsSome }
{
    let m = mended_of(alloc, bytes)?;
    let found = pieces_told(alloc, known, bytes, &m)?;
    drop(m);
    at_least_one(alloc, found)
}

/// Whether it is the fault of a piece.
fn is_of_piece(why: &WorldFault) -> bool
    ensures { result ≡ spec.is_of_piece why.now }
{
    !matches!(why, WorldFault::Memory | WorldFault::Lex(_))
}

/// What is told of bytes with this first fault.
fn spoilt_told(
    alloc: Global,
    known: &Names,
    bytes: &[u8],
    why: LexFault,
) -> Result<Findings, Starved>
    requires { IsFirstFault bytes.now why }
    ensures { IfOk result (TellsByte bytes.now) }
{
    let m = mended_of(alloc, bytes)?;
    let found = pieces_told(alloc, known, bytes, &m)?;
    let told = with_bytes(alloc, bytes, why, m.faults.as_slice(), found);
    drop(m);
    told
}

/// What is told of the file of a world, where there are artifacts of these names.
#[tactic(auto, using(crate::proofs::Others::world_read, crate::proofs::Others::world_refused, crate::proofs::Others::world_bytes))]
pub fn world_told(alloc: Global, known: &Names, bytes: &[u8]) -> Result<Findings, Starved>
    ensures { IfOk result (TellsWorld known.now bytes.now) }
{
    match world(alloc, bytes, known) {
        Ok(text) => {
            drop(text);
            Ok(Seq::new(alloc))
        }
        Err(WorldFault::Lex(why)) => spoilt_told(alloc, known, bytes, why),
        Err(why) => {
            let refused = is_of_piece(&why);
            drop(why);
            if !refused {
                return Err(Starved);
            }
            refused_told(alloc, known, bytes)
        }
    }
}
