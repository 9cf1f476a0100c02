//! Where a project leads: its world and the files of its entries, read off its tokens, as far as they can be.

use asl_lexer::scan::value;
use asl_lexer::token::{Tok, TokKind, Word};
use asl_term::sequence::{Seq, Starved};
use asl_term::syntax::Text;
use look_reasons::mark::{Mark, is_atom, mark_at};
use look_reasons::mending::is_pair;
use mas_project::piece::NextPiece;
use mas_project::reading::{Outcome, read};
use std::alloc::Global;

/// A file to which a project leads, and the token that names it. The file of an entry also has the name of its agents, and how many there are
/// where a number stands there.
#[derive(Clone, Copy)]
pub struct Lead<'a> {
    pub stem: &'a [u8],
    pub ending: &'static [u8],
    pub world: bool,
    pub named: Mark<'a>,
    pub name: Mark<'a>,
    pub count: Option<u64>,
}

pub type Leads<'a> = Seq<Lead<'a>>;

/// An entry of a project: the name of its agents, its file, and how many there are where a number stands there.
pub struct Entry {
    pub name: Text,
    pub file: Text,
    pub count: Option<u64>,
}

/// By hand, so that who lets one go proves nothing of its parts.
impl Drop for Entry {
    fn drop(self) {
        let Entry {
            name: _,
            file: _,
            count: _,
        } = self;
    }
}

/// Whether a reading goes over tokens at the front of a piece, and then whether these are a whole piece.
fn goes_over(alloc: Global, turn: NextPiece, front: &[Tok]) -> Result<Option<bool>, Starved> {
    match read(alloc, turn, front) {
        Ok(outcome) => {
            let whole = match &outcome {
                Outcome::Whole(_) => Some(true),
                Outcome::Early => Some(false),
                Outcome::Stops(_) => None,
            };
            drop(outcome);
            Ok(whole)
        }
        Err(_) => Err(Starved),
    }
}

/// How many tokens of a piece a reading goes over; none where it is read whole. These are few: no piece has many.
pub fn stop_of(alloc: Global, turn: NextPiece, piece: &[Tok]) -> Result<Option<usize>, Starved> {
    let mut whole = false;
    for place in 0..piece.len() {
        let (front, _) = piece.split_at(place.saturating_add(1).min(piece.len()));
        match goes_over(alloc, turn, front) {
            Ok(Some(is)) => whole = is,
            Ok(None) => return Ok(Some(place)),
            Err(_) => return Err(Starved),
        }
    }
    Ok(if whole { None } else { Some(piece.len()) })
}

/// The place behind `agents :`; behind all tokens where that stands nowhere.
fn behind_agents(marks: &[Mark<'_>]) -> usize {
    for at in 0..marks.len() {
        if is_pair(marks, at, b"agents:") {
            return at.saturating_add(2);
        }
    }
    marks.len()
}

/// The first place of `environment`; behind all tokens where that stands nowhere.
pub fn world_place(marks: &[Mark<'_>]) -> usize {
    for at in 0..marks.len() {
        if mark_at(marks, at).text == b"environment".as_slice() {
            return at;
        }
    }
    marks.len()
}

/// The number behind `#` in an entry that is read.
fn count_in(toks: &[Tok]) -> Option<u64> {
    match toks {
        [.., t, _] if matches!(t.kind, TokKind::Number) => value(t.text.as_slice()),
        _ => None,
    }
}

/// Where an entry leads, whose file may stand at this place: else its name stands for the file.
fn with_file<'a>(marks: &[Mark<'a>], toks: &'a [Tok], at: usize, own: Lead<'a>) -> Lead<'a> {
    let named = mark_at(marks, at);
    let ending = mark_at(marks, at.saturating_add(1)).text;
    let mut lead = Lead { named, ..own };
    if is_atom(named.word) && ending == b".asl".as_slice() {
        lead.stem = named.text;
        return lead;
    }
    match toks.get(at) {
        Some(t) if matches!(named.word, Word::Str) => {
            lead.stem = t.text.as_slice();
            lead.ending = b"";
            lead
        }
        _ => own,
    }
}

/// Where the entry of a piece leads, which is read whole or not; of the first one behind its options.
pub fn lead_in<'a>(
    marks: &[Mark<'a>],
    toks: &'a [Tok],
    first: bool,
    whole: bool,
) -> Option<Lead<'a>> {
    let at = if first { behind_agents(marks) } else { 0 };
    let name = mark_at(marks, at);
    if !is_atom(name.word) {
        return None;
    }
    let own = Lead {
        stem: name.text,
        ending: b".asl",
        world: false,
        named: name,
        name,
        count: if whole { count_in(toks) } else { None },
    };
    Some(with_file(marks, toks, at.saturating_add(1), own))
}

/// Where the name of the environment leads, where a reading goes on behind it. It has no agents.
pub fn world_in<'a>(marks: &[Mark<'a>], stop: Option<usize>) -> Option<Lead<'a>> {
    let at = world_place(marks);
    let goes_on = match stop {
        Some(stop) => stop > at.saturating_add(3),
        None => true,
    };
    match marks.get(at.saturating_add(2)) {
        Some(m) if goes_on => Some(Lead {
            stem: m.text,
            ending: b".env",
            world: true,
            named: *m,
            name: *m,
            count: Some(0),
        }),
        _ => None,
    }
}
