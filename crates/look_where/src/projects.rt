//! What is told of the file of a project.

ghost use Rattle.std.specs.Prelude.{◌≡◌, IfOk};
ghost use Rattle.look_where.specs.Others as spec;
ghost use Rattle.look_where.specs.Others.{TellsProject};

use crate::faults::{
    BEHIND, Fault, Faults, NO_END, TOO_MANY, TWICE, fault_at, fault_in, reasons_of,
};
use crate::leads::{Lead, Leads, lead_in, stop_of, world_in};
use asl_lexer::lexing::tokens;
use asl_lexer::pieces::cut;
use asl_lexer::token::{LexFault, Sign, Tok};
use asl_term::names::{Names, number};
use asl_term::sequence::{Seq, Starved};
use look_pieces::findings::{Findings, at_least_one, findings_in};
use look_pieces::spoilt::{piece_end, with_bytes};
use look_reasons::bytes::{Mended, Spoilt};
use look_reasons::mark::{Mark, is_sign, marks_of};
use look_reasons::phrase::{Phrase, sentence};
use mas_project::fault::ProjectFault;
use mas_project::names::MOST_AGENTS;
use mas_project::piece::NextPiece;
use mas_project::project::{ProjectPieces, project};
use std::alloc::Global;

/// What is found in a project, where it leads, and whether its end was read.
pub struct ProjectRead<'a> {
    faults: Faults<'a>,
    pub leads: Leads<'a>,
    done: bool,
    /// Whether memory was wanting.
    spent: bool,
}

/// By hand, so that who lets one go proves nothing of its parts.
impl<'a> Drop for ProjectRead<'a> {
    fn drop(self) {
        let ProjectRead {
            faults: _,
            leads: _,
            done: _,
            spent: _,
        } = self;
    }
}

impl<'a> ProjectRead<'a> {
    pub fn put_fault(&mut self, fault: Fault<'a>) {
        if self.faults.push(fault).is_err() {
            self.spent = true;
        }
    }

    fn put_lead(&mut self, lead: Option<Lead<'a>>) {
        if let Some(lead) = lead {
            if self.leads.push(lead).is_err() {
                self.spent = true;
            }
        }
    }

    /// What is found, by places.
    fn into_faults(self) -> Result<Vec<Fault<'a>>, Starved> {
        let ProjectRead {
            faults,
            leads: _,
            done: _,
            spent,
        } = self;
        let mut faults = faults.into_vec();
        let sorted = faults.sort_by_key(|f| f.at as u64).is_ok();
        if spent || !sorted {
            drop(faults);
            return Err(Starved);
        }
        Ok(faults)
    }
}

/// Reads one piece more, the one of this number, with these tokens. Why it is refused is not told where it is dirty.
fn put_read<'a>(
    alloc: Global,
    number: u64,
    marks: &[Mark<'a>],
    piece: &'a [Tok],
    dirty: bool,
    read: &mut ProjectRead<'a>,
) {
    let turn = match number {
        1 => NextPiece::Title,
        2 => NextPiece::First,
        _ => NextPiece::Later,
    };
    let Ok(stop) = stop_of(alloc, turn, piece) else {
        read.spent = true;
        return;
    };
    match stop {
        Some(place) if !dirty => read.put_fault(fault_in(number, marks, place)),
        _ => {}
    }
    if number == 2 {
        read.put_lead(world_in(marks, stop));
    }
    if number > 1 {
        read.put_lead(lead_in(marks, piece, number == 2, stop.is_none()));
    }
}

/// Reads one piece more, the one of this number, where it is not behind the end.
fn put_piece<'a>(
    alloc: Global,
    text: &'a [u8],
    number: u64,
    piece: &'a [Tok],
    dirty: bool,
    read: &mut ProjectRead<'a>,
) {
    let Ok(marks) = marks_of(alloc, text, piece) else {
        read.spent = true;
        return;
    };
    match marks.first() {
        None => {}
        Some(m) if read.done => read.put_fault(fault_at(&BEHIND, m.at, m.end)),
        Some(m) if number > 2 && is_sign(m.word, Sign::CloseBrace) => read.done = true,
        Some(_) => put_read(alloc, number, marks.as_slice(), piece, dirty, read),
    }
}

/// Whether a fault of bytes, mended or not, begins here.
fn is_spoilt(faults: &[Spoilt], from: usize, to: usize) -> bool {
    let mut is = false;
    for x in faults {
        is = is || (from <= x.at && x.at < to);
    }
    is
}

/// Reads all pieces, and one behind the end.
fn put_pieces<'a>(
    alloc: Global,
    text: &'a [u8],
    toks: &'a [Tok],
    faults: &[Spoilt],
    read: &mut ProjectRead<'a>,
) {
    let mut number: u64 = 1;
    let mut from = 0;
    let mut rest = toks;
    let mut last = false;
    for _ in 0..toks.len() {
        let Some((piece, behind)) = cut::<ProjectPieces>(rest) else {
            break;
        };
        if last {
            break;
        }
        let end = piece_end(text, piece);
        last = read.done;
        let dirty = is_spoilt(faults, from, end);
        put_piece(alloc, text, number, piece, dirty, read);
        from = end;
        number = number.saturating_add(1);
        rest = behind;
    }
}

/// Puts that the end of a project is missing, where it is and nothing else is.
fn put_end(end: usize, read: &mut ProjectRead<'_>) {
    let mut told = read.done;
    for f in read.faults.as_slice() {
        told = told || f.rule.code() == NO_END.code();
    }
    if !told {
        read.put_fault(fault_at(&NO_END, end, end.saturating_add(1)));
    }
}

/// The token of the first entry with an agent of this name, which is what a token spells and a number. A new name is put, with its token.
fn first_token<'a>(
    alloc: Global,
    token: Mark<'a>,
    count: Phrase<'_>,
    names: &mut Names,
    tokens: &mut Seq<Mark<'a>>,
) -> Result<Option<Mark<'a>>, Starved> {
    let before = names.len();
    if before >= 100_000 {
        return Ok(None);
    }
    let name = sentence(alloc, &[Phrase::Words(token.text), count])?;
    let place = number(names, &name);
    drop(name);
    match place {
        Ok(place) if place <= before => Ok(tokens.at((place as u64).saturating_sub(1)).copied()),
        Ok(_) => match tokens.push(token) {
            Ok(()) => Ok(None),
            Err(_) => Err(Starved),
        },
        Err(_) => Err(Starved),
    }
}

/// Puts the names of an entry; the first that is there already is a fault.
fn put_agents<'a>(
    alloc: Global,
    lead: Lead<'a>,
    names: &mut Names,
    tokens: &mut Seq<Mark<'a>>,
    read: &mut ProjectRead<'a>,
) {
    for k in 0..lead.count.unwrap_or(1) {
        let number = match lead.count {
            Some(_) => Phrase::Number(k.saturating_add(1)),
            None => Phrase::Words(b""),
        };
        match first_token(alloc, lead.name, number, names, tokens) {
            Ok(None) => {}
            Ok(Some(first)) => {
                read.put_fault(Fault {
                    token: lead.name.text,
                    number,
                    line: first.line,
                    column: first.column,
                    ..fault_at(&TWICE, lead.name.at, lead.name.end)
                });
                return;
            }
            Err(_) => read.spent = true,
        }
    }
}

/// Puts the agents that have the name of another.
fn put_twice(alloc: Global, read: &mut ProjectRead<'_>) {
    let Ok(mut names) = Names::new(alloc) else {
        read.spent = true;
        return;
    };
    let mut tokens = Seq::new(alloc);
    for at in 0..read.leads.len() {
        if let Some(lead) = read.leads.at(at).copied() {
            put_agents(alloc, lead, &mut names, &mut tokens, read);
        }
    }
}

/// Puts what is at fault with the agents of all entries.
fn put_tests(alloc: Global, read: &mut ProjectRead<'_>) {
    let mut all: u64 = 0;
    for lead in read.leads.as_slice() {
        all = all.saturating_add(lead.count.unwrap_or(1));
    }
    match read.leads.as_slice().last().copied() {
        Some(lead) if all > MOST_AGENTS => read.put_fault(Fault {
            number: Phrase::Number(all),
            ..fault_at(&TOO_MANY, lead.name.at, lead.name.end)
        }),
        _ => put_twice(alloc, read),
    }
}

/// What is found in a project with these bytes, as they are mended.
pub fn project_read<'a>(alloc: Global, m: &'a Mended) -> ProjectRead<'a> {
    let mut read = ProjectRead {
        faults: Seq::new(alloc),
        leads: Seq::new(alloc),
        done: false,
        spent: false,
    };
    if let Some(toks) = &m.toks {
        let text = m.text.as_slice();
        put_pieces(alloc, text, toks.as_slice(), m.faults.as_slice(), &mut read);
        put_end(piece_end(text, toks.as_slice()), &mut read);
        put_tests(alloc, &mut read);
    }
    read
}

/// The findings for faults, by their places.
fn sorted_findings(
    alloc: Global,
    bytes: &[u8],
    m: &Mended,
    read: ProjectRead<'_>,
) -> Result<Findings, Starved> {
    let faults = read.into_faults()?;
    let all = reasons_of(alloc, faults.as_slice())?;
    match &m.toks {
        Some(toks) => findings_in(alloc, bytes, toks.as_slice(), all.as_slice()),
        None => Ok(Seq::new(alloc)),
    }
}

fn is_lack(why: &ProjectFault) -> bool
    ensures { result ≡ spec.is_lack why.now }
{
    matches!(why, ProjectFault::Memory)
}

/// What is told of a project whose bytes are tokens.
#[tactic(auto, using(crate::proofs::Others::project_stands, crate::proofs::Others::project_refused))]
fn pieces_told(alloc: Global, bytes: &[u8], found: Findings) -> Result<Findings, Starved>
    ensures { IfOk result (TellsProject bytes.now) }
{
    match project(alloc, bytes) {
        Ok(p) => {
            drop(p);
            Ok(found)
        }
        Err(why) => {
            let lack = is_lack(&why);
            drop(why);
            if lack {
                drop(found);
                return Err(Starved);
            }
            at_least_one(alloc, found)
        }
    }
}

/// What is told of a project that was read so.
#[tactic(auto, using(crate::proofs::Others::project_bytes))]
pub fn project_told(
    alloc: Global,
    bytes: &[u8],
    m: &Mended,
    read: ProjectRead<'_>,
) -> Result<Findings, Starved>
    ensures { IfOk result (TellsProject bytes.now) }
{
    let found = sorted_findings(alloc, bytes, m, read)?;
    match tokens(alloc, bytes) {
        Ok(toks) => {
            drop(toks);
            pieces_told(alloc, bytes, found)
        }
        Err(LexFault::Memory) => {
            drop(found);
            Err(Starved)
        }
        Err(why) => with_bytes(alloc, bytes, why, m.faults.as_slice(), found),
    }
}
