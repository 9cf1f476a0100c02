//! Which lines of a report are shown, and what of each.

ghost use Rattle.std.specs.Prelude.{◌≡◌, true, map, slice_index_or, IfOk};
ghost use Rattle.chart_page.specs.Shown as spec;

use crate::choice::{Choice, Stretch};
use crate::lines::{LineKind, kind_of};
use crate::numbers::cut_at;
use crate::report::{Entry, Report, cycle_of};
use std::alloc::{AllocError, Global};

/// What a line that is shown is.
#[derive(Clone, Copy)]
pub enum PieceKind {
    Head,
    Options,
    Name,
    Line,
    End,
    World,
    Fact,
    Mail,
    Letter,
    Count,
    Turns,
}

/// What is shown of a line: its text, what the line is, whose it is, the agents counted from 0, and of which cycle.
#[derive(Clone, Copy)]
pub struct Piece<'a> {
    pub kind: PieceKind,
    pub agent: usize,
    pub cycle: u64,
    pub text: &'a [u8],
}

/// Whether an agent of this name is drawn.
fn is_chosen(choice: Choice<'_>, name: &[u8]) -> bool
    ensures { result ≡ spec.is_chosen choice.entry name.now }
{
    for chosen in choice.names {
        if *chosen == name {
            return true;
        }
    }
    choice.names.is_empty()
}

/// Where in a report a line stands.
#[derive(Clone, Copy)]
pub enum Part {
    /// Outside of the agents' sections.
    Around,
    /// In the section of an agent that is drawn.
    Drawn,
    /// In the section of another one.
    Other,
}

/// The name behind the first word of a line.
fn name_in(line: &[u8]) -> &[u8]
    ensures { result.now ≡ spec.name_in line.now }
{
    let (_, name) = cut_at(b' ', line);
    name
}

/// The part in which a line of this kind stands, behind one that stood in that part.
fn part_of(choice: Choice<'_>, before: Part, kind: LineKind, line: &[u8]) -> Part
    ensures { result ≡ spec.part_of choice.entry before kind line.now }
{
    match kind {
        LineKind::AgentSection => {
            if is_chosen(choice, name_in(line)) {
                Part::Drawn
            } else {
                Part::Other
            }
        }
        LineKind::World => Part::Around,
        _ => before,
    }
}

/// What is shown of a line of this kind in that part.
fn said<'a>(part: Part, kind: LineKind, line: &'a [u8]) -> &'a [u8]
    ensures { result.now ≡ spec.said part kind line.now }
{
    let behind = name_in(line);
    match (part, kind) {
        (Part::Drawn, LineKind::AgentSection) => behind,
        (Part::Drawn, LineKind::Numbered) => behind,
        (Part::Drawn, LineKind::End) => name_in(behind),
        (Part::Around, LineKind::Fact) => behind,
        _ => line,
    }
}

/// Whether a line of this kind in that part is shown.
fn is_shown(part: Part, kind: LineKind, is_within: bool) -> bool
    ensures { result ≡ spec.is_shown part kind is_within }
{
    match (part, kind) {
        (Part::Other, _) => false,
        (Part::Around, LineKind::Empty) => false,
        (Part::Drawn, LineKind::Numbered) => is_within,
        _ => true,
    }
}

/// What kind of piece a line of this kind is in that part.
fn shown_kind(part: Part, kind: LineKind) -> PieceKind {
    match (part, kind) {
        (_, LineKind::AgentSection) => PieceKind::Name,
        (Part::Around, LineKind::Numbered) => PieceKind::Turns,
        (_, LineKind::Numbered) => PieceKind::Line,
        (_, LineKind::End) => PieceKind::End,
        (_, LineKind::World) => PieceKind::World,
        (_, LineKind::Fact) => PieceKind::Fact,
        (_, LineKind::Mail) => PieceKind::Mail,
        (_, LineKind::Letter) => PieceKind::Letter,
        (_, LineKind::Count) => PieceKind::Count,
        (_, LineKind::Options) => PieceKind::Options,
        _ => PieceKind::Head,
    }
}

/// Whether a line is of the turns that are drawn; each is where there are no flags.
fn flag_at(flags: &[bool], index: usize) -> bool
    ensures { result ≡ slice_index_or flags.now index true }
{
    match flags.get(index) {
        Some(flag) => *flag,
        None => true,
    }
}

/// How many turns each of so many agents has in the first so many turns.
fn turns_before(alloc: Global, report: &Report<'_>, turns: u64) -> Result<Vec<u64>, AllocError> {
    let mut counts = Vec::from_elem(alloc, 0u64, report.names.len())?;
    let mut left = turns;
    for entry in &report.entries {
        let times = entry.times.min(left);
        if let Some(count) = counts.get_mut(entry.agent) {
            *count = count.saturating_add(times);
        }
        left = left.saturating_sub(times);
    }
    Ok(counts)
}

/// Of each line whether its cycle has a turn in the stretch.
fn within(
    alloc: Global,
    report: &Report<'_>,
    lines: &[&[u8]],
    stretch: Stretch,
) -> Result<Vec<bool>, AllocError> {
    let before = turns_before(alloc, report, stretch.from.saturating_sub(1))?;
    let through = turns_before(alloc, report, stretch.to)?;
    let mut flags = Vec::new(alloc);
    let mut agents: usize = 0;
    for line in lines {
        if let LineKind::AgentSection = kind_of(line) {
            agents = agents.saturating_add(1);
        }
        let last = cycle_of(line).unwrap_or(0).saturating_mul(2);
        let agent = agents.saturating_sub(1);
        let before = before.get(agent).copied().unwrap_or(0);
        let through = through.get(agent).copied().unwrap_or(0);
        flags.push(before < last && last <= through.saturating_add(1))?;
    }
    Ok(flags)
}

/// Of each line whether it is of the turns that are drawn; none where all are.
fn flags_of(
    alloc: Global,
    choice: Choice<'_>,
    report: &Report<'_>,
    lines: &[&[u8]],
) -> Result<Vec<bool>, AllocError>
    ensures { IfOk result (λ flags. spec.AreFlags choice.entry flags.items) }
{
    match choice.turns {
        Some(stretch) => within(alloc, report, lines, stretch),
        None => Ok(Vec::new(alloc)),
    }
}

/// The piece of a line of this kind in the section of that agent.
fn piece_of<'a>(part: Part, kind: LineKind, agents: usize, line: &'a [u8]) -> Piece<'a>
    ensures { result.text.now ≡ spec.said part kind line.now }
{
    Piece {
        kind: shown_kind(part, kind),
        agent: agents.saturating_sub(1),
        cycle: cycle_of(line).unwrap_or(0),
        text: said(part, kind, line),
    }
}

/// The pieces of the lines that are shown, in their order.
fn picked<'a>(
    alloc: Global,
    choice: Choice<'_>,
    flags: &[bool],
    lines: &[&'a [u8]],
) -> Result<Vec<Piece<'a>>, AllocError>
    ensures { IfOk result (λ v. map (λ p. p.text.now) v.items ≡ spec.shown choice.entry flags.now 0 Part.Around (map (λ l. l.now) lines.now)) }
{
    let mut out = Vec::new(alloc);
    let mut part = Part::Around;
    let mut agents: usize = 0;
    for (index, line) in lines.iter().enumerate() {
        let kind = kind_of(line);
        part = part_of(choice, part, kind, line);
        if let LineKind::AgentSection = kind {
            agents = agents.saturating_add(1);
        }
        if is_shown(part, kind, flag_at(flags, index)) {
            out.push(piece_of(part, kind, agents, line))?;
        }
    }
    Ok(out)
}

/// What is shown of a report, in the order of its lines.
pub fn pieces<'a>(
    alloc: Global,
    choice: Choice<'_>,
    report: &Report<'_>,
    lines: &[&'a [u8]],
) -> Result<Vec<Piece<'a>>, AllocError>
    ensures { IfOk result (λ v. spec.AreShown choice.entry (map (λ l. l.now) lines.now) (map (λ p. p.text.now) v.items)) }
{
    let flags = flags_of(alloc, choice, report, lines)?;
    picked(alloc, choice, flags.as_slice(), lines)
}
