//! The report of a run.

ghost use Rattle.std.specs.Prelude.{◌≡◌, ◌++◌, length, option_copied, OnOk, IfOk};
ghost use Rattle.std.specs.List.{flat_map};
ghost use Rattle.mas_mind.specs.Minds.{IsAgent};
ghost use Rattle.asl_term.specs.Names.{name_at};
ghost use Rattle.mas_board.specs.Boards as board;
ghost use Rattle.mas_board.specs.Seating.{IsSound};
ghost use Rattle.mas_report.specs.Report as spec;
ghost use Rattle.mas_report_schedule.specs.Schedule.{AllFromOne, IsVersion, printed};

use crate::options::Options;
use asl_term::names::Names;
use asl_term::printing::{print, write_number};
use asl_term::printing_expr::print_literal;
use asl_term::sequence::{Seq, Starved};
use asl_term::syntax::{Literal, Text};
use mas_board::board::Board;
use mas_board::seats::Phase;
use mas_core::robin::Done;
use mas_mind::mind::{End, Level, Message, verb_text};
use mas_mind::thinking::Mind;
use mas_report_schedule::schedule::put_schedule;
use mas_world::artifact::Artifact;
use mas_world::world::World;
use std::alloc::Global;

/// The version of the reports that are written.
pub const LATEST: u32 = 2;

fn level_word(level: Level) -> &'static [u8]
    ensures { result.now ≡ spec.level_word level }
{
    match level {
        Level::Say => b"say",
        Level::Acts => b"acts",
        Level::Rules => b"rules",
    }
}

fn end_word(end: End) -> &'static [u8]
    ensures { result.now ≡ spec.end_word end }
{
    match end {
        End::Quiet => b"quiet",
        End::Stopped => b"stopped",
        End::Cycles => b"cycles",
        End::Budget => b"budget",
    }
}

/// The word of an end; none before an agent has left.
pub fn phase_word(phase: Phase) -> &'static [u8]
    ensures { result.now ≡ spec.phase_word phase }
{
    match phase {
        Phase::Idle | Phase::Busy => b"",
        Phase::Left(end) => end_word(end),
    }
}

/// Whether an agent has left with the end `budget`.
fn is_budget(phase: Phase) -> bool
    ensures { result ≡ spec.is_budget phase }
{
    match phase {
        Phase::Left(End::Budget) => true,
        _ => false,
    }
}

/// Appends these pieces, one behind the other.
fn put_pieces(out: &mut Text, pieces: &[&[u8]]) -> Result<(), Starved>
    ensures { OnOk result (out.new ≡ out.old ++ flat_map (λ p. p.now) pieces.now) }
{
    for piece in pieces {
        out.append(*piece)?;
    }
    Ok(())
}

fn put_field(alloc: Global, out: &mut Text, word: &[u8], n: u64) -> Result<(), Starved>
    ensures { OnOk result (out.new ≡ out.old ++ spec.field word.now n) }
{
    out.append(word)?;
    write_number(alloc, n, out)
}

#[tactic(auto, unfolding(crate::specs::Report::limits_text))]
fn put_limits(alloc: Global, out: &mut Text, o: &Options) -> Result<(), Starved>
    ensures { OnOk result (out.new ≡ out.old ++ spec.limits_text o.now) }
{
    put_field(alloc, out, b"cycles ", o.cycles)?;
    put_field(alloc, out, b" lead ", o.lead)?;
    put_field(alloc, out, b" depth ", o.depth)?;
    put_field(alloc, out, b" tries ", o.tries)
}

/// Appends the line of options.
#[tactic(auto, unfolding(crate::specs::Report::options_line))]
pub fn put_options(alloc: Global, out: &mut Text, o: &Options) -> Result<(), Starved>
    ensures { OnOk result (out.new ≡ out.old ++ spec.options_line o.now) }
{
    put_limits(alloc, out, o)?;
    put_pieces(out, &[b" level ", level_word(o.level), b"\n"])
}

/// Appends the line with which the section of an agent begins.
#[tactic(auto, unfolding(crate::specs::Report::agent_line))]
pub fn put_agent_line(out: &mut Text, name: &[u8]) -> Result<(), Starved>
    ensures { OnOk result (out.new ≡ out.old ++ spec.agent_line name.now) }
{
    put_pieces(out, &[b"agent ", name, b"\n"])
}

#[tactic(auto, unfolding(crate::specs::Report::end_line))]
fn put_end_line(
    alloc: Global,
    out: &mut Text,
    name: &[u8],
    phase: Phase,
    cycle: u64,
) -> Result<(), Starved>
    ensures { OnOk result (out.new ≡ out.old ++ spec.end_line name.now phase cycle) }
{
    put_pieces(out, &[b"end ", name, b" "])?;
    out.append(phase_word(phase))?;
    put_field(alloc, out, b" ", cycle)?;
    out.append(b"\n")
}

/// The name of the agent of this number.
pub fn name_of(names: &Names, a: u32) -> &[u8]
    ensures { result.now ≡ board.name_or_none (name_at names.now a) }
{
    match names.at(a) {
        Some(name) => name.as_slice(),
        None => b"",
    }
}

/// Appends the section of an agent, which has shown these lines.
#[tactic(auto, unfolding(crate::specs::Report::agent_text))]
fn put_agent<A: Artifact>(
    alloc: Global,
    out: &mut Text,
    b: &Board<A>,
    a: u32,
    lines: &[u8],
) -> Result<(), Starved>
    requires { IsAgent (length b.now.state.seats) a }
    ensures { let s = b.now.state in
        OnOk result (out.new ≡ out.old ++ spec.agent_text (board.name_of s a) lines.now (board.seat_at s a)) }
{
    let name = name_of(b.names(), a);
    put_agent_line(out, name)?;
    out.append(lines)?;
    put_end_line(alloc, out, name, b.phase(a), b.cycle(a))
}

/// The lines that a mind has shown, where there is one.
pub fn lines_of<M: Mind>(mind: Option<&M>) -> &[u8]
    ensures { result.now ≡ spec.lines_or_none M.kind.lines (option_copied mind.entry) }
{
    match mind {
        Some(mind) => mind.lines().as_slice(),
        None => b"",
    }
}

#[tactic(auto, using(crate::proofs::Sections::agents_next, crate::proofs::Sections::agents_end))]
fn put_agents<M: Mind, A: Artifact>(
    alloc: Global,
    out: &mut Text,
    b: &Board<A>,
    minds: &Seq<M>,
) -> Result<(), Starved>
    requires { IsSound b.now.state }
    ensures { let s = b.now.state in
        OnOk result (out.new ≡ out.old ++ spec.agents_text M.kind.lines s minds.now 1 (length s.seats)) }
{
    let agents = b.names().len();
    let mut a: u32 = 1;
    'agents: while a <= agents {
        let lines = lines_of(minds.at((a - 1) as u64));
        put_agent(alloc, out, b, a, lines)?;
        a += 1;
    }
    Ok(())
}

#[tactic(auto, unfolding(crate::specs::Report::fact_line))]
fn put_fact(out: &mut Text, fact: &Literal) -> Result<(), Starved>
    ensures { OnOk result (out.new ≡ out.old ++ spec.fact_line fact.now) }
{
    out.append(b"fact ")?;
    print_literal(fact, out)?;
    out.append(b"\n")
}

fn put_facts(out: &mut Text, all: &[Literal]) -> Result<(), Starved>
    ensures { OnOk result (out.new ≡ out.old ++ flat_map spec.fact_line all.now) }
{
    for fact in all {
        put_fact(out, fact)?;
    }
    Ok(())
}

/// Appends the facts of the world.
pub fn put_world<A: Artifact>(alloc: Global, out: &mut Text, w: &World<A>) -> Result<(), Starved>
    ensures { OnOk result (out.new ≡ out.old ++ spec.world_text w.now) }
{
    out.append(b"world\n")?;
    let all = w.facts(alloc)?;
    put_facts(out, all.as_slice())
}

/// Appends to whom a message is and from whom.
#[tactic(auto, unfolding(crate::specs::Report::route_text))]
fn put_route(out: &mut Text, names: &Names, m: &Message) -> Result<(), Starved>
    ensures { OnOk result (out.new ≡ out.old ++ spec.route_text names.now m.now) }
{
    let (to, from) = (name_of(names, m.to), name_of(names, m.from));
    put_pieces(out, &[b"for ", to, b" from ", from, b" "])
}

/// Appends what a message says.
#[tactic(auto, unfolding(crate::specs::Report::content_text))]
fn put_content(out: &mut Text, m: &Message) -> Result<(), Starved>
    ensures { OnOk result (out.new ≡ out.old ++ spec.content_text m.now) }
{
    put_pieces(out, &[verb_text(m.verb).as_bytes(), b" "])?;
    print(&m.content, out)?;
    out.append(b"\n")
}

/// Appends the line of a message that is on its way.
pub fn put_message(out: &mut Text, names: &Names, m: &Message) -> Result<(), Starved>
    ensures { OnOk result (out.new ≡ out.old ++ spec.message_line names.now m.now) }
{
    put_route(out, names, m)?;
    put_content(out, m)
}

/// Appends the unread messages of an agent.
#[tactic(auto, using(crate::proofs::Sections::letters_next, crate::proofs::Sections::letters_end, crate::proofs::Sections::letters_past))]
fn put_box<A: Artifact>(out: &mut Text, b: &Board<A>, a: u32) -> Result<(), Starved>
    requires { IsAgent (length b.now.state.seats) a }
    ensures { OnOk result (out.new ≡ out.old ++ spec.box_text b.now.state a) }
{
    let unread = b.unread(a);
    let mut k: u64 = 0;
    'letters: while k < unread {
        let Some(m) = b.mail(a, k) else {
            return Ok(());
        };
        put_message(out, b.names(), m)?;
        k += 1;
    }
    Ok(())
}

/// Appends the mail that nobody has read.
#[tactic(auto, using(crate::proofs::Sections::boxes_next, crate::proofs::Sections::boxes_end))]
pub fn put_mail<A: Artifact>(out: &mut Text, b: &Board<A>) -> Result<(), Starved>
    requires { IsSound b.now.state }
    ensures { OnOk result (out.new ≡ out.old ++ spec.mail_text b.now.state) }
{
    out.append(b"mail\n")?;
    let agents = b.names().len();
    let mut a: u32 = 1;
    'boxes: while a <= agents {
        put_box(out, b, a)?;
        a += 1;
    }
    Ok(())
}

#[tactic(auto, unfolding(crate::specs::Report::first_line))]
fn put_first_line(alloc: Global, version: u32, out: &mut Text) -> Result<(), Starved>
    ensures { OnOk result (out.new ≡ out.old ++ spec.first_line version) }
{
    put_field(alloc, out, b"jasonrun ", version as u64)?;
    out.append(b"\n")
}

/// Appends what stands before the schedule.
fn put_front<M: Mind, A: Artifact>(
    alloc: Global,
    version: u32,
    out: &mut Text,
    o: &Options,
    d: &Done<M, A>,
) -> Result<(), Starved>
    ensures { OnOk result (out.new ≡ out.old ++ spec.front_text M.kind.lines version o.now d.now.board.state d.now.minds) }
{
    d.board.holds();
    put_first_line(alloc, version, out)?;
    put_options(alloc, out, o)?;
    put_agents(alloc, out, &d.board, &d.minds)?;
    put_world(alloc, out, d.board.world())?;
    put_mail(out, &d.board)
}

/// The report of a run, in this version: its options, each agent's lines and end, the facts, the unread mail and the schedule.
#[tactic(auto, using(crate::proofs::Backs::schedule_printed))]
pub fn report<M: Mind, A: Artifact>(
    alloc: Global,
    version: u32,
    o: &Options,
    d: &Done<M, A>,
) -> Result<Text, Starved>
    requires { IsVersion version }
    ensures text { IfOk result (λ t. t ≡ spec.report_text M.kind.lines version o.now d.now.board.state d.now.minds d.now.board.schedule) }
    ensures printed { AllFromOne 65535 d.now.board.schedule → IfOk result (λ t. printed t ≡ d.now.board.schedule) }
{
    let mut out = Seq::new(alloc);
    put_front(alloc, version, &mut out, o, d)?;
    put_schedule(alloc, version, &mut out, d.board.schedule())?;
    Ok(out)
}

/// Whether some agent has left with the end `budget`.
#[tactic(auto, using(crate::proofs::Sections::spent_next, crate::proofs::Sections::spent_here, crate::proofs::Sections::spent_end))]
pub fn is_spent<A: Artifact>(b: &Board<A>) -> bool
    ensures { result ≡ spec.is_spent b.now.state.seats }
{
    b.holds();
    let agents = b.names().len();
    let mut a: u32 = 1;
    'agents: while a <= agents {
        if is_budget(b.phase(a)) {
            return true;
        }
        a += 1;
    }
    false
}
