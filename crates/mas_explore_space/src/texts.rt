//! The outcome of a state.

ghost use Rattle.std.specs.Prelude.{◌≡◌, ◌<◌, ◌+◌, ◌++◌, length, OnOk, IfOk};
ghost use Rattle.std.specs.List.{flat_map};
ghost use Rattle.mas_report.specs.Report.{message_line, mail_text, world_text};
ghost use Rattle.mas_free.specs.Free.{at_end, board_at_end};
ghost use Rattle.mas_free.specs.Outcome as outcome;
ghost use Rattle.mas_explore_space.specs.Held.{start_of, Fits};
ghost use Rattle.mas_explore_space.specs.Rows.{Stands, box_at, free_of};
ghost use Rattle.mas_explore_space.specs.Texts as spec;

use crate::held::Held;
use crate::row::{Row, Seat, Stance};
use asl_term::names::Names;
use asl_term::sequence::{Seq, Starved};
use asl_term::syntax::Text;
use mas_board::seats::Phase;
use mas_explore_minds::fresh::Fresh;
use mas_explore_minds::minds::mind_of;
use mas_explore_worlds::fresh::FreshWorld;
use mas_explore_worlds::worlds::world_of;
use mas_free::outcome::put_section;
use mas_free::view::View;
use mas_mind::mind::{End, Message};
use mas_mind::thinking::Mind;
use mas_report::report::{name_of, put_message, put_world};
use mas_world::artifact::Artifact;
use std::alloc::Global;

/// How the part of an agent ends in a state at rest.
fn phase_of(stance: Stance) -> Phase
    ensures { result ≡ spec.phase_of stance }
{
    match stance {
        Stance::Idle => Phase::Left(End::Quiet),
        Stance::Busy(_) | Stance::Spent => Phase::Busy,
        Stance::Left(end) => Phase::Left(end),
    }
}

/// Appends the section of the agent of this seat.
fn put_agent<M: Mind, A: Artifact, F: Fresh<M> + FreshWorld<A>>(
    alloc: Global,
    fresh: &F,
    held: &Held,
    view: View,
    out: &mut Text,
    a: u32,
    seat: Seat,
) -> Result<(), Starved>
    requires fits { Fits M.kind (start_of (F.agents fresh.now) (F.start fresh.now) (F.first fresh.now)) held.now }
    requires there { seat.mind < length (F.first fresh.now) + length held.now.minds.links }
    ensures { let s = start_of (F.agents fresh.now) (F.start fresh.now) (F.first fresh.now) in
        OnOk result (spec.HasSection M.kind s held.now view a seat out.old out.new) }
{
    let mind = mind_of::<M, F>(alloc, fresh, &held.minds, seat.mind)?;
    let name = name_of(fresh.names(), a);
    let lines = mind.lines();
    put_section(out, name, view, lines.as_slice(), phase_of(seat.stance))?;
    Ok(())
}

/// Appends the sections of all agents.
fn put_agents<M: Mind, A: Artifact, F: Fresh<M> + FreshWorld<A>>(
    alloc: Global,
    fresh: &F,
    held: &Held,
    view: View,
    out: &mut Text,
    state: u64,
    row: &Row,
) -> Result<(), Starved>
    requires fits { Fits M.kind (start_of (F.agents fresh.now) (F.start fresh.now) (F.first fresh.now)) held.now }
    requires stands { Stands M.kind (start_of (F.agents fresh.now) (F.start fresh.now) (F.first fresh.now)) held.now state row.now }
    ensures { let s = start_of (F.agents fresh.now) (F.start fresh.now) (F.first fresh.now) in
        OnOk result (out.new ≡ out.old ++ spec.agents_text M.kind view (free_of M.kind s held.now row.now)) }
{
    let agents = fresh.names().len();
    let mut place: u32 = 0;
    'agents: while place < agents {
        let Some(seat) = row.seats.at(place as u64) else {
            unreachable!()
        };
        put_agent::<M, A, F>(alloc, fresh, held, view, out, place + 1, *seat)?;
        place += 1;
    }
    Ok(())
}

/// Appends the messages of a box.
fn put_box(out: &mut Text, names: &Names, messages: &[Message]) -> Result<(), Starved>
    ensures { OnOk result (out.new ≡ out.old ++ flat_map (message_line names.now) messages.now) }
{
    for m in messages {
        put_message(out, names, m)?;
    }
    Ok(())
}

/// Appends the unread messages of the agent of this seat.
fn put_letters(out: &mut Text, names: &Names, held: &Held, seat: Seat) -> Result<(), Starved>
    ensures { OnOk result (out.new ≡ out.old ++ flat_map (message_line names.now) (box_at held.now.minds.boxes seat)) }
{
    match held.minds.boxes.at(seat.mail) {
        None => Ok(()),
        Some(messages) => put_box(out, names, messages.as_slice()),
    }
}

/// Appends the mail that nobody has read.
fn put_boxes<M: Mind, A: Artifact, F: Fresh<M> + FreshWorld<A>>(
    fresh: &F,
    held: &Held,
    out: &mut Text,
    state: u64,
    row: &Row,
) -> Result<(), Starved>
    requires stands { Stands M.kind (start_of (F.agents fresh.now) (F.start fresh.now) (F.first fresh.now)) held.now state row.now }
    ensures { let s = start_of (F.agents fresh.now) (F.start fresh.now) (F.first fresh.now) in
        OnOk result (out.new ≡ out.old ++ mail_text (board_at_end (free_of M.kind s held.now row.now))) }
{
    out.append(b"mail\n")?;
    let agents = fresh.names().len();
    let mut place: u32 = 0;
    'boxes: while place < agents {
        let Some(seat) = row.seats.at(place as u64) else {
            unreachable!()
        };
        put_letters(out, fresh.names(), held, *seat)?;
        place += 1;
    }
    Ok(())
}

/// Appends the facts of the world of this number.
fn put_facts<M: Mind, A: Artifact, F: Fresh<M> + FreshWorld<A>>(
    alloc: Global,
    fresh: &F,
    held: &Held,
    out: &mut Text,
    state: u64,
    row: &Row,
) -> Result<(), Starved>
    requires fits { Fits M.kind (start_of (F.agents fresh.now) (F.start fresh.now) (F.first fresh.now)) held.now }
    requires stands { Stands M.kind (start_of (F.agents fresh.now) (F.start fresh.now) (F.first fresh.now)) held.now state row.now }
    ensures { let s = start_of (F.agents fresh.now) (F.start fresh.now) (F.first fresh.now) in
        OnOk result (out.new ≡ out.old ++ world_text (free_of M.kind s held.now row.now).world) }
{
    let world = world_of::<A, F>(alloc, fresh, &held.worlds, row.world)?;
    let put = put_world(alloc, out, &world);
    drop(world);
    put
}

/// The outcome of the state of this row, where it is at rest.
pub fn outcome_of<M: Mind, A: Artifact, F: Fresh<M> + FreshWorld<A>>(
    alloc: Global,
    fresh: &F,
    held: &Held,
    state: u64,
    row: &Row,
    view: View,
) -> Result<Text, Starved>
    requires fits { Fits M.kind (start_of (F.agents fresh.now) (F.start fresh.now) (F.first fresh.now)) held.now }
    requires stands { Stands M.kind (start_of (F.agents fresh.now) (F.start fresh.now) (F.first fresh.now)) held.now state row.now }
    ensures { let s = start_of (F.agents fresh.now) (F.start fresh.now) (F.first fresh.now) in
        IfOk result (λ t. t ≡ outcome.outcome M.kind view (at_end (free_of M.kind s held.now row.now))) }
{
    let mut out = Seq::new(alloc);
    put_agents::<M, A, F>(alloc, fresh, held, view, &mut out, state, row)?;
    put_facts::<M, A, F>(alloc, fresh, held, &mut out, state, row)?;
    put_boxes::<M, A, F>(fresh, held, &mut out, state, row)?;
    Ok(out)
}
