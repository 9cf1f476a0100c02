//! The moves of agents.

ghost use Rattle.std.specs.Prelude.{◌≡◌, ◌<◌, Some, length, IfOk};
ghost use Rattle.mas_explore.specs.Searches.{most_states};
ghost use Rattle.mas_mind.specs.Minds.{IsAgent};
ghost use Rattle.mas_explore_space.specs.declared.row.Stance.TheVariants.{Idle, Busy, Left};
ghost use Rattle.mas_explore_space.specs.Held.{start_of, Fits};
ghost use Rattle.mas_explore_space.specs.Rows as rows;

use crate::carrying::follow_outs;
use crate::held::Held;
use crate::row::{Row, Seat, Stance, with_stance};
use crate::thinking::follow_cycle;
use asl_term::sequence::Starved;
use mas_explore_minds::fresh::Fresh;
use mas_explore_worlds::fresh::FreshWorld;
use mas_mind::mind::End;
use mas_mind::thinking::Mind;
use mas_world::artifact::Artifact;
use std::alloc::Global;

/// The row after an agent has left.
fn left_row(row: Row, place: u64, seat: Seat, end: End) -> Option<Row>
    requires { place < length row.seats }
    ensures { result ≡ Some (rows.with_stance row place seat (Left end)) }
{
    Some(with_stance(row, place, seat, Stance::Left(end)))
}

/// What comes of the move of an idle agent.
fn follow_idle<M: Mind, A: Artifact, F: Fresh<M> + FreshWorld<A>>(
    alloc: Global,
    fresh: &F,
    held: &mut Held,
    state: u64,
    row: Row,
    a: u32,
    seat: Seat,
) -> Result<Option<Row>, Starved>
    requires mover { rows.IsMover M.kind (start_of (F.agents fresh.now) (F.start fresh.now) (F.first fresh.now)) held.old state row a seat }
    requires short { state < most_states }
    requires idle { seat.stance ≡ Idle }
    ensures { let s = start_of (F.agents fresh.now) (F.start fresh.now) (F.first fresh.now) in
        IfOk result (rows.HasMoved M.kind s held.old held.new state row a) }
{
    if row.stop {
        return Ok(left_row(row, (a - 1) as u64, seat, End::Stopped));
    }
    follow_cycle::<M, A, F>(alloc, fresh, held, state, row, a, seat)
}

/// What comes of the move of an agent that carries out outs.
fn follow_busy<M: Mind, A: Artifact, F: Fresh<M> + FreshWorld<A>>(
    alloc: Global,
    fresh: &F,
    held: &mut Held,
    state: u64,
    row: Row,
    a: u32,
    seat: Seat,
    thought: u64,
) -> Result<Option<Row>, Starved>
    requires mover { rows.IsMover M.kind (start_of (F.agents fresh.now) (F.start fresh.now) (F.first fresh.now)) held.old state row a seat }
    requires short { state < most_states }
    requires busy { seat.stance ≡ Busy thought }
    ensures { let s = start_of (F.agents fresh.now) (F.start fresh.now) (F.first fresh.now) in
        IfOk result (rows.HasMoved M.kind s held.old held.new state row a) }
{
    let next = follow_outs::<M, A, F>(alloc, fresh, held, state, row, a, seat, thought)?;
    Ok(Some(next))
}

/// What comes of the move of an agent, which has this seat.
fn follow_seat<M: Mind, A: Artifact, F: Fresh<M> + FreshWorld<A>>(
    alloc: Global,
    fresh: &F,
    held: &mut Held,
    state: u64,
    row: Row,
    a: u32,
    seat: Seat,
) -> Result<Option<Row>, Starved>
    requires mover { rows.IsMover M.kind (start_of (F.agents fresh.now) (F.start fresh.now) (F.first fresh.now)) held.old state row a seat }
    requires short { state < most_states }
    ensures { let s = start_of (F.agents fresh.now) (F.start fresh.now) (F.first fresh.now) in
        IfOk result (rows.HasMoved M.kind s held.old held.new state row a) }
{
    match seat.stance {
        Stance::Idle => follow_idle::<M, A, F>(alloc, fresh, held, state, row, a, seat),
        Stance::Busy(thought) => {
            follow_busy::<M, A, F>(alloc, fresh, held, state, row, a, seat, thought)
        }
        Stance::Spent => Ok(left_row(row, (a - 1) as u64, seat, End::Budget)),
        Stance::Left(_) => {
            drop(row);
            Ok(None)
        }
    }
}

/// What comes of an agent's move from the state of this row, which has this number, where it has one.
pub fn follow_row<M: Mind, A: Artifact, F: Fresh<M> + FreshWorld<A>>(
    alloc: Global,
    fresh: &F,
    held: &mut Held,
    state: u64,
    row: Row,
    a: u32,
) -> Result<Option<Row>, Starved>
    requires fits { Fits M.kind (start_of (F.agents fresh.now) (F.start fresh.now) (F.first fresh.now)) held.old }
    requires stands { rows.Stands M.kind (start_of (F.agents fresh.now) (F.start fresh.now) (F.first fresh.now)) held.old state row }
    requires agent { IsAgent (length (F.agents fresh.now)) a }
    requires short { state < most_states }
    ensures { let s = start_of (F.agents fresh.now) (F.start fresh.now) (F.first fresh.now) in
        IfOk result (rows.HasMoved M.kind s held.old held.new state row a) }
{
    let place = (a - 1) as u64;
    let Some(seat) = row.seats.at(place) else {
        unreachable!()
    };
    let seat = *seat;
    follow_seat::<M, A, F>(alloc, fresh, held, state, row, a, seat)
}
