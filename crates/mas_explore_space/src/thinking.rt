//! Cycles of agents.

ghost use Rattle.std.specs.Prelude.{◌≡◌, ◌<◌, ◌+◌, ◌-◌, length, slice_get, Some, IfOk, IfSome};
ghost use Rattle.mas_explore.specs.Searches.{most_states};
ghost use Rattle.mas_explore_minds.specs.Minds.{MayCycle, ThinksTo};
ghost use Rattle.mas_explore_space.specs.declared.row.Stance.TheVariants.{Idle};
ghost use Rattle.mas_explore_space.specs.Held as spec;
ghost use Rattle.mas_explore_space.specs.Held.{start_of, Fits, HasGrown};
ghost use Rattle.mas_explore_space.specs.Rows as rows;
ghost use Rattle.std.specs.Prelude.{false};
ghost use Rattle.mas_free.specs.Free as free;

use crate::boxes::{keep_front, keep_rest};
use crate::held::{Held, Seeing};
use crate::row::{Row, Seat, Stance, with_seat};
use asl_term::sequence::Starved;
use mas_explore_minds::fresh::Fresh;
use mas_explore_minds::heard::{Cycle, Thinking};
use mas_explore_minds::minds::{Minds, number_sight, think};
use mas_explore_worlds::fresh::FreshWorld;
use mas_explore_worlds::worlds::percepts_in;
use mas_mind::mind::{Outs, Thought};
use mas_mind::thinking::Mind;
use mas_world::artifact::Artifact;
use std::alloc::Global;

/// The number of what an agent sees of a world that it did not see before.
fn see_anew<M: Mind, A: Artifact, F: Fresh<M> + FreshWorld<A>>(
    alloc: Global,
    fresh: &F,
    held: &mut Held,
    seeing: Seeing,
) -> Result<u64, Starved>
    requires fits { Fits M.kind (start_of (F.agents fresh.now) (F.start fresh.now) (F.first fresh.now)) held.old }
    requires there { seeing.world < 1 + length held.old.worlds }
    ensures grown { IfOk result (λ n. HasGrown M.kind (start_of (F.agents fresh.now) (F.start fresh.now) (F.first fresh.now)) held.old held.new) }
    ensures seen { IfOk result (spec.IsSeen (start_of (F.agents fresh.now) (F.start fresh.now) (F.first fresh.now)) held.new seeing) }
    ensures memory { IfOk result (λ n. held.new.seen ≡ held.old.seen) }
{
    let percepts = percepts_in::<A, F>(alloc, fresh, &held.worlds, seeing.world, seeing.agent)?;
    let sight = number_sight::<M, F>(alloc, fresh, &mut held.minds, percepts)?;
    Ok(sight)
}

/// The number of what an agent sees of a world.
fn see<M: Mind, A: Artifact, F: Fresh<M> + FreshWorld<A>>(
    alloc: Global,
    fresh: &F,
    held: &mut Held,
    seeing: Seeing,
) -> Result<u64, Starved>
    requires fits { Fits M.kind (start_of (F.agents fresh.now) (F.start fresh.now) (F.first fresh.now)) held.old }
    requires there { seeing.world < 1 + length held.old.worlds }
    ensures grown { IfOk result (λ n. HasGrown M.kind (start_of (F.agents fresh.now) (F.start fresh.now) (F.first fresh.now)) held.old held.new) }
    ensures seen { IfOk result (spec.IsSeen (start_of (F.agents fresh.now) (F.start fresh.now) (F.first fresh.now)) held.new seeing) }
{
    if let Some(known) = held.seen.get(&seeing) {
        return Ok(known);
    }
    let sight = see_anew::<M, A, F>(alloc, fresh, held, seeing)?;
    held.seen.note(alloc, seeing, sight)?;
    Ok(sight)
}

/// What comes of a cycle.
fn think_on<M: Mind, A: Artifact, F: Fresh<M> + FreshWorld<A>>(
    alloc: Global,
    fresh: &F,
    held: &mut Held,
    cycle: Cycle,
) -> Result<Thinking, Starved>
    requires fits { Fits M.kind (start_of (F.agents fresh.now) (F.start fresh.now) (F.first fresh.now)) held.old }
    requires may { MayCycle M.kind (F.first fresh.now) held.old.minds cycle }
    ensures grown { IfOk result (λ r. HasGrown M.kind (start_of (F.agents fresh.now) (F.start fresh.now) (F.first fresh.now)) held.old held.new) }
    ensures comes { IfOk result (ThinksTo M.kind (F.first fresh.now) held.new.minds cycle) }
{
    let _names = fresh.names();
    let comes = think::<M, F>(alloc, fresh, &mut held.minds, cycle)?;
    Ok(comes)
}

/// The cycle of an idle agent, which has this seat, in the state of this number.
fn cycle_of<M: Mind, A: Artifact, F: Fresh<M> + FreshWorld<A>>(
    alloc: Global,
    fresh: &F,
    held: &mut Held,
    state: u64,
    row: &Row,
    a: u32,
    seat: Seat,
) -> Result<Thinking, Starved>
    requires mover { rows.IsMover M.kind (start_of (F.agents fresh.now) (F.start fresh.now) (F.first fresh.now)) held.old state row.now a seat }
    requires short { state < most_states }
    requires idle { seat.stance ≡ Idle }
    ensures { let s = start_of (F.agents fresh.now) (F.start fresh.now) (F.first fresh.now) in
        IfOk result (rows.HasCycled M.kind s held.old held.new row.now.world a seat) }
{
    let seeing = Seeing {
        world: row.world,
        agent: a,
    };
    let sight = see::<M, A, F>(alloc, fresh, held, seeing)?;
    let front = keep_front::<M, A, F>(alloc, fresh, held, seat.mail)?;
    let cycle = Cycle {
        mind: seat.mind,
        sight,
        front,
    };
    let comes = think_on::<M, A, F>(alloc, fresh, held, cycle)?;
    Ok(comes)
}

fn carry_nothing(outs: &Outs) -> bool
    ensures { result ≡ free.carry_nothing outs.now }
{
    outs.action.is_none() && outs.messages.len() == 0 && !outs.stop
}

/// What an agent does next that has the thought of this number.
fn stance_after(minds: &Minds, thought: u64) -> Stance
    ensures { IfSome (slice_get minds.now.thoughts thought) (λ t. result ≡ rows.stance_after thought t) }
{
    match minds.thoughts.at(thought) {
        None => Stance::Idle,
        Some(Thought::Spent) => Stance::Spent,
        Some(Thought::Outs(outs)) => {
            if carry_nothing(outs) {
                Stance::Idle
            } else {
                Stance::Busy(thought)
            }
        }
    }
}

/// The row after a cycle that led to this mind and this thought.
fn led_row<M: Mind, A: Artifact, F: Fresh<M> + FreshWorld<A>>(
    alloc: Global,
    fresh: &F,
    held: &mut Held,
    row: Row,
    place: u64,
    seat: Seat,
    mind: u64,
    thought: u64,
) -> Result<Option<Row>, Starved>
    requires fits { Fits M.kind (start_of (F.agents fresh.now) (F.start fresh.now) (F.first fresh.now)) held.old }
    requires there { rows.HasBox held.old.minds.boxes seat.mail }
    requires within { place < length row.seats }
    ensures { let s = start_of (F.agents fresh.now) (F.start fresh.now) (F.first fresh.now) in
        IfOk result (rows.HasLed M.kind s held.old held.new row place seat mind thought) }
{
    let mail = keep_rest::<M, A, F>(alloc, fresh, held, seat.mail)?;
    let stance = stance_after(&held.minds, thought);
    let own = Seat { mind, mail, stance };
    Ok(Some(with_seat(row, place, own)))
}

/// What comes of the move of an idle agent of a run that goes on.
pub fn follow_cycle<M: Mind, A: Artifact, F: Fresh<M> + FreshWorld<A>>(
    alloc: Global,
    fresh: &F,
    held: &mut Held,
    state: u64,
    row: Row,
    a: u32,
    seat: Seat,
) -> Result<Option<Row>, Starved>
    requires mover { rows.IsMover M.kind (start_of (F.agents fresh.now) (F.start fresh.now) (F.first fresh.now)) held.old state row a seat }
    requires short { state < most_states }
    requires idle { seat.stance ≡ Idle }
    requires running { row.stop ≡ false }
    ensures { let s = start_of (F.agents fresh.now) (F.start fresh.now) (F.first fresh.now) in
        IfOk result (rows.HasMoved M.kind s held.old held.new state row a) }
{
    let comes = cycle_of::<M, A, F>(alloc, fresh, held, state, &row, a, seat)?;
    match comes {
        Thinking::Nothing => {
            drop(row);
            Ok(None)
        }
        Thinking::Led { mind, thought } => {
            let place = (a - 1) as u64;
            led_row::<M, A, F>(alloc, fresh, held, row, place, seat, mind, thought)
        }
    }
}
