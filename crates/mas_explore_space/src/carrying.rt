//! Agents that carry out their outs.

ghost use Rattle.std.specs.Prelude.{◌≡◌, ◌<◌, ◌+◌, ◌-◌, true, length, Some, All, IfOk};
ghost use Rattle.asl_term.specs.Exprs.{is_ground_literal};
ghost use Rattle.mas_explore.specs.Searches.{most_states};
ghost use Rattle.mas_mind.specs.Minds.{IsAgent, IsFrom};
ghost use Rattle.mas_explore_minds.specs.Minds.{MayFollow, HasLinked};
ghost use Rattle.mas_explore_minds.specs.declared.heard.Heard.TheVariants.{Told};
ghost use Rattle.mas_explore_space.specs.declared.row.Stance.TheVariants.{Busy};
ghost use Rattle.mas_explore_space.specs.Held as spec;
ghost use Rattle.mas_explore_space.specs.Held.{start_of, Fits, HasGrown};
ghost use Rattle.mas_explore_space.specs.Rows as rows;

use crate::boxes::keep_with;
use crate::held::{Acting, Held};
use crate::row::{Row, Seat, Stance, with_seat};
use asl_term::copying::copy_literal;
use asl_term::sequence::Starved;
use asl_term::syntax::Literal;
use mas_explore_minds::fresh::Fresh;
use mas_explore_minds::minds::{Minds, told};
use mas_explore_worlds::fresh::FreshWorld;
use mas_explore_worlds::worlds::{Acted, act_in};
use mas_mind::copying::copy_messages;
use mas_mind::mind::{Feedback, Message, Messages, Outs, Thought};
use mas_mind::thinking::Mind;
use mas_world::artifact::Artifact;
use std::alloc::Global;

fn copy_action(alloc: Global, action: &Option<Literal>) -> Result<Option<Literal>, Starved>
    ensures { IfOk result (λ r. r ≡ action.now) }
{
    match action {
        None => Ok(None),
        Some(l) => Ok(Some(copy_literal(alloc, l)?)),
    }
}

/// The outs of the thought of this number.
fn outs_of(alloc: Global, minds: &Minds, thought: u64) -> Result<Outs, Starved>
    requires { rows.HasOuts minds.now.thoughts thought }
    ensures { IfOk result (λ o. rows.AreOutsAt minds.now.thoughts thought o) }
{
    let Some(Thought::Outs(outs)) = minds.thoughts.at(thought) else {
        unreachable!()
    };
    Ok(Outs {
        action: copy_action(alloc, &outs.action)?,
        messages: copy_messages(alloc, outs.messages.as_slice())?,
        stop: outs.stop,
        quiet: outs.quiet,
    })
}

/// What a world makes of an action that was not done on it before.
fn act_anew<M: Mind, A: Artifact, F: Fresh<M> + FreshWorld<A>>(
    alloc: Global,
    fresh: &F,
    held: &mut Held,
    acting: Acting,
    action: &Literal,
) -> Result<Acted, Starved>
    requires fits { Fits M.kind (start_of (F.agents fresh.now) (F.start fresh.now) (F.first fresh.now)) held.old }
    requires there { acting.world < 1 + length held.old.worlds }
    requires ground { is_ground_literal action.now ≡ true }
    requires action { rows.HasAction held.old.minds.thoughts acting.thought action.now }
    ensures grown { IfOk result (λ n. HasGrown M.kind (start_of (F.agents fresh.now) (F.start fresh.now) (F.first fresh.now)) held.old held.new) }
    ensures acted { IfOk result (spec.IsActed (start_of (F.agents fresh.now) (F.start fresh.now) (F.first fresh.now)) held.new acting) }
    ensures memory { IfOk result (λ n. held.new.acted ≡ held.old.acted) }
{
    let world = acting.world;
    let acted = act_in::<A, F>(alloc, fresh, &mut held.worlds, world, acting.agent, action)?;
    Ok(acted)
}

/// What a world makes of an action.
fn act<M: Mind, A: Artifact, F: Fresh<M> + FreshWorld<A>>(
    alloc: Global,
    fresh: &F,
    held: &mut Held,
    acting: Acting,
    action: &Literal,
) -> Result<Acted, Starved>
    requires fits { Fits M.kind (start_of (F.agents fresh.now) (F.start fresh.now) (F.first fresh.now)) held.old }
    requires there { acting.world < 1 + length held.old.worlds }
    requires ground { is_ground_literal action.now ≡ true }
    requires action { rows.HasAction held.old.minds.thoughts acting.thought action.now }
    ensures grown { IfOk result (λ n. HasGrown M.kind (start_of (F.agents fresh.now) (F.start fresh.now) (F.first fresh.now)) held.old held.new) }
    ensures acted { IfOk result (spec.IsActed (start_of (F.agents fresh.now) (F.start fresh.now) (F.first fresh.now)) held.new acting) }
{
    if let Some(known) = held.acted.get(&acting) {
        return Ok(known);
    }
    let acted = act_anew::<M, A, F>(alloc, fresh, held, acting, action)?;
    held.acted.note(alloc, acting, acted)?;
    Ok(acted)
}

/// The number of the mind of an agent that was told what became of its action.
fn tell<M: Mind, A: Artifact, F: Fresh<M> + FreshWorld<A>>(
    alloc: Global,
    fresh: &F,
    held: &mut Held,
    mind: u64,
    feedback: Feedback,
) -> Result<u64, Starved>
    requires fits { Fits M.kind (start_of (F.agents fresh.now) (F.start fresh.now) (F.first fresh.now)) held.old }
    requires may { MayFollow M.kind (F.first fresh.now) held.old.minds mind (Told feedback) }
    ensures grown { IfOk result (λ n. HasGrown M.kind (start_of (F.agents fresh.now) (F.start fresh.now) (F.first fresh.now)) held.old held.new) }
    ensures told { IfOk result (HasLinked M.kind (F.first fresh.now) held.old.minds held.new.minds mind (Told feedback)) }
{
    let _names = fresh.names();
    let n = told::<M, F>(alloc, fresh, &mut held.minds, mind, feedback)?;
    Ok(n)
}

/// The numbers of a world and a mind.
#[derive(Clone, Copy, Drop)]
struct Both {
    world: u64,
    mind: u64,
}

/// The numbers of the world and the mind after an action.
fn do_some<M: Mind, A: Artifact, F: Fresh<M> + FreshWorld<A>>(
    alloc: Global,
    fresh: &F,
    held: &mut Held,
    acting: Acting,
    mind: u64,
    action: &Literal,
) -> Result<Both, Starved>
    requires fits { Fits M.kind (start_of (F.agents fresh.now) (F.start fresh.now) (F.first fresh.now)) held.old }
    requires may { let s = start_of (F.agents fresh.now) (F.start fresh.now) (F.first fresh.now) in
        rows.MayDo M.kind s held.old acting mind action.now }
    ensures { let s = start_of (F.agents fresh.now) (F.start fresh.now) (F.first fresh.now) in
        IfOk result (λ b. rows.HasDone M.kind s held.old held.new acting.world acting.agent mind (Some action.now) b.world b.mind) }
{
    let acted = act::<M, A, F>(alloc, fresh, held, acting, action)?;
    let told = tell::<M, A, F>(alloc, fresh, held, mind, acted.feedback)?;
    Ok(Both {
        world: acted.world,
        mind: told,
    })
}

/// The numbers of the world and the mind after an action, where there is one.
fn do_action<M: Mind, A: Artifact, F: Fresh<M> + FreshWorld<A>>(
    alloc: Global,
    fresh: &F,
    held: &mut Held,
    acting: Acting,
    mind: u64,
    action: &Option<Literal>,
) -> Result<Both, Starved>
    requires fits { Fits M.kind (start_of (F.agents fresh.now) (F.start fresh.now) (F.first fresh.now)) held.old }
    requires may { let s = start_of (F.agents fresh.now) (F.start fresh.now) (F.first fresh.now) in
        rows.MayAct M.kind s held.old acting mind action.now }
    ensures { let s = start_of (F.agents fresh.now) (F.start fresh.now) (F.first fresh.now) in
        IfOk result (λ b. rows.HasDone M.kind s held.old held.new acting.world acting.agent mind action.now b.world b.mind) }
{
    match action {
        None => Ok(Both {
            world: acting.world,
            mind,
        }),
        Some(action) => do_some::<M, A, F>(alloc, fresh, held, acting, mind, action),
    }
}

/// A message of this agent goes last into the box of its receiver.
fn put_one<M: Mind, A: Artifact, F: Fresh<M> + FreshWorld<A>>(
    alloc: Global,
    fresh: &F,
    held: &mut Held,
    most: u64,
    row: Row,
    a: u32,
    m: Message,
) -> Result<Row, Starved>
    requires fits { Fits M.kind (start_of (F.agents fresh.now) (F.start fresh.now) (F.first fresh.now)) held.old }
    requires stands { rows.Stands M.kind (start_of (F.agents fresh.now) (F.start fresh.now) (F.first fresh.now)) held.old most row }
    requires agent { IsAgent (length (F.agents fresh.now)) a }
    requires sent { IsFrom a (length (F.agents fresh.now)) m }
    ensures { IfOk result (λ r. rows.HasPutOne M.kind (start_of (F.agents fresh.now) (F.start fresh.now) (F.first fresh.now)) held.old held.new most row r m) }
{
    let place = (m.to - 1) as u64;
    let Some(seat) = row.seats.at(place) else {
        unreachable!()
    };
    let seat = *seat;
    let mail = keep_with::<M, A, F>(alloc, fresh, held, seat.mail, m)?;
    let own = Seat {
        mind: seat.mind,
        mail,
        stance: seat.stance,
    };
    Ok(with_seat(row, place, own))
}

/// The messages of this agent go into the boxes of their receivers, in order.
fn put_all<M: Mind, A: Artifact, F: Fresh<M> + FreshWorld<A>>(
    alloc: Global,
    fresh: &F,
    held: &mut Held,
    most: u64,
    row: Row,
    a: u32,
    messages: Messages,
) -> Result<Row, Starved>
    requires fits { Fits M.kind (start_of (F.agents fresh.now) (F.start fresh.now) (F.first fresh.now)) held.old }
    requires stands { rows.Stands M.kind (start_of (F.agents fresh.now) (F.start fresh.now) (F.first fresh.now)) held.old most row }
    requires agent { IsAgent (length (F.agents fresh.now)) a }
    requires sent { All (IsFrom a (length (F.agents fresh.now))) messages }
    ensures { let s = start_of (F.agents fresh.now) (F.start fresh.now) (F.first fresh.now) in
        IfOk result (λ r. rows.HasPut M.kind s held.old held.new most row r messages) }
{
    let mut rest = messages;
    rest.reverse();
    let mut row = row;
    while let Some(m) = rest.pop() {
        let next = put_one::<M, A, F>(alloc, fresh, held, most, row, a, m)?;
        row = next;
    }
    Ok(row)
}

/// The row after an action, before messages are put.
fn acted_row(row: Row, place: u64, seat: Seat, stop: bool, both: Both) -> Row
    requires { place < length row.seats }
    ensures { result ≡ rows.acted_row row place seat stop both.world both.mind }
{
    let own = Seat {
        mind: both.mind,
        mail: seat.mail,
        stance: Stance::Idle,
    };
    let mut row = with_seat(row, place, own);
    row.world = both.world;
    row.stop = row.stop || stop;
    row
}

/// What comes of the move of an agent that carries out the outs of the thought of this number.
pub fn follow_outs<M: Mind, A: Artifact, F: Fresh<M> + FreshWorld<A>>(
    alloc: Global,
    fresh: &F,
    held: &mut Held,
    state: u64,
    row: Row,
    a: u32,
    seat: Seat,
    thought: u64,
) -> Result<Row, Starved>
    requires mover { rows.IsMover M.kind (start_of (F.agents fresh.now) (F.start fresh.now) (F.first fresh.now)) held.old state row a seat }
    requires busy { seat.stance ≡ Busy thought }
    requires short { state < most_states }
    ensures { let s = start_of (F.agents fresh.now) (F.start fresh.now) (F.first fresh.now) in
        IfOk result (λ r. rows.HasMoved M.kind s held.old held.new state row a (Some r)) }
{
    let outs = outs_of(alloc, &held.minds, thought)?;
    let acting = Acting {
        world: row.world,
        agent: a,
        thought,
    };
    let both = do_action::<M, A, F>(alloc, fresh, held, acting, seat.mind, &outs.action)?;
    let row = acted_row(row, (a - 1) as u64, seat, outs.stop, both);
    let Outs {
        action: _,
        messages,
        stop: _,
        quiet: _,
    } = outs;
    let next = put_all::<M, A, F>(alloc, fresh, held, state + 1, row, a, messages)?;
    Ok(next)
}
