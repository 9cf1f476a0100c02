//! The lines of the changes, by agent, as a page takes them.

ghost use Rattle.std.specs.Prelude.{◌≡◌, ◌≤◌, ◌<◌, ◌-◌, ◌++◌, ◌∷◌, [], length, slice_index, IfOk, OnOk};
ghost use Rattle.std.specs.List.{All};
ghost use Rattle.look_mind.specs.Rows as spec;

use crate::changes::MindChanges;
use chart_page::minds::MindLine;
use look_lines::change::ChangedLine;
use std::alloc::{AllocError, Global};

/// Puts the number of a turn, where it is the agent's own.
fn put_own(own: &mut Vec<u64>, is_own: bool, turn: u64) -> Result<(), AllocError>
    ensures { OnOk result (own.new.items ≡ spec.with_turn own.old.items is_own turn) }
{
    if !is_own {
        return Ok(());
    }
    own.push(turn)?;
    Ok(())
}

/// The turns of the agent of this number, from 1.
#[tactic(auto, using(crate::proofs::Rowed::own_none, crate::proofs::Rowed::own_more))]
fn turns_of(alloc: Global, turns: &[u64], name: u64) -> Result<Vec<u64>, AllocError>
    ensures { IfOk result (λ own. spec.HasTurns turns.now name (length turns.now) own.items) }
{
    let mut own = Vec::new(alloc);
    for at in 0..turns.len() {
        put_own(&mut own, turns[at] == name, at as u64 + 1)?;
    }
    Ok(own)
}

/// A turn of an agent, counted from 0: its number among all turns, of which cycle it is, and the turn that ends that, 0 where none does.
#[derive(Clone, Copy)]
struct OwnTurn {
    agent: usize,
    turn: u64,
    cycle: u64,
    ends: u64,
}

/// The turn of an agent at a place among its own turns, from 0: each cycle has two.
fn own_turn(own: &[u64], agent: usize, at: usize, turn: u64) -> OwnTurn
    ensures agent { result.agent ≡ agent }
    ensures turn { result.turn ≡ turn }
{
    OwnTurn {
        agent,
        turn,
        cycle: (at as u64 / 2).saturating_add(1),
        ends: own.get(at | 1).copied().unwrap_or(0),
    }
}

#[tactic(auto, using(crate::proofs::Rowed::row_put))]
fn put_line<'a>(
    out: &mut Vec<MindLine<'a>>,
    own: OwnTurn,
    line: &'a ChangedLine,
) -> Result<(), AllocError>
    ensures { OnOk result (spec.rows_of out.new.items ≡ spec.rows_of out.old.items ++ spec.row_in own.agent own.turn line.now ∷ []) }
{
    out.push(MindLine {
        agent: own.agent,
        cycle: own.cycle,
        ends: own.ends,
        turn: own.turn,
        sign: line.sign,
        text: line.text.as_slice(),
    })?;
    Ok(())
}

#[tactic(auto, using(crate::proofs::Rowed::row_more))]
fn put_change<'a>(
    out: &mut Vec<MindLine<'a>>,
    own: OwnTurn,
    change: &'a [ChangedLine],
) -> Result<(), AllocError>
    ensures { OnOk result (spec.AddsRows own.agent own.turn change.now (spec.rows_of out.old.items) (spec.rows_of out.new.items)) }
{
    for line in change {
        put_line(out, own, line)?;
    }
    Ok(())
}

/// The lines of the turn of an agent at a place among its own turns, where something is told of it.
fn put_turn<'a>(
    out: &mut Vec<MindLine<'a>>,
    told: &'a MindChanges,
    own: &[u64],
    name: u64,
    at: usize,
) -> Result<(), AllocError>
    requires { at < length own.now }
    ensures { let turn = slice_index own.now at in
        OnOk result (spec.AddsRows (name - 1) turn (spec.change_at told.now (turn - 1)) (spec.rows_of out.old.items) (spec.rows_of out.new.items)) }
{
    let turn = own_turn(own, name.saturating_sub(1) as usize, at, own[at]);
    match told.changes.at(turn.turn.saturating_sub(1)) {
        Some(change) => {
            put_change(out, turn, change.as_slice())?;
            Ok(())
        }
        None => Ok(()),
    }
}

/// The lines of the agent of this number.
fn put_agent<'a>(
    alloc: Global,
    out: &mut Vec<MindLine<'a>>,
    told: &'a MindChanges,
    name: u64,
) -> Result<(), AllocError>
    ensures { OnOk result (spec.TellsAgent told.now name (spec.rows_of out.old.items) (spec.rows_of out.new.items)) }
{
    let own = turns_of(alloc, told.turns.as_slice(), name)?;
    for at in 0..own.len() {
        put_turn(out, told, own.as_slice(), name, at)?;
    }
    Ok(())
}

/// The highest number of an agent that has a turn.
#[tactic(auto, using(crate::proofs::Rowed::last_more, crate::proofs::Rowed::last_of_all))]
fn last_name(turns: &[u64]) -> u64
    ensures { All (λ a. a ≤ result) turns.now }
{
    let mut last: u64 = 0;
    for a in turns {
        last = last.max(*a);
    }
    last
}

/// Each line of the change of each turn, as one of that turn and of its agent. They are put in by agent, and those of each by turn; the contract says that they
/// are there, and not in which order. (0 is no agent's number, and its turns change nothing.)
pub fn mind_lines<'a>(alloc: Global, told: &'a MindChanges) -> Result<Vec<MindLine<'a>>, AllocError>
    ensures { IfOk result (λ lines. spec.TellsRows told.now (spec.rows_of lines.items)) }
{
    let mut out = Vec::new(alloc);
    let last = last_name(told.turns.as_slice());
    for name in 0..last {
        put_agent(alloc, &mut out, told, name)?;
    }
    put_agent(alloc, &mut out, told, last)?;
    Ok(out)
}

/// The first turn of which nothing is told; None where all are told.
pub fn untold(told: &MindChanges) -> Option<u64> {
    if told.changes.len() < told.turns.len() {
        Some(told.changes.len().saturating_add(1))
    } else {
        None
    }
}
