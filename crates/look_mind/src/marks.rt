//! The turns with which the cycles of failures began.

ghost use Rattle.std.specs.Prelude.{◌≡◌, ◌<◌, ◌^◌, IfOk, IfSome, OnOk, [], length, replicate};
ghost use Rattle.look_mind.specs.Marks as spec;

use asl_term::sequence::{Seq, Starved};
use asl_term::syntax::Numbers;
use look_lines::falls::{FallLine, FallLines};
use std::alloc::{AllocError, Global};

/// Numbers of cycles are below this.
const NUMBERS: u64 = 9_223_372_036_854_775_808;

/// A number with one more digit.
fn with_digit(number: u64, byte: u8) -> Option<u64>
    ensures value { result ≡ spec.with_digit number byte }
    ensures small { IfSome result (λ n. n < 2 ^ 63) }
{
    if byte < b'0' || byte > b'9' {
        return None;
    }
    let more = number.checked_mul(10)?.checked_add((byte - b'0') as u64)?;
    if more < NUMBERS { Some(more) } else { None }
}

/// The number with which a line begins.
fn number_of(line: &[u8]) -> u64
    ensures value { result ≡ spec.number_from 0 line.now }
    ensures small { result < 2 ^ 63 }
{
    let mut number = 0;
    let mut rest = line;
    'digits: while let Some((byte, behind)) = rest.split_first() {
        let Some(more) = with_digit(number, *byte) else {
            return number;
        };
        number = more;
        rest = behind;
    }
    number
}

/// The cycle of a failure.
pub fn cycle_of(fall: &FallLine) -> u64
    ensures value { result ≡ spec.cycle_of fall.now }
    ensures small { result < 2 ^ 63 }
{
    number_of(fall.line.as_slice())
}

/// The turn with which the cycle of a failure began, of the turns of its agent: each cycle has two. 0 where there is none.
pub fn turn_of(own: &[u64], fall: &FallLine) -> u64
    ensures { result ≡ spec.turn_of own.now fall.now }
{
    let at = cycle_of(fall).saturating_sub(1) * 2;
    match own.get(at as usize) {
        Some(turn) => *turn,
        None => 0,
    }
}

/// The numbers at a place; none where there are none.
pub fn numbers_at(own: &Seq<Numbers>, k: u64) -> &[u64]
    ensures { result.now ≡ spec.turns_at own.now k }
{
    match own.at(k) {
        Some(numbers) => numbers.as_slice(),
        None => &[],
    }
}

/// So many empty lists.
#[tactic(auto, using(crate::proofs::Marking::empties_step))]
fn empty_lists(alloc: Global, number: u64) -> Result<Seq<Numbers>, Starved>
    ensures { IfOk result (λ r. r ≡ replicate number []) }
{
    let mut all = Seq::new(alloc);
    'lists: for k in 0..number {
        prove!(k < number);
        all.push(Seq::new(alloc))?;
    }
    Ok(all)
}

/// Puts a turn last among those of the agent of this number, where it is one.
fn put_turn(own: &mut Seq<Numbers>, a: u64, turn: u64) -> Result<(), Starved>
    ensures { OnOk result (own.new ≡ spec.with_turn own.old a turn) }
{
    if a >= 1 && a <= own.len() {
        own.at_mut(a - 1).push(turn)?;
    }
    Ok(())
}

/// The turns of each of so many agents, in order, counted from 1.
#[tactic(auto, using(crate::proofs::Marking::own_begun, crate::proofs::Marking::own_step, crate::proofs::Marking::own_end))]
pub fn turns_by_agent(alloc: Global, turns: &[u64], agents: u64) -> Result<Seq<Numbers>, Starved>
    ensures { IfOk result (spec.AreOwn turns.now agents) }
{
    let mut own = empty_lists(alloc, agents)?;
    'turns: for at in 0..turns.len() {
        put_turn(&mut own, turns[at], at as u64 + 1)?;
    }
    Ok(own)
}

/// As many turns as these, none of them marked.
fn unmarked(alloc: Global, turns: &[u64]) -> Result<Vec<bool>, AllocError>
    ensures { IfOk result (λ m. length m.items ≡ length turns.now) }
{
    let mut marks = Vec::new(alloc);
    'turns: for at in 0..turns.len() {
        prove!(at < turns.len());
        marks.push(false)?;
    }
    Ok(marks)
}

/// Marks the turn of this number, from 1, where there is one.
#[tactic(auto, using(crate::proofs::Marking::marked, crate::proofs::Marking::unmarked_zero, crate::proofs::Marking::unmarked_past))]
fn mark(marks: &mut Vec<bool>, turn: u64)
    ensures { spec.Marks marks.old.items marks.new.items turn }
{
    if turn == 0 {
        return;
    }
    if turn > marks.len() as u64 {
        return;
    }
    marks[turn as usize - 1] = true;
}

/// Marks the turns with which the cycles of an agent's failures began.
#[tactic(auto, using(crate::proofs::Marking::all_begun, crate::proofs::Marking::all_step, crate::proofs::Marking::all_end))]
fn mark_all(marks: &mut Vec<bool>, own: &[u64], falls: &[FallLine])
    ensures { spec.MarksAll marks.old.items marks.new.items own.now falls.now }
{
    'falls: for fall in falls {
        mark(marks, turn_of(own, fall));
    }
}

/// Of all turns of a run whether the cycle that began with it has a failure.
#[tactic(auto, using(crate::proofs::Marking::agents_begun, crate::proofs::Marking::agents_step, crate::proofs::Marking::agents_end))]
pub fn marks_of(
    alloc: Global,
    turns: &[u64],
    own: &Seq<Numbers>,
    all: &[FallLines],
) -> Result<Vec<bool>, AllocError>
    ensures { IfOk result (λ m. spec.AreMarked own.now all.now (length turns.now) m.items) }
{
    let mut marks = unmarked(alloc, turns)?;
    'agents: for k in 0..all.len() {
        mark_all(&mut marks, numbers_at(own, k as u64), all[k].as_slice());
    }
    Ok(marks)
}
