//! Whole runs.

ghost use Rattle.std.specs.Prelude.{◌≡◌, ◌≤◌, IfOk, length};
ghost use Rattle.test_pools.specs.Hungers as spec;

use crate::holding::{Holding, comes};
use crate::hungry::Hungry;
use asl_term::copying::text_of;
use asl_term::names::{Names, number};
use asl_term::sequence::{Seq, Starved};
use mas_artifact::tally::Tally;
use mas_board::board::{Board, open_board};
use mas_core::robin::{Done, round_robin};
use mas_pool::pool::run_pool;
use mas_pool_task::gate::{Gate, OpenGate};
use mas_steal::steal::run_stealing;
use mas_world::segment::Segment;
use mas_world::world::{Artifacts, World};
use std::alloc::Global;
use std::sync::Wait;
use std::sync::atomic::{AtomicU64, Ordering};
use std::thread::Threads;

fn put_name(alloc: Global, names: &mut Names, name: &[u8]) -> Result<(), Starved> {
    let text = text_of(alloc, name)?;
    if names.len() < 3 {
        number(names, &text)?;
    }
    Ok(())
}

fn three_names(alloc: Global) -> Result<Names, Starved>
    ensures { IfOk result (λ names. length names ≡ 3) }
{
    let mut names = Names::new(alloc)?;
    put_name(alloc, &mut names, b"x")?;
    put_name(alloc, &mut names, b"y")?;
    put_name(alloc, &mut names, b"z")?;
    if names.len() == 3 {
        Ok(names)
    } else {
        Err(Starved)
    }
}

/// A board of three agents in a world without facts, on which each may make ten cycles.
#[tactic(auto, using(crate::proofs::Starts::opened))]
fn board_of_three(alloc: Global) -> Result<Board<Tally>, Starved>
    ensures { IfOk result spec.IsOpened }
{
    let hidden = Names::new(alloc)?;
    let names = three_names(alloc)?;
    let file = Segment::new(Seq::new(alloc), Seq::new(alloc));
    let world = World::of(file, hidden, Artifacts::new(alloc));
    open_board(alloc, world, names, 10, 3)
}

fn mind(alloc: Global, me: u32, last: u64) -> Hungry
    ensures { result ≡ spec.hungry me last }
{
    Hungry {
        me,
        agents: 3,
        made: 0,
        waits: false,
        last,
        text: Seq::new(alloc),
    }
}

/// Their minds, of which the second has no memory for its cycle of this number.
fn three_minds(alloc: Global, last: u64) -> Result<Seq<Hungry>, Starved>
    ensures { IfOk result (λ minds. minds ≡ spec.three last) }
{
    let mut minds = Seq::new(alloc);
    minds.push(mind(alloc, 1, 0))?;
    minds.push(mind(alloc, 2, last))?;
    minds.push(mind(alloc, 3, 0))?;
    Ok(minds)
}

/// Whether each mind is in its place, after its ten cycles.
fn are_back(done: &Done<Hungry, Tally>) -> bool {
    if done.minds.len() != 3 || done.board.schedule().len() != 63 {
        return false;
    }
    for place in 0..3u32 {
        let Some(mind) = done.minds.at(place as u64) else {
            return false;
        };
        if mind.me != place + 1 || mind.made != 10 {
            return false;
        }
    }
    true
}

/// How the minds are run: by the round robin, by workers that share a queue, or by workers that steal.
#[derive(Clone, Copy)]
enum Way {
    Alone,
    Pool,
    Steal,
}

/// Runs the minds, of which the second has no memory for its cycle of this number. Whether each came back in its place from
/// its ten cycles.
fn all_come_back<R: Threads + Wait + Sync, G: Gate + Sync>(
    rt: &R,
    alloc: Global,
    way: Way,
    last: u64,
    workers: u32,
    gate: &G,
) -> Result<bool, Starved>
    requires { (1 ≤ workers) × (workers ≤ 64) }
{
    let minds = three_minds(alloc, last)?;
    let board = board_of_three(alloc)?;
    let done = match way {
        Way::Alone => round_robin(alloc, board, minds)?,
        Way::Pool => run_pool(rt, alloc, board, minds, workers, gate)?,
        Way::Steal => run_stealing(rt, alloc, board, minds, workers, gate)?,
    };
    let back = are_back(&done);
    drop(done);
    Ok(back)
}

#[test]
fn every_mind_comes_back(rt: HostRuntime) -> Result<(), Starved> {
    let alloc = rt.alloc();
    for way in [Way::Alone, Way::Pool, Way::Steal] {
        for workers in [1, 2, 3, 4, 64] {
            assert!(rt; all_come_back(&rt, alloc, way, 0, workers, &OpenGate)?);
        }
    }
    Ok(())
}

#[test]
fn a_mind_without_memory_ends_the_run(rt: HostRuntime) -> Result<(), Starved> {
    let alloc = rt.alloc();
    for way in [Way::Alone, Way::Pool, Way::Steal] {
        for last in 1..5u64 {
            for workers in [1, 2, 3] {
                assert!(rt; all_come_back(&rt, alloc, way, last, workers, &OpenGate).is_err());
            }
        }
        assert!(rt; all_come_back(&rt, alloc, way, 11, 2, &OpenGate)?);
    }
    Ok(())
}

/// Whether agent 2 thinks while agent 1 is held, with two workers, of which one steals it where they steal.
fn meet<R: Threads + Wait + Sync>(rt: &R, alloc: Global, way: Way) -> Result<bool, Starved> {
    let gate = Holding::new();
    let back = all_come_back(rt, alloc, way, 0, 2, &gate)?;
    let met = match way {
        Way::Steal => gate.is_stolen(),
        Way::Alone | Way::Pool => gate.is_met(),
    };
    Ok(back && met)
}

#[test]
fn two_think_at_once(rt: HostRuntime) -> Result<(), Starved> {
    assert!(rt; meet(&rt, rt.alloc(), Way::Pool)?);
    Ok(())
}

/// Agents 1 and 2 lie in the deque of the first worker. As that worker is held in the first thinking of agent 1, only a
/// thief can have agent 2, after a turn with agent 3 in its own deque.
#[test]
fn steal_at_once(rt: HostRuntime) -> Result<(), Starved> {
    assert!(rt; meet(&rt, rt.alloc(), Way::Steal)?);
    Ok(())
}

/// Holds agent 3 in its first cycle until agent 2 begins its third, and agent 2 there until agent 3 begins its sixth. Of
/// two workers one is then left, which takes agents 1 and 3 by turns. Agent 1 is in its sixth cycle when agent 3 is in its
/// fifth, and is taken once more before agent 3 begins its sixth: too far ahead of agent 2.
#[derive(Drop)]
struct Relay {
    third: AtomicU64,
    sixth: AtomicU64,
    first_came: AtomicU64,
    second_came: AtomicU64,
}

impl Gate for Relay {
    fn thinking(&self, agent: u32, cycle: u64) {
        if agent == 3 && cycle == 1 && comes(&self.third) {
            self.first_came.store(1, Ordering::SeqCst);
        }
        if agent == 3 && cycle == 6 {
            self.sixth.store(1, Ordering::SeqCst);
        }
        if agent == 2 && cycle == 3 {
            self.third.store(1, Ordering::SeqCst);
            if comes(&self.sixth) {
                self.second_came.store(1, Ordering::SeqCst);
            }
        }
    }

    fn done(&self, _agent: u32, _cycle: u64) {}
}

#[test]
fn an_agent_that_is_too_far_ahead_goes_on(rt: HostRuntime) -> Result<(), Starved> {
    let alloc = rt.alloc();
    let gate = Relay {
        third: AtomicU64::new(0),
        sixth: AtomicU64::new(0),
        first_came: AtomicU64::new(0),
        second_came: AtomicU64::new(0),
    };
    assert!(rt; all_come_back(&rt, alloc, Way::Pool, 0, 2, &gate)?);
    assert!(rt; gate.first_came.load(Ordering::SeqCst) == 1);
    assert!(rt; gate.second_came.load(Ordering::SeqCst) == 1);
    Ok(())
}
