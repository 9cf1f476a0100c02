//! What goes on while the top call runs: what is written to a disk, and who thinks.

use crate::calling::called;
use crate::ticking::Ticking;
use asl_term::sequence::{Seq, Starved};
use mas_artifact::opening::tally;
use mas_pool_task::gate::OpenGate;
use mas_record_files::memory::memory_disk;
use mas_world::artifact::Artifact;
use std::alloc::Global;
use std::sync::atomic::Ordering;
use std::sync::{Arc, Wait};
use std::thread::Threads;
use test_pools::holding::Holding;
use test_records::counting::Counting;
use test_records::watching::Marks;

/// The run of an agent that acts twice.
const RECORDED: &[u8] = b"jasonrun 2
cycles 1000 lead 8 depth 500 tries 100000 level acts
agent a
1 does tally_add(1)
2 done tally_add(1)
2 does tally_add(2)
3 done tally_add(2)
end a quiet 4
world
fact tally(3)
mail
schedule 9
1x9
";

/// Each turn is on the disk before the next one is made: the disk is synced between two actions of an agent.
#[test]
fn record_writes_as_it_goes(rt: HostRuntime) -> Result<(), Starved> {
    let alloc = rt.alloc();
    let marks = Arc::new(alloc, Marks::new())?;
    let ticking = Ticking {
        tally: tally(alloc)?,
        is_acted_on: false,
        marks: Arc::try_clone(&marks)?,
    };
    let mut all: Vec<Box<dyn Artifact + Send>> = Vec::new(alloc);
    all.push(Box::new(alloc, ticking)?)?;
    let files: [(&[u8], &[u8]); 3] = [
        (b"m.mas2j", b"MAS m { environment: w agents: a; }"),
        (b"w.env", b"use tally. hide tally."),
        (b"a.asl", b"!g. +!g <- tally_add(1); tally_add(2)."),
    ];
    let mut disk = Some(Counting {
        name: None,
        marks: &marks,
    });
    let words = ["record", "m.mas2j", "f.rec"];
    let out = called(&rt, alloc, &words, &files, &OpenGate, all, &mut disk)?;
    drop(disk);
    assert!(rt; out.as_slice() == RECORDED);
    let first = marks.first.load(Ordering::SeqCst);
    let second = marks.second.load(Ordering::SeqCst);
    assert!(rt; first < second);
    Ok(())
}

/// The gate after a run of three agents that do nothing.
fn held<R: Threads + Wait + Sync>(
    rt: &R,
    alloc: Global,
    words: &[&str],
    project: &[u8],
) -> Result<Holding, Starved> {
    let files: [(&[u8], &[u8]); 4] = [
        (b"m.mas2j", project),
        (b"a.asl", b""),
        (b"b.asl", b""),
        (b"c.asl", b""),
    ];
    let gate = Holding::new();
    let mut disk = Some(memory_disk(alloc, Seq::new(alloc), Seq::new(alloc))?);
    let out = called(rt, alloc, words, &files, &gate, Vec::new(alloc), &mut disk)?;
    drop(disk);
    drop(out);
    Ok(gate)
}

/// While agent 1 is held in its first thinking agent 2 thinks.
#[test]
fn two_think_at_once(rt: HostRuntime) -> Result<(), Starved> {
    let words = ["run", "m.mas2j", "--workers", "2"];
    let gate = held(&rt, rt.alloc(), &words, b"MAS m { agents: a; b; }")?;
    assert!(rt; gate.is_met());
    Ok(())
}

/// While agent 1 is held in its first thinking agent 2, which lies behind it in a deque, is stolen, after a turn with agent 3.
#[test]
fn steal_at_once(rt: HostRuntime) -> Result<(), Starved> {
    let words = ["run", "m.mas2j", "--workers", "2", "--pool", "steal"];
    let gate = held(&rt, rt.alloc(), &words, b"MAS m { agents: a; b; c; }")?;
    assert!(rt; gate.is_stolen());
    Ok(())
}
