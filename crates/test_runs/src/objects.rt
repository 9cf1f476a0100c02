//! Artifacts of one's own, handed in to runs.

use crate::calling::called;
use asl_term::sequence::{Seq, Starved};
use asl_term::syntax::Text;
use env_file::fault::WorldFault;
use mas_pool_task::gate::OpenGate;
use mas_record_files::memory::memory_disk;
use mas_world::artifact::Artifact;
use std::alloc::Global;
use std::sync::Wait;
use std::thread::Threads;
use test_worlds::pings::{Pings, ping};

/// The text of an agent that pings once and tells what it sees.
const PINGING: &[u8] = b"!g. +!g <- ping. +pings(N) <- .print(N).";

/// An artifact of this name that counted a ping already, or none.
fn counter(alloc: Global, name: &[u8], is_pinged: bool) -> Result<Pings, WorldFault> {
    let Some(mut counter) = Pings::new(alloc, name)? else {
        return Err(WorldFault::Memory);
    };
    if is_pinged {
        ping(alloc, &mut counter, b"b")?;
    }
    Ok(counter)
}

/// What this command and its name write over this world with artifacts of these names, which counted a ping already or none,
/// and the fault line.
fn told<R: Threads + Wait + Sync>(
    rt: &R,
    alloc: Global,
    asked: (&str, &str),
    world: &[u8],
    named: &[(&[u8], bool)],
) -> Result<Text, Starved> {
    let mut all: Vec<Box<dyn Artifact + Send>> = Vec::new(alloc);
    for (name, pinged) in named {
        let Ok(one) = counter(alloc, *name, *pinged) else {
            return Err(Starved);
        };
        all.push(Box::new(alloc, one)?)?;
    }
    let files: [(&[u8], &[u8]); 3] = [
        (b"m.mas2j", b"MAS m { environment: w agents: a; }"),
        (b"w.env", world),
        (b"a.asl", PINGING),
    ];
    let words = [asked.0, asked.1];
    let mut disk = Some(memory_disk(alloc, Seq::new(alloc), Seq::new(alloc))?);
    called(rt, alloc, &words, &files, &OpenGate, all, &mut disk)
}

const RUN: (&str, &str) = ("run", "m.mas2j");

const PINGED_ONCE: &[u8] = b"jasonrun 2
cycles 1000 lead 8 depth 500 tries 100000 level acts
agent a
1 does ping
2 done ping
3 say 0
4 say 1
end a quiet 5
world
fact pings(1)
mail
schedule 11
1x11
";

const PINGED_AGAIN: &[u8] = b"jasonrun 2
cycles 1000 lead 8 depth 500 tries 100000 level acts
agent a
1 does ping
2 done ping
end a quiet 3
world
fact pings(2)
mail
schedule 7
1x7
";

/// A counter of pings that a test wrote is acted on and seen; of two artifacts with one name a world takes the first; a world
/// names no artifact that was not handed in; a demo wants a tally, whatever else is handed in.
#[test]
fn artifacts_of_ones_own_run(rt: HostRuntime) -> Result<(), Starved> {
    let one: [(&[u8], bool); 1] = [(b"pings", false)];
    let told_once = told(&rt, rt.alloc(), RUN, b"use pings.", &one)?;
    assert!(rt; told_once.as_slice() == PINGED_ONCE);
    let two: [(&[u8], bool); 3] = [(b"others", true), (b"pings", true), (b"pings", false)];
    let told_again = told(&rt, rt.alloc(), RUN, b"use pings. hide pings.", &two)?;
    assert!(rt; told_again.as_slice() == PINGED_AGAIN);
    let others: [(&[u8], bool); 1] = [(b"others", false)];
    let refused = told(&rt, rt.alloc(), RUN, b"use pings.", &others)?;
    assert!(rt; refused.as_slice() == b"refused w.env 1 artifact pings\n".as_slice());
    let demo = told(&rt, rt.alloc(), ("demo", "3"), b"", &others)?;
    assert!(rt; demo.as_slice() == b"refused demo.env 1 artifact tally\n".as_slice());
    Ok(())
}
