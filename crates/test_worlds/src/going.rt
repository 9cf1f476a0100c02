//! Artifacts that go.

use crate::pings::{Pings, action};
use asl_term::copying::text_of;
use asl_term::measure::ground_literal;
use asl_term::names::Names;
use asl_term::sequence::Starved;
use asl_term::syntax::{Literal, Literals, Text};
use env_file::fault::WorldFault;
use env_file::laws::worlds_open;
use env_file::world::world;
use mas_mind::mind::Feedback;
use mas_world::acts::WorldText;
use mas_world::artifact::{Artifact, HeldArtifact};
use mas_world::opening::open_world;
use mas_world::segment::Segment;
use mas_world::world::{Artifacts, World};
use std::alloc::Global;
use std::sync::atomic::{AtomicU64, Ordering};

/// A counter of pings that raises a shared count when it is dropped.
struct Counted<'a> {
    pings: Pings,
    gone: &'a AtomicU64,
}

impl<'a> Drop for Counted<'a> {
    fn drop(self) {
        let Counted { pings, gone } = self;
        gone.fetch_add(1, Ordering::SeqCst);
        drop(pings);
    }
}

impl<'a> Artifact for Counted<'a> {
    ghost named = { λ c. c.pings.name };

    ghost table = { λ c. c.pings.segment.acts };

    ghost facts = { λ c. c.pings.segment.facts };

    fn name(&self) -> &Text {
        self.pings.name()
    }

    fn observe(&self, out: &mut Literals) -> Result<(), Starved> {
        self.pings.observe(out)
    }

    fn operate(
        &mut self,
        alloc: Global,
        agent: &Text,
        action: &Literal,
    ) -> Result<Feedback, Starved> {
        self.pings.operate(alloc, agent, action)
    }
}

fn counting<'a>(
    alloc: Global,
    name: &[u8],
    gone: &'a AtomicU64,
) -> Result<Counted<'a>, WorldFault> {
    let Some(pings) = Pings::new(alloc, name)? else {
        return Err(WorldFault::Memory);
    };
    Ok(Counted { pings, gone })
}

/// Puts artifacts of these names last.
fn use_counted<'a>(
    alloc: Global,
    names: &[&[u8]],
    gone: &'a AtomicU64,
    used: &mut Artifacts<Counted<'a>>,
) -> Result<(), WorldFault> {
    for name in names {
        let one = counting(alloc, *name, gone)?;
        used.push(HeldArtifact::new(one))?;
    }
    Ok(())
}

/// A world of these acts that uses the artifacts `pings` and `others`.
fn world_of<'a>(
    alloc: Global,
    acts: &[u8],
    gone: &'a AtomicU64,
) -> Result<World<Counted<'a>>, WorldFault> {
    let none = Names::new(alloc)?;
    let read = world(alloc, acts, &none);
    drop(none);
    let text = read?;
    worlds_open();
    drop(text.uses);
    let mut used = Artifacts::new(alloc);
    let outcome = use_counted(
        alloc,
        &[b"pings".as_slice(), b"others".as_slice()],
        gone,
        &mut used,
    );
    let world = World::of(Segment::new(text.acts, text.facts), text.hidden, used);
    match outcome {
        Ok(()) => Ok(world),
        Err(fault) => {
            drop(world);
            Err(fault)
        }
    }
}

/// Whether an action without arguments is done.
fn does<'a>(alloc: Global, world: &mut World<Counted<'a>>, name: &[u8]) -> Result<bool, Starved> {
    let agent = text_of(alloc, b"a")?;
    let action = action(alloc, name)?;
    let done = if ground_literal(&action) {
        world.act(alloc, &agent, &action)
    } else {
        Ok(Feedback::Failed)
    };
    drop(action);
    Ok(done? == Feedback::Done)
}

fn count(gone: &AtomicU64) -> u64 {
    gone.load(Ordering::SeqCst)
}

/// Whether it is an act, or the disposing of an artifact; its name; and what comes of it: whether it is done, how many artifacts
/// have gone then, and how many facts there are.
type Step<'a> = (bool, &'a [u8], (bool, u64, u64));

/// Whether a step gives what it has to.
fn holds<'a>(
    alloc: Global,
    world: &mut World<Counted<'a>>,
    gone: &AtomicU64,
    step: &Step<'_>,
) -> Result<bool, Starved> {
    let (is_act, name, (is_done, have_gone, are_facts)) = *step;
    let done = if is_act {
        does(alloc, world, name)?
    } else {
        world.dispose(&text_of(alloc, name)?)
    };
    let facts = world.facts(alloc)?;
    let number = facts.len();
    drop(facts);
    Ok(done == is_done && count(gone) == have_gone && number == are_facts)
}

/// Whether these steps in a world of these acts give what they have to, and no artifact is left once the world is dropped.
fn all_hold(alloc: Global, acts: &[u8], steps: &[Step<'_>]) -> Result<bool, Starved> {
    let gone = AtomicU64::new(0);
    let Ok(mut world) = world_of(alloc, acts, &gone) else {
        return Err(Starved);
    };
    let mut told = Ok(true);
    for step in steps {
        if let Ok(true) = told {
            told = holds(alloc, &mut world, &gone, step);
        }
    }
    drop(world);
    Ok(told? && count(&gone) == 2)
}

/// An act drops an artifact, once, and the others stay; a second disposing under a name finds none.
#[test]
fn an_artifact_goes_once(rt: HostRuntime) -> Result<(), Starved> {
    let acts = b"act scrap by A -> drop pings, +scrapped.";
    let acted: [Step<'_>; 4] = [
        (true, b"ping", (true, 0, 2)),
        (true, b"scrap", (true, 1, 2)),
        (true, b"scrap", (true, 1, 2)),
        (true, b"ping", (true, 1, 2)),
    ];
    assert!(rt; all_hold(rt.alloc(), acts, &acted)?);
    let disposed: [Step<'_>; 3] = [
        (false, b"pings", (true, 1, 1)),
        (false, b"pings", (false, 1, 1)),
        (false, b"crane", (false, 1, 1)),
    ];
    assert!(rt; all_hold(rt.alloc(), b"", &disposed)?);
    Ok(())
}

/// The world of a file without clauses, which uses none of the artifacts.
fn idle_world<'a>(
    alloc: Global,
    artifacts: Vec<Counted<'a>>,
) -> Result<World<Counted<'a>>, WorldFault> {
    let Ok(none) = Names::new(alloc) else {
        drop(artifacts);
        return Err(WorldFault::Memory);
    };
    match world(alloc, b"", &none) {
        Ok(text) => {
            worlds_open();
            drop(text.uses);
            let unused = WorldText {
                facts: text.facts,
                hidden: text.hidden,
                uses: none,
                acts: text.acts,
            };
            Ok(open_world(alloc, unused, artifacts)?)
        }
        Err(fault) => {
            drop(artifacts);
            Err(fault)
        }
    }
}

/// A world drops the artifacts that it does not use.
#[test]
fn an_unused_artifact_is_dropped(rt: HostRuntime) -> Result<(), Starved> {
    let alloc = rt.alloc();
    let gone = AtomicU64::new(0);
    let Ok(one) = counting(alloc, b"pings", &gone) else {
        return Err(Starved);
    };
    let Ok(world) = idle_world(alloc, Vec::from_array(alloc, [one])?) else {
        return Err(Starved);
    };
    let opened = count(&gone);
    drop(world);
    assert!(rt; opened == 1 && count(&gone) == 1);
    Ok(())
}
