//! A project as it is read: its sources with what they do, and its world.

use crate::deeds::{Groups, deeds_of};
use crate::reading::ReadSource;
use crate::sends::{all_sent, tells_plans};
use crate::world::ReadWorld;
use asl_term::sequence::{Seq, Starved};
use look_pieces::clause::ReadClause;
use look_reasons::mark::Mark;
use std::alloc::Global;

/// A source and what it does.
pub struct Member {
    pub source: ReadSource,
    pub deeds: Groups,
}

/// By hand, so that who lets one go proves nothing of its parts.
impl Drop for Member {
    fn drop(self) {
        let Member {
            source: _,
            deeds: _,
        } = self;
    }
}

/// The sources, the world, where there is one, and whether some message may tell a plan.
pub struct ReadProject {
    pub members: Seq<Member>,
    pub world: Option<ReadWorld>,
    pub tells_plans: bool,
}

/// By hand, so that who lets one go proves nothing of its parts.
impl Drop for ReadProject {
    fn drop(self) {
        let ReadProject {
            members: _,
            world: _,
            tells_plans: _,
        } = self;
    }
}

/// A clause of a source of a project, with its tokens.
#[derive(Clone, Copy)]
pub struct Here<'a> {
    pub alloc: Global,
    pub project: &'a ReadProject,
    pub member: &'a Member,
    /// Its place among the members, from 0.
    pub place: usize,
    pub clause: &'a ReadClause,
    pub marks: &'a [Mark<'a>],
}

/// What each source does, and whether some message may tell a plan.
fn all_deeds(alloc: Global, sources: &[ReadSource]) -> Result<(Seq<Groups>, bool), Starved> {
    let sent = all_sent(alloc, sources)?;
    let mut all = Seq::new(alloc);
    let mut spent = false;
    for s in sources {
        let deeds = deeds_of(alloc, s, sent.as_slice());
        spent = spent || deeds.spent;
        spent = all.push(deeds).is_err() || spent;
    }
    if spent {
        return Err(Starved);
    }
    Ok((all, tells_plans(sent.as_slice())))
}

/// These sources, each with what it does.
fn members_of(sources: Seq<ReadSource>, deeds: Seq<Groups>) -> Result<Seq<Member>, Starved> {
    let mut members = Seq::new(sources.alloc());
    let mut sources = sources;
    let mut deeds = deeds;
    for _ in 0..sources.len() {
        if let Some(source) = sources.pop() {
            if let Some(deeds) = deeds.pop() {
                members.push(Member { source, deeds })?;
            }
        }
    }
    members.reverse();
    Ok(members)
}

/// The project of these sources and this world.
pub fn project_of(
    alloc: Global,
    sources: Seq<ReadSource>,
    world: Option<ReadWorld>,
) -> Result<ReadProject, Starved> {
    let (deeds, tells_plans) = all_deeds(alloc, sources.as_slice())?;
    Ok(ReadProject {
        members: members_of(sources, deeds)?,
        world,
        tells_plans,
    })
}
