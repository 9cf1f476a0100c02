//! What the files of two projects describe.

ghost use Rattle.std.specs.Prelude.{◌≡◌, ◌≤◌, MatchResult};
ghost use Rattle.mas_mind.specs.Limits.{most_cycles};
ghost use Rattle.mas_top_opening.specs.Opening.{objects_of};
ghost use Rattle.mas_project.specs.Names.{names_of};
ghost use Rattle.mas_top_files.specs.Known.{known};
ghost use Rattle.mas_top_files.specs.Sources.{PartRefused, UnlessMemory};
ghost use Rattle.mas_top_sites.specs.Pairs as spec;
ghost use Rattle.mas_top_sites.specs.Pairs.{pair, wish};

use crate::artifacts::take_used;
use crate::names::first_taken;
use asl_term::copying::copy_text;
use asl_term::names::Names;
use asl_term::syntax::Text;
use mas_io::shelf::Shelf;
use mas_mind::limits::MOST_CYCLES_TOGETHER;
use mas_project::names::{MOST_AGENTS, agent_names};
use mas_project::syntax::ProjectText;
use mas_top_files::known::known_names;
use mas_top_files::project::project_of;
use mas_top_files::sources::{Source, described};
use mas_top_status::status::{Reason, Status, What};
use mas_world::artifact::Artifact;
use mas_world::world::Artifacts;
use std::alloc::Global;

/// What a project brings to its site: what its files describe, and the artifacts that its world uses.
#[derive(Drop)]
pub struct Side<A: Artifact> {
    pub source: Source,
    pub used: Artifacts<A>,
}

#[derive(Drop)]
pub struct Sides<A: Artifact> {
    pub one: Side<A>,
    pub two: Side<A>,
}

#[derive(Drop)]
struct Projects {
    one: ProjectText,
    two: ProjectText,
}

/// The projects that two words stand for, or why one of their files describes none.
#[tactic(auto, using(crate::proofs::Described::first_none, crate::proofs::Described::second_none, crate::proofs::Described::both_there))]
fn projects_of<S: Shelf>(
    alloc: Global,
    first: &Text,
    second: &Text,
    shelf: &mut S,
) -> Result<Projects, Status>
    ensures same { S.holds shelf.new ≡ S.holds shelf.old }
    ensures later { S.faults shelf.old ≤ S.faults shelf.new }
    ensures answer { let held = S.holds shelf.old in
        MatchResult result
        (λ p. spec.AreProjects held first.now second.now p.one p.two)
        (UnlessMemory (spec.ProjectsRefused held first.now second.now (S.faults shelf.old) (S.faults shelf.new))) }
{
    let one = project_of(alloc, first, shelf)?;
    match project_of(alloc, second, shelf) {
        Ok(two) => Ok(Projects { one, two }),
        Err(status) => Err(status),
    }
}

/// Whether the agents of these names are fit to run together, or the status of the first test that they fail.
#[tactic(auto, using(crate::proofs::Described::tests))]
fn test_together(
    alloc: Global,
    second: &Text,
    cycles: u64,
    one: &Names,
    two: &Names,
) -> Result<(), Status>
    requires { cycles ≤ most_cycles }
    ensures { MatchResult result (λ _. spec.Fit cycles one.now two.now) (UnlessMemory (spec.FailsTest second.now cycles one.now two.now)) }
{
    let agents = one.len() as u64 + two.len() as u64;
    if agents > MOST_AGENTS {
        return Err(Status::Limit {
            what: What::Agents,
            count: agents,
        });
    }
    let all = agents * cycles;
    if all > MOST_CYCLES_TOGETHER {
        return Err(Status::Limit {
            what: What::Cycles,
            count: all,
        });
    }
    match first_taken(alloc, one, two)? {
        None => Ok(()),
        Some((place, name)) => Err(Status::Refused {
            file: copy_text(alloc, second)?,
            place,
            why: Reason::Name(name),
        }),
    }
}

/// What a project brings, where these artifacts are left, or why one of its files is refused.
#[tactic(auto, using(crate::proofs::Described::is_brought, crate::proofs::Described::not_brought))]
fn bring<S: Shelf, A: Artifact>(
    alloc: Global,
    p: &ProjectText,
    names: Names,
    left: &mut Vec<A>,
    shelf: &mut S,
) -> Result<Side<A>, Status>
    requires { names ≡ names_of p.now.agents }
    ensures same { S.holds shelf.new ≡ S.holds shelf.old }
    ensures later { S.faults shelf.old ≤ S.faults shelf.new }
    ensures answer { let objects = objects_of A.named A.table A.facts in
        let held = S.holds shelf.old in
        MatchResult result
        (λ side. spec.IsBrought (objects left.old.items) held p.now side.source side.used (objects left.new.items))
        (UnlessMemory (PartRefused (known (objects left.old.items)) p.now held (S.faults shelf.old) (S.faults shelf.new))) }
{
    let artifacts = known_names(alloc, left.as_slice())?;
    let source = described(alloc, &artifacts, p, names, shelf)?;
    let used = take_used(alloc, source.world.as_ref(), left)?;
    Ok(Side { source, used })
}

/// What two projects bring, or why one of their files is refused. The second may use the artifacts that the first leaves.
#[tactic(auto, using(crate::proofs::Described::are_brought, crate::proofs::Described::first_not, crate::proofs::Described::second_not))]
fn bring_both<S: Shelf, A: Artifact>(
    alloc: Global,
    projects: &Projects,
    one: Names,
    two: Names,
    artifacts: Vec<A>,
    shelf: &mut S,
) -> Result<Sides<A>, Status>
    requires one { one ≡ names_of projects.now.one.agents }
    requires two { two ≡ names_of projects.now.two.agents }
    ensures same { S.holds shelf.new ≡ S.holds shelf.old }
    ensures later { S.faults shelf.old ≤ S.faults shelf.new }
    ensures answer { let objects = objects_of A.named A.table A.facts artifacts.items in
        let p = projects.now in
        let held = S.holds shelf.old in
        MatchResult result
        (λ s. spec.AreBrought objects held p.one p.two (pair s.one.source s.two.source) s.one.used s.two.used)
        (UnlessMemory (spec.PartsRefused objects held p.one p.two (S.faults shelf.old) (S.faults shelf.new))) }
{
    let mut left = artifacts;
    let one = bring(alloc, &projects.one, one, &mut left, shelf)?;
    match bring(alloc, &projects.two, two, &mut left, shelf) {
        Ok(two) => Ok(Sides { one, two }),
        Err(status) => Err(status),
    }
}

/// What the projects of two words bring, where each agent may make so many cycles, or why one of their files is refused.
#[tactic(auto, using(crate::proofs::Described::within_both, crate::proofs::Described::in_order))]
pub fn read_pair<S: Shelf, A: Artifact>(
    alloc: Global,
    cycles: u64,
    first: &Text,
    second: &Text,
    artifacts: Vec<A>,
    shelf: &mut S,
) -> Result<Sides<A>, Status>
    requires { cycles ≤ most_cycles }
    ensures same { S.holds shelf.new ≡ S.holds shelf.old }
    ensures later { S.faults shelf.old ≤ S.faults shelf.new }
    ensures answer { let objects = objects_of A.named A.table A.facts artifacts.items in
        let w = wish first.now second.now cycles in
        let held = S.holds shelf.old in
        MatchResult result
        (λ s. spec.AreRead objects held w (pair s.one.source s.two.source) s.one.used s.two.used)
        (spec.ArePairRefused objects held w (S.faults shelf.old) (S.faults shelf.new)) }
{
    let projects = projects_of(alloc, first, second, shelf)?;
    let one = agent_names(alloc, &projects.one)?;
    let two = agent_names(alloc, &projects.two)?;
    match test_together(alloc, second, cycles, &one, &two) {
        Err(status) => Err(status),
        Ok(()) => match bring_both(alloc, &projects, one, two, artifacts, shelf) {
            Ok(sides) => Ok(sides),
            Err(status) => Err(status),
        },
    }
}
