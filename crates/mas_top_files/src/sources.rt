//! What the files of a project describe.

ghost use Rattle.std.specs.Prelude.{◌≡◌, ◌≤◌, length, MatchResult, option_copied};
ghost use Rattle.mas_mind.specs.Limits.{most_cycles};
ghost use Rattle.mas_project.specs.Names.{names_in, names_of};
ghost use Rattle.mas_project.specs.Projects.{most_agents};
ghost use Rattle.mas_top_files.specs.Files as files;
ghost use Rattle.mas_top_files.specs.Sources as spec;

use crate::files::{agent_of, world_of};
use crate::project::project_of;
use asl_term::names::Names;
use asl_term::sequence::Seq;
use asl_term::syntax::{AgentText, Text};
use mas_io::shelf::Shelf;
use mas_mind::limits::MOST_CYCLES_TOGETHER;
use mas_project::names::agent_names;
use mas_project::syntax::{AgentLine, ProjectText};
use mas_top_status::status::{Status, What};
use mas_world::acts::WorldText;
use std::alloc::Global;

/// The source of as many agents as a line of a project counts.
#[derive(Drop)]
pub struct Role {
    pub text: AgentText,
    pub count: u32,
}

/// What is run: the names of the agents, the source of each line, in order, and the world of a file, where there is one.
pub struct Source {
    pub names: Names,
    pub roles: Seq<Role>,
    pub world: Option<WorldText>,
}

/// By hand, so that a crate above that lets one go proves nothing of its parts.
impl Drop for Source {
    fn drop(self) {
        let Source {
            names: _,
            roles: _,
            world: _,
        } = self;
    }
}

/// A source that is taken apart.
#[derive(Drop)]
pub struct SourceParts {
    pub names: Names,
    pub roles: Seq<Role>,
    pub world: Option<WorldText>,
}

impl Source {
    /// Its parts.
    pub fn into_parts(self) -> SourceParts
        ensures names { result.names ≡ self.names }
        ensures roles { result.roles ≡ self.roles }
        ensures world { result.world ≡ self.world }
    {
        let Source {
            names,
            roles,
            world,
        } = self;
        SourceParts {
            names,
            roles,
            world,
        }
    }
}

/// How many agents a line counts.
#[tactic(auto, using(crate::proofs::Counted::many_in, crate::proofs::Counted::one_in))]
fn count_in(line: &AgentLine) -> u32
    ensures { result ≡ length (names_in line.now) }
{
    if line.numbered { line.count } else { 1 }
}

/// What the file of a line describes, or why it is refused.
#[tactic(auto, using(crate::proofs::Parts::role))]
fn role_of<S: Shelf>(alloc: Global, line: &AgentLine, shelf: &mut S) -> Result<Role, Status>
    ensures same { S.holds shelf.new ≡ S.holds shelf.old }
    ensures later { S.faults shelf.old ≤ S.faults shelf.new }
    ensures answer { let held = S.holds shelf.old in
        MatchResult result
        (spec.HasRole held line.now)
        (files.IsRefusal files.agents line.now.file held (S.faults shelf.old) (S.faults shelf.new)) }
{
    let text = agent_of(alloc, &line.file, shelf)?;
    let count = count_in(line);
    Ok(Role { text, count })
}

/// What the files of these lines describe, or why one of them is refused.
#[tactic(auto, using(crate::proofs::Parts::begins, crate::proofs::Parts::more, crate::proofs::Parts::ends, crate::proofs::Parts::stops))]
fn roles_of<S: Shelf>(
    alloc: Global,
    lines: &[AgentLine],
    shelf: &mut S,
) -> Result<Seq<Role>, Status>
    ensures same { S.holds shelf.new ≡ S.holds shelf.old }
    ensures later { S.faults shelf.old ≤ S.faults shelf.new }
    ensures answer { let held = S.holds shelf.old in
        MatchResult result
        (spec.HasRoles held lines.now)
        (spec.UnlessMemory (spec.LineRefused held lines.now (S.faults shelf.old) (S.faults shelf.new))) }
{
    let mut roles = Seq::new(alloc);
    let mut rest = lines;
    'lines: while let Some((line, after)) = rest.split_first() {
        match role_of(alloc, line, shelf) {
            Ok(role) => roles.push(role)?,
            Err(status) => return Err(status),
        }
        rest = after;
    }
    Ok(roles)
}

/// The world that a project names, where it names one and there are artifacts of these names.
#[tactic(auto, using(crate::proofs::Parts::world_read, crate::proofs::Parts::world_unread))]
fn world_if<S: Shelf>(
    alloc: Global,
    known: &Names,
    name: Option<&Text>,
    shelf: &mut S,
) -> Result<Option<WorldText>, Status>
    ensures same { S.holds shelf.new ≡ S.holds shelf.old }
    ensures later { S.faults shelf.old ≤ S.faults shelf.new }
    ensures answer { let held = S.holds shelf.old in
        MatchResult result
        (spec.HasWorld known.now held (option_copied name.entry))
        (spec.WorldRefused known.now (option_copied name.entry) held (S.faults shelf.old) (S.faults shelf.new)) }
{
    match name {
        None => Ok(None),
        Some(name) => match world_of(alloc, known, name, shelf) {
            Ok(text) => Ok(Some(text)),
            Err(status) => Err(status),
        },
    }
}

/// What the files of a project describe, its agents having these names, where there are artifacts of the known names;
/// that of the world is read first.
#[tactic(auto, using(crate::proofs::Parts::world_first, crate::proofs::Parts::then_agents))]
pub fn described<S: Shelf>(
    alloc: Global,
    known: &Names,
    p: &ProjectText,
    names: Names,
    shelf: &mut S,
) -> Result<Source, Status>
    requires { names ≡ names_of p.now.agents }
    ensures same { S.holds shelf.new ≡ S.holds shelf.old }
    ensures later { S.faults shelf.old ≤ S.faults shelf.new }
    ensures answer { let held = S.holds shelf.old in
        MatchResult result
        (spec.Describe known.now held p.now)
        (spec.UnlessMemory (spec.PartRefused known.now p.now held (S.faults shelf.old) (S.faults shelf.new))) }
{
    let world = world_if(alloc, known, p.world.as_ref(), shelf)?;
    match roles_of(alloc, p.agents.as_slice(), shelf) {
        Ok(roles) => Ok(Source {
            names,
            roles,
            world,
        }),
        Err(status) => Err(status),
    }
}

/// The status of a project with so many agents, where they may make too many cycles together.
fn too_many(p: &ProjectText, agents: u32, cycles: u64) -> Option<Status>
    requires agents { agents ≡ length (names_of p.now.agents) }
    requires few { agents ≤ most_agents }
    requires cycles { cycles ≤ most_cycles }
    ensures { spec.CyclesTold p.now cycles result }
{
    let all = agents as u64 * cycles;
    if all > MOST_CYCLES_TOGETHER {
        return Some(Status::Limit {
            what: What::Cycles,
            count: all,
        });
    }
    None
}

/// What the files describe that the word asks for, where there are artifacts of these names and each agent may make so
/// many cycles, or why one of the files is refused.
#[tactic(auto, using(crate::proofs::Within::within, crate::proofs::Stands::in_order))]
pub fn sources<S: Shelf>(
    alloc: Global,
    known: &Names,
    cycles: u64,
    word: &Text,
    shelf: &mut S,
) -> Result<Source, Status>
    requires { cycles ≤ most_cycles }
    ensures same { S.holds shelf.new ≡ S.holds shelf.old }
    ensures later { S.faults shelf.old ≤ S.faults shelf.new }
    ensures answer { let held = S.holds shelf.old in
        MatchResult result
        (spec.HasSource known.now cycles held word.now)
        (spec.AreRefused known.now cycles held word.now (S.faults shelf.old) (S.faults shelf.new)) }
{
    let p = project_of(alloc, word, shelf)?;
    let names = agent_names(alloc, &p)?;
    if let Some(status) = too_many(&p, names.len(), cycles) {
        return Err(status);
    }
    match described(alloc, known, &p, names, shelf) {
        Ok(source) => Ok(source),
        Err(status) => Err(status),
    }
}
