//! What a single file gives.

ghost use Rattle.std.specs.Prelude.{◌≡◌, ◌≤◌, MatchResult};
ghost use Rattle.asl_parser.specs.Agents.{IsAgent};
ghost use Rattle.env_file.specs.Worlds.{IsWorld};
ghost use Rattle.mas_io.specs.declared.shelf.Fetched.TheVariants.{Bytes};
ghost use Rattle.mas_project.specs.Projects.{IsProject};
ghost use Rattle.mas_top_files.specs.Files as spec;

use crate::faults::{project_status, text_status, world_status};
use asl_parser::agent::agent;
use asl_term::copying::copy_text;
use asl_term::names::Names;
use asl_term::syntax::{AgentText, Text};
use env_file::world::world;
use mas_io::shelf::{Fetched, Shelf};
use mas_project::project::project;
use mas_project::syntax::ProjectText;
use mas_top_status::status::{Status, What};
use mas_world::acts::WorldText;
use std::alloc::Global;

/// The most bytes of the file of a project, a world or an agent.
pub const MOST_BYTES: u64 = 1_048_576;

/// The most bytes of the file of a report or of a schedule.
pub const MOST_REPORT_BYTES: u64 = 268_435_456;

/// The bytes of the file of this name, at most so many, or why they are not there.
pub fn bytes_of<S: Shelf>(
    alloc: Global,
    name: &Text,
    most: u64,
    shelf: &mut S,
) -> Result<Text, Status>
    ensures same { S.holds shelf.new ≡ S.holds shelf.old }
    ensures later { S.faults shelf.old ≤ S.faults shelf.new }
    ensures answer { let held = S.holds shelf.old in
        MatchResult result
        (λ bytes. spec.Has most held name.now (Bytes bytes))
        (spec.IsUnfetched most name.now held (S.faults shelf.old) (S.faults shelf.new)) }
{
    match shelf.fetch(alloc, name, most)? {
        Fetched::Failed => Err(Status::ReadFault),
        Fetched::Missing => Err(Status::Missing(copy_text(alloc, name)?)),
        Fetched::TooLong => Err(Status::Limit {
            what: What::File,
            count: most,
        }),
        Fetched::Bytes(bytes) => Ok(bytes),
    }
}

/// The agent that the file of this name describes, or why it describes none.
#[tactic(auto, using(crate::proofs::Fetched::agent_file, crate::proofs::Fetched::text_file, crate::proofs::Fetched::no_agent))]
pub fn agent_of<S: Shelf>(alloc: Global, name: &Text, shelf: &mut S) -> Result<AgentText, Status>
    ensures same { S.holds shelf.new ≡ S.holds shelf.old }
    ensures later { S.faults shelf.old ≤ S.faults shelf.new }
    ensures answer { let held = S.holds shelf.old in
        MatchResult result
        (λ text. spec.HasFile spec.most_bytes held name.now (λ bytes. IsAgent bytes text))
        (spec.IsRefusal spec.agents name.now held (S.faults shelf.old) (S.faults shelf.new)) }
{
    match bytes_of(alloc, name, MOST_BYTES, shelf) {
        Err(status) => Err(status),
        Ok(bytes) => match agent(alloc, bytes.as_slice()) {
            Ok(text) => Ok(text),
            Err(why) => Err(text_status(alloc, name, why)?),
        },
    }
}

/// The world that the file of this name describes, where there are artifacts of these names, or why it describes none.
#[tactic(auto, using(crate::proofs::Fetched::world_file, crate::proofs::Fetched::fault_file, crate::proofs::Fetched::no_world))]
pub fn world_of<S: Shelf>(
    alloc: Global,
    known: &Names,
    name: &Text,
    shelf: &mut S,
) -> Result<WorldText, Status>
    ensures same { S.holds shelf.new ≡ S.holds shelf.old }
    ensures later { S.faults shelf.old ≤ S.faults shelf.new }
    ensures answer { let held = S.holds shelf.old in
        MatchResult result
        (λ text. spec.HasFile spec.most_bytes held name.now (λ bytes. IsWorld known.now bytes text))
        (spec.IsRefusal (spec.worlds known.now) name.now held (S.faults shelf.old) (S.faults shelf.new)) }
{
    match bytes_of(alloc, name, MOST_BYTES, shelf) {
        Err(status) => Err(status),
        Ok(bytes) => match world(alloc, bytes.as_slice(), known) {
            Ok(text) => Ok(text),
            Err(why) => Err(world_status(alloc, name, why)?),
        },
    }
}

/// The project that the file of this name describes, or why it describes none.
#[tactic(auto, using(crate::proofs::Fetched::project_file, crate::proofs::Fetched::refused_file, crate::proofs::Fetched::no_project))]
pub fn project_at<S: Shelf>(
    alloc: Global,
    name: &Text,
    shelf: &mut S,
) -> Result<ProjectText, Status>
    ensures same { S.holds shelf.new ≡ S.holds shelf.old }
    ensures later { S.faults shelf.old ≤ S.faults shelf.new }
    ensures answer { let held = S.holds shelf.old in
        MatchResult result
        (λ p. spec.HasFile spec.most_bytes held name.now (λ bytes. IsProject bytes p))
        (spec.IsRefusal spec.projects name.now held (S.faults shelf.old) (S.faults shelf.new)) }
{
    match bytes_of(alloc, name, MOST_BYTES, shelf) {
        Err(status) => Err(status),
        Ok(bytes) => match project(alloc, bytes.as_slice()) {
            Ok(p) => Ok(p),
            Err(why) => Err(project_status(alloc, name, why)?),
        },
    }
}
