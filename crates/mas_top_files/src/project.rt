//! What the word of a project stands for.

ghost use Rattle.std.specs.Prelude.{◌≡◌, ◌≤◌, ◌++◌, map, option_map, IfOk, MatchResult, option_copied, false};
ghost use Rattle.mas_top_files.specs.Files as files;
ghost use Rattle.mas_top_files.specs.Projects as spec;
ghost use Rattle.mas_top_files.specs.Sources as sources;

use crate::files::project_at;
use crate::folder::folder;
use asl_term::copying::{copy_text, text_of};
use asl_term::sequence::{Seq, Starved};
use asl_term::syntax::Text;
use mas_io::shelf::Shelf;
use mas_project::syntax::{AgentLine, AgentLines, ProjectText};
use mas_top_status::status::Status;
use std::alloc::Global;

/// The name of a file in a folder.
fn file_in(alloc: Global, directory: &[u8], file: &Text) -> Result<Text, Starved>
    ensures { IfOk result (λ t. t ≡ directory.now ++ file.now) }
{
    let mut name = text_of(alloc, directory)?;
    name.append(file.as_slice())?;
    Ok(name)
}

fn line_in(alloc: Global, directory: &[u8], line: &AgentLine) -> Result<AgentLine, Starved>
    ensures { IfOk result (λ l. l ≡ spec.line_in directory.now line.now) }
{
    Ok(AgentLine {
        name: copy_text(alloc, &line.name)?,
        file: file_in(alloc, directory, &line.file)?,
        count: line.count,
        numbered: line.numbered,
    })
}

fn lines_in(alloc: Global, directory: &[u8], lines: &[AgentLine]) -> Result<AgentLines, Starved>
    ensures { IfOk result (λ ls. ls ≡ map (spec.line_in directory.now) lines.now) }
{
    let mut all = Seq::new(alloc);
    for line in lines {
        all.push(line_in(alloc, directory, line)?)?;
    }
    Ok(all)
}

fn world_in(alloc: Global, directory: &[u8], world: Option<&Text>) -> Result<Option<Text>, Starved>
    ensures { IfOk result (λ w. w ≡ option_map (λ file. directory.now ++ file) (option_copied world.entry)) }
{
    match world {
        None => Ok(None),
        Some(file) => Ok(Some(file_in(alloc, directory, file)?)),
    }
}

/// A project whose files stand in this folder.
fn project_in(alloc: Global, directory: &[u8], p: &ProjectText) -> Result<ProjectText, Starved>
    ensures { IfOk result (λ q. q ≡ spec.project_in directory.now p.now) }
{
    Ok(ProjectText {
        name: copy_text(alloc, &p.name)?,
        world: world_in(alloc, directory, p.world.as_ref())?,
        agents: lines_in(alloc, directory, p.agents.as_slice())?,
    })
}

/// The project of one agent, from the file of this name.
fn solo_project(alloc: Global, word: &Text) -> Result<ProjectText, Starved>
    ensures { IfOk result (λ p. p ≡ spec.solo_project word.now) }
{
    let mut agents = Seq::new(alloc);
    agents.push(AgentLine {
        name: text_of(alloc, b"solo")?,
        file: copy_text(alloc, word)?,
        count: 1,
        numbered: false,
    })?;
    Ok(ProjectText {
        name: text_of(alloc, b"solo")?,
        world: None,
        agents,
    })
}

/// The project of a file, its files placed in its folder.
#[tactic(auto, using(crate::proofs::Stands::placed))]
fn project_from<S: Shelf>(alloc: Global, word: &Text, shelf: &mut S) -> Result<ProjectText, Status>
    ensures same { S.holds shelf.new ≡ S.holds shelf.old }
    ensures later { S.faults shelf.old ≤ S.faults shelf.new }
    ensures answer { let held = S.holds shelf.old in
        MatchResult result
        (sources.ProjectBy false held word.now)
        (files.IsRefusal files.projects word.now held (S.faults shelf.old) (S.faults shelf.new)) }
{
    match project_at(alloc, word, shelf) {
        Err(status) => Err(status),
        Ok(p) => Ok(project_in(alloc, folder(word.as_slice()), &p)?),
    }
}

/// Whether a word names the file of an agent.
fn is_agent_file(word: &Text) -> bool
    ensures { result ≡ spec.is_agent_file word.now }
{
    word.as_slice().ends_with(b".asl")
}

/// The project that a word stands for, or why its file describes none.
#[tactic(auto, using(crate::proofs::Stands::of_agent, crate::proofs::Stands::of_file, crate::proofs::Stands::of_no_file))]
pub fn project_of<S: Shelf>(
    alloc: Global,
    word: &Text,
    shelf: &mut S,
) -> Result<ProjectText, Status>
    ensures same { S.holds shelf.new ≡ S.holds shelf.old }
    ensures later { S.faults shelf.old ≤ S.faults shelf.new }
    ensures answer { let held = S.holds shelf.old in
        MatchResult result
        (sources.HasProject held word.now)
        (sources.UnlessMemory (sources.ProjectRefused held word.now (S.faults shelf.old) (S.faults shelf.new))) }
{
    if is_agent_file(word) {
        return Ok(solo_project(alloc, word)?);
    }
    project_from(alloc, word, shelf)
}
