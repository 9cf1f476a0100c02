//! What is kept of the pieces while they are read.

ghost use Rattle.std.specs.Prelude.{◌≡◌, OnOk};
ghost use Rattle.mas_project.specs.Projects.{line_of};
ghost use Rattle.mas_project.specs.inner.Drafts as spec;

use crate::piece::{AgentEntry, PieceMeaning};
use crate::syntax::{AgentLine, ProjectText};
use asl_term::sequence::{Seq, Starved};
use std::alloc::Global;

/// What the pieces said so far. In a line a count above that of a `u32` stands as the largest; how many agents
/// there are is kept apart.
#[derive(Drop)]
pub struct Draft {
    pub text: ProjectText,
    pub agents: u64,
}

/// Before the first piece.
pub fn no_draft(alloc: Global) -> Draft
    ensures { result ≡ spec.no_draft }
{
    Draft {
        text: ProjectText {
            name: Seq::new(alloc),
            world: None,
            agents: Seq::new(alloc),
        },
        agents: 0,
    }
}

fn capped_line(entry: AgentEntry) -> AgentLine
    ensures { result ≡ spec.capped (line_of entry) }
{
    let numbered = entry.count.is_some();
    let count = entry.count.unwrap_or(1).min(4294967295) as u32;
    AgentLine {
        name: entry.name,
        file: entry.file,
        count,
        numbered,
    }
}

fn add_entry(draft: &mut Draft, entry: AgentEntry) -> Result<(), Starved>
    ensures { OnOk result (draft.new ≡ spec.entry_drafted draft.old entry) }
{
    draft.agents = draft.agents.saturating_add(entry.count.unwrap_or(1));
    draft.text.agents.push(capped_line(entry))
}

/// With what a piece says.
pub fn add(draft: &mut Draft, said: PieceMeaning) -> Result<(), Starved>
    ensures { OnOk result (draft.new ≡ spec.drafted draft.old said) }
{
    match said {
        PieceMeaning::Title(name) => {
            draft.text.name = name;
            Ok(())
        }
        PieceMeaning::First(world, entry) => {
            draft.text.world = world;
            add_entry(draft, entry)
        }
        PieceMeaning::Next(entry) => add_entry(draft, entry),
        PieceMeaning::End => Ok(()),
    }
}
