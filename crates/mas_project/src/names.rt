//! The names of the agents of a project.

ghost use Rattle.std.specs.Prelude.{◌≡◌, ◌≤◌, map, length, IfOk};
ghost use Rattle.std.specs.List.{range_with_len, IsDistinct};
ghost use Rattle.std.specs.Str.{bytes_eq};
ghost use Rattle.mas_project.specs.Names as spec;
ghost use Rattle.mas_project.specs.Projects.{most_agents, IsWithin};

use crate::syntax::{AgentLine, ProjectText};
use asl_term::copying::copy_text;
use asl_term::names::{Names, find, number};
use asl_term::printing::write_number;
use asl_term::sequence::{Seq, Starved};
use asl_term::syntax::Text;
use std::alloc::Global;

/// How many agents a project may have.
pub const MOST_AGENTS: u64 = 1024;

fn numbered_name(alloc: Global, name: &Text, k: u64) -> Result<Text, Starved>
    ensures { IfOk result (λ text. text ≡ spec.numbered_name name.now k) }
{
    let mut text = copy_text(alloc, name)?;
    write_number(alloc, k, &mut text)?;
    Ok(text)
}

/// The names of as many agents, with their numbers.
#[tactic(auto, using(crate::proofs::Named::one_more))]
fn numbered_names(alloc: Global, name: &Text, count: u32) -> Result<Seq<Text>, Starved>
    ensures { IfOk result (λ names. names ≡ map (spec.numbered_name name.now) (range_with_len 1 count)) }
{
    let mut all = Seq::new(alloc);
    let mut k: u32 = 0;
    'numbers: while k < count {
        k += 1;
        all.push(numbered_name(alloc, name, k as u64)?)?;
    }
    Ok(all)
}

fn names_in(alloc: Global, line: &AgentLine) -> Result<Seq<Text>, Starved>
    ensures { IfOk result (λ names. names ≡ spec.names_in line.now) }
{
    if line.numbered {
        return numbered_names(alloc, &line.name, line.count);
    }
    let mut all = Seq::new(alloc);
    all.push(copy_text(alloc, &line.name)?)?;
    Ok(all)
}

/// The names of all agents, in order.
#[tactic(auto, using(crate::proofs::Named::line_turns))]
fn all_names(alloc: Global, lines: &[AgentLine]) -> Result<Seq<Text>, Starved>
    ensures { IfOk result (λ names. names ≡ spec.names_of lines.now) }
{
    let mut all = Seq::new(alloc);
    let mut rest = lines;
    'lines: while let Some((line, after)) = rest.split_first() {
        all.append_all(names_in(alloc, line)?)?;
        rest = after;
    }
    Ok(all)
}

/// The first name that an earlier agent has, with its place, counted from 1.
#[tactic(auto, using(crate::proofs::Named::search_turns))]
fn twice(alloc: Global, names: &[Text]) -> Result<Option<(u64, Text)>, Starved>
    requires { length names.now ≤ most_agents }
    ensures { IfOk result (spec.TellsTwice names.now) }
{
    let mut seen = Names::new(alloc)?;
    let mut place: u64 = 0;
    let mut rest = names;
    'names: while let Some((name, after)) = rest.split_first() {
        place += 1;
        if find(&seen, name).is_some() {
            return Ok(Some((place, copy_text(alloc, name)?)));
        }
        number(&mut seen, name)?;
        rest = after;
    }
    Ok(None)
}

/// The first name that two agents of these lines have.
pub fn name_twice(alloc: Global, lines: &[AgentLine]) -> Result<Option<(u64, Text)>, Starved>
    requires { spec.agents_of lines.now ≤ most_agents }
    ensures { IfOk result (spec.TellsTwice (spec.names_of lines.now)) }
{
    let names = all_names(alloc, lines)?;
    twice(alloc, names.as_slice())
}

#[tactic(auto, using(crate::proofs::Named::copy_turns))]
fn distinct_names(alloc: Global, names: &[Text]) -> Result<Names, Starved>
    requires few { length names.now ≤ most_agents }
    requires distinct { IsDistinct bytes_eq names.now }
    ensures { IfOk result (λ n. n ≡ names.now) }
{
    let mut kept = Names::new(alloc)?;
    let mut rest = names;
    'names: while let Some((name, after)) = rest.split_first() {
        number(&mut kept, name)?;
        rest = after;
    }
    Ok(kept)
}

/// The names of the agents, in order.
pub fn agent_names(alloc: Global, p: &ProjectText) -> Result<Names, Starved>
    requires { IsWithin p.now.agents }
    ensures { IfOk result (λ names. names ≡ spec.names_of p.now.agents) }
{
    let names = all_names(alloc, p.agents.as_slice())?;
    distinct_names(alloc, names.as_slice())
}
