//! The files of the demo.

ghost use Rattle.std.specs.Prelude.{◌≡◌, ◌++◌, map, flat_map, decimal, IfOk, OnOk};
ghost use Rattle.std.specs.List.{range_with_len};
ghost use Rattle.mas_top_demo.specs.Files as spec;

use asl_term::copying::text_of;
use asl_term::printing::write_number;
use asl_term::sequence::{Seq, Starved};
use asl_term::syntax::{Filed, Files, Text};
use std::alloc::Global;

/// Appends a number between these bytes.
fn put_between(
    alloc: Global,
    out: &mut Text,
    front: &[u8],
    n: u32,
    back: &[u8],
) -> Result<(), Starved>
    ensures { OnOk result (out.new ≡ out.old ++ (front.now ++ (decimal n ++ back.now))) }
{
    out.append(front)?;
    write_number(alloc, n as u64, out)?;
    out.append(back)
}

/// A number between these bytes.
fn between(alloc: Global, front: &[u8], n: u32, back: &[u8]) -> Result<Text, Starved>
    ensures { IfOk result (λ text. text ≡ front.now ++ (decimal n ++ back.now)) }
{
    let mut out = Seq::new(alloc);
    put_between(alloc, &mut out, front, n, back)?;
    Ok(out)
}

#[tactic(auto, unfolding(crate::specs::Files::source_front))]
fn source_front() -> &'static [u8]
    ensures { result.now ≡ spec.source_front }
{
    b"!go(50).\n+!go(0) <- .print(\"ready\").\n+!go(N) : N > 0 <- tally_add("
}

#[tactic(auto, unfolding(crate::specs::Files::source_back))]
fn source_back() -> &'static [u8]
    ensures { result.now ≡ spec.source_back }
{
    b"); !go(N - 1).\n"
}

/// The source of the agent of this number.
fn agent_file(alloc: Global, n: u32) -> Result<Filed, Starved>
    ensures { IfOk result (λ file. file ≡ spec.agent_file n) }
{
    let name = between(alloc, b"w", n, b".asl")?;
    let bytes = between(alloc, source_front(), n, source_back())?;
    Ok(Filed { name, bytes })
}

/// Appends the sources of so many agents.
#[tactic(auto, using(crate::proofs::Listed::agents_more))]
fn put_agents(alloc: Global, files: &mut Files, agents: u32) -> Result<(), Starved>
    ensures { OnOk result (files.new ≡ files.old ++ map spec.agent_file (range_with_len 1 agents)) }
{
    for n in 0..agents {
        let file = agent_file(alloc, n + 1)?;
        files.push(file)?;
    }
    Ok(())
}

#[tactic(auto, unfolding(crate::specs::Files::world_source))]
fn world_source() -> &'static [u8]
    ensures { result.now ≡ spec.world_source }
{
    b"use tally.\nhide tally.\n"
}

fn world_file(alloc: Global) -> Result<Filed, Starved>
    ensures { IfOk result (λ file. file ≡ spec.world_file) }
{
    let name = text_of(alloc, b"demo.env")?;
    let bytes = text_of(alloc, world_source())?;
    Ok(Filed { name, bytes })
}

#[tactic(auto, unfolding(crate::specs::Files::project_front))]
fn project_front() -> &'static [u8]
    ensures { result.now ≡ spec.project_front }
{
    b"MAS demo { environment: demo agents:"
}

#[tactic(auto, unfolding(crate::specs::Files::project_back))]
fn project_back() -> &'static [u8]
    ensures { result.now ≡ spec.project_back }
{
    b" }\n"
}

/// Appends the entries of so many agents.
#[tactic(auto, using(crate::proofs::Listed::entries_more))]
fn put_entries(alloc: Global, out: &mut Text, agents: u32) -> Result<(), Starved>
    ensures { OnOk result (out.new ≡ out.old ++ flat_map spec.entry_text (range_with_len 1 agents)) }
{
    for n in 0..agents {
        put_between(alloc, out, b" w", n + 1, b";")?;
    }
    Ok(())
}

fn project_source(alloc: Global, agents: u32) -> Result<Text, Starved>
    ensures { IfOk result (λ text. text ≡ spec.project_source agents) }
{
    let mut out = Seq::new(alloc);
    out.append(project_front())?;
    put_entries(alloc, &mut out, agents)?;
    out.append(project_back())?;
    Ok(out)
}

fn project_file(alloc: Global, agents: u32) -> Result<Filed, Starved>
    ensures { IfOk result (λ file. file ≡ spec.project_file agents) }
{
    let name = text_of(alloc, b"demo.mas2j")?;
    let bytes = project_source(alloc, agents)?;
    Ok(Filed { name, bytes })
}

/// The files of the demo with so many agents.
pub fn demo_files(alloc: Global, agents: u32) -> Result<Files, Starved>
    ensures { IfOk result (λ files. files ≡ spec.demo_files agents) }
{
    let mut files = Seq::new(alloc);
    files.push(project_file(alloc, agents)?)?;
    files.push(world_file(alloc)?)?;
    put_agents(alloc, &mut files, agents)?;
    Ok(files)
}
