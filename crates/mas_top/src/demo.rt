//! The demo: its own files, run by workers, and the lines that tell of the run.

ghost use Rattle.std.specs.Prelude.{◌≤◌, ℕ, List, Option, IfOk, MatchResult};
ghost use Rattle.asl_cycle.specs.Agent.{agent_kind};
ghost use Rattle.asl_term.specs.declared.syntax.Filed.{Filed};
ghost use Rattle.mas_core.specs.Fits.{Start};
ghost use Rattle.mas_core.specs.Platform.{opening_platform};
ghost use Rattle.mas_report.specs.Limits.{IsFrom, IsWithin, defaults};
ghost use Rattle.mas_top_files.specs.Sources.{UnlessMemory};
ghost use Rattle.mas_top.specs.Demo as spec;
ghost use Rattle.mas_top_opening.specs.Fits.{CanRun};
ghost use Rattle.mas_top_opening.specs.Opening.{objects_of, opening, setup};
ghost use Rattle.mas_top.specs.Ways.{way_of};

use asl_term::copying::text_of;
use asl_term::sequence::Starved;
use asl_term::syntax::Text;
use mas_io::sink::Sink;
use mas_io::sure::sure_shelf;
use mas_io::writing::write_all;
use mas_mind::thinking::Mind;
use mas_pool::pool::run_pool;
use mas_pool_task::gate::Gate;
use mas_report::options::{Options, default_options};
use mas_top_demo::files::demo_files;
use mas_top_demo::lines::demo_lines;
use mas_top_files::sources::Source;
use mas_top_opening::opening::{Opened, open_source};
use mas_top_opening::reading::read_source;
use mas_top_status::status::Status;
use mas_world::artifact::Artifact;
use std::alloc::Global;
use std::sync::Wait;
use std::thread::Threads;

/// The lines that tell of the run of so many minds over this board, by so many workers.
fn lines_of_run<R: Threads + Wait + Sync, M: Mind + Send, A: Artifact + Send, G: Gate + Sync>(
    rt: &R,
    alloc: Global,
    agents: u32,
    opened: Opened<M, A>,
    workers: u32,
    gate: &G,
) -> Result<Text, Starved>
    requires start { Start M.kind opened.board opened.minds }
    requires workers { IsFrom 1 64 workers }
    ensures { IfOk result (λ t. spec.IsToldRun M.kind (opening_platform opened.board.state opened.minds) (way_of workers) agents t) }
{
    let Opened { board, minds } = opened;
    let done = run_pool(rt, alloc, board, minds, workers, gate)?;
    match demo_lines(alloc, agents, &done.board) {
        Ok(text) => {
            drop(done);
            Ok(text)
        }
        Err(starved) => {
            drop(done);
            Err(starved)
        }
    }
}

/// The lines that tell of the run of a source.
#[tactic(auto, using(mas_top_opening::proofs::Starts::starts, asl_cycle::proofs::Sends::agent_send))]
fn lines_of_source<R: Threads + Wait + Sync, A: Artifact + Send, G: Gate + Sync>(
    rt: &R,
    alloc: Global,
    o: &Options,
    agents: u32,
    source: Source,
    artifacts: Vec<A>,
    workers: u32,
    gate: &G,
) -> Result<Text, Starved>
    requires within { IsWithin o.now }
    requires can { CanRun (objects_of A.named A.table A.facts artifacts.items) source }
    requires workers { IsFrom 1 64 workers }
    ensures { let u = setup o.now (objects_of A.named A.table A.facts artifacts.items) in
        IfOk result (λ t. spec.IsToldRun agent_kind (opening u source) (way_of workers) agents t) }
{
    match open_source(alloc, o, source, artifacts) {
        Ok(opened) => lines_of_run(rt, alloc, agents, opened, workers, gate),
        Err(starved) => Err(starved),
    }
}

/// What the demo's files describe, or why one of them is refused.
fn demo_source<A: Artifact>(
    alloc: Global,
    o: &Options,
    agents: u32,
    artifacts: &Vec<A>,
) -> Result<Source, Status>
    requires { IsWithin o.now }
    ensures { let u = setup o.now (objects_of A.named A.table A.facts artifacts.now.items) in
        MatchResult result (spec.DemoHas u agents) (UnlessMemory (spec.DemoRefused u agents)) }
{
    let mut shelf = sure_shelf(demo_files(alloc, agents)?);
    let project = text_of(alloc, b"demo.mas2j")?;
    read_source(alloc, o.cycles, &project, artifacts, &mut shelf)
}

/// The lines of the demo of so many agents, or why one of its files is refused.
#[tactic(auto, using(mas_top_opening::proofs::Able::can_run, crate::proofs::Demos::told))]
fn demo_of<R: Threads + Wait + Sync, A: Artifact + Send, G: Gate + Sync>(
    rt: &R,
    alloc: Global,
    o: &Options,
    agents: u32,
    artifacts: Vec<A>,
    workers: u32,
    gate: &G,
) -> Result<Text, Status>
    requires within { IsWithin o.now }
    requires workers { IsFrom 1 64 workers }
    ensures { let u = setup o.now (objects_of A.named A.table A.facts artifacts.items) in
        MatchResult result (spec.IsDemo u agents (way_of workers)) (UnlessMemory (spec.DemoRefused u agents)) }
{
    match demo_source(alloc, o, agents, &artifacts) {
        Err(status) => {
            drop(artifacts);
            Err(status)
        }
        Ok(source) => Ok(lines_of_source(rt, alloc, o, agents, source, artifacts, workers, gate)?),
    }
}

/// Runs the demo of so many agents by so many workers, with the usual options, and writes its lines: all of them, or after
/// a write fault a prefix, or nothing. A shelf beside the sink stays as it is.
#[tactic(auto, using(crate::proofs::Demos::written, crate::proofs::Demos::cut, crate::proofs::Demos::unwritten))]
pub fn print_demo<R: Threads + Wait + Sync, K: Sink, A: Artifact + Send, G: Gate + Sync>(
    rt: &R,
    alloc: Global,
    agents: u32,
    workers: u32,
    sink: &mut K,
    gate: &G,
    artifacts: Vec<A>,
) -> Status
    requires { IsFrom 1 64 workers }
    ensures later { K.faults sink.old ≤ K.faults sink.new }
    ensures caused { (held : Option (List Filed)) (faults : ℕ) →
        let u = setup defaults (objects_of A.named A.table A.facts artifacts.items) in
        let told = spec.beside held faults in
        spec.DemoCaused u agents (way_of workers) (told (K.written sink.old) (K.faults sink.old)) (told (K.written sink.new) (K.faults sink.new)) result }
{
    match demo_of(
        rt,
        alloc,
        &default_options(),
        agents,
        artifacts,
        workers,
        gate,
    ) {
        Err(status) => status,
        Ok(text) => match write_all(sink, text.as_slice()) {
            Ok(()) => Status::Ok,
            Err(_) => Status::WriteFault,
        },
    }
}
