//! A run, from its source to the report.

ghost use Rattle.std.specs.Prelude.{◌≡◌, IfOk, IfErr};
ghost use Rattle.asl_cycle.specs.Agent.{agent_kind};
ghost use Rattle.mas_core.specs.Fits.{Start};
ghost use Rattle.mas_core.specs.Platform.{opening_platform};
ghost use Rattle.mas_core.specs.Replay.{Faulted, RanAlong};
ghost use Rattle.mas_core.specs.Robin.{RanOut};
ghost use Rattle.mas_report.specs.Limits.{IsFrom, IsWithin};
ghost use Rattle.mas_top_opening.specs.Fits.{CanRun};
ghost use Rattle.mas_top.specs.Headline.{IsRunReport};
ghost use Rattle.mas_top_opening.specs.Opening.{objects_of, opening, setup};
ghost use Rattle.mas_top.specs.Playing.{IsReplayed};
ghost use Rattle.mas_top.specs.Ways.{way_of};

use asl_term::sequence::{Seq, Starved};
use mas_board::board::Board;
use mas_core::replay::{PlayFault, replay};
use mas_core::robin::Done;
use mas_mind::thinking::Mind;
use mas_pool::pool::run_pool;
use mas_pool_task::gate::Gate;
use mas_report::options::Options;
use mas_report::output::{Output, output_of};
use mas_steal::steal::run_stealing;
use mas_top_files::sources::Source;
use mas_top_opening::opening::{Opened, open_source};
use mas_top_words::asked::Pool;
use mas_world::artifact::Artifact;
use std::alloc::Global;
use std::sync::Wait;
use std::thread::Threads;

/// Runs all agents to their end by so many workers, which take them from this pool. The board and the minds are then those
/// of the run along the board's own schedule; with one worker that is the round robin.
fn run_minds<R: Threads + Wait + Sync, M: Mind + Send, A: Artifact + Send, G: Gate + Sync>(
    rt: &R,
    alloc: Global,
    board: Board<A>,
    minds: Seq<M>,
    pool: Pool,
    workers: u32,
    gate: &G,
) -> Result<Done<M, A>, Starved>
    requires start { Start M.kind board minds }
    requires workers { IsFrom 1 64 workers }
    ensures ran { IfOk result (λ d. RanAlong M.kind (opening_platform board.state minds) d.board.schedule d.board d.minds) }
    ensures alone { workers ≡ 1 → IfOk result (λ d. RanOut M.kind (opening_platform board.state minds) d.board d.minds) }
{
    match pool {
        Pool::Ready => run_pool(rt, alloc, board, minds, workers, gate),
        Pool::Steal => run_stealing(rt, alloc, board, minds, workers, gate),
    }
}

/// The run of these minds over this board by so many workers, and its report.
fn run_out<R: Threads + Wait + Sync, M: Mind + Send, A: Artifact + Send, G: Gate + Sync>(
    rt: &R,
    alloc: Global,
    o: &Options,
    opened: Opened<M, A>,
    pool: Pool,
    workers: u32,
    gate: &G,
) -> Result<Output, Starved>
    requires start { Start M.kind opened.board opened.minds }
    requires workers { IsFrom 1 64 workers }
    ensures { IfOk result (λ out. IsRunReport M.kind o.now (opening_platform opened.board.state opened.minds) (way_of workers) out.spent out.text) }
{
    let Opened { board, minds } = opened;
    board.holds();
    let done = run_minds(rt, alloc, board, minds, pool, workers, gate)?;
    match output_of(alloc, o, &done) {
        Ok(out) => {
            drop(done);
            Ok(out)
        }
        Err(starved) => {
            drop(done);
            Err(starved)
        }
    }
}

/// The run of these minds over this board along these numbers, and its report.
fn run_along<M: Mind, A: Artifact>(
    alloc: Global,
    o: &Options,
    opened: Opened<M, A>,
    names: &Seq<u64>,
) -> Result<Output, PlayFault>
    requires { Start M.kind opened.board opened.minds }
    ensures ok { IfOk result (λ out. IsReplayed M.kind o.now (opening_platform opened.board.state opened.minds) names.now out.spent out.text) }
    ensures err { IfErr result (Faulted M.kind (opening_platform opened.board.state opened.minds) names.now) }
{
    let Opened { board, minds } = opened;
    board.holds();
    let done = replay(alloc, board, minds, names)?;
    match output_of(alloc, o, &done) {
        Ok(out) => {
            drop(done);
            Ok(out)
        }
        Err(_) => {
            drop(done);
            Err(PlayFault::Memory)
        }
    }
}

/// The report of the run of a source by so many workers.
#[tactic(auto, using(mas_top_opening::proofs::Starts::starts, asl_cycle::proofs::Sends::agent_send))]
pub fn run_source<R: Threads + Wait + Sync, A: Artifact + Send, G: Gate + Sync>(
    rt: &R,
    alloc: Global,
    o: &Options,
    source: Source,
    artifacts: Vec<A>,
    pool: Pool,
    workers: u32,
    gate: &G,
) -> Result<Output, Starved>
    requires within { IsWithin o.now }
    requires can { CanRun (objects_of A.named A.table A.facts artifacts.items) source }
    requires workers { IsFrom 1 64 workers }
    ensures { let u = setup o.now (objects_of A.named A.table A.facts artifacts.items) in
        IfOk result (λ out. IsRunReport agent_kind o.now (opening u source) (way_of workers) out.spent out.text) }
{
    match open_source(alloc, o, source, artifacts) {
        Ok(opened) => run_out(rt, alloc, o, opened, pool, workers, gate),
        Err(starved) => Err(starved),
    }
}

/// The report of the run of a source along these numbers.
#[tactic(auto, using(mas_top_opening::proofs::Starts::starts))]
pub fn replay_source<A: Artifact>(
    alloc: Global,
    o: &Options,
    source: Source,
    artifacts: Vec<A>,
    names: &Seq<u64>,
) -> Result<Output, PlayFault>
    requires within { IsWithin o.now }
    requires can { CanRun (objects_of A.named A.table A.facts artifacts.items) source }
    ensures ok { let u = setup o.now (objects_of A.named A.table A.facts artifacts.items) in
        IfOk result (λ out. IsReplayed agent_kind o.now (opening u source) names.now out.spent out.text) }
    ensures err { let u = setup o.now (objects_of A.named A.table A.facts artifacts.items) in
        IfErr result (Faulted agent_kind (opening u source) names.now) }
{
    match open_source(alloc, o, source, artifacts) {
        Ok(opened) => run_along(alloc, o, opened, names),
        Err(_) => Err(PlayFault::Memory),
    }
}
