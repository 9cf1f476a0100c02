//! A run that is kept in a file, from the board to the report.

ghost use Rattle.std.specs.Prelude.{◌≡◌, ◌<◌, true, is_some, IfOk, MatchResult};
ghost use Rattle.mas_core.specs.Fits.{Start};
ghost use Rattle.mas_core.specs.Platform.{opening_platform};
ghost use Rattle.mas_top_record.specs.Disks.{state_of, IsFree};
ghost use Rattle.mas_top_record.specs.Keeping as spec;
ghost use Rattle.mas_record_run.specs.Runs.{WentOn};

use crate::report::{Recording, record_report, resume_report};
use asl_term::copying::copy_text;
use asl_term::sequence::{Seq, Starved};
use asl_term::syntax::Text;
use mas_board::board::Board;
use mas_mind::thinking::Mind;
use mas_record_disk::disk::Disk;
use mas_record_journal::reading::MOST_BYTES;
use mas_record_run::fault::RecordFault;
use mas_report::options::Options;
use mas_report::output::Output;
use mas_top_status::status::{Reason, Status, What};
use mas_world::artifact::Artifact;
use std::alloc::Global;
use std::sync::Wait;
use std::thread::Threads;

/// How a run is kept: from its beginning, or on from what the file tells.
#[derive(Clone, Copy)]
pub enum Keeping {
    Anew,
    On,
}

fn refused(alloc: Global, file: &Text, place: u64, why: Reason) -> Result<Status, Starved>
    ensures { IfOk result (λ s. s ≡ Status.Refused file.now place why) }
{
    let file = copy_text(alloc, file)?;
    Ok(Status::Refused { file, place, why })
}

/// The status of a run that was not kept to its end in the file of this name.
fn fault_status(alloc: Global, file: &Text, fault: RecordFault) -> Result<Status, Starved>
    ensures { IfOk result (λ s. s ≡ spec.fault_status file.now fault) }
{
    match fault {
        RecordFault::Memory => Ok(Status::Memory),
        RecordFault::Disk => Ok(Status::DiskFault),
        RecordFault::Missing => Ok(Status::Missing(copy_text(alloc, file)?)),
        RecordFault::NoHeader => refused(alloc, file, 1, Reason::Line),
        RecordFault::TooLong => Ok(Status::Limit {
            what: What::File,
            count: MOST_BYTES,
        }),
        RecordFault::Illegal(place) => refused(alloc, file, place, Reason::Illegal),
    }
}

/// The run by so many workers, over a disk that comes back.
#[tactic(auto, using(crate::proofs::Kept::kept_anew, crate::proofs::Kept::kept_on))]
fn keep<R: Threads + Wait + Sync, M: Mind + Send, A: Artifact + Send, D: Disk + Send>(
    rt: &R,
    alloc: Global,
    o: &Options,
    board: Board<A>,
    minds: Seq<M>,
    keeping: Keeping,
    file: &Text,
    workers: u32,
    disk: D,
) -> Recording<D>
    requires some { 0 < workers }
    requires start { Start M.kind board minds }
    requires free { (D.state disk).picked ≡ None }
    ensures answer { let p = opening_platform board.state minds in
        let was = D.state disk in
        let now = D.state result.disk in
        MatchResult result.answer
        (λ w. spec.IsKept M.kind o.now p keeping file.now was now w.spent w.text)
        (spec.KeepCause M.kind p keeping file.now was now) }
    ensures on { WentOn (D.state disk) (D.state result.disk) }
    ensures safe { spec.IsSafe keeping file.now (D.state disk) (D.state result.disk) }
{
    match keeping {
        Keeping::Anew => record_report(rt, alloc, o, board, minds, disk, file, workers),
        Keeping::On => resume_report(rt, alloc, o, board, minds, disk, file, workers),
    }
}

/// The report of the run by so many workers, which the file of this name keeps, or why there is none. The disk is given back.
#[tactic(auto, using(crate::proofs::Kept::refused_by, crate::proofs::Kept::starved))]
pub fn keep_run<R: Threads + Wait + Sync, M: Mind + Send, A: Artifact + Send, D: Disk + Send>(
    rt: &R,
    alloc: Global,
    o: &Options,
    board: Board<A>,
    minds: Seq<M>,
    keeping: Keeping,
    file: &Text,
    workers: u32,
    disk: &mut Option<D>,
) -> Result<Output, Status>
    requires some { 0 < workers }
    requires start { Start M.kind board minds }
    requires free { IsFree D.state disk.old }
    ensures there { is_some disk.new ≡ true }
    ensures answer { let p = opening_platform board.state minds in
        let was = state_of D.state disk.old in
        let now = state_of D.state disk.new in
        MatchResult result
        (λ w. spec.IsKept M.kind o.now p keeping file.now was now w.spent w.text)
        (spec.KeepRefused M.kind p keeping file.now was now) }
    ensures on { WentOn (state_of D.state disk.old) (state_of D.state disk.new) }
    ensures safe { spec.IsSafe keeping file.now (state_of D.state disk.old) (state_of D.state disk.new) }
{
    let Some(lent) = disk.take() else {
        unreachable!()
    };
    let Recording { disk: back, answer } = keep(
        rt, alloc, o, board, minds, keeping, file, workers, lent,
    );
    *disk = Some(back);
    match answer {
        Ok(written) => Ok(written),
        Err(fault) => Err(fault_status(alloc, file, fault)?),
    }
}
