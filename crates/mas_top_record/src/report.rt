//! The report of a recorded run, whose own schedule is the one that its file tells.

ghost use Rattle.std.specs.Prelude.{◌≡◌, ◌<◌, [], None, IfOk, IfErr};
ghost use Rattle.mas_core.specs.Fits.{Start};
ghost use Rattle.mas_core.specs.Platform.{opening_platform};
ghost use Rattle.mas_report.specs.Report as report;
ghost use Rattle.mas_report_schedule.specs.Schedule.{printed};
ghost use Rattle.mas_record_run.specs.Records.{IsCrashSafe, IsKeptOn, RecordCause, ResumeCause};
ghost use Rattle.mas_record_run.specs.Runs.{WentOn};
ghost use Rattle.mas_top_record.specs.Recordings as spec;

use asl_term::sequence::Seq;
use asl_term::syntax::Text;
use mas_board::board::Board;
use mas_mind::thinking::Mind;
use mas_record_disk::disk::Disk;
use mas_record_run::fault::{RecordFault, RecordedRun};
use mas_record_run::record::{record_run, resume_run};
use mas_report::options::Options;
use mas_report::output::{Output, output_of};
use mas_world::artifact::Artifact;
use std::alloc::Global;
use std::sync::Wait;
use std::thread::Threads;

/// The disk, which always comes back, and the report of the run, or why there is none.
#[derive(Drop)]
pub struct Recording<D> {
    pub disk: D,
    pub answer: Result<Output, RecordFault>,
}

/// The report of what a run came to.
fn told<M: Mind, A: Artifact, D: Drop>(
    alloc: Global,
    o: &Options,
    recorded: RecordedRun<M, A, D>,
) -> Recording<D>
    ensures disk { result.disk ≡ recorded.disk }
    ensures ok { IfOk result.answer (spec.IsTold M.kind o.now recorded.answer) }
    ensures err { IfErr result.answer (spec.IsFault recorded.answer) }
{
    let RecordedRun { disk, answer } = recorded;
    match answer {
        Ok(done) => match output_of(alloc, o, &done) {
            Ok(text) => {
                drop(done);
                Recording {
                    disk,
                    answer: Ok(text),
                }
            }
            Err(_) => {
                drop(done);
                Recording {
                    disk,
                    answer: Err(RecordFault::Memory),
                }
            }
        },
        Err(fault) => Recording {
            disk,
            answer: Err(fault),
        },
    }
}

/// The report of a whole run by so many workers, each turn of which is in the file of this name before it counts. What the file was
/// is lost.
pub fn record_report<R: Threads + Wait + Sync, M: Mind + Send, A: Artifact + Send, D: Disk + Send>(
    rt: &R,
    alloc: Global,
    o: &Options,
    board: Board<A>,
    minds: Seq<M>,
    disk: D,
    file: &Text,
    workers: u32,
) -> Recording<D>
    requires some { 0 < workers }
    requires start { Start M.kind board minds }
    requires free { (D.state disk).picked ≡ None }
    ensures ok { IfOk result.answer (λ w. report.IsReport M.kind report.latest o.now (opening_platform board.state minds) w.spent w.text) }
    ensures there { IfOk result.answer (λ w. IsKeptOn D.state file.now [] (printed w.text) (D.state disk) (D.state result.disk)) }
    ensures err { IfErr result.answer (RecordCause (D.state disk) (D.state result.disk)) }
    ensures on { WentOn (D.state disk) (D.state result.disk) }
{
    board.holds();
    told(
        alloc,
        o,
        record_run(rt, alloc, board, minds, disk, file, workers),
    )
}

/// The report of the run that the file of this name tells, and that goes on from there to its end by so many workers.
pub fn resume_report<R: Threads + Wait + Sync, M: Mind + Send, A: Artifact + Send, D: Disk + Send>(
    rt: &R,
    alloc: Global,
    o: &Options,
    board: Board<A>,
    minds: Seq<M>,
    disk: D,
    file: &Text,
    workers: u32,
) -> Recording<D>
    requires some { 0 < workers }
    requires start { Start M.kind board minds }
    requires free { (D.state disk).picked ≡ None }
    ensures ok { IfOk result.answer (λ w. report.IsReport M.kind report.latest o.now (opening_platform board.state minds) w.spent w.text) }
    ensures there { IfOk result.answer (λ w. spec.GoesOn D.state file.now (printed w.text) (D.state disk) (D.state result.disk)) }
    ensures err { IfErr result.answer (ResumeCause M.kind (opening_platform board.state minds) file.now (D.state disk) (D.state result.disk)) }
    ensures on { WentOn (D.state disk) (D.state result.disk) }
    ensures crash { IsCrashSafe file.now (D.state disk) (D.state result.disk) }
{
    board.holds();
    told(
        alloc,
        o,
        resume_run(rt, alloc, board, minds, disk, file, workers),
    )
}
