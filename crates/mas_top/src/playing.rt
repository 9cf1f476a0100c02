//! What is asked for, from the files to the report.

ghost use Rattle.std.specs.Prelude.{◌≡◌, ◌≤◌, IfErr, IfOk, MatchResult};
ghost use Rattle.mas_report.specs.Limits.{IsWithin};
ghost use Rattle.mas_top_files.specs.Files.{HasFile, IsRefusal, most_report_bytes};
ghost use Rattle.mas_top.specs.Caused.{ForFiles};
ghost use Rattle.mas_top_opening.specs.Fits.{CanRun};
ghost use Rattle.mas_top.specs.Headline.{IsRunReportOf};
ghost use Rattle.mas_top_opening.specs.Opening.{objects_of, setup};
ghost use Rattle.mas_top.specs.Playing.{ForSchedule};
ghost use Rattle.mas_top.specs.Runs as spec;
ghost use Rattle.mas_top.specs.Runs.{wanted, how_of, CanBe, GivenRefused, schedules};

use crate::running::{replay_source, run_source};
use asl_term::copying::text_of;
use asl_term::sequence::Starved;
use asl_term::syntax::Text;
use mas_core::replay::PlayFault;
use mas_io::shelf::Shelf;
use mas_pool_task::gate::Gate;
use mas_report::options::Options;
use mas_report::output::Output;
use mas_report_schedule::reading::{LineFault, read_schedule};
use mas_top_files::files::{MOST_REPORT_BYTES, bytes_of};
use mas_top_files::sources::Source;
use mas_top_opening::reading::read_source;
use mas_top_status::status::{Reason, Status};
use mas_top_words::asked::Pool;
use mas_world::artifact::Artifact;
use std::alloc::Global;
use std::sync::Wait;
use std::thread::Threads;

/// How a project is run: by so many workers from a pool, or along the schedule of the file of this name.
#[derive(Clone, Copy)]
pub enum How<'a> {
    Workers(u32, Pool),
    Schedule(&'a [u8]),
}

/// Why bytes are no schedule along which a source is run to its end.
#[derive(Clone, Copy, Drop)]
pub enum ScheduleFault {
    Line(LineFault),
    Play(PlayFault),
}

fn refused(alloc: Global, name: &[u8], place: u64, why: Reason) -> Result<Status, Starved>
    ensures { IfOk result (λ s. s ≡ Status.Refused name.now place why) }
{
    let file = text_of(alloc, name)?;
    Ok(Status::Refused { file, place, why })
}

/// The status for the file of a schedule that is refused.
fn schedule_status(alloc: Global, name: &[u8], why: ScheduleFault) -> Result<Status, Starved>
    ensures { IfOk result (λ s. s ≡ spec.schedule_status name.now why) }
{
    match why {
        ScheduleFault::Line(LineFault::Memory) => Ok(Status::Memory),
        ScheduleFault::Line(LineFault::BadLine(number)) => refused(
            alloc,
            name,
            number,
            Reason::Line,
        ),
        ScheduleFault::Play(PlayFault::Memory) => Ok(Status::Memory),
        ScheduleFault::Play(PlayFault::Illegal(place)) => refused(
            alloc,
            name,
            place,
            Reason::Illegal,
        ),
        ScheduleFault::Play(PlayFault::Unended(agent)) => refused(
            alloc,
            name,
            agent as u64,
            Reason::Unended,
        ),
    }
}

/// The report of the run of a source along the schedule in these bytes, or why there is none.
#[tactic(auto, using(crate::proofs::Played::followed, crate::proofs::Played::stopped))]
fn replay_bytes<A: Artifact>(
    alloc: Global,
    o: &Options,
    source: Source,
    artifacts: Vec<A>,
    bytes: Text,
) -> Result<Output, ScheduleFault>
    requires within { IsWithin o.now }
    requires can { CanRun (objects_of A.named A.table A.facts artifacts.items) source }
    ensures ok { let u = setup o.now (objects_of A.named A.table A.facts artifacts.items) in
        IfOk result (λ out. ForSchedule u source bytes out.spent out.text) }
    ensures err { let u = setup o.now (objects_of A.named A.table A.facts artifacts.items) in
        IfErr result (spec.IsUnfollowed u source bytes) }
{
    let read = read_schedule(alloc, bytes.as_slice());
    drop(bytes);
    match read {
        Err(why) => {
            drop(source);
            drop(artifacts);
            Err(ScheduleFault::Line(why))
        }
        Ok(names) => match replay_source(alloc, o, source, artifacts, &names) {
            Ok(out) => Ok(out),
            Err(why) => Err(ScheduleFault::Play(why)),
        },
    }
}

/// The report of the run of a source along the schedule of a file, or why the file is refused.
#[tactic(auto, using(crate::proofs::Played::unread, crate::proofs::Played::replayed_file, crate::proofs::Played::not_replayed))]
fn replay_file<S: Shelf, A: Artifact>(
    alloc: Global,
    o: &Options,
    source: Source,
    artifacts: Vec<A>,
    name: &[u8],
    shelf: &mut S,
) -> Result<Output, Status>
    requires within { IsWithin o.now }
    requires can { CanRun (objects_of A.named A.table A.facts artifacts.items) source }
    ensures same { S.holds shelf.new ≡ S.holds shelf.old }
    ensures later { S.faults shelf.old ≤ S.faults shelf.new }
    ensures answer { let held = S.holds shelf.old in
        let u = setup o.now (objects_of A.named A.table A.facts artifacts.items) in
        MatchResult result
        (λ out. HasFile most_report_bytes held name.now (λ bytes. ForSchedule u source bytes out.spent out.text))
        (IsRefusal (schedules u source) name.now held (S.faults shelf.old) (S.faults shelf.new)) }
{
    let file = text_of(alloc, name)?;
    match bytes_of(alloc, &file, MOST_REPORT_BYTES, shelf) {
        Err(status) => {
            drop(source);
            drop(artifacts);
            Err(status)
        }
        Ok(bytes) => match replay_bytes(alloc, o, source, artifacts, bytes) {
            Ok(out) => Ok(out),
            Err(why) => Err(schedule_status(alloc, name, why)?),
        },
    }
}

/// The report of the run that is asked for, or why a file is refused.
#[tactic(auto, using(crate::proofs::Played::asked_for))]
pub fn run_files<R: Threads + Wait + Sync, S: Shelf, A: Artifact + Send, G: Gate + Sync>(
    rt: &R,
    alloc: Global,
    o: &Options,
    project: &[u8],
    how: How<'_>,
    shelf: &mut S,
    gate: &G,
    artifacts: Vec<A>,
) -> Result<Output, Status>
    requires within { IsWithin o.now }
    requires can { CanBe (how_of how) }
    ensures same { S.holds shelf.new ≡ S.holds shelf.old }
    ensures later { S.faults shelf.old ≤ S.faults shelf.new }
    ensures answer { let held = S.holds shelf.old in
        let a = wanted project.now (how_of how.entry) in
        let u = setup o.now (objects_of A.named A.table A.facts artifacts.items) in
        MatchResult result
        (λ out. ForFiles (IsRunReportOf u) u held a out.spent out.text)
        (GivenRefused u held a (S.faults shelf.old) (S.faults shelf.new)) }
{
    let word = text_of(alloc, project)?;
    let source = read_source(alloc, o.cycles, &word, &artifacts, shelf)?;
    match how {
        How::Workers(workers, pool) => Ok(run_source(
            rt, alloc, o, source, artifacts, pool, workers, gate,
        )?),
        How::Schedule(name) => replay_file(alloc, o, source, artifacts, name, shelf),
    }
}
