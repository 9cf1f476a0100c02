//! A run that is recorded in a file of a disk, from the project's files to the report.

ghost use Rattle.std.specs.Prelude.{◌≡◌, ◌≤◌, true, is_some, MatchResult};
ghost use Rattle.asl_cycle.specs.Agent.{agent_kind};
ghost use Rattle.mas_core.specs.Fits.{Start};
ghost use Rattle.mas_core.specs.Platform.{opening_platform};
ghost use Rattle.mas_io.specs.Told.{told_of, IsKept};
ghost use Rattle.mas_top_record.specs.Disks.{state_of, IsFree};
ghost use Rattle.mas_top_record.specs.Keeping as keeping;
ghost use Rattle.mas_record_run.specs.Runs.{WentOn};
ghost use Rattle.mas_report.specs.Limits.{IsFrom, IsWithin};
ghost use Rattle.mas_top.specs.Caused.{ForFiles};
ghost use Rattle.mas_top_opening.specs.Fits.{CanRun};
ghost use Rattle.mas_top_opening.specs.Opening.{objects_of, opening, setup};
ghost use Rattle.mas_top.specs.Recording as spec;
ghost use Rattle.mas_top.specs.Recording.{lent, recorded_of};

use asl_term::copying::text_of;
use asl_term::syntax::Text;
use mas_io::shelf::Shelf;
use mas_io::sink::Sink;
use mas_io::writing::write_all;
use mas_mind::thinking::Mind;
use mas_record_disk::disk::Disk;
use mas_report::options::Options;
use mas_report::output::Output;
use mas_top_files::sources::Source;
use mas_top_opening::opening::{Opened, open_source};
use mas_top_opening::reading::read_source;
use mas_top_record::keep::{Keeping, keep_run};
use mas_top_record::laws::untouched;
use mas_top_status::status::{Status, whole};
use mas_world::artifact::Artifact;
use std::alloc::Global;
use std::sync::Wait;
use std::thread::Threads;

/// What is recorded: the run of a project by so many workers, in the file of a name, from its beginning or on from what the file
/// tells.
#[derive(Clone, Copy)]
pub struct Recorded<'a> {
    pub project: &'a [u8],
    pub file: &'a [u8],
    pub keeping: Keeping,
    pub workers: u32,
}

/// The report of the recorded run of these minds over this board.
fn record_opened<R: Threads + Wait + Sync, M: Mind + Send, A: Artifact + Send, D: Disk + Send>(
    rt: &R,
    alloc: Global,
    o: &Options,
    opened: Opened<M, A>,
    r: &Recorded<'_>,
    file: &Text,
    disk: &mut Option<D>,
) -> Result<Output, Status>
    requires start { Start M.kind opened.board opened.minds }
    requires workers { IsFrom 1 64 r.now.workers }
    requires free { IsFree D.state disk.old }
    ensures there { is_some disk.new ≡ true }
    ensures answer { let p = opening_platform opened.board.state opened.minds in
        let was = state_of D.state disk.old in
        let now = state_of D.state disk.new in
        MatchResult result
        (λ w. keeping.IsKept M.kind o.now p r.now.keeping file.now was now w.spent w.text)
        (keeping.KeepRefused M.kind p r.now.keeping file.now was now) }
    ensures on { WentOn (state_of D.state disk.old) (state_of D.state disk.new) }
    ensures safe { keeping.IsSafe r.now.keeping file.now (state_of D.state disk.old) (state_of D.state disk.new) }
{
    let Opened { board, minds } = opened;
    keep_run(rt, alloc, o, board, minds, r.keeping, file, r.workers, disk)
}

/// The report of the recorded run of a source.
#[tactic(auto, using(mas_top_opening::proofs::Starts::starts, asl_cycle::proofs::Sends::agent_send, mas_top_record::proofs::Kept::starved))]
fn record_source<R: Threads + Wait + Sync, A: Artifact + Send, D: Disk + Send>(
    rt: &R,
    alloc: Global,
    o: &Options,
    source: Source,
    artifacts: Vec<A>,
    r: &Recorded<'_>,
    file: &Text,
    disk: &mut Option<D>,
) -> Result<Output, Status>
    requires within { IsWithin o.now }
    requires can { CanRun (objects_of A.named A.table A.facts artifacts.items) source }
    requires workers { IsFrom 1 64 r.now.workers }
    requires free { IsFree D.state disk.old }
    ensures there { is_some disk.new ≡ true }
    ensures answer { let p = opening (setup o.now (objects_of A.named A.table A.facts artifacts.items)) source in
        let was = state_of D.state disk.old in
        let now = state_of D.state disk.new in
        MatchResult result
        (λ w. keeping.IsKept agent_kind o.now p r.now.keeping file.now was now w.spent w.text)
        (keeping.KeepRefused agent_kind p r.now.keeping file.now was now) }
    ensures on { WentOn (state_of D.state disk.old) (state_of D.state disk.new) }
    ensures safe { keeping.IsSafe r.now.keeping file.now (state_of D.state disk.old) (state_of D.state disk.new) }
{
    untouched(&*disk);
    match open_source(alloc, o, source, artifacts) {
        Ok(opened) => record_opened(rt, alloc, o, opened, r, file, disk),
        Err(_) => Err(Status::Memory),
    }
}

/// The report of the recorded run that is asked for, or why there is none.
#[tactic(auto, using(crate::proofs::Recorded::no_project))]
fn record_files<R: Threads + Wait + Sync, S: Shelf, A: Artifact + Send, D: Disk + Send>(
    rt: &R,
    alloc: Global,
    o: &Options,
    r: &Recorded<'_>,
    shelf: &mut S,
    artifacts: Vec<A>,
    disk: &mut Option<D>,
) -> Result<Output, Status>
    requires within { IsWithin o.now }
    requires workers { IsFrom 1 64 r.now.workers }
    requires free { IsFree D.state disk.old }
    ensures same { S.holds shelf.new ≡ S.holds shelf.old }
    ensures later { S.faults shelf.old ≤ S.faults shelf.new }
    ensures there { is_some disk.new ≡ true }
    ensures answer { let held = S.holds shelf.old in
        let u = setup o.now (objects_of A.named A.table A.facts artifacts.items) in
        let l = lent D.state disk.old disk.new in
        let wish = recorded_of r.now in
        MatchResult result
        (λ w. ForFiles (spec.IsRecordedReport l u wish) u held (spec.wanted_of wish) w.spent w.text)
        (spec.AnswerRefused l u wish held (S.faults shelf.old) (S.faults shelf.new)) }
    ensures on { spec.HasGoneOn (lent D.state disk.old disk.new) }
    ensures safe { spec.IsSafelyLeft (lent D.state disk.old disk.new) (recorded_of r.now) }
{
    untouched(&*disk);
    let word = text_of(alloc, r.project)?;
    let file = text_of(alloc, r.file)?;
    let source = read_source(alloc, o.cycles, &word, &artifacts, shelf)?;
    record_source(rt, alloc, o, source, artifacts, r, &file, disk)
}

/// Makes the recorded run that is asked for, and writes its report. The files of the project are read before the disk is touched.
#[tactic(auto, using(crate::proofs::Recorded::refused_record, crate::proofs::Recorded::written_record, crate::proofs::Recorded::cut_record))]
pub fn print_record<
    R: Threads + Wait + Sync,
    S: Shelf,
    K: Sink,
    A: Artifact + Send,
    D: Disk + Send,
>(
    rt: &R,
    alloc: Global,
    o: &Options,
    r: &Recorded<'_>,
    shelf: &mut S,
    sink: &mut K,
    artifacts: Vec<A>,
    disk: &mut Option<D>,
) -> Status
    requires within { IsWithin o.now }
    requires workers { IsFrom 1 64 r.now.workers }
    requires free { IsFree D.state disk.old }
    ensures kept { let told = told_of S.holds S.faults K.written K.faults in
        IsKept (told shelf.old sink.old) (told shelf.new sink.new) }
    ensures there { is_some disk.new ≡ true }
    ensures on { spec.HasGoneOn (lent D.state disk.old disk.new) }
    ensures safe { spec.IsSafelyLeft (lent D.state disk.old disk.new) (recorded_of r.now) }
    ensures caused { let told = told_of S.holds S.faults K.written K.faults in
        let u = setup o.now (objects_of A.named A.table A.facts artifacts.items) in
        let l = lent D.state disk.old disk.new in
        spec.RecordCaused l u (recorded_of r.now) (told shelf.old sink.old) (told shelf.new sink.new) result }
{
    match record_files(rt, alloc, o, r, shelf, artifacts, disk) {
        Err(status) => status,
        Ok(out) => match write_all(sink, out.text.as_slice()) {
            Ok(()) => whole(out.spent),
            Err(_) => Status::WriteFault,
        },
    }
}
