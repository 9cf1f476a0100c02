//! The top call: what the words ask for, from the files to the report.

ghost use Rattle.std.specs.Prelude.{◌≡◌, true, is_some, map, string_bytes};
ghost use Rattle.mas_top_sites.specs.Caused.{AreSitesComplete, ReportsSites};
ghost use Rattle.mas_io.specs.Told.{told_of, IsKept};
ghost use Rattle.mas_top_record.specs.Disks.{IsFree};
ghost use Rattle.mas_top_lint.specs.Linting.{IsLintComplete, Lints};
ghost use Rattle.mas_top_files.specs.Known.{known};
ghost use Rattle.mas_report.specs.Limits.{IsWithin};
ghost use Rattle.mas_top.specs.Caused.{FileCaused};
ghost use Rattle.mas_top_check.specs.Checking.{IsClaimComplete, Judges};
ghost use Rattle.mas_top.specs.Demo.{IsDemoComplete};
ghost use Rattle.mas_top.specs.Headline.{AskedCaused, ForClaims, ForDemos, ForLints, ForOthers, ForRecords, ForReports, ForRuns, ForSites, WordsCaused};
ghost use Rattle.mas_top.specs.Headline.{IsComplete, IsHeadline, IsRunReportOf, PrintsSchedule, request};
ghost use Rattle.mas_top_opening.specs.Opening.{objects_of, setup};
ghost use Rattle.mas_top.specs.Recording.{lent, HasGoneOn, IsRecordComplete, IsSafelyLeft, KeepsPrinted};
ghost use Rattle.mas_top.specs.Runs.{wanted, how_of, CanBe};
ghost use Rattle.mas_top_words.specs.Asked as said;
ghost use Rattle.mas_top_words.specs.Asked.{IsPermitted, asked_of};
ghost use Rattle.mas_top_words.specs.Plain.{AskFor, AskForNothing};

use crate::demo::print_demo;
use crate::linting::print_lint;
use crate::playing::{How, run_files};
use crate::recording::{Recorded, print_record};
use mas_io::shelf::Shelf;
use mas_io::sink::Sink;
use mas_io::writing::write_all;
use mas_pool_task::gate::Gate;
use mas_record_disk::disk::Disk;
use mas_report::options::Options;
use mas_top_check::checking::{ReportClaim, print_answer};
use mas_top_record::keep::Keeping;
use mas_top_record::laws::untouched;
use mas_top_sites::printing::{Sites, print_sites};
use mas_top_status::status::{Status, whole};
use mas_top_words::asked::Asked;
use mas_top_words::taken::take_apart;
use mas_world::artifact::Artifact;
use std::alloc::Global;
use std::sync::Wait;
use std::thread::Threads;

/// Makes the run that is asked for, and writes the report.
#[tactic(auto, using(crate::proofs::Caused::refused_file, crate::proofs::Caused::written_file, crate::proofs::Caused::cut_file))]
fn print_files<R: Threads + Wait + Sync, S: Shelf, K: Sink, A: Artifact + Send, G: Gate + Sync>(
    rt: &R,
    alloc: Global,
    o: &Options,
    project: &[u8],
    how: How<'_>,
    shelf: &mut S,
    sink: &mut K,
    gate: &G,
    artifacts: Vec<A>,
) -> Status
    requires within { IsWithin o.now }
    requires can { CanBe (how_of how) }
    ensures kept { let told = told_of S.holds S.faults K.written K.faults in
        IsKept (told shelf.old sink.old) (told shelf.new sink.new) }
    ensures caused { let told = told_of S.holds S.faults K.written K.faults in
        let files = wanted project.now (how_of how.entry) in
        let u = setup o.now (objects_of A.named A.table A.facts artifacts.items) in
        FileCaused (IsRunReportOf u) u files (told shelf.old sink.old) (told shelf.new sink.new) result }
{
    match run_files(rt, alloc, o, project, how, shelf, gate, artifacts) {
        Err(status) => status,
        Ok(out) => match write_all(sink, out.text.as_slice()) {
            Ok(()) => whole(out.spent),
            Err(_) => Status::WriteFault,
        },
    }
}

/// Does what is asked for.
fn run_asked<
    R: Threads + Wait + Sync,
    S: Shelf,
    K: Sink,
    A: Artifact + Send,
    G: Gate + Sync,
    D: Disk + Send,
>(
    rt: &R,
    alloc: Global,
    asked: Asked<'_>,
    shelf: &mut S,
    sink: &mut K,
    gate: &G,
    artifacts: Vec<A>,
    disk: &mut Option<D>,
) -> Status
    requires permitted { IsPermitted (asked_of asked) }
    requires free { IsFree D.state disk.old }
    ensures there { is_some disk.new ≡ true }
    ensures on { HasGoneOn (lent D.state disk.old disk.new) }
    ensures idle { let objects = objects_of A.named A.table A.facts artifacts.items in
        ForOthers (disk.new ≡ disk.old) (request objects (asked_of asked.entry)) }
    ensures safe { let objects = objects_of A.named A.table A.facts artifacts.items in
        let l = lent D.state disk.old disk.new in
        ForRecords (λ u r. IsSafelyLeft l r) (request objects (asked_of asked.entry)) }
    ensures untouched { let objects = objects_of A.named A.table A.facts artifacts.items in
        ForDemos (λ u count way. shelf.new ≡ shelf.old) (request objects (asked_of asked.entry)) }
    ensures kept { let told = told_of S.holds S.faults K.written K.faults in
        IsKept (told shelf.old sink.old) (told shelf.new sink.new) }
    ensures caused { let told = told_of S.holds S.faults K.written K.faults in
        let objects = objects_of A.named A.table A.facts artifacts.items in
        let l = lent D.state disk.old disk.new in
        AskedCaused IsRunReportOf objects l (told shelf.old sink.old) (told shelf.new sink.new) result (request objects (asked_of asked.entry)) }
{
    match asked {
        Asked::Run {
            project,
            options,
            workers,
            pool,
        } => {
            let how = How::Workers(workers as u32, pool);
            print_files(
                rt, alloc, &options, project, how, shelf, sink, gate, artifacts,
            )
        }
        Asked::Replay {
            project,
            schedule,
            options,
        } => {
            let how = How::Schedule(schedule);
            print_files(
                rt, alloc, &options, project, how, shelf, sink, gate, artifacts,
            )
        }
        Asked::Record {
            project,
            file,
            options,
            workers,
        } => {
            let r = Recorded {
                project,
                file,
                keeping: Keeping::Anew,
                workers: workers as u32,
            };
            print_record(rt, alloc, &options, &r, shelf, sink, artifacts, disk)
        }
        Asked::Resume {
            project,
            file,
            options,
            workers,
        } => {
            let r = Recorded {
                project,
                file,
                keeping: Keeping::On,
                workers: workers as u32,
            };
            print_record(rt, alloc, &options, &r, shelf, sink, artifacts, disk)
        }
        Asked::Check { project, report } => {
            let asks = ReportClaim::Whether;
            print_answer(alloc, asks, project, report, shelf, sink, artifacts)
        }
        Asked::Demo { count, workers } => print_demo(
            rt,
            alloc,
            count as u32,
            workers as u32,
            sink,
            gate,
            artifacts,
        ),
        Asked::Renew { project, report } => {
            let asks = ReportClaim::Anew;
            print_answer(alloc, asks, project, report, shelf, sink, artifacts)
        }
        Asked::Sites {
            one,
            two,
            options,
            workers,
        } => {
            let s = Sites {
                first: one,
                second: two,
                workers: workers as u32,
            };
            print_sites(rt, alloc, &options, &s, shelf, sink, artifacts)
        }
        Asked::Lint { project } => print_lint(alloc, project, shelf, sink, artifacts),
    }
}

/// Does what the words ask for.
#[tactic(auto, using(crate::proofs::Said::read_words))]
fn run_read<
    R: Threads + Wait + Sync,
    S: Shelf,
    K: Sink,
    A: Artifact + Send,
    G: Gate + Sync,
    D: Disk + Send,
>(
    rt: &R,
    alloc: Global,
    words: &[String],
    shelf: &mut S,
    sink: &mut K,
    gate: &G,
    artifacts: Vec<A>,
    disk: &mut Option<D>,
) -> Status
    requires free { IsFree D.state disk.old }
    ensures there { is_some disk.new ≡ true }
    ensures on { HasGoneOn (lent D.state disk.old disk.new) }
    ensures idle { let objects = objects_of A.named A.table A.facts artifacts.items in
        (asked : said.Asked) → AskFor (map string_bytes words.now) asked → ForOthers (disk.new ≡ disk.old) (request objects asked) }
    ensures safe { let objects = objects_of A.named A.table A.facts artifacts.items in
        let l = lent D.state disk.old disk.new in
        (asked : said.Asked) → AskFor (map string_bytes words.now) asked → ForRecords (λ u r. IsSafelyLeft l r) (request objects asked) }
    ensures unread { AskForNothing (map string_bytes words.now) → (shelf.new ≡ shelf.old) × ((sink.new ≡ sink.old) × (disk.new ≡ disk.old)) }
    ensures untouched { let objects = objects_of A.named A.table A.facts artifacts.items in
        (asked : said.Asked) → AskFor (map string_bytes words.now) asked →
        ForDemos (λ u count way. shelf.new ≡ shelf.old) (request objects asked) }
    ensures kept { let told = told_of S.holds S.faults K.written K.faults in
        IsKept (told shelf.old sink.old) (told shelf.new sink.new) }
    ensures caused { let told = told_of S.holds S.faults K.written K.faults in
        let objects = objects_of A.named A.table A.facts artifacts.items in
        let given = map string_bytes words.now in
        let l = lent D.state disk.old disk.new in
        WordsCaused IsRunReportOf objects given l (told shelf.old sink.old) (told shelf.new sink.new) result }
{
    untouched(&*disk);
    match take_apart(alloc, words) {
        Ok(None) => Status::Usage,
        Ok(Some(asked)) => run_asked(rt, alloc, asked, shelf, sink, gate, artifacts, disk),
        Err(_) => Status::Memory,
    }
}

/// The top call: does what the words ask for, and calls the gate beside each cycle of an agent where more workers than one
/// are started, which is no more than one for each agent. The words leave out the program's own name. For a run or a replay, of
/// the files and the options that the words name, the clauses say what a report is that was written whole, by `Ok` or `Budget`,
/// in which order the turns of its schedule are, when no fault may be answered, and the cause of each status; after a write fault
/// a prefix of the report is written, or nothing. Of a run that is recorded on the disk, or goes on from there, they are
/// `headline`, `recorded`, `finished`, `safe` and `caused`: its file keeps the schedule that the report prints, and whatever a run
/// that goes on comes to, no turn is lost that the file told. The disk is given back, and with other words nothing is done with
/// it. Of a check they are `check`, `checked` and `caused`, of a lint `lint`, `linted` and `caused`, of two sites `sites`, `met`
/// and `caused`, and of a demo `demo`, `untouched` and `caused`. Words that are not read, the status of which is `Usage`, leave
/// shelf, sink and disk as they were.
pub fn run_words<R: Threads + Wait + Sync, S: Shelf, K: Sink, G: Gate + Sync, D: Disk + Send>(
    rt: &R,
    alloc: Global,
    words: &[String],
    shelf: &mut S,
    sink: &mut K,
    gate: &G,
    artifacts: Vec<Box<dyn Artifact + Send>>,
    disk: &mut Option<D>,
) -> Status
    requires free { IsFree D.state disk.old }
    ensures there { is_some disk.new ≡ true }
    ensures on { HasGoneOn (lent D.state disk.old disk.new) }
    ensures headline { let told = told_of S.holds S.faults K.written K.faults in
        let objects = objects_of named table facts artifacts.items in
        (asked : said.Asked) → AskFor (map string_bytes words.now) asked →
        ForReports (λ u files. IsHeadline u files (told shelf.old sink.old) (told shelf.new sink.new) result) (request objects asked) }
    ensures schedule { let told = told_of S.holds S.faults K.written K.faults in
        let objects = objects_of named table facts artifacts.items in
        (asked : said.Asked) → AskFor (map string_bytes words.now) asked →
        ForRuns (λ u files. PrintsSchedule u files (told shelf.old sink.old) (told shelf.new sink.new) result) (request objects asked) }
    ensures complete { let told = told_of S.holds S.faults K.written K.faults in
        let objects = objects_of named table facts artifacts.items in
        (asked : said.Asked) → AskFor (map string_bytes words.now) asked →
        ForRuns (λ u files. IsComplete u files (told shelf.old sink.old) (told shelf.new sink.new) result) (request objects asked) }
    ensures recorded { let told = told_of S.holds S.faults K.written K.faults in
        let objects = objects_of named table facts artifacts.items in
        let l = lent D.state disk.old disk.new in
        (asked : said.Asked) → AskFor (map string_bytes words.now) asked →
        ForRecords (λ u r. KeepsPrinted l r (told shelf.old sink.old) (told shelf.new sink.new) result) (request objects asked) }
    ensures finished { let told = told_of S.holds S.faults K.written K.faults in
        let objects = objects_of named table facts artifacts.items in
        let l = lent D.state disk.old disk.new in
        (asked : said.Asked) → AskFor (map string_bytes words.now) asked →
        ForRecords (λ u r. IsRecordComplete l u r (told shelf.old sink.old) (told shelf.new sink.new) result) (request objects asked) }
    ensures safe { let objects = objects_of named table facts artifacts.items in
        let l = lent D.state disk.old disk.new in
        (asked : said.Asked) → AskFor (map string_bytes words.now) asked → ForRecords (λ u r. IsSafelyLeft l r) (request objects asked) }
    ensures idle { let objects = objects_of named table facts artifacts.items in
        (asked : said.Asked) → AskFor (map string_bytes words.now) asked → ForOthers (disk.new ≡ disk.old) (request objects asked) }
    ensures check { let told = told_of S.holds S.faults K.written K.faults in
        let objects = objects_of named table facts artifacts.items in
        (asked : said.Asked) → AskFor (map string_bytes words.now) asked →
        ForClaims (λ c. Judges objects c (told shelf.old sink.old) (told shelf.new sink.new) result) (request objects asked) }
    ensures checked { let told = told_of S.holds S.faults K.written K.faults in
        let objects = objects_of named table facts artifacts.items in
        (asked : said.Asked) → AskFor (map string_bytes words.now) asked →
        ForClaims (λ c. IsClaimComplete objects c (told shelf.old sink.old) (told shelf.new sink.new) result) (request objects asked) }
    ensures lint { let told = told_of S.holds S.faults K.written K.faults in
        let objects = objects_of named table facts artifacts.items in
        (asked : said.Asked) → AskFor (map string_bytes words.now) asked →
        ForLints (λ project. Lints (known objects) project (told shelf.old sink.old) (told shelf.new sink.new) result) (request objects asked) }
    ensures linted { let told = told_of S.holds S.faults K.written K.faults in
        let objects = objects_of named table facts artifacts.items in
        (asked : said.Asked) → AskFor (map string_bytes words.now) asked →
        ForLints (λ project. IsLintComplete (known objects) project (told shelf.old sink.old) (told shelf.new sink.new) result) (request objects asked) }
    ensures sites { let told = told_of S.holds S.faults K.written K.faults in
        let objects = objects_of named table facts artifacts.items in
        (asked : said.Asked) → AskFor (map string_bytes words.now) asked →
        ForSites (λ u s. ReportsSites u s (told shelf.old sink.old) (told shelf.new sink.new) result) (request objects asked) }
    ensures met { let told = told_of S.holds S.faults K.written K.faults in
        let objects = objects_of named table facts artifacts.items in
        (asked : said.Asked) → AskFor (map string_bytes words.now) asked →
        ForSites (λ u s. AreSitesComplete u s (told shelf.old sink.old) (told shelf.new sink.new) result) (request objects asked) }
    ensures demo { let told = told_of S.holds S.faults K.written K.faults in
        let objects = objects_of named table facts artifacts.items in
        (asked : said.Asked) → AskFor (map string_bytes words.now) asked →
        ForDemos (λ u count way. IsDemoComplete u (told shelf.old sink.old) (told shelf.new sink.new) result) (request objects asked) }
    ensures unread { AskForNothing (map string_bytes words.now) → (shelf.new ≡ shelf.old) × ((sink.new ≡ sink.old) × (disk.new ≡ disk.old)) }
    ensures untouched { let objects = objects_of named table facts artifacts.items in
        (asked : said.Asked) → AskFor (map string_bytes words.now) asked →
        ForDemos (λ u count way. shelf.new ≡ shelf.old) (request objects asked) }
    ensures kept { let told = told_of S.holds S.faults K.written K.faults in
        IsKept (told shelf.old sink.old) (told shelf.new sink.new) }
    ensures caused { let told = told_of S.holds S.faults K.written K.faults in
        let objects = objects_of named table facts artifacts.items in
        let given = map string_bytes words.now in
        let l = lent D.state disk.old disk.new in
        WordsCaused IsRunReportOf objects given l (told shelf.old sink.old) (told shelf.new sink.new) result }
{
    run_read(rt, alloc, words, shelf, sink, gate, artifacts, disk)
}
