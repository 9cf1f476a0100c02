//! Whether a report is that of a run of a project, and that report anew.

ghost use Rattle.std.specs.Prelude.{◌≡◌, ◌≤◌, ◌*◌, nat_le, IfOk, MatchOption, MatchResult};
ghost use Rattle.asl_cycle.specs.Agent.{agent_kind};
ghost use Rattle.mas_core.specs.Fits.{Start};
ghost use Rattle.mas_core.specs.Platform.{opening_platform};
ghost use Rattle.mas_io.specs.Told.{told_of, IsKept};
ghost use Rattle.mas_mind.specs.Limits.{most_cycles, most_cycles_together};
ghost use Rattle.mas_report.specs.Limits.{IsWithin};
ghost use Rattle.mas_report.specs.Report.{Decided, IsAnyReport};
ghost use Rattle.mas_report_schedule.specs.Schedule.{IsVersion, printed};
ghost use Rattle.mas_top_files.specs.Files.{HasFile, IsRefusal, most_report_bytes};
ghost use Rattle.mas_top_files.specs.Sources.{UnlessMemory};
ghost use Rattle.mas_top_check.specs.Checking as spec;
ghost use Rattle.mas_top_opening.specs.Fits.{CanRun};
ghost use Rattle.mas_top_opening.specs.Opening.{objects_of, opening, setup};

use asl_term::copying::text_of;
use asl_term::sequence::Starved;
use asl_term::syntax::Text;
use mas_io::shelf::Shelf;
use mas_io::sink::Sink;
use mas_io::writing::write_all;
use mas_mind::limits::MOST_CYCLES_TOGETHER;
use mas_mind::thinking::Mind;
use mas_report::checking::{is_report_along, renewal_along};
use mas_report::options::{Options, default_options, is_within};
use mas_report::reading::{Told, read_report};
use mas_top_files::files::{MOST_REPORT_BYTES, bytes_of};
use mas_top_files::sources::Source;
use mas_top_opening::opening::{Opened, open_source};
use mas_top_opening::reading::read_source;
use mas_top_status::status::{Status, verdict};
use mas_world::artifact::Artifact;
use std::alloc::Global;

/// What is asked of bytes: whether they are the report of a run, or for that report anew.
#[derive(Clone, Copy)]
pub enum ReportClaim {
    Whether,
    Anew,
}

/// Whether so many agents may make so many cycles each.
fn are_few(agents: u32, cycles: u64) -> bool
    requires { cycles ≤ most_cycles }
    ensures { result ≡ nat_le (agents * cycles) most_cycles_together }
{
    agents as u64 * cycles <= MOST_CYCLES_TOGETHER
}

/// Whether the options are within their limits, and so the cycles of all agents of the source.
#[tactic(auto, using(crate::proofs::Verdicts::few, crate::proofs::Verdicts::many, crate::proofs::Verdicts::past))]
pub fn is_allowed(o: &Options, source: &Source) -> bool
    ensures { Decided (spec.IsAllowed source.now o.now) result }
{
    if is_within(o) {
        are_few(source.names.len(), o.cycles)
    } else {
        false
    }
}

/// What bytes tell of a run that the source may have; none where they are no report, or its options are not allowed.
#[tactic(auto, using(crate::proofs::Verdicts::tells))]
pub fn told_in(alloc: Global, bytes: &Text, source: &Source) -> Result<Option<Told>, Starved>
    ensures { IfOk result (λ r. MatchOption r (spec.TellsNoRun source.now bytes.now) (spec.TellsRun source.now bytes.now)) }
{
    match read_report(alloc, bytes.as_slice())? {
        None => Ok(None),
        Some(told) => {
            if is_allowed(&told.options, source) {
                Ok(Some(told))
            } else {
                drop(told);
                Ok(None)
            }
        }
    }
}

/// What is written where the run of these minds over this board, along the turns that bytes tell, ends, and its report is
/// these bytes; None where it is not so.
fn answer_along<M: Mind, A: Artifact>(
    alloc: Global,
    asks: ReportClaim,
    told: &Told,
    opened: Opened<M, A>,
    bytes: &Text,
) -> Result<Option<Text>, Starved>
    requires known { IsVersion told.now.version }
    requires start { Start M.kind opened.board opened.minds }
    requires last { printed bytes.now ≡ told.now.turns }
    ensures { let p = opening_platform opened.board.state opened.minds in
        let t = told.now in
        IfOk result (λ r. MatchOption r (IsAnyReport M.kind t.version t.options p bytes.now → ⊥)
        (λ w. IsAnyReport M.kind t.version t.options p bytes.now × spec.SaysFrom M.kind (spec.asks_of asks) t p w)) }
{
    let Opened { board, minds } = opened;
    let version = told.version;
    let o = &told.options;
    let turns = &told.turns;
    match asks {
        ReportClaim::Whether => {
            if is_report_along(alloc, version, o, board, minds, turns, bytes)? {
                Ok(Some(text_of(alloc, b"yes\n")?))
            } else {
                Ok(None)
            }
        }
        ReportClaim::Anew => renewal_along(alloc, version, o, board, minds, turns, bytes),
    }
}

/// The same for the run of a source.
#[tactic(auto, using(mas_top_opening::proofs::Starts::starts))]
fn answer_of<A: Artifact>(
    alloc: Global,
    asks: ReportClaim,
    told: &Told,
    source: Source,
    artifacts: Vec<A>,
    bytes: &Text,
) -> Result<Option<Text>, Starved>
    requires known { IsVersion told.now.version }
    requires within { IsWithin told.now.options }
    requires can { CanRun (objects_of A.named A.table A.facts artifacts.items) source }
    requires last { printed bytes.now ≡ told.now.turns }
    ensures { let objects = objects_of A.named A.table A.facts artifacts.items in
        let t = told.now in
        let p = opening (setup t.options objects) source in
        IfOk result (λ r. MatchOption r (IsAnyReport agent_kind t.version t.options p bytes.now → ⊥)
        (λ w. IsAnyReport agent_kind t.version t.options p bytes.now × spec.Says (spec.asks_of asks) objects source t w)) }
{
    match open_source(alloc, &told.options, source, artifacts) {
        Ok(opened) => answer_along(alloc, asks, told, opened, bytes),
        Err(starved) => Err(starved),
    }
}

/// What is written where the bytes are the report of the options and the schedule in them, of a run of the source; None where
/// they are not.
#[tactic(auto, using(crate::proofs::Verdicts::told, crate::proofs::Verdicts::no_own))]
fn answer<A: Artifact>(
    alloc: Global,
    asks: ReportClaim,
    source: Source,
    artifacts: Vec<A>,
    bytes: &Text,
) -> Result<Option<Text>, Starved>
    requires { CanRun (objects_of A.named A.table A.facts artifacts.items) source }
    ensures { let objects = objects_of A.named A.table A.facts artifacts.items in
        IfOk result (spec.IsJudged (spec.asks_of asks) objects source bytes.now) }
{
    match told_in(alloc, bytes, &source) {
        Err(starved) => {
            drop(source);
            drop(artifacts);
            Err(starved)
        }
        Ok(None) => {
            drop(source);
            drop(artifacts);
            Ok(None)
        }
        Ok(Some(told)) => answer_of(alloc, asks, &told, source, artifacts, bytes),
    }
}

/// The answer for the file of this name, or why it is not read.
#[tactic(auto, using(crate::proofs::Verdicts::unread, crate::proofs::Verdicts::judged))]
fn judge_file<S: Shelf, A: Artifact>(
    alloc: Global,
    asks: ReportClaim,
    source: Source,
    artifacts: Vec<A>,
    name: &Text,
    shelf: &mut S,
) -> Result<Option<Text>, Status>
    requires { CanRun (objects_of A.named A.table A.facts artifacts.items) source }
    ensures same { S.holds shelf.new ≡ S.holds shelf.old }
    ensures later { S.faults shelf.old ≤ S.faults shelf.new }
    ensures answer { let held = S.holds shelf.old in
        let objects = objects_of A.named A.table A.facts artifacts.items in
        MatchResult result
        (λ r. HasFile most_report_bytes held name.now (λ bytes. spec.IsJudged (spec.asks_of asks) objects source bytes r))
        (IsRefusal spec.reports name.now held (S.faults shelf.old) (S.faults shelf.new)) }
{
    match bytes_of(alloc, name, MOST_REPORT_BYTES, shelf) {
        Err(status) => {
            drop(source);
            drop(artifacts);
            Err(status)
        }
        Ok(bytes) => Ok(answer(alloc, asks, source, artifacts, &bytes)?),
    }
}

/// The answer for the file of the report and the project, or why a file is refused.
#[tactic(auto, using(mas_top_opening::proofs::Able::can_run, crate::proofs::Verdicts::claimed))]
fn judge<S: Shelf, A: Artifact>(
    alloc: Global,
    asks: ReportClaim,
    project: &[u8],
    report: &[u8],
    shelf: &mut S,
    artifacts: Vec<A>,
) -> Result<Option<Text>, Status>
    ensures same { S.holds shelf.new ≡ S.holds shelf.old }
    ensures later { S.faults shelf.old ≤ S.faults shelf.new }
    ensures answer { let held = S.holds shelf.old in
        let objects = objects_of A.named A.table A.facts artifacts.items in
        let c = spec.claim (spec.asks_of asks) project.now report.now in
        MatchResult result
        (spec.IsDecided objects held c)
        (UnlessMemory (spec.ClaimRefused objects held c (S.faults shelf.old) (S.faults shelf.new))) }
{
    let word = text_of(alloc, project)?;
    let file = text_of(alloc, report)?;
    let usual = default_options();
    match read_source(alloc, usual.cycles, &word, &artifacts, shelf) {
        Ok(source) => judge_file(alloc, asks, source, artifacts, &file, shelf),
        Err(status) => {
            drop(artifacts);
            Err(status)
        }
    }
}

fn answer_text(answer: &Option<Text>) -> &[u8]
    ensures { result.now ≡ spec.answer_text answer.now }
{
    match answer {
        Some(text) => text.as_slice(),
        None => b"no\n",
    }
}

/// Writes `yes`, or the report anew, where the report is that of a run of the project, and else `no`.
#[tactic(auto, using(crate::proofs::Claims::refused_claim, crate::proofs::Claims::written_answer, crate::proofs::Claims::cut_answer))]
pub fn print_answer<S: Shelf, K: Sink, A: Artifact>(
    alloc: Global,
    asks: ReportClaim,
    project: &[u8],
    report: &[u8],
    shelf: &mut S,
    sink: &mut K,
    artifacts: Vec<A>,
) -> Status
    ensures kept { let told = told_of S.holds S.faults K.written K.faults in
        IsKept (told shelf.old sink.old) (told shelf.new sink.new) }
    ensures caused { let told = told_of S.holds S.faults K.written K.faults in
        let objects = objects_of A.named A.table A.facts artifacts.items in
        let c = spec.claim (spec.asks_of asks) project.now report.now in
        spec.ClaimCaused objects c (told shelf.old sink.old) (told shelf.new sink.new) result }
{
    match judge(alloc, asks, project, report, shelf, artifacts) {
        Err(status) => status,
        Ok(answer) => match write_all(sink, answer_text(&answer)) {
            Ok(()) => verdict(answer.is_some()),
            Err(_) => Status::WriteFault,
        },
    }
}
