//! `page`: from the files to the page of a run.

ghost use Rattle.std.specs.Prelude.{◌≡◌, ◌≤◌, option_map, MatchResult};
ghost use Rattle.mas_report.specs.Limits.{defaults};
ghost use Rattle.mas_top_files.specs.Known.{known};
ghost use Rattle.mas_top_files.specs.Sources.{AreRefused};
ghost use Rattle.mas_top_opening.specs.Opening.{objects_of};
ghost use Rattle.look_mind.specs.Own.{IsToldIn};
ghost use Rattle.look_top.specs.Asked as asked;
ghost use Rattle.look_top.specs.Outputs as spec;

use crate::minding::foreign;
use crate::reports::report_bytes;
use crate::words::PageWords;
use asl_term::copying::text_of;
use asl_term::syntax::Text;
use chart_page::faults::Fault;
use look_answer::answer::{LookFault, Output};
use look_mind::changes::MindChanges;
use look_mind::files::changes_in;
use look_mind::html::page_of;
use mas_io::shelf::Shelf;
use mas_top_status::status::Status;
use mas_world::artifact::Artifact;
use std::alloc::Global;

/// The page of a report with these changes, or why there is none.
fn page_text(
    alloc: Global,
    report: &[u8],
    bytes: &Text,
    told: &MindChanges,
) -> Result<Output, LookFault>
    ensures { spec.TellsPage bytes.now told.now result }
{
    match page_of(alloc, bytes.as_slice(), told) {
        Ok(text) => Ok(Output { text, found: false }),
        Err(Fault::Memory) => Err(LookFault::Ended(Status::Memory)),
        Err(_) => Err(foreign(alloc, report)),
    }
}

/// The page where the report is that of the project, or why there is none.
fn changes_output(
    alloc: Global,
    report: &[u8],
    bytes: &Text,
    told: Option<MindChanges>,
) -> Result<Output, LookFault>
    ensures { spec.TellsChanges bytes.now told result }
{
    match told {
        None => Err(foreign(alloc, report)),
        Some(told) => {
            let output = page_text(alloc, report, bytes, &told);
            drop(told);
            output
        }
    }
}

/// What changes along the run of the project, where the bytes are the report of it; or why a file of the project is refused.
#[tactic(auto, using(crate::proofs::Outputs::changed))]
fn changes_of<S: Shelf, A: Artifact>(
    alloc: Global,
    words: &PageWords<'_>,
    bytes: &Text,
    shelf: &mut S,
    artifacts: Vec<A>,
) -> Result<Option<MindChanges>, Status>
    ensures same { S.holds shelf.new ≡ S.holds shelf.old }
    ensures later { S.faults shelf.old ≤ S.faults shelf.new }
    ensures answer { let objects = objects_of A.named A.table A.facts artifacts.items in
        let held = S.holds shelf.old in
        let project = words.now.project.now in
        MatchResult result
        (IsToldIn objects held project bytes.now)
        (AreRefused (known objects) defaults.cycles held project (S.faults shelf.old) (S.faults shelf.new)) }
{
    let Ok(project) = text_of(alloc, words.project) else {
        drop(artifacts);
        return Err(Status::Memory);
    };
    changes_in(alloc, artifacts, &project, bytes, shelf)
}

/// The page of the run of a project, or why there is none.
#[tactic(auto, using(crate::proofs::Outputs::page_no_report))]
pub fn page_output<S: Shelf, A: Artifact>(
    alloc: Global,
    words: &PageWords<'_>,
    input: Option<&[u8]>,
    shelf: &mut S,
    artifacts: Vec<A>,
) -> Result<Output, LookFault>
    ensures same { S.holds shelf.new ≡ S.holds shelf.old }
    ensures later { S.faults shelf.old ≤ S.faults shelf.new }
    ensures answer { let objects = objects_of A.named A.table A.facts artifacts.items in
        let given = option_map (λ b. b.now) input.entry in
        let a = asked.page words.now.project.now words.now.report.now in
        spec.Answers objects given (S.holds shelf.old) (S.faults shelf.old) (S.faults shelf.new) a result }
{
    match report_bytes(alloc, words.report, input, shelf) {
        Err(status) => {
            drop(artifacts);
            Err(LookFault::Ended(status))
        }
        Ok(bytes) => match changes_of(alloc, words, &bytes, shelf, artifacts) {
            Err(status) => Err(LookFault::Ended(status)),
            Ok(told) => changes_output(alloc, words.report, &bytes, told),
        },
    }
}
