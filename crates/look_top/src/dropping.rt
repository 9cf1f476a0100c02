//! `drops`: from the files to what a run dropped.

ghost use Rattle.std.specs.Prelude.{◌≡◌, ◌≤◌, option_map, MatchResult};
ghost use Rattle.mas_top_opening.specs.Opening.{objects_of};
ghost use Rattle.look_mind.specs.Drops.{IsDroppedIn, AreRefusedIn};
ghost use Rattle.look_top.specs.Asked as asked;
ghost use Rattle.look_top.specs.Outputs as spec;

use crate::minding::foreign;
use crate::reports::report_bytes;
use crate::words::DropsWords;
use asl_term::copying::text_of;
use asl_term::syntax::Text;
use look_answer::answer::{LookFault, Output};
use look_mind::drops::drops;
use mas_io::shelf::Shelf;
use mas_top_status::status::Status;
use mas_world::artifact::Artifact;
use std::alloc::Global;

/// The entries where the report is that of the project, or why there are none.
fn entries_output(alloc: Global, report: &[u8], told: Option<Output>) -> Result<Output, LookFault>
    ensures { spec.TellsDrops told result }
{
    match told {
        None => Err(foreign(alloc, report)),
        Some(output) => Ok(output),
    }
}

/// What the run of the project dropped, where the bytes are the report of it; or why a file of the project is refused.
#[tactic(auto, using(crate::proofs::Outputs::dropped))]
fn drops_of<S: Shelf, A: Artifact>(
    alloc: Global,
    words: &DropsWords<'_>,
    bytes: &Text,
    shelf: &mut S,
    artifacts: Vec<A>,
    again: Vec<A>,
) -> Result<Option<Output>, Status>
    requires { objects_of A.named A.table A.facts again.items ≡ objects_of A.named A.table A.facts artifacts.items }
    ensures same { S.holds shelf.new ≡ S.holds shelf.old }
    ensures later { S.faults shelf.old ≤ S.faults shelf.new }
    ensures answer { let objects = objects_of A.named A.table A.facts artifacts.items in
        let held = S.holds shelf.old in
        let d = asked.dropping_of words.now in
        MatchResult result
        (IsDroppedIn objects held d.project bytes.now d.unhandled)
        (AreRefusedIn objects held d.project (S.faults shelf.old) (S.faults shelf.new)) }
{
    let Ok(project) = text_of(alloc, words.project) else {
        drop(artifacts);
        drop(again);
        return Err(Status::Memory);
    };
    drops(
        alloc,
        artifacts,
        again,
        &project,
        bytes,
        words.unhandled,
        shelf,
    )
}

/// What the run of a project dropped, or why that is not told. The artifacts are given twice, since the run is made twice.
#[tactic(auto, using(crate::proofs::Outputs::drops_no_report))]
pub fn drops_output<S: Shelf, A: Artifact>(
    alloc: Global,
    words: &DropsWords<'_>,
    input: Option<&[u8]>,
    shelf: &mut S,
    artifacts: Vec<A>,
    again: Vec<A>,
) -> Result<Output, LookFault>
    requires { objects_of A.named A.table A.facts again.items ≡ objects_of A.named A.table A.facts artifacts.items }
    ensures same { S.holds shelf.new ≡ S.holds shelf.old }
    ensures later { S.faults shelf.old ≤ S.faults shelf.new }
    ensures answer { let objects = objects_of A.named A.table A.facts artifacts.items in
        let given = option_map (λ b. b.now) input.entry in
        let a = asked.drops (asked.dropping_of words.now) in
        spec.Answers objects given (S.holds shelf.old) (S.faults shelf.old) (S.faults shelf.new) a result }
{
    match report_bytes(alloc, words.report, input, shelf) {
        Err(status) => {
            drop(artifacts);
            drop(again);
            Err(LookFault::Ended(status))
        }
        Ok(bytes) => match drops_of(alloc, words, &bytes, shelf, artifacts, again) {
            Err(status) => Err(LookFault::Ended(status)),
            Ok(told) => entries_output(alloc, words.report, told),
        },
    }
}
