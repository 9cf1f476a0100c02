//! The outputs of the commands that read one file or project, and what is written of an output.

ghost use Rattle.std.specs.Prelude.{◌≡◌, ◌≤◌, false, option_map, MatchResult};
ghost use Rattle.look_answer.specs.declared.answer.LookFault.TheVariants.{Ended};
ghost use Rattle.mas_top_status.specs.declared.status.Status.TheVariants.{Memory};
ghost use Rattle.mas_top_opening.specs.Opening.{objects_of};
ghost use Rattle.mas_top_files.specs.Known.{known};
ghost use Rattle.look_where.specs.Showing.{IsWhere};
ghost use Rattle.look_top.specs.Ends.{WroteOutput};
ghost use Rattle.look_top.specs.Outputs.{IsTold, LacksMessages, LacksPlaces};

use crate::ends::LookEnd;
use crate::reports::report_bytes;
use asl_term::copying::text_of;
use asl_term::sequence::Starved;
use look_answer::answer::{LookFault, Output};
use look_hints::printing::hints;
use look_messages::messages::messages;
use look_where::printing::refused_places;
use mas_io::shelf::Shelf;
use mas_io::sink::Sink;
use mas_io::writing::write_all;
use mas_top_files::known::known_names;
use mas_top_status::status::Status;
use mas_world::artifact::Artifact;
use std::alloc::Global;

/// A text as it is.
pub fn plain_output(alloc: Global, text: &[u8]) -> Result<Output, LookFault>
    ensures { MatchResult result (λ o. (o.found ≡ false) × (o.text ≡ text.now)) (λ why. why ≡ Ended Memory) }
{
    match text_of(alloc, text) {
        Ok(text) => Ok(Output { text, found: false }),
        Err(Starved) => Err(LookFault::Ended(Status::Memory)),
    }
}

/// What is refused in the files of a project, where there are these artifacts.
#[tactic(auto, using(crate::proofs::Outputs::placed, crate::proofs::Outputs::unplaced, crate::proofs::Outputs::no_places))]
pub fn where_output<S: Shelf, A: Artifact>(
    alloc: Global,
    project: &[u8],
    artifacts: &[A],
    shelf: &mut S,
) -> Result<Output, LookFault>
    ensures same { S.holds shelf.new ≡ S.holds shelf.old }
    ensures later { S.faults shelf.old ≤ S.faults shelf.new }
    ensures answer { let names = known (objects_of A.named A.table A.facts artifacts.now) in
        let held = S.holds shelf.old in
        MatchResult result
        (λ o. IsWhere names held project.now (S.faults shelf.old) (S.faults shelf.new) o.found o.text)
        (LacksPlaces held (S.faults shelf.old) (S.faults shelf.new) project.now) }
{
    let names = known_names(alloc, artifacts)?;
    let word = text_of(alloc, project)?;
    match refused_places(alloc, &names, &word, shelf) {
        Ok(output) => Ok(output),
        Err(status) => Err(LookFault::Ended(status)),
    }
}

/// What looks wrong in the files of a project, where there are these artifacts.
pub fn hints_output<S: Shelf, A: Artifact>(
    alloc: Global,
    project: &[u8],
    artifacts: &[A],
    shelf: &mut S,
) -> Result<Output, LookFault>
    ensures same { S.holds shelf.new ≡ S.holds shelf.old }
    ensures later { S.faults shelf.old ≤ S.faults shelf.new }
{
    let names = known_names(alloc, artifacts)?;
    let word = text_of(alloc, project)?;
    match hints(alloc, &names, &word, shelf) {
        Ok(output) => Ok(output),
        Err(status) => Err(LookFault::Ended(status)),
    }
}

/// The messages of a report.
#[tactic(auto, using(crate::proofs::Outputs::told, crate::proofs::Outputs::untold))]
pub fn messages_output<S: Shelf>(
    alloc: Global,
    report: &[u8],
    csv: bool,
    input: Option<&[u8]>,
    shelf: &mut S,
) -> Result<Output, LookFault>
    ensures same { S.holds shelf.new ≡ S.holds shelf.old }
    ensures later { S.faults shelf.old ≤ S.faults shelf.new }
    ensures answer { let given = option_map (λ b. b.now) input.entry in
        MatchResult result
        (λ o. (o.found ≡ false) × IsTold given (S.holds shelf.old) report.now)
        (LacksMessages given (S.holds shelf.old) (S.faults shelf.old) (S.faults shelf.new) report.now) }
{
    match report_bytes(alloc, report, input, shelf) {
        Err(status) => Err(LookFault::Ended(status)),
        Ok(bytes) => match messages(alloc, report, bytes.as_slice(), csv) {
            Ok(output) => Ok(output),
            Err(fault) => Err(fault),
        },
    }
}

/// Writes an output.
pub fn print_output<K: Sink>(output: Result<Output, LookFault>, sink: &mut K) -> LookEnd
    ensures later { K.faults sink.old ≤ K.faults sink.new }
    ensures caused { WroteOutput output (K.written sink.old) (K.written sink.new) (K.faults sink.old) (K.faults sink.new) result }
{
    match output {
        Err(fault) => LookEnd::Refused(fault),
        Ok(o) => match write_all(sink, o.text.as_slice()) {
            Ok(()) => LookEnd::Written { found: o.found },
            Err(_) => LookEnd::Cut,
        },
    }
}
