//! `mind`: from the files to the text of an agent.

ghost use Rattle.std.specs.Prelude.{◌≡◌, ◌≤◌, option_map, MatchResult};
ghost use Rattle.mas_report.specs.Limits.{defaults};
ghost use Rattle.mas_top_files.specs.Known.{known};
ghost use Rattle.mas_top_files.specs.Sources.{AreRefused};
ghost use Rattle.mas_top_opening.specs.Opening.{objects_of};
ghost use Rattle.look_answer.specs.Answers.{IsUnfit};
ghost use Rattle.look_mind.specs.Looks.{IsLookIn};
ghost use Rattle.look_top.specs.Asked as asked;
ghost use Rattle.look_top.specs.Outputs as spec;

use crate::reports::report_bytes;
use crate::words::MindWords;
use asl_term::copying::text_of;
use asl_term::sequence::Starved;
use asl_term::syntax::Text;
use look_answer::answer::{LookFault, Output};
use look_mind::files::look_in;
use look_mind::look::Look;
use look_reasons::phrase::{Phrase, sentence};
use mas_io::shelf::Shelf;
use mas_top_status::status::Status;
use mas_world::artifact::Artifact;
use std::alloc::Global;

/// The fault with a line of these phrases.
fn unfit(alloc: Global, phrases: &[Phrase<'_>]) -> LookFault
    ensures { IsUnfit result }
{
    match sentence(alloc, phrases) {
        Ok(line) => LookFault::Unfit(line),
        Err(Starved) => LookFault::Ended(Status::Memory),
    }
}

/// A file is not the report of the project.
pub fn foreign(alloc: Global, report: &[u8]) -> LookFault
    ensures { IsUnfit result }
{
    let why = Phrase::Words(b": not the report of this project\n");
    unfit(alloc, &[Phrase::Shown(report), why])
}

/// No agent has this name.
fn nobody(alloc: Global, agent: &[u8]) -> LookFault
    ensures { IsUnfit result }
{
    let phrases = [
        Phrase::Words(b"no agent "),
        Phrase::Shown(agent),
        Phrase::Words(b"\n"),
    ];
    unfit(alloc, &phrases)
}

/// A report has no more than these turns.
fn turnless(alloc: Global, report: &[u8], turns: u64) -> LookFault
    ensures { IsUnfit result }
{
    let phrases = [
        Phrase::Shown(report),
        Phrase::Words(b" has "),
        Phrase::Number(turns),
        Phrase::Words(b" turns\n"),
    ];
    unfit(alloc, &phrases)
}

/// The text of a look, or why there is none.
fn look_output(alloc: Global, words: &MindWords<'_>, look: Look) -> Result<Output, LookFault>
    ensures { spec.TellsLook look result }
{
    match look {
        Look::Shown(text) => Ok(Output { text, found: false }),
        Look::Foreign => Err(foreign(alloc, words.report)),
        Look::NoAgent => Err(nobody(alloc, words.agent)),
        Look::NoTurn(turns) => Err(turnless(alloc, words.report, turns)),
    }
}

/// What is seen of an agent of the project, where the bytes are the report of its run; or why a file of the project is refused.
#[tactic(auto, using(crate::proofs::Outputs::looked))]
fn look_of<S: Shelf, A: Artifact>(
    alloc: Global,
    words: &MindWords<'_>,
    bytes: &Text,
    shelf: &mut S,
    artifacts: Vec<A>,
) -> Result<Look, Status>
    ensures same { S.holds shelf.new ≡ S.holds shelf.old }
    ensures later { S.faults shelf.old ≤ S.faults shelf.new }
    ensures answer { let objects = objects_of A.named A.table A.facts artifacts.items in
        let held = S.holds shelf.old in
        let m = asked.minding_of words.now in
        MatchResult result
        (IsLookIn objects held m.project bytes.now m.agent m.turn)
        (AreRefused (known objects) defaults.cycles held m.project (S.faults shelf.old) (S.faults shelf.new)) }
{
    let Ok(project) = text_of(alloc, words.project) else {
        drop(artifacts);
        return Err(Status::Memory);
    };
    let Ok(agent) = text_of(alloc, words.agent) else {
        drop(artifacts);
        return Err(Status::Memory);
    };
    look_in(alloc, artifacts, &project, bytes, &agent, words.turn, shelf)
}

/// The text of an agent after the first turns of a run, or why there is none.
#[tactic(auto, using(crate::proofs::Outputs::mind_no_report))]
pub fn mind_output<S: Shelf, A: Artifact>(
    alloc: Global,
    words: &MindWords<'_>,
    input: Option<&[u8]>,
    shelf: &mut S,
    artifacts: Vec<A>,
) -> Result<Output, LookFault>
    ensures same { S.holds shelf.new ≡ S.holds shelf.old }
    ensures later { S.faults shelf.old ≤ S.faults shelf.new }
    ensures answer { let objects = objects_of A.named A.table A.facts artifacts.items in
        let given = option_map (λ b. b.now) input.entry in
        let a = asked.mind (asked.minding_of words.now) in
        spec.Answers objects given (S.holds shelf.old) (S.faults shelf.old) (S.faults shelf.new) a result }
{
    match report_bytes(alloc, words.report, input, shelf) {
        Err(status) => {
            drop(artifacts);
            Err(LookFault::Ended(status))
        }
        Ok(bytes) => match look_of(alloc, words, &bytes, shelf, artifacts) {
            Err(status) => Err(LookFault::Ended(status)),
            Ok(look) => look_output(alloc, words, look),
        },
    }
}
