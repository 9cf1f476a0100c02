//! The top call.

ghost use Rattle.std.specs.Prelude.{◌≡◌, ◌≤◌, Some, map, string_bytes, option_map};
ghost use Rattle.mas_io.specs.Told.{told_of, IsKept};
ghost use Rattle.mas_top_opening.specs.Opening.{objects_of};
ghost use Rattle.look_top.specs.Asked.{asked_of};
ghost use Rattle.look_top.specs.Ends as spec;
ghost use Rattle.look_top.specs.Outputs.{Answers};

use crate::dropping::drops_output;
use crate::ends::{LookEnd, USAGE, VERSION};
use crate::looking::{hints_output, messages_output, plain_output, print_output, where_output};
use crate::minding::mind_output;
use crate::paging::page_output;
use crate::taken::asked_of;
use crate::words::LookAsked;
use asl_term::sequence::Starved;
use look_answer::answer::{LookFault, Output};
use mas_io::shelf::Shelf;
use mas_io::sink::Sink;
use mas_top_status::status::Status;
use mas_world::artifact::Artifact;
use std::alloc::Global;

/// What is asked for, where there are these artifacts, twice, and this standard input.
#[tactic(auto, using(crate::proofs::Outputs::answered))]
fn output_of<S: Shelf, A: Artifact>(
    alloc: Global,
    asked: LookAsked<'_>,
    input: Option<&[u8]>,
    shelf: &mut S,
    artifacts: Vec<A>,
    again: Vec<A>,
) -> Result<Output, LookFault>
    requires { objects_of A.named A.table A.facts again.items ≡ objects_of A.named A.table A.facts artifacts.items }
    ensures same { S.holds shelf.new ≡ S.holds shelf.old }
    ensures later { S.faults shelf.old ≤ S.faults shelf.new }
    ensures answer { let objects = objects_of A.named A.table A.facts artifacts.items in
        let given = option_map (λ b. b.now) input.entry in
        Answers objects given (S.holds shelf.old) (S.faults shelf.old) (S.faults shelf.new) (asked_of asked.entry) result }
{
    match asked {
        LookAsked::Help => {
            drop(artifacts);
            drop(again);
            plain_output(alloc, USAGE)
        }
        LookAsked::Version => {
            drop(artifacts);
            drop(again);
            plain_output(alloc, VERSION)
        }
        LookAsked::Where { project } => {
            let output = where_output(alloc, project, artifacts.as_slice(), shelf);
            drop(artifacts);
            drop(again);
            output
        }
        LookAsked::Hints { project } => {
            let output = hints_output(alloc, project, artifacts.as_slice(), shelf);
            drop(artifacts);
            drop(again);
            output
        }
        LookAsked::Messages { report, csv } => {
            drop(artifacts);
            drop(again);
            messages_output(alloc, report, csv, input, shelf)
        }
        LookAsked::Mind(words) => {
            drop(again);
            mind_output(alloc, &words, input, shelf, artifacts)
        }
        LookAsked::Page(words) => {
            drop(again);
            page_output(alloc, &words, input, shelf, artifacts)
        }
        LookAsked::Drops(words) => drops_output(alloc, &words, input, shelf, artifacts, again),
    }
}

/// Does what is asked for.
#[tactic(auto, using(crate::proofs::Caused::caused))]
fn do_asked<S: Shelf, K: Sink, A: Artifact>(
    alloc: Global,
    asked: LookAsked<'_>,
    input: Option<&[u8]>,
    shelf: &mut S,
    sink: &mut K,
    artifacts: Vec<A>,
    again: Vec<A>,
) -> LookEnd
    requires { objects_of A.named A.table A.facts again.items ≡ objects_of A.named A.table A.facts artifacts.items }
    ensures kept { let told = told_of S.holds S.faults K.written K.faults in
        IsKept (told shelf.old sink.old) (told shelf.new sink.new) }
    ensures caused { let told = told_of S.holds S.faults K.written K.faults in
        let objects = objects_of A.named A.table A.facts artifacts.items in
        let given = option_map (λ b. b.now) input.entry in
        spec.AskedCaused objects given (Some (asked_of asked.entry)) (told shelf.old sink.old) (told shelf.new sink.new) result }
{
    let output = output_of(alloc, asked, input, shelf, artifacts, again);
    print_output(output, sink)
}

/// Does what the words ask for. The words leave out the program's own name; the input is that of the word `-`. The artifacts are given twice, for `drops`,
/// which makes a run twice.
#[tactic(auto, using(crate::proofs::Caused::starved, crate::proofs::Caused::asked_so))]
pub fn look_words<S: Shelf, K: Sink, A: Artifact>(
    alloc: Global,
    words: &[String],
    input: Option<&[u8]>,
    shelf: &mut S,
    sink: &mut K,
    artifacts: Vec<A>,
    again: Vec<A>,
) -> LookEnd
    requires { objects_of A.named A.table A.facts again.items ≡ objects_of A.named A.table A.facts artifacts.items }
    ensures kept { let told = told_of S.holds S.faults K.written K.faults in
        IsKept (told shelf.old sink.old) (told shelf.new sink.new) }
    ensures caused { let told = told_of S.holds S.faults K.written K.faults in
        let objects = objects_of A.named A.table A.facts artifacts.items in
        let given = option_map (λ b. b.now) input.entry in
        spec.WordsCaused objects given (map string_bytes words.now) (told shelf.old sink.old) (told shelf.new sink.new) result }
{
    match asked_of(alloc, words) {
        Ok(Some(asked)) => do_asked(alloc, asked, input, shelf, sink, artifacts, again),
        Ok(None) => {
            drop(artifacts);
            drop(again);
            LookEnd::Usage
        }
        Err(Starved) => {
            drop(artifacts);
            drop(again);
            LookEnd::Refused(LookFault::Ended(Status::Memory))
        }
    }
}
