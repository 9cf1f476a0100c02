//! `lint`: what is written of a project, and its status.

ghost use Rattle.std.specs.Prelude.{◌≡◌, ◌≤◌, IfOk, MatchResult, length};
ghost use Rattle.asl_lint.specs.Lints.{verdict};
ghost use Rattle.mas_io.specs.Told.{told_of, IsKept};
ghost use Rattle.mas_top_lint.specs.Linting as spec;
ghost use Rattle.mas_top_files.specs.Sources.{AreRefused, texts_of};

use crate::texts::{all_sources, verdict_line};
use asl_lint::lint::{Verdict, lint};
use asl_term::copying::text_of;
use asl_term::names::Names;
use asl_term::sequence::Starved;
use asl_term::syntax::Text;
use mas_io::shelf::Shelf;
use mas_io::sink::Sink;
use mas_io::writing::write_all;
use mas_top_files::sources::{Source, sources};
use mas_top_status::status::{Status, verdict as status_of};
use std::alloc::Global;

/// The usual number of cycles, by which the number of all cycles is limited.
const USUAL_CYCLES: u64 = 1000;

/// What is written of a project, and whether all of its goals are covered.
#[derive(Drop)]
struct Linted {
    yes: bool,
    text: Text,
}

/// The verdict on a source.
fn verdict_of(alloc: Global, source: &Source) -> Result<Verdict, Starved>
    requires { length source.now.names ≡ length (texts_of source.now.roles) }
    ensures { IfOk result (λ v. v ≡ verdict source.now.names (texts_of source.now.roles)) }
{
    let texts = all_sources(alloc, source.roles.as_slice())?;
    let found = lint(&source.names, &texts);
    drop(texts);
    found
}

fn is_yes(v: Verdict) -> bool
    ensures { result ≡ spec.is_yes v }
{
    matches!(v, Verdict::Yes)
}

/// What is written of a source.
fn answer_for(alloc: Global, source: &Source) -> Result<Linted, Starved>
    requires { length source.now.names ≡ length (texts_of source.now.roles) }
    ensures { let v = verdict source.now.names (texts_of source.now.roles) in
        IfOk result (λ l. (l.yes ≡ spec.is_yes v) × (l.text ≡ spec.verdict_text source.now.names v)) }
{
    let v = verdict_of(alloc, source)?;
    let text = verdict_line(alloc, &source.names, v)?;
    Ok(Linted {
        yes: is_yes(v),
        text,
    })
}

/// What is written of the project of this word, or why a file is refused.
#[tactic(auto, using(crate::proofs::Linted::named, crate::proofs::Linted::linted))]
fn lint_files<S: Shelf>(
    alloc: Global,
    known: &Names,
    word: &Text,
    shelf: &mut S,
) -> Result<Linted, Status>
    ensures same { S.holds shelf.new ≡ S.holds shelf.old }
    ensures later { S.faults shelf.old ≤ S.faults shelf.new }
    ensures answer { let held = S.holds shelf.old in
        MatchResult result
        (λ l. spec.IsLinted known.now word.now held l.yes l.text)
        (AreRefused known.now spec.usual_cycles held word.now (S.faults shelf.old) (S.faults shelf.new)) }
{
    match sources(alloc, known, USUAL_CYCLES, word, shelf) {
        Err(status) => Err(status),
        Ok(source) => {
            let l = answer_for(alloc, &source);
            drop(source);
            match l {
                Ok(l) => Ok(l),
                Err(_) => Err(Status::Memory),
            }
        }
    }
}

/// Writes `yes` where each goal of the project of this word is covered, and else the first that is not, where there are artifacts of
/// the known names.
#[tactic(auto, using(crate::proofs::Linted::refused_lint, crate::proofs::Linted::written_lint, crate::proofs::Linted::cut_lint))]
pub fn print_verdict<S: Shelf, K: Sink>(
    alloc: Global,
    known: &Names,
    project: &[u8],
    shelf: &mut S,
    sink: &mut K,
) -> Status
    ensures kept { let told = told_of S.holds S.faults K.written K.faults in
        IsKept (told shelf.old sink.old) (told shelf.new sink.new) }
    ensures caused { let told = told_of S.holds S.faults K.written K.faults in
        spec.LintCaused known.now project.now (told shelf.old sink.old) (told shelf.new sink.new) result }
{
    let word = match text_of(alloc, project) {
        Ok(word) => word,
        Err(_) => return Status::Memory,
    };
    match lint_files(alloc, known, &word, shelf) {
        Err(status) => status,
        Ok(l) => match write_all(sink, l.text.as_slice()) {
            Ok(()) => status_of(l.yes),
            Err(_) => Status::WriteFault,
        },
    }
}
