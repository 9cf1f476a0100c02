//! The text of `where`.

ghost use Rattle.std.specs.Prelude.{◌≡◌, ◌≤◌, ◌++◌, OnOk, MatchResult, IfOk};
ghost use Rattle.std.specs.List.{flat_map, list_any};
ghost use Rattle.look_where.specs.Showing as spec;

use crate::files::{FileTold, FilesTold, files_told, is_lack};
use asl_term::names::Names;
use asl_term::sequence::{Seq, Starved};
use asl_term::syntax::Text;
use look_answer::answer::Output;
use look_pieces::printing::put_findings;
use look_reasons::phrase::{Phrase, put_phrases, sentence};
use mas_io::shelf::Shelf;
use mas_top_files::sources::sources;
use mas_top_status::status::{Status, fault_line};
use std::alloc::Global;

fn put_files(alloc: Global, files: &[FileTold], out: &mut Text) -> Result<(), Starved>
    ensures { OnOk result (out.new ≡ out.old ++ flat_map spec.file_text files.now) }
{
    let mut rest = files;
    'files: while let Some((t, after)) = rest.split_first() {
        put_findings(alloc, &t.shown, b"error", t.findings.as_slice(), out)?;
        rest = after;
    }
    Ok(())
}

/// Whether some file has a finding.
fn is_found(files: &FilesTold) -> bool
    ensures { result ≡ list_any spec.is_told files.now }
{
    let mut rest = files.as_slice();
    'files: while let Some((t, after)) = rest.split_first() {
        if t.findings.len() > 0 {
            return true;
        }
        rest = after;
    }
    false
}

/// `1 file`, `2 files`
pub fn put_counted(alloc: Global, n: u64, what: &[u8], out: &mut Text) -> Result<(), Starved> {
    let parts = [
        Phrase::Number(n),
        Phrase::Words(what),
        Phrase::Words(plural(n)),
    ];
    put_phrases(alloc, &parts, out)
}

/// How many findings there are, and how many files have some.
#[derive(Clone, Copy)]
struct Counts {
    refused: u64,
    places: u64,
}

fn counts_of(files: &[FileTold]) -> Counts {
    let mut refused: u64 = 0;
    let mut places: u64 = 0;
    for t in files {
        let count = t.findings.len();
        refused = refused.saturating_add(count.min(1));
        places = places.saturating_add(count);
    }
    Counts { refused, places }
}

/// What ends a word of which there are so many.
fn plural(count: u64) -> &'static [u8] {
    if count == 1 { b"" } else { b"s" }
}

/// What stands behind the findings: a line, how many files there are, how many of them are refused, and at how many places.
fn behind_files(alloc: Global, files: &[FileTold], line: &Text) -> Result<Text, Starved> {
    let all = files.len() as u64;
    let counts = counts_of(files);
    let parts = [
        Phrase::Words(line.as_slice()),
        Phrase::Number(all),
        Phrase::Words(b" file"),
        Phrase::Words(plural(all)),
        Phrase::Words(b", "),
        Phrase::Number(counts.refused),
        Phrase::Words(b" refused, "),
        Phrase::Number(counts.places),
        Phrase::Words(b" place"),
        Phrase::Words(plural(counts.places)),
        Phrase::Words(b"\n"),
    ];
    sentence(alloc, &parts)
}

/// Whether `jasonrun` refuses the project, and the line with which it does.
pub struct Refusal {
    pub refused: bool,
    pub line: Text,
}

/// The line of a status, as it is shown.
fn status_line(alloc: Global, status: &Status) -> Result<Text, Starved> {
    let line = fault_line(alloc, status)?;
    let text = match line.as_slice() {
        [text @ .., b'\n'] => text,
        text => text,
    };
    let parts = [
        Phrase::Words(b"jasonrun: "),
        Phrase::Shown(text),
        Phrase::Words(b"\n"),
    ];
    sentence(alloc, &parts)
}

/// Whether `jasonrun` refuses the project. Each agent may make one cycle, so that the limit of cycles is none of the causes.
#[tactic(auto, using(crate::proofs::Shown::read_so, crate::proofs::Shown::refused_so))]
fn refusal_of<S: Shelf>(
    alloc: Global,
    known: &Names,
    word: &Text,
    shelf: &mut S,
) -> Result<Refusal, Starved>
    ensures same { S.holds shelf.new ≡ S.holds shelf.old }
    ensures later { S.faults shelf.old ≤ S.faults shelf.new }
    ensures answer { let tells = spec.TellsRefused known.now (S.holds shelf.old) word.now (S.faults shelf.old) (S.faults shelf.new) in
        IfOk result (λ r. tells r.refused) }
{
    match sources(alloc, known, 1, word, shelf) {
        Ok(source) => {
            drop(source);
            Ok(Refusal {
                refused: false,
                line: Seq::new(alloc),
            })
        }
        Err(status) => {
            let lack = is_lack(&status);
            let line = status_line(alloc, &status);
            drop(status);
            match line {
                Ok(line) if !lack => Ok(Refusal {
                    refused: true,
                    line,
                }),
                _ => Err(Starved),
            }
        }
    }
}

/// The text of what is told of files, and what stands behind it.
#[tactic(auto, using(crate::proofs::Shown::is_text))]
fn text_of_files(alloc: Global, files: &FilesTold, line: &Text) -> Result<Text, Starved>
    ensures { IfOk result (spec.IsText files.now) }
{
    let mut out = Seq::new(alloc);
    put_files(alloc, files.as_slice(), &mut out)?;
    let behind = behind_files(alloc, files.as_slice(), line)?;
    out.append(behind.as_slice())?;
    Ok(out)
}

/// What is refused in the files of a project, each place with a reason, where there are artifacts of these names.
#[tactic(auto, using(crate::proofs::Shown::is_where))]
pub fn refused_places<S: Shelf>(
    alloc: Global,
    known: &Names,
    word: &Text,
    shelf: &mut S,
) -> Result<Output, Status>
    ensures same { S.holds shelf.new ≡ S.holds shelf.old }
    ensures later { S.faults shelf.old ≤ S.faults shelf.new }
    ensures answer { let held = S.holds shelf.old in
        MatchResult result
        (λ o. spec.IsWhere known.now held word.now (S.faults shelf.old) (S.faults shelf.new) o.found o.text)
        (spec.IsUnread word.now held (S.faults shelf.old) (S.faults shelf.new)) }
{
    let files = match files_told(alloc, known, word, shelf) {
        Ok(files) => files,
        Err(status) => return Err(status),
    };
    let Refusal { refused, line } = match refusal_of(alloc, known, word, shelf) {
        Ok(refusal) => refusal,
        Err(_) => return Err(Status::Memory),
    };
    let text = match text_of_files(alloc, &files, &line) {
        Ok(text) => text,
        Err(_) => return Err(Status::Memory),
    };
    let found = is_found(&files) || refused;
    drop(files);
    Ok(Output { text, found })
}
