//! The text of `hints`.

ghost use Rattle.std.specs.Prelude.{◌≡◌, ◌≤◌, ◌++◌, OnOk, IfOk};
ghost use Rattle.std.specs.List.{flat_map, list_any};
ghost use Rattle.look_hints.specs.Showing as spec;

use crate::finding::{HintsTold, member_told, world_told};
use crate::project::ReadProject;
use crate::sources::read_project;
use crate::world::ReadWorld;
use asl_term::names::Names;
use asl_term::sequence::{Seq, Starved};
use asl_term::syntax::Text;
use look_answer::answer::Output;
use look_pieces::printing::put_findings;
use look_reasons::phrase::{Phrase, sentence};
use look_where::files::{FileTold, files_told};
use mas_io::shelf::Shelf;
use mas_top_status::status::Status;
use std::alloc::Global;

fn put_files(alloc: Global, files: &[HintsTold], out: &mut Text) -> Result<(), Starved>
    ensures { OnOk result (out.new ≡ out.old ++ flat_map spec.file_text files.now) }
{
    let mut rest = files;
    'files: while let Some((t, after)) = rest.split_first() {
        put_findings(alloc, &t.shown, b"hint", t.findings.as_slice(), out)?;
        rest = after;
    }
    Ok(())
}

/// Whether some file has a hint.
fn is_found(files: &[HintsTold]) -> bool
    ensures { result ≡ list_any spec.is_told files.now }
{
    let mut rest = files;
    'files: while let Some((t, after)) = rest.split_first() {
        if t.findings.len() > 0 {
            return true;
        }
        rest = after;
    }
    false
}

/// How many places are refused.
fn refused_in(files: &[FileTold]) -> u64 {
    let mut all: u64 = 0;
    for t in files {
        all = all.saturating_add(t.findings.len());
    }
    all
}

/// How many places are refused, where some are, and how many hints there are.
fn last_lines(alloc: Global, refused: u64, files: &[HintsTold]) -> Result<Text, Starved> {
    let mut hints: u64 = 0;
    for t in files {
        hints = hints.saturating_add(t.findings.len());
    }
    let place: &[u8] = if refused == 1 { b" place" } else { b" places" };
    let hint: &[u8] = if hints == 1 { b" hint\n" } else { b" hints\n" };
    if refused == 0 {
        return sentence(alloc, &[Phrase::Number(hints), Phrase::Words(hint)]);
    }
    let parts = [
        Phrase::Words(b"note: "),
        Phrase::Number(refused),
        Phrase::Words(place),
        Phrase::Words(b" refused and left out here: see `where`\n"),
        Phrase::Number(hints),
        Phrase::Words(hint),
    ];
    sentence(alloc, &parts)
}

/// What is written of these hints, where so many places are refused.
#[tactic(auto, using(crate::proofs::Shown::is_text))]
fn output_of(alloc: Global, refused: u64, files: &[HintsTold]) -> Result<Output, Starved>
    ensures { IfOk result (λ o. spec.IsHints files.now o.found o.text) }
{
    let mut text = Seq::new(alloc);
    put_files(alloc, files, &mut text)?;
    let last = last_lines(alloc, refused, files)?;
    text.append(last.as_slice())?;
    drop(last);
    Ok(Output {
        text,
        found: is_found(files),
    })
}

#[tactic(auto, using(crate::proofs::Shown::one_more))]
fn put_world(
    alloc: Global,
    world: Option<&ReadWorld>,
    all: &mut Seq<HintsTold>,
) -> Result<(), Starved>
    ensures { OnOk result (spec.count_hints all.old ≤ spec.count_hints all.new) }
{
    match world {
        Some(w) => all.push(world_told(alloc, w)?),
        None => Ok(()),
    }
}

/// The hints of each source of a project.
#[tactic(auto, using(crate::proofs::Shown::counted, crate::proofs::Shown::all_counted))]
fn members_told(alloc: Global, p: &ReadProject) -> Result<Seq<HintsTold>, Starved>
    ensures { IfOk result (λ ts. spec.count_planless p.now.tells_plans p.now.members ≤ spec.count_hints ts) }
{
    let mut all = Seq::new(alloc);
    let mut place: usize = 0;
    let mut rest = p.members.as_slice();
    'members: while let Some((member, after)) = rest.split_first() {
        all.push(member_told(alloc, p, place, member)?)?;
        place = place.saturating_add(1);
        rest = after;
    }
    Ok(all)
}

/// What is written of the hints of a project, where so many places are refused.
#[tactic(auto, using(crate::proofs::Shown::is_written))]
pub fn project_hints(alloc: Global, refused: u64, p: &ReadProject) -> Result<Output, Starved>
    ensures { IfOk result (λ o. spec.AreWritten p.now.tells_plans p.now.members o.found o.text) }
{
    let mut told = members_told(alloc, p)?;
    put_world(alloc, p.world.as_ref(), &mut told)?;
    let output = output_of(alloc, refused, told.as_slice());
    drop(told);
    output
}

/// What looks wrong in the files of a project that are read, where there are artifacts of these names.
pub fn hints<S: Shelf>(
    alloc: Global,
    known: &Names,
    word: &Text,
    shelf: &mut S,
) -> Result<Output, Status>
    ensures same { S.holds shelf.new ≡ S.holds shelf.old }
    ensures later { S.faults shelf.old ≤ S.faults shelf.new }
{
    let files = files_told(alloc, known, word, shelf)?;
    let refused = refused_in(files.as_slice());
    let p = read_project(alloc, known, word, files.as_slice(), shelf)?;
    drop(files);
    let output = project_hints(alloc, refused, &p);
    drop(p);
    Ok(output?)
}
