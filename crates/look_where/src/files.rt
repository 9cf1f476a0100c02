//! What is told of the files of a project.

ghost use Rattle.std.specs.Prelude.{◌≡◌, ◌≤◌, [], ◌∷◌, ◌++◌, true, false, IfOk, IfErr, OnOk, MatchResult, option_copied};
ghost use Rattle.std.specs.List.{list_any};
ghost use Rattle.mas_io.specs.declared.shelf.Fetched.TheVariants.{Bytes};
ghost use Rattle.mas_top_files.specs.Files.{Has, IsUnfetched, most_bytes};
ghost use Rattle.mas_top_files.specs.Projects as words;
ghost use Rattle.mas_top_status.specs.declared.status.Status.TheVariants as status;
ghost use Rattle.look_where.specs.Files as spec;
ghost use Rattle.look_where.specs.Others.{TellsProject};
ghost use Rattle.look_where.specs.declared.files.FileKind.TheVariants.{Project};

use crate::faults::{Fault, MISSING, TOO_LARGE, UNREAD, fault_at};
use crate::leads::Lead;
use crate::projects::{ProjectRead, project_read, project_told};
use crate::worlds::world_told;
use asl_term::compare::same_text;
use asl_term::copying::copy_text;
use asl_term::names::Names;
use asl_term::sequence::{Seq, Starved};
use asl_term::syntax::Text;
use look_pieces::agents::agent_told;
use look_pieces::findings::Findings;
use look_reasons::bytes::{Mended, mended_of};
use look_reasons::excerpt::shown;
use look_reasons::phrase::{Phrase, sentence};
use mas_io::shelf::Shelf;
use mas_project::syntax::ProjectText;
use mas_top_files::files::{MOST_BYTES, bytes_of};
use mas_top_files::folder::folder;
use mas_top_files::project::project_of;
use mas_top_status::status::Status;
use std::alloc::Global;

#[derive(Clone, Copy)]
pub enum FileKind {
    Project,
    World,
    Agent,
}

/// What is told of a file: its name, how that is shown, and the findings.
pub struct FileTold {
    pub kind: FileKind,
    pub name: Text,
    pub shown: Text,
    pub findings: Findings,
}

/// By hand, so that who lets one go proves nothing of its parts.
impl Drop for FileTold {
    fn drop(self) {
        let FileTold {
            kind: _,
            name: _,
            shown: _,
            findings: _,
        } = self;
    }
}

pub type FilesTold = Seq<FileTold>;

/// A file that a project names, of its world or of an agent.
pub struct Wanted {
    pub name: Text,
    pub world: bool,
}

/// By hand, so that who lets one go proves nothing of its parts.
impl Drop for Wanted {
    fn drop(self) {
        let Wanted { name: _, world: _ } = self;
    }
}

/// What is told of the bytes of an agent's source or of a world.
fn bytes_told(alloc: Global, known: &Names, world: bool, bytes: &[u8]) -> Result<Findings, Starved>
    ensures { IfOk result (spec.TellsBytes known.now (spec.kind_of world) bytes.now) }
{
    if world {
        world_told(alloc, known, bytes)
    } else {
        agent_told(alloc, bytes)
    }
}

fn kind_of(world: bool) -> FileKind
    ensures { result ≡ spec.kind_of world }
{
    if world {
        FileKind::World
    } else {
        FileKind::Agent
    }
}

fn named(
    alloc: Global,
    kind: FileKind,
    name: &Text,
    findings: Findings,
) -> Result<FileTold, Starved>
    ensures { IfOk result (λ t. (t.kind ≡ kind) × (t.name ≡ name.now) × (t.findings ≡ findings)) }
{
    Ok(FileTold {
        kind,
        name: copy_text(alloc, name)?,
        shown: shown(alloc, name.as_slice())?,
        findings,
    })
}

/// What is told of the file of this name, of a world or of an agent, or why it is not read.
#[tactic(auto, using(crate::proofs::Telling::named_told))]
fn file_told<S: Shelf>(
    alloc: Global,
    known: &Names,
    world: bool,
    name: &Text,
    shelf: &mut S,
) -> Result<FileTold, Status>
    ensures same { S.holds shelf.new ≡ S.holds shelf.old }
    ensures later { S.faults shelf.old ≤ S.faults shelf.new }
    ensures answer { let held = S.holds shelf.old in
        MatchResult result
        (spec.TellsNamed known.now held (spec.kind_of world) name.now)
        (IsUnfetched most_bytes name.now held (S.faults shelf.old) (S.faults shelf.new)) }
{
    match bytes_of(alloc, name, MOST_BYTES, shelf) {
        Err(status) => Err(status),
        Ok(bytes) => {
            let findings = bytes_told(alloc, known, world, bytes.as_slice())?;
            drop(bytes);
            match named(alloc, kind_of(world), name, findings) {
                Ok(told) => Ok(told),
                Err(_) => Err(Status::Memory),
            }
        }
    }
}

pub fn is_lack(status: &Status) -> bool
    ensures { result ≡ spec.is_lack status.now }
{
    matches!(status, Status::Memory)
}

/// Whether the file of this name is the one to which a project in a directory leads so.
fn is_led(name: &[u8], directory: &[u8], lead: &Lead<'_>) -> bool {
    let Some(file) = name.strip_prefix(directory) else {
        return false;
    };
    match file.strip_prefix(lead.stem) {
        Some(ending) => ending == lead.ending,
        None => false,
    }
}

/// The first of those that lead to a wanted file.
fn lead_to<'a>(leads: &[Lead<'a>], directory: &[u8], w: &Wanted) -> Option<Lead<'a>> {
    for lead in leads {
        if lead.world == w.world && is_led(w.name.as_slice(), directory, lead) {
            return Some(*lead);
        }
    }
    None
}

/// Puts why a wanted file is not there, at the first token that leads to it.
fn put_lacking<'a>(directory: &'a [u8], w: &Wanted, why: &Status, read: &mut ProjectRead<'a>) {
    let rule = match why {
        Status::Missing(_) => &MISSING,
        Status::Limit { .. } => &TOO_LARGE,
        _ => &UNREAD,
    };
    if let Some(lead) = lead_to(read.leads.as_slice(), directory, w) {
        read.put_fault(Fault {
            before: directory,
            token: lead.stem,
            ending: lead.ending,
            ..fault_at(rule, lead.named.at, lead.named.end)
        });
    }
}

fn want(alloc: Global, all: &mut Seq<Wanted>, world: bool, name: &Text) -> Result<(), Starved>
    ensures { OnOk result (all.new ≡ all.old ++ spec.wanted world name.now ∷ []) }
{
    match copy_text(alloc, name) {
        Ok(name) => all.push(Wanted { name, world }),
        Err(_) => Err(Starved),
    }
}

/// Whether the file of this name is wanted already, of an agent.
fn is_wanted(all: &[Wanted], name: &Text) -> bool
    ensures { result ≡ list_any (spec.is_of_agent name.now) all.now }
{
    let mut rest = all;
    'all: while let Some((w, after)) = rest.split_first() {
        if !w.world && same_text(name, &w.name) {
            return true;
        }
        rest = after;
    }
    false
}

fn put_agent(alloc: Global, all: &mut Seq<Wanted>, name: &Text) -> Result<(), Starved>
    ensures { OnOk result (all.new ≡ spec.with_agent all.old name.now) }
{
    if is_wanted(all.as_slice(), name) {
        return Ok(());
    }
    want(alloc, all, false, name)
}

/// The file of a world.
fn world_wanted(alloc: Global, world: Option<&Text>) -> Result<Seq<Wanted>, Starved>
    ensures { IfOk result (λ ws. ws ≡ spec.worlds_wanted (option_copied world.entry)) }
{
    let mut all = Seq::new(alloc);
    if let Some(name) = world {
        want(alloc, &mut all, true, name)?;
    }
    Ok(all)
}

/// The files of a project that is read.
fn wanted_of(alloc: Global, p: &ProjectText) -> Result<Seq<Wanted>, Starved>
    ensures { IfOk result (λ ws. ws ≡ spec.wanted_of p.now) }
{
    let mut all = world_wanted(alloc, p.world.as_ref())?;
    let mut rest = p.agents.as_slice();
    'lines: while let Some((line, after)) = rest.split_first() {
        put_agent(alloc, &mut all, &line.file)?;
        rest = after;
    }
    Ok(all)
}

/// The files of a project that is read, which is let go.
fn wanted_in(alloc: Global, p: ProjectText) -> Result<Seq<Wanted>, Starved>
    ensures { IfOk result (λ ws. ws ≡ spec.wanted_of p) }
{
    let wanted = wanted_of(alloc, &p);
    drop(p);
    wanted
}

/// Puts the file to which a project in a directory leads so.
fn put_wanted(
    alloc: Global,
    all: &mut Seq<Wanted>,
    directory: &[u8],
    lead: &Lead<'_>,
) -> Result<(), Starved> {
    let parts = [
        Phrase::Words(directory),
        Phrase::Words(lead.stem),
        Phrase::Words(lead.ending),
    ];
    let name = sentence(alloc, &parts)?;
    if lead.world {
        all.push(Wanted { name, world: true })
    } else {
        put_agent(alloc, all, &name)
    }
}

/// The files to which a project leads that is not read.
fn wanted_by(alloc: Global, directory: &[u8], leads: &[Lead<'_>]) -> Result<Seq<Wanted>, Starved> {
    let mut all = Seq::new(alloc);
    for lead in leads {
        put_wanted(alloc, &mut all, directory, lead)?;
    }
    Ok(all)
}

/// Puts what is told of a wanted file. Where it is not there a fault is put.
#[tactic(auto, using(crate::proofs::Telling::puts_told, crate::proofs::Telling::puts_none))]
fn put_told<'a, S: Shelf>(
    alloc: Global,
    known: &Names,
    w: &Wanted,
    directory: &'a [u8],
    read: &mut ProjectRead<'a>,
    files: &mut FilesTold,
    shelf: &mut S,
) -> Result<(), Status>
    ensures same { S.holds shelf.new ≡ S.holds shelf.old }
    ensures later { S.faults shelf.old ≤ S.faults shelf.new }
    ensures answer { OnOk result (spec.PutsOne known.now (S.holds shelf.old) (S.faults shelf.old) (S.faults shelf.new) w.now files.old files.new) }
    ensures starved { IfErr result (λ s. s ≡ status.Memory) }
{
    match file_told(alloc, known, w.world, &w.name, shelf) {
        Ok(told) => match files.push(told) {
            Ok(()) => Ok(()),
            Err(_) => Err(Status::Memory),
        },
        Err(why) => {
            let lack = is_lack(&why);
            put_lacking(directory, w, &why, read);
            drop(why);
            if lack { Err(Status::Memory) } else { Ok(()) }
        }
    }
}

/// What is told of the wanted files, those that are there. Of the others faults are put.
#[tactic(auto, using(crate::proofs::Telling::begins, crate::proofs::Telling::more, crate::proofs::Telling::ends))]
fn all_told<'a, S: Shelf>(
    alloc: Global,
    known: &Names,
    wanted: &Seq<Wanted>,
    directory: &'a [u8],
    read: &mut ProjectRead<'a>,
    shelf: &mut S,
) -> Result<FilesTold, Status>
    ensures same { S.holds shelf.new ≡ S.holds shelf.old }
    ensures later { S.faults shelf.old ≤ S.faults shelf.new }
    ensures answer { IfOk result (spec.AreTold known.now (S.holds shelf.old) (S.faults shelf.old) (S.faults shelf.new) wanted.now) }
    ensures starved { IfErr result (λ s. s ≡ status.Memory) }
{
    let mut files: FilesTold = Seq::new(alloc);
    let mut rest = wanted.as_slice();
    'wanted: while let Some((w, after)) = rest.split_first() {
        match put_told(alloc, known, w, directory, read, &mut files, shelf) {
            Ok(()) => rest = after,
            Err(_) => return Err(Status::Memory),
        }
    }
    Ok(files)
}

/// The files of the project of this name: all of them where it is read, else those to which it leads.
#[tactic(auto, using(crate::proofs::Telling::refused_wanted))]
fn wanted_files<S: Shelf>(
    alloc: Global,
    word: &Text,
    leads: &[Lead<'_>],
    shelf: &mut S,
) -> Result<Seq<Wanted>, Status>
    ensures same { S.holds shelf.new ≡ S.holds shelf.old }
    ensures later { S.faults shelf.old ≤ S.faults shelf.new }
    ensures answer { IfOk result (spec.AreWanted (S.holds shelf.old) word.now (S.faults shelf.old) (S.faults shelf.new)) }
    ensures starved { IfErr result (λ s. s ≡ status.Memory) }
{
    match project_of(alloc, word, shelf) {
        Ok(p) => match wanted_in(alloc, p) {
            Ok(wanted) => Ok(wanted),
            Err(_) => Err(Status::Memory),
        },
        Err(why) => {
            let lack = is_lack(&why);
            drop(why);
            if lack {
                return Err(Status::Memory);
            }
            match wanted_by(alloc, folder(word.as_slice()), leads) {
                Ok(wanted) => Ok(wanted),
                Err(_) => Err(Status::Memory),
            }
        }
    }
}

/// What is told of the files of the project of this name.
#[tactic(auto, using(crate::proofs::Telling::are_others))]
fn others_told<'a, S: Shelf>(
    alloc: Global,
    known: &Names,
    word: &'a Text,
    read: &mut ProjectRead<'a>,
    shelf: &mut S,
) -> Result<FilesTold, Status>
    ensures same { S.holds shelf.new ≡ S.holds shelf.old }
    ensures later { S.faults shelf.old ≤ S.faults shelf.new }
    ensures answer { IfOk result (spec.AreOthers known.now (S.holds shelf.old) word.now (S.faults shelf.old) (S.faults shelf.new)) }
    ensures starved { IfErr result (λ s. s ≡ status.Memory) }
{
    let directory = folder(word.as_slice());
    match wanted_files(alloc, word, read.leads.as_slice(), shelf) {
        Ok(wanted) => match all_told(alloc, known, &wanted, directory, read, shelf) {
            Ok(files) => Ok(files),
            Err(_) => Err(Status::Memory),
        },
        Err(_) => Err(Status::Memory),
    }
}

/// A file before others.
fn with_first(alloc: Global, first: FileTold, others: FilesTold) -> Result<FilesTold, Starved>
    ensures { IfOk result (λ all. all ≡ first ∷ others) }
{
    let mut all = Seq::new(alloc);
    all.push(first)?;
    all.append_all(others)?;
    Ok(all)
}

/// What is told of the file of a project with these bytes, which was read so.
fn first_told(
    alloc: Global,
    word: &Text,
    bytes: &[u8],
    m: &Mended,
    read: ProjectRead<'_>,
) -> Result<FileTold, Starved>
    ensures { IfOk result (λ t. (t.kind ≡ Project) × (t.name ≡ word.now) × TellsProject bytes.now t.findings) }
{
    let findings = project_told(alloc, bytes, m, read)?;
    named(alloc, FileKind::Project, word, findings)
}

/// What is told of the project whose file has these bytes, and of its files.
#[tactic(auto, using(crate::proofs::Telling::project_files))]
fn project_files<S: Shelf>(
    alloc: Global,
    known: &Names,
    word: &Text,
    bytes: &[u8],
    shelf: &mut S,
) -> Result<FilesTold, Status>
    requires held { Has most_bytes (S.holds shelf.old) word.now (Bytes bytes.now) }
    requires word { words.is_agent_file word.now ≡ false }
    ensures same { S.holds shelf.new ≡ S.holds shelf.old }
    ensures later { S.faults shelf.old ≤ S.faults shelf.new }
    ensures answer { IfOk result (spec.TellFiles known.now (S.holds shelf.old) word.now (S.faults shelf.old) (S.faults shelf.new)) }
    ensures starved { IfErr result (λ s. s ≡ status.Memory) }
{
    let mended = mended_of(alloc, bytes)?;
    let mut read = project_read(alloc, &mended);
    let files = match others_told(alloc, known, word, &mut read, shelf) {
        Ok(files) => files,
        Err(_) => return Err(Status::Memory),
    };
    let first = first_told(alloc, word, bytes, &mended, read)?;
    match with_first(alloc, first, files) {
        Ok(all) => Ok(all),
        Err(_) => Err(Status::Memory),
    }
}

/// What is told of the source of an agent, of this name.
#[tactic(auto, using(crate::proofs::Telling::one_file))]
fn source_told<S: Shelf>(
    alloc: Global,
    known: &Names,
    word: &Text,
    shelf: &mut S,
) -> Result<FilesTold, Status>
    requires { words.is_agent_file word.now ≡ true }
    ensures same { S.holds shelf.new ≡ S.holds shelf.old }
    ensures later { S.faults shelf.old ≤ S.faults shelf.new }
    ensures answer { let held = S.holds shelf.old in
        MatchResult result
        (spec.TellFiles known.now held word.now (S.faults shelf.old) (S.faults shelf.new))
        (IsUnfetched most_bytes word.now held (S.faults shelf.old) (S.faults shelf.new)) }
{
    match file_told(alloc, known, false, word, shelf) {
        Err(status) => Err(status),
        Ok(told) => match with_first(alloc, told, Seq::new(alloc)) {
            Ok(all) => Ok(all),
            Err(_) => Err(Status::Memory),
        },
    }
}

/// Whether a word names the source of an agent.
fn is_agent_file(word: &Text) -> bool
    ensures { result ≡ words.is_agent_file word.now }
{
    word.as_slice().ends_with(b".asl")
}

/// What is told of the files of a project, or of the source that is one, where there are artifacts of these names.
#[tactic(auto, using(crate::proofs::Telling::files_from))]
pub fn files_told<S: Shelf>(
    alloc: Global,
    known: &Names,
    word: &Text,
    shelf: &mut S,
) -> Result<FilesTold, Status>
    ensures same { S.holds shelf.new ≡ S.holds shelf.old }
    ensures later { S.faults shelf.old ≤ S.faults shelf.new }
    ensures answer { let held = S.holds shelf.old in
        MatchResult result
        (spec.TellFiles known.now held word.now (S.faults shelf.old) (S.faults shelf.new))
        (IsUnfetched most_bytes word.now held (S.faults shelf.old) (S.faults shelf.new)) }
{
    if is_agent_file(word) {
        return source_told(alloc, known, word, shelf);
    }
    match bytes_of(alloc, word, MOST_BYTES, shelf) {
        Err(status) => Err(status),
        Ok(bytes) => match project_files(alloc, known, word, bytes.as_slice(), shelf) {
            Ok(files) => Ok(files),
            Err(_) => Err(Status::Memory),
        },
    }
}
