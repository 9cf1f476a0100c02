//! The files of a project, read as far as they can be. The shelf holds then what it held.

ghost use Rattle.std.specs.Prelude.{◌≡◌, ◌≤◌};

use crate::project::{ReadProject, project_of};
use crate::reading::{ReadSource, source_of};
use crate::world::{ReadWorld, world_of};
use asl_lexer::pieces::cut;
use asl_lexer::token::Tok;
use asl_term::compare::same_text;
use asl_term::copying::text_of;
use asl_term::names::Names;
use asl_term::sequence::{Seq, Starved};
use asl_term::syntax::Text;
use look_reasons::bytes::{Mended, mended_of};
use look_reasons::mark::{Mark, marks_of};
use look_reasons::phrase::{Phrase, sentence};
use look_where::files::{FileKind, FileTold};
use look_where::leads::{Entry, lead_in, stop_of};
use mas_io::shelf::Shelf;
use mas_project::names::MOST_AGENTS;
use mas_project::piece::NextPiece;
use mas_project::project::ProjectPieces;
use mas_project::syntax::ProjectText;
use mas_top_files::files::{MOST_BYTES, bytes_of};
use mas_top_files::folder::folder;
use mas_top_files::project as whole;
use mas_top_status::status::Status;
use std::alloc::Global;

/// What is read so far: the entries of the project, its sources and its world, and whether memory was refused.
struct Draft {
    alloc: Global,
    entries: Seq<Entry>,
    sources: Seq<ReadSource>,
    world: Option<ReadWorld>,
    spent: bool,
}

/// By hand, so that who lets one go proves nothing of its parts.
impl Drop for Draft {
    fn drop(self) {
        let Draft {
            alloc: _,
            entries: _,
            sources: _,
            world: _,
            spent: _,
        } = self;
    }
}

/// The agents of a source: of each of its entries one of this name, or as many as counted, with numbers behind it.
fn agents_of(alloc: Global, entries: &[Entry], file: &Text) -> Result<Seq<Text>, Starved> {
    let mut agents = Seq::new(alloc);
    for e in entries {
        if same_text(&e.file, file) {
            for k in 0..e.count.unwrap_or(1).min(MOST_AGENTS) {
                let name = Phrase::Words(e.name.as_slice());
                let agent = if e.count.is_some() {
                    sentence(alloc, &[name, Phrase::Number(k.saturating_add(1))])
                } else {
                    sentence(alloc, &[name])
                };
                agents.push(agent?)?;
            }
        }
    }
    Ok(agents)
}

impl Draft {
    /// Puts an entry whose file has a name of these parts.
    fn put_entry(&mut self, file: &[Phrase<'_>], name: &[u8], count: Option<u64>) {
        match entry_of(self.alloc, file, name, count) {
            Ok(e) => {
                if self.entries.push(e).is_err() {
                    self.spent = true;
                }
            }
            Err(_) => self.spent = true,
        }
    }

    fn put_project(&mut self, p: &ProjectText) {
        for line in p.agents.as_slice() {
            let count = if line.numbered {
                Some(u64::from(line.count))
            } else {
                None
            };
            let file = [Phrase::Words(line.file.as_slice())];
            self.put_entry(&file, line.name.as_slice(), count);
        }
    }

    /// Puts the entry of a piece of a project with these tokens, of its first one or of a later one.
    fn put_lead(&mut self, directory: &[u8], first: bool, piece: &[Tok], marks: &[Mark<'_>]) {
        let turn = if first {
            NextPiece::First
        } else {
            NextPiece::Later
        };
        match stop_of(self.alloc, turn, piece) {
            Ok(stop) => {
                if let Some(lead) = lead_in(marks, piece, first, stop.is_none()) {
                    let file = [
                        Phrase::Words(directory),
                        Phrase::Words(lead.stem),
                        Phrase::Words(lead.ending),
                    ];
                    self.put_entry(&file, lead.name.text, lead.count);
                }
            }
            Err(_) => self.spent = true,
        }
    }

    /// Puts the entries of mended bytes, as far as they can be read. Their first piece is the title of the project.
    fn put_pieces(&mut self, directory: &[u8], m: &Mended) {
        let mut rest: &[Tok] = match &m.toks {
            Some(toks) => toks.as_slice(),
            None => &[],
        };
        for k in 0..rest.len() {
            let Some((piece, behind)) = cut::<ProjectPieces>(rest) else {
                return;
            };
            if k > 0 {
                match marks_of(self.alloc, m.text.as_slice(), piece) {
                    Ok(marks) => self.put_lead(directory, k == 1, piece, marks.as_slice()),
                    Err(_) => self.spent = true,
                }
            }
            rest = behind;
        }
    }

    /// The same of a project of this word with these bytes.
    fn put_read(&mut self, word: &Text, bytes: &[u8]) {
        match mended_of(self.alloc, bytes) {
            Ok(m) => {
                self.put_pieces(folder(word.as_slice()), &m);
                drop(m);
            }
            Err(_) => self.spent = true,
        }
    }

    /// Puts a file with these bytes, a world or a source.
    fn put_bytes(&mut self, known: &Names, t: &FileTold, bytes: Text) {
        if matches!(t.kind, FileKind::World) {
            match world_of(self.alloc, known, &t.name, bytes) {
                Ok(world) => self.world = Some(world),
                Err(_) => self.spent = true,
            }
        } else {
            self.put_source(t, bytes);
        }
    }

    fn put_source(&mut self, t: &FileTold, bytes: Text) {
        let read = match agents_of(self.alloc, self.entries.as_slice(), &t.name) {
            Ok(agents) => source_of(self.alloc, agents, &t.name, bytes),
            Err(e) => Err(e),
        };
        match read {
            Ok(source) => {
                if self.sources.push(source).is_err() {
                    self.spent = true;
                }
            }
            Err(_) => self.spent = true,
        }
    }

    /// Whether memory was refused.
    fn state(&self) -> Result<(), Status> {
        if self.spent {
            Err(Status::Memory)
        } else {
            Ok(())
        }
    }

    fn into_project(self) -> Result<ReadProject, Starved> {
        let Draft {
            alloc,
            entries: _,
            sources,
            world,
            spent: _,
        } = self;
        project_of(alloc, sources, world)
    }
}

fn entry_of(
    alloc: Global,
    file: &[Phrase<'_>],
    name: &[u8],
    count: Option<u64>,
) -> Result<Entry, Starved> {
    let file = sentence(alloc, file)?;
    let name = text_of(alloc, name)?;
    Ok(Entry { name, file, count })
}

/// Puts the entries of the project of a word that is refused so, unless memory was.
fn put_refused<S: Shelf>(
    why: Status,
    word: &Text,
    draft: &mut Draft,
    shelf: &mut S,
) -> Result<(), Status>
    ensures same { S.holds shelf.new ≡ S.holds shelf.old }
    ensures later { S.faults shelf.old ≤ S.faults shelf.new }
{
    if matches!(&why, Status::Memory) {
        return Err(why);
    }
    drop(why);
    let bytes = bytes_of(draft.alloc, word, MOST_BYTES, shelf)?;
    draft.put_read(word, bytes.as_slice());
    draft.state()
}

/// Puts the entries of the project of a word.
fn put_entries<S: Shelf>(word: &Text, draft: &mut Draft, shelf: &mut S) -> Result<(), Status>
    ensures same { S.holds shelf.new ≡ S.holds shelf.old }
    ensures later { S.faults shelf.old ≤ S.faults shelf.new }
{
    match whole::project_of(draft.alloc, word, shelf) {
        Ok(p) => {
            draft.put_project(&p);
            drop(p);
            draft.state()
        }
        Err(why) => put_refused(why, word, draft, shelf),
    }
}

/// Reads one file more.
fn put_file<S: Shelf>(
    known: &Names,
    t: &FileTold,
    draft: &mut Draft,
    shelf: &mut S,
) -> Result<(), Status>
    ensures same { S.holds shelf.new ≡ S.holds shelf.old }
    ensures later { S.faults shelf.old ≤ S.faults shelf.new }
{
    if matches!(t.kind, FileKind::Project) {
        return Ok(());
    }
    let bytes = bytes_of(draft.alloc, &t.name, MOST_BYTES, shelf)?;
    draft.put_bytes(known, t, bytes);
    draft.state()
}

/// The project of a word whose files these are, as far as it is read.
pub fn read_project<S: Shelf>(
    alloc: Global,
    known: &Names,
    word: &Text,
    files: &[FileTold],
    shelf: &mut S,
) -> Result<ReadProject, Status>
    ensures same { S.holds shelf.new ≡ S.holds shelf.old }
    ensures later { S.faults shelf.old ≤ S.faults shelf.new }
{
    let mut draft = Draft {
        alloc,
        entries: Seq::new(alloc),
        sources: Seq::new(alloc),
        world: None,
        spent: false,
    };
    put_entries(word, &mut draft, shelf)?;
    'files: for t in files {
        put_file(known, t, &mut draft, shelf)?;
    }
    Ok(draft.into_project()?)
}
