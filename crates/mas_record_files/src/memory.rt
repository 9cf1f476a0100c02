//! A disk in memory, which tells everything and fails by number.

ghost use Rattle.std.specs.Prelude.{◌≡◌, true, false, None, Some, [], ◌∷◌, ◌++◌, is_some};
ghost use Rattle.std.specs.Prelude.{IfOk, OnOk, OnErr};
ghost use Rattle.mas_io.specs.Calls.{no_calls};
ghost use Rattle.mas_record_disk.specs.Disk.{bytes_of};
ghost use Rattle.mas_record_disk.specs.Calls as calls;
ghost use Rattle.mas_record_files.specs.Memory as spec;
ghost use Rattle.mas_record_files.specs.Laws as law;
ghost use Rattle.mas_record_files.specs.Disks.{change_of};

use crate::change::{Change, FileChange};
use crate::files::{change_file, find_file, has_file, make_file};
use crate::replay::crash_all;
use asl_term::copying::{copy_text, text_of};
use asl_term::sequence::{Seq, Starved};
use asl_term::syntax::{Filed, Files, Numbers, Text};
use mas_io::calls::Calls;
use mas_record_disk::disk::{Disk, DiskFail, Picked};
use std::alloc::Global;

/// Files in memory, as they were at first and as they read now; each change that was made of them; and the name of the picked
/// file.
#[derive(Drop)]
pub struct MemoryDisk {
    first: Files,
    changes: Seq<Change>,
    files: Files,
    picked: Option<Text>,
    calls: Calls,
    ghost current: { spec.AreCurrent first changes files },
    ghost there: { spec.is_there picked files ≡ true },
}

/// A copy of the files.
fn copy_files(alloc: Global, files: &[Filed]) -> Result<Files, Starved>
    ensures { IfOk result (λ copy. copy ≡ files.now) }
{
    let mut copy = Seq::new(alloc);
    'files: for file in files {
        let name = copy_text(alloc, &file.name)?;
        let bytes = copy_text(alloc, &file.bytes)?;
        copy.push(Filed { name, bytes })?;
    }
    Ok(copy)
}

/// A disk of these files, all of which are there for good. The calls whose numbers, from 1, stand in `fail` are refused.
pub fn memory_disk(alloc: Global, files: Files, fail: Numbers) -> Result<MemoryDisk, Starved>
    ensures first { IfOk result (λ d. d.first ≡ files) }
    ensures changes { IfOk result (λ d. d.changes ≡ []) }
    ensures picked { IfOk result (λ d. d.picked ≡ None) }
    ensures calls { IfOk result (λ d. d.calls ≡ no_calls fail) }
{
    let first = copy_files(alloc, files.as_slice())?;
    Ok(MemoryDisk {
        first,
        changes: Seq::new(alloc),
        files,
        picked: None,
        calls: Calls::new(fail),
    })
}

impl MemoryDisk {
    /// The bytes of the picked file.
    fn bytes(&self) -> &[u8]
        requires { is_some self.now.picked ≡ true }
        ensures bytes { result.now ≡ bytes_of (spec.file_in self.now.first self.now.changes (calls.name_or_none self.now.picked)).reads }
        ensures there { is_some (spec.file_in self.now.first self.now.changes (calls.name_or_none self.now.picked)).reads ≡ true }
    {
        let Some(name) = &self.picked else {
            unreachable!()
        };
        match find_file(self.files.as_slice(), name) {
            Some(bytes) => bytes.as_slice(),
            None => unreachable!(),
        }
    }

    /// Changes the picked file.
    fn change(&mut self, what: FileChange) -> Result<(), Starved>
        requires { is_some self.old.picked ≡ true }
        ensures ok { OnOk result (self.new.changes ≡ self.old.changes ++ (change_of (calls.name_or_none self.old.picked) what) ∷ []) }
        ensures first { self.new.first ≡ self.old.first }
        ensures picked { self.new.picked ≡ self.old.picked }
        ensures calls { self.new.calls ≡ self.old.calls }
        ensures refused { OnErr result (self.new.changes ≡ self.old.changes) }
    {
        let Some(name) = &self.picked else {
            unreachable!()
        };
        change_file(&mut self.changes, &mut self.files, name, what)?;
        Ok(())
    }
}

impl MemoryDisk {
    /// The files after a crash: each as its last sync left it, with the first `kept` writes and cuts since then done whole.
    pub fn crash(&self, alloc: Global, kept: u64) -> Result<Files, Starved>
        ensures left { IfOk result (spec.IsCrash kept self.now.first self.now.changes) }
        ensures image { IfOk result (spec.IsImageOf self.now.first self.now.changes) }
    {
        let first = self.first.as_slice();
        let changes = self.changes.as_slice();
        let left = crash_all(alloc, kept, first, changes, self.files.as_slice())?;
        Ok(left)
    }
}

impl Disk for MemoryDisk {
    ghost state = { λ d. spec.disk_state d.first d.changes d.picked d.calls.faults };

    ghost counts_now = { λ d t name c le now. law.counts_now d.first d.changes t name c le now };

    ghost only_now = { λ d name c left. law.only_now d.first d.changes name c left };

    ghost reads_now = { λ d name told. law.reads_now d.first d.changes name };

    #[tactic(auto, using(crate::proofs::Goes::picks_found, crate::proofs::Goes::passes))]
    fn pick(&mut self, name: &Text, make: bool) -> Result<Picked, DiskFail> {
        if self.calls.is_refused() {
            self.calls.call(true);
            return Err(DiskFail::Failed);
        }
        let picked = copy_text(name.alloc(), name)?;
        if has_file(self.files.as_slice(), name) {
            self.picked = Some(picked);
            self.calls.call(false);
            return Ok(Picked::Ready);
        }
        if !make {
            self.calls.call(false);
            return Ok(Picked::Missing);
        }
        make_file(&mut self.changes, &mut self.files, name)?;
        self.picked = Some(picked);
        self.calls.call(false);
        Ok(Picked::Ready)
    }

    fn len(&mut self) -> Result<u64, DiskFail> {
        if self.calls.is_refused() {
            self.calls.call(true);
            return Err(DiskFail::Failed);
        }
        self.calls.call(false);
        Ok(self.bytes().len() as u64)
    }

    fn read_at(&mut self, at: u64, out: &mut [u8]) -> Result<(), DiskFail> {
        if self.calls.is_refused() {
            self.calls.call(true);
            return Err(DiskFail::Failed);
        }
        self.calls.call(false);
        let start = at as usize;
        let len = out.len();
        out.copy_from_slice(&self.bytes()[start..][..len]);
        Ok(())
    }

    fn write_at(&mut self, at: u64, bytes: &[u8]) -> Result<(), DiskFail> {
        if self.calls.is_refused() {
            self.calls.call(true);
            return Err(DiskFail::Failed);
        }
        let bytes = text_of(self.files.alloc(), bytes)?;
        self.change(FileChange::Wrote { at, bytes })?;
        self.calls.call(false);
        Ok(())
    }

    fn cut(&mut self, len: u64) -> Result<(), DiskFail> {
        if self.calls.is_refused() {
            self.calls.call(true);
            return Err(DiskFail::Failed);
        }
        self.change(FileChange::Cut(len))?;
        self.calls.call(false);
        Ok(())
    }

    fn sync(&mut self) -> Result<(), DiskFail> {
        if self.calls.is_refused() {
            self.calls.call(true);
            return Err(DiskFail::Failed);
        }
        self.change(FileChange::Synced)?;
        self.calls.call(false);
        Ok(())
    }
}
