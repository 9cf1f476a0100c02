//! The files of the machine, of whose bytes nothing is told.

ghost use Rattle.std.specs.Prelude.{◌≡◌, ◌≤◌, None, false};
ghost use Rattle.mas_io.specs.Causes.{Rose};
ghost use Rattle.mas_record_disk.specs.declared.disk.DiskFail.TheVariants.{Failed};
ghost use Rattle.mas_record_files.specs.Real as spec;

use asl_term::copying::copy_text;
use asl_term::syntax::Text;
use mas_io::real::{is_missing, is_plain};
use mas_record_disk::disk::{Disk, DiskFail, Picked};
use std::fs::{File, OpenFile, OpenOptions};
use std::io;
use std::io::{Read, Seek, SeekFrom, Write};
use std::rt::Files;

/// The file system, with a count of the calls that failed; the picked file and its name. The file is picked with a lock, which it has until the
/// disk is dropped or the process ends: a file that another open has locked is not picked. A sync is asked of the file alone: that
/// a new name outlives a crash is up to the file system.
#[derive(Drop)]
pub struct FileDisk<'a, R: Files<File = File>> {
    rt: &'a R,
    file: Option<File>,
    name: Option<Text>,
    faults: u64,
}

impl<'a, R: Files<File = File>> FileDisk<'a, R> {
    /// The files of the machine, none of them picked. None is opened before one is.
    pub fn new(rt: &'a R) -> Self
        ensures faults { result.faults ≡ 0 }
        ensures name { result.name ≡ None }
    {
        FileDisk {
            rt,
            file: None,
            name: None,
            faults: 0,
        }
    }
}

fn no_file() -> io::Error {
    io::Error::from(io::ErrorKind::InvalidInput)
}

/// The file of that name, locked, which is made where it is not there and `make` says so. A name that is no UTF-8 names no file; what is a
/// folder, a pipe or a device is not opened.
fn open_file<R: Files<File = File>>(rt: &R, name: &Text, make: bool) -> io::Result<File> {
    let Ok(path) = std::str::from_utf8(name.as_slice()) else {
        return Err(no_file());
    };
    if let Ok(false) = is_plain(rt, path) {
        return Err(no_file());
    }
    let mut how = OpenOptions::new();
    how.read(true);
    how.write(true);
    how.create(make);
    let file = how.open(rt, path)?;
    file.try_lock()?;
    Ok(file)
}

fn length<F: OpenFile>(file: &Option<F>) -> io::Result<u64> {
    match file {
        Some(file) => Ok(file.metadata()?.len()),
        None => Err(no_file()),
    }
}

fn read<F: Read + Seek>(file: &mut Option<F>, at: u64, out: &mut [u8]) -> io::Result<()> {
    match file {
        Some(file) => {
            file.seek(SeekFrom::Start(at))?;
            file.read_exact(out)
        }
        None => Err(no_file()),
    }
}

fn write<F: Write + Seek>(file: &mut Option<F>, at: u64, bytes: &[u8]) -> io::Result<()> {
    match file {
        Some(file) => {
            file.seek(SeekFrom::Start(at))?;
            file.write_all(bytes)
        }
        None => Err(no_file()),
    }
}

/// Cuts the file where it is longer.
fn cut<F: OpenFile>(file: &Option<F>, len: u64) -> io::Result<()> {
    match file {
        Some(file) => {
            if file.metadata()?.len() > len {
                return file.set_len(len);
            }
            Ok(())
        }
        None => Err(no_file()),
    }
}

fn sync<F: OpenFile>(file: &Option<F>) -> io::Result<()> {
    match file {
        Some(file) => file.sync_all(),
        None => Err(no_file()),
    }
}

/// Why a call failed. The count rises, but where the system had no memory for it: that is no fault of the disk.
fn failed(faults: &mut u64, e: &io::Error) -> DiskFail
    ensures later { faults.old ≤ faults.new }
    ensures cause { result ≡ Failed → Rose faults.old faults.new }
{
    if e.kind() == io::ErrorKind::OutOfMemory {
        return DiskFail::Memory;
    }
    *faults = faults.saturating_add(1);
    DiskFail::Failed
}

/// What a call answers, by what came of it.
fn answered<T: Drop>(faults: &mut u64, answer: io::Result<T>) -> Result<T, DiskFail>
    ensures later { faults.old ≤ faults.new }
    ensures cause { spec.IsCounted faults.old faults.new result }
{
    match answer {
        Ok(value) => Ok(value),
        Err(e) => Err(failed(faults, &e)),
    }
}

impl<'a, R: Files<File = File>> Disk for FileDisk<'a, R> {
    ghost state = { λ d. spec.untold d.name d.faults };

    ghost counts_now = { λ d t name c le now. now };

    ghost only_now = { λ d name c left. left };

    ghost reads_now = { λ d name told. spec.not_told told };

    fn pick(&mut self, name: &Text, make: bool) -> Result<Picked, DiskFail> {
        let kept = copy_text(name.alloc(), name)?;
        match open_file(self.rt, name, make) {
            Ok(file) => {
                self.file = Some(file);
                self.name = Some(kept);
                Ok(Picked::Ready)
            }
            Err(e) if !make && is_missing(&e) => Ok(Picked::Missing),
            Err(e) => Err(failed(&mut self.faults, &e)),
        }
    }

    fn len(&mut self) -> Result<u64, DiskFail> {
        answered(&mut self.faults, length(&self.file))
    }

    fn read_at(&mut self, at: u64, out: &mut [u8]) -> Result<(), DiskFail> {
        answered(&mut self.faults, read(&mut self.file, at, out))
    }

    fn write_at(&mut self, at: u64, bytes: &[u8]) -> Result<(), DiskFail> {
        answered(&mut self.faults, write(&mut self.file, at, bytes))
    }

    fn cut(&mut self, len: u64) -> Result<(), DiskFail> {
        answered(&mut self.faults, cut(&self.file, len))
    }

    fn sync(&mut self) -> Result<(), DiskFail> {
        answered(&mut self.faults, sync(&self.file))
    }
}
