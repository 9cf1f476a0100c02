//! Files and standard output, of whose bytes nothing is told.

ghost use Rattle.std.specs.Prelude.{◌≡◌, ◌≢◌, None, IfOk, IfSome};
ghost use Rattle.mas_io.specs.Shelf.{IsShort, limited};
ghost use Rattle.mas_io.specs.declared.shelf.Fetched.TheVariants.{Failed};

use crate::shelf::{Fetched, Shelf};
use crate::sink::{Put, Sink};
use asl_term::sequence::{Seq, Starved};
use asl_term::syntax::Text;
use std::alloc::Global;
use std::io::{Read, Write};
use std::rt::Files;
use std::{fs, io};

/// The file system, with a count of the calls that failed.
#[derive(Drop)]
pub struct FileShelf<'a, R> {
    rt: &'a R,
    faults: u64,
}

impl<'a, R: Files> FileShelf<'a, R> {
    /// The files of the machine. None is opened before it is asked for.
    pub fn new(rt: &'a R) -> Self
        ensures { result.faults ≡ 0 }
    {
        FileShelf { rt, faults: 0 }
    }
}

/// Whether there can be no file of the name: nothing has it, what stands before a `/` is no folder, or it is too long for the system.
pub fn is_missing(e: &io::Error) -> bool {
    match e.kind() {
        io::ErrorKind::NotFound => true,
        io::ErrorKind::NotADirectory => true,
        io::ErrorKind::InvalidFilename => true,
        _ => false,
    }
}

/// Whether a file has that name, and no folder, pipe, device or socket. It opens nothing, so it never waits for the other end of a pipe.
pub fn is_plain<R: Files>(rt: &R, path: &str) -> io::Result<bool> {
    Ok(fs::metadata(rt, path)?.is_file())
}

/// The file of that name, opened. What is no file is not opened.
fn open_plain<R: Files>(rt: &R, path: &str) -> io::Result<R::File> {
    if is_plain(rt, path)? {
        fs::open(rt, path)
    } else {
        Err(io::Error::from(io::ErrorKind::InvalidInput))
    }
}

/// Whether the system had no memory for the call. That is no fault of the file.
fn is_want(e: &io::Error) -> bool {
    e.kind() == io::ErrorKind::OutOfMemory
}

/// What the file has from where it stands. Each turn takes a byte at least, or ends it.
fn read_some<F: Read>(alloc: Global, file: &mut F, most: u64) -> Result<Fetched, Starved>
    ensures answer { IfOk result (λ f. f ≢ Failed → IfSome (F.remaining file.old) (λ bytes. f ≡ limited bytes most)) }
    ensures short { IfOk result (IsShort most) }
{
    let mut text: Text = Seq::new(alloc);
    let mut buffer = [0u8; 4096];
    'turns: while text.len() <= most {
        match file.read(&mut buffer) {
            Ok(0) => return Ok(Fetched::Bytes(text)),
            Ok(n) => text.append(&buffer[..n])?,
            Err(e) if is_want(&e) => return Err(Starved),
            Err(_) => return Ok(Fetched::Failed),
        }
    }
    Ok(Fetched::TooLong)
}

/// What the file of that name has. A name that is no UTF-8 names no file that can be opened.
fn read_file<R: Files>(rt: &R, alloc: Global, name: &Text, most: u64) -> Result<Fetched, Starved>
    ensures { IfOk result (IsShort most) }
{
    let Ok(path) = std::str::from_utf8(name.as_slice()) else {
        return Ok(Fetched::Failed);
    };
    match open_plain(rt, path) {
        Ok(mut file) => read_some(alloc, &mut file, most),
        Err(e) if is_missing(&e) => Ok(Fetched::Missing),
        Err(e) if is_want(&e) => Err(Starved),
        Err(_) => Ok(Fetched::Failed),
    }
}

impl<'a, R: Files> Shelf for FileShelf<'a, R> {
    ghost holds = { λ s. None };

    ghost faults = { λ s. s.faults };

    fn fetch(&mut self, alloc: Global, name: &Text, most: u64) -> Result<Fetched, Starved> {
        match read_file(self.rt, alloc, name, most)? {
            Fetched::Failed => {
                self.faults = self.faults.saturating_add(1);
                Ok(Fetched::Failed)
            }
            fetched => Ok(fetched),
        }
    }
}

/// Standard output, with a count of the calls that failed. It keeps no bytes back.
#[derive(Drop)]
pub struct OutSink<'a, R> {
    rt: &'a R,
    faults: u64,
}

impl<'a, R: Print> OutSink<'a, R> {
    /// The standard output of the program. Nothing is written yet.
    pub fn new(rt: &'a R) -> Self
        ensures { result.faults ≡ 0 }
    {
        OutSink { rt, faults: 0 }
    }
}

impl<'a, R: Print> Sink for OutSink<'a, R> {
    ghost written = { λ s. None };

    ghost faults = { λ s. s.faults };

    fn put(&mut self, piece: &[u8]) -> Put {
        match io::writer(self.rt).write(piece) {
            Ok(n) if 0 < n => Put::Took(n),
            _ => {
                self.faults = self.faults.saturating_add(1);
                Put::Failed
            }
        }
    }
}
