//! Calls of the whole program, over files in memory.

ghost use Rattle.mas_top_record.specs.Disks.{IsFree};

use asl_term::copying::text_of;
use asl_term::room::Roomy;
use asl_term::sequence::{Seq, Starved};
use asl_term::syntax::{Filed, Files, Text};
use mas_io::memory::{memory_shelf, memory_sink};
use mas_pool_task::gate::Gate;
use mas_record_disk::disk::Disk;
use mas_top::top::run_words;
use mas_top_status::status::fault_line;
use mas_world::artifact::Artifact;
use std::alloc::Global;
use std::sync::Wait;
use std::thread::Threads;

/// A file of this name with these bytes.
fn file(alloc: Global, name: &[u8], bytes: &[u8]) -> Result<Filed, Starved> {
    let name = text_of(alloc, name)?;
    let bytes = text_of(alloc, bytes)?;
    Ok(Filed { name, bytes })
}

/// These files.
fn files_of(alloc: Global, files: &[(&[u8], &[u8])]) -> Result<Files, Starved> {
    let mut all = Seq::new(alloc);
    for (name, bytes) in files {
        all.push(file(alloc, *name, *bytes)?)?;
    }
    Ok(all)
}

/// What these words write over these files, with these artifacts, at this gate and over this disk, and the fault line.
pub fn called<R: Threads + Wait + Sync, G: Gate + Sync, D: Disk + Send>(
    rt: &R,
    alloc: Global,
    asked: &[&str],
    files: &[(&[u8], &[u8])],
    gate: &G,
    artifacts: Vec<Box<dyn Artifact + Send>>,
    disk: &mut Option<D>,
) -> Result<Text, Starved>
    requires { IsFree D.state disk.old }
{
    let mut words = Vec::new(alloc);
    for word in asked {
        words.push(word.to_string(alloc)?)?;
    }
    let mut shelf = memory_shelf(files_of(alloc, files)?, Seq::new(alloc));
    let mut room = Roomy::new(alloc);
    room.reserve(10_000)?;
    let mut sink = memory_sink(room, 10_000, Seq::new(alloc));
    let status = run_words(
        rt, alloc, &words, &mut shelf, &mut sink, gate, artifacts, disk,
    );
    let mut out = text_of(alloc, sink.written())?;
    out.append(fault_line(alloc, &status)?.as_slice())?;
    Ok(out)
}
