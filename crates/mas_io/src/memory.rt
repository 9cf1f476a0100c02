//! A shelf and a sink in memory, which tell everything and fail by number.

ghost use Rattle.std.specs.Prelude.{◌≡◌, ◌≢◌, ◌≤◌, ◌<◌, Some, IfOk, OnOk, OnErr, length};
ghost use Rattle.mas_io.specs.declared.shelf.Fetched.TheVariants.{Failed};
ghost use Rattle.mas_io.specs.Shelf.{FetchFits, IsCopy, IsShort, fetched};
ghost use Rattle.mas_io.specs.Sink.{PutFits};
ghost use Rattle.mas_io.specs.Calls.{no_calls};
ghost use Rattle.mas_io.specs.Memory.{filled, put_answer, shelf_after, shelf_answer, sink_after, taken_len};

use crate::calls::Calls;
use crate::shelf::{Fetched, Shelf};
use crate::sink::{Put, Sink};
use asl_term::compare::same_text;
use asl_term::copying::copy_text;
use asl_term::room::Roomy;
use asl_term::sequence::Starved;
use asl_term::syntax::{Filed, Files, Numbers, Text};
use std::alloc::Global;

/// Files in memory.
#[derive(Drop)]
pub struct MemoryShelf {
    files: Files,
    calls: Calls,
}

/// A shelf of these files. The calls whose numbers, from 1, stand in `fail` are refused.
pub fn memory_shelf(files: Files, fail: Numbers) -> MemoryShelf
    ensures { result ≡ record { files = files; calls = no_calls fail } }
{
    MemoryShelf {
        files,
        calls: Calls::new(fail),
    }
}

/// What the first file of that name gives: its bytes, where they are no more than `most`.
pub fn find_file(alloc: Global, files: &[Filed], name: &Text, most: u64) -> Result<Fetched, Starved>
    ensures answer { IfOk result (λ f. f ≡ fetched files.now name.now most) }
    ensures short { IfOk result (IsShort most) }
    ensures no_failure { IfOk result (λ f. f ≢ Failed) }
    ensures starved { OnErr result (IsCopy (fetched files.now name.now most)) }
{
    'files: for file in files {
        if same_text(&file.name, name) {
            if file.bytes.len() > most {
                return Ok(Fetched::TooLong);
            }
            return Ok(Fetched::Bytes(copy_text(alloc, &file.bytes)?));
        }
    }
    Ok(Fetched::Missing)
}

impl Shelf for MemoryShelf {
    ghost holds = { λ s. Some s.files };

    ghost faults = { λ s. s.calls.faults };

    fn fetch(&mut self, alloc: Global, name: &Text, most: u64) -> Result<Fetched, Starved>
        ensures same { Some self.new.files ≡ Some self.old.files }
        ensures later { self.old.calls.faults ≤ self.new.calls.faults }
        ensures fits { IfOk result (FetchFits (Some self.old.files) name.now most self.old.calls.faults self.new.calls.faults) }
        ensures starved_counted { OnErr result (self.new.calls.faults ≡ self.old.calls.faults) }
        ensures answer { IfOk result (λ f. f ≡ shelf_answer self.old name.now most) }
        ensures after { OnOk result (self.new ≡ shelf_after self.old) }
        ensures starved { OnErr result (IsCopy (shelf_answer self.old name.now most)) }
        ensures starved_same { OnErr result (self.new ≡ self.old) }
    {
        if self.calls.is_refused() {
            self.calls.call(true);
            return Ok(Fetched::Failed);
        }
        let found = find_file(alloc, self.files.as_slice(), name, most)?;
        self.calls.call(false);
        Ok(found)
    }
}

/// Bytes in memory, in room that was there before.
#[derive(Drop)]
pub struct MemorySink {
    room: Roomy<u8>,
    short: u64,
    calls: Calls,
}

/// A sink that fills the free places of `room` and takes at most `short` bytes a call. The calls whose
/// numbers, from 1, stand in `fail` are refused.
pub fn memory_sink(room: Roomy<u8>, short: u64, fail: Numbers) -> MemorySink
    requires { 1 ≤ short }
    ensures { result ≡ record { room = room; short = short; calls = no_calls fail } }
{
    MemorySink {
        room,
        short,
        calls: Calls::new(fail),
    }
}

/// Puts bytes into free places.
fn fill(room: &mut Roomy<u8>, bytes: &[u8])
    requires { length bytes.now ≤ room.old.spare }
    ensures { room.new ≡ filled room.old bytes.now }
{
    'bytes: for byte in bytes {
        match room.push(*byte) {
            Ok(()) => {}
            Err(_) => unreachable!(),
        }
    }
}

impl MemorySink {
    /// What the room had, and then what was put.
    pub fn written(&self) -> &[u8]
        ensures { result.now ≡ self.now.room.list }
    {
        self.room.as_slice()
    }

    fn taken_len(&self, piece: &[u8]) -> usize
        ensures { result ≡ taken_len self.now piece.now }
    {
        let most = self.short.min(self.room.spare());
        (piece.len() as u64).min(most) as usize
    }
}

impl Sink for MemorySink {
    ghost written = { λ s. Some s.room.list };

    ghost faults = { λ s. s.calls.faults };

    fn put(&mut self, piece: &[u8]) -> Put
        requires { 0 < length piece.now }
        ensures later { self.old.calls.faults ≤ self.new.calls.faults }
        ensures fits { PutFits (Some self.old.room.list) (Some self.new.room.list) piece.now self.old.calls.faults self.new.calls.faults result }
        ensures answer { result ≡ put_answer self.old piece.now }
        ensures after { self.new ≡ sink_after self.old piece.now }
    {
        let taken = self.taken_len(piece);
        if self.calls.is_refused() || taken == 0 {
            self.calls.call(true);
            return Put::Failed;
        }
        fill(&mut self.room, &piece[..taken]);
        self.calls.call(false);
        Put::Took(taken)
    }
}
