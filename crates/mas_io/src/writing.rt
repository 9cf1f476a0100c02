//! Whole texts to a sink.

ghost use Rattle.std.specs.Prelude.{◌≡◌, ◌≤◌, OnOk, OnErr};
ghost use Rattle.mas_io.specs.Sink.{grown};
ghost use Rattle.mas_io.specs.Causes.{Rose};
ghost use Rattle.mas_io.specs.Writing.{IsCut};

use crate::sink::{Put, Sink};

/// A put failed.
#[derive(Clone, Copy)]
pub struct NotWritten;

/// Puts until all is taken. After an error a prefix is written.
pub fn write_all<K: Sink>(sink: &mut K, text: &[u8]) -> Result<(), NotWritten>
    ensures ok { OnOk result (K.written sink.new ≡ grown (K.written sink.old) text.now) }
    ensures rose { OnErr result (Rose (K.faults sink.old) (K.faults sink.new)) }
    ensures cut { IsCut (K.written sink.old) (K.written sink.new) text.now }
    ensures later { K.faults sink.old ≤ K.faults sink.new }
{
    let mut at = 0;
    'puts: while at < text.len() {
        match sink.put(&text[at..]) {
            Put::Took(n) => at += n,
            Put::Failed => return Err(NotWritten),
        }
    }
    Ok(())
}
