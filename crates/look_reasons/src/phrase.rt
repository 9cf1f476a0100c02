//! Sentences, put together of their parts.

use crate::excerpt::put_shown;
use asl_term::printing::write_number;
use asl_term::sequence::{Seq, Starved};
use asl_term::syntax::Text;
use std::alloc::Global;

/// A part of a sentence.
#[derive(Clone, Copy)]
pub enum Phrase<'a> {
    Words(&'a [u8]),
    /// Bytes of a source, as they are shown.
    Shown(&'a [u8]),
    Number(u64),
}

pub fn put_phrase(alloc: Global, phrase: Phrase<'_>, out: &mut Text) -> Result<(), Starved> {
    match phrase {
        Phrase::Words(words) => out.append(words),
        Phrase::Shown(bytes) => put_shown(bytes, out),
        Phrase::Number(n) => write_number(alloc, n, out),
    }
}

/// Puts these parts.
pub fn put_phrases(alloc: Global, phrases: &[Phrase<'_>], out: &mut Text) -> Result<(), Starved> {
    for phrase in phrases {
        put_phrase(alloc, *phrase, out)?;
    }
    Ok(())
}

/// A sentence of these parts.
pub fn sentence(alloc: Global, phrases: &[Phrase<'_>]) -> Result<Text, Starved> {
    let mut out = Seq::new(alloc);
    put_phrases(alloc, phrases, &mut out)?;
    Ok(out)
}
