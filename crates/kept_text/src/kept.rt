//! The text.

ghost use Rattle.std.specs.Prelude.{◌≡◌, [], IfOk, IfErr};
ghost use Rattle.kept_text.specs.Filling.{filled};
ghost use Rattle.kept_text.specs.Puts.{Puts};

use crate::filling::{Value, put_filled};
use std::alloc::{AllocError, Global};
use std::marker::Model;

/// A text, as far as it came. Contracts see its bytes, and none once memory lacked.
pub struct KeptText {
    bytes: Vec<u8>,
    lacked: bool,
}

impl Model for KeptText {
    ghost use Rattle.std.specs.Prelude.{List, ℕ, Option, Some, None, if◌then◌else◌};

    ghost Value = { Option (List ℕ) };

    ghost view = { λ t. if t.lacked then None else Some t.bytes.items };
}

/// By hand, so that a crate above that lets one go proves nothing of its parts.
impl Drop for KeptText {
    fn drop(self) {
        let KeptText {
            bytes: _,
            lacked: _,
        } = self;
    }
}

impl KeptText {
    /// An empty text.
    pub fn new(alloc: Global) -> KeptText
        ensures { result ≡ Some [] }
    {
        KeptText {
            bytes: Vec::new(alloc),
            lacked: false,
        }
    }

    /// Puts these bytes last.
    pub fn put(&mut self, piece: &[u8])
        ensures { Puts self.old self.new piece.now }
    {
        if self.bytes.extend_from_slice(piece).is_err() {
            self.lacked = true;
        }
    }

    /// Puts a template last, with a value for each `{}` in it.
    pub fn fill(&mut self, template: &[u8], values: &[Value<'_>])
        ensures { Puts self.old self.new (filled template.now values.now) }
    {
        if put_filled(&mut self.bytes, template, values).is_err() {
            self.lacked = true;
        }
    }

    /// Its bytes, unless memory lacked.
    pub fn into_bytes(self) -> Result<Vec<u8>, AllocError>
        ensures whole { IfOk result (λ bytes. self ≡ Some bytes.items) }
        ensures lacked { IfErr result (λ _. self ≡ None) }
    {
        let KeptText { bytes, lacked } = self;
        if lacked {
            return Err(AllocError);
        }
        Ok(bytes)
    }
}
