//! What writes some texts of a mind.

use asl_term::sequence::{Seq, Starved};
use asl_term::syntax::Text;
use mas_mind::thinking::Mind;
use std::alloc::Global;

/// Writes some texts of a mind.
pub trait MindTexts<M: Mind> {
    ghost use Rattle.std.specs.Prelude.{◌≡◌, ℕ, List, IfOk};

    /// The texts.
    ghost texts: { M → List (List ℕ) };

    fn texts_of(&self, alloc: Global, m: &M) -> Result<Seq<Text>, Starved>
        ensures { IfOk result (λ ts. ts ≡ texts m.now) };
}
