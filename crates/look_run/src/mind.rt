//! What writes the text of a mind.

use asl_term::names::Names;
use asl_term::sequence::Starved;
use asl_term::syntax::Text;
use mas_mind::thinking::Mind;
use std::alloc::Global;

/// Writes what a mind is made of.
pub trait MindText<M: Mind> {
    ghost use Rattle.std.specs.Prelude.{◌≡◌, ◌++◌, ℕ, List, OnOk};

    /// The text of a mind, among the names of all agents.
    ghost parts: { List (List ℕ) → M → List ℕ };

    /// Appends it. After `Starved` a part of it may stand in `out`.
    fn put_parts(&self, alloc: Global, out: &mut Text, m: &M, names: &Names) -> Result<(), Starved>
        ensures { OnOk result (out.new ≡ out.old ++ parts names.now m.now) };
}
