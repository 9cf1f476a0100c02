//! What a world file says.

use asl_term::names::Names;
use asl_term::sequence::Seq;
use asl_term::syntax::{Exprs, Literal, Literals, Term};

/// An action that the world offers: the literal that it answers to, the agent that it is for, the parts of its guard,
/// what it takes away from the facts and adds to them, and the names of the artifacts that it drops, each once.
pub struct Act {
    pub head: Literal,
    /// A variable, or an atom.
    pub by: Term,
    /// Literals, `not` before literals, and relations.
    pub guard: Exprs,
    pub dels: Literals,
    pub adds: Literals,
    pub drops: Names,
}

/// By hand, so that a crate above that lets one go proves nothing of its parts.
impl Drop for Act {
    fn drop(self) {
        let Act {
            head: _,
            by: _,
            guard: _,
            dels: _,
            adds: _,
            drops: _,
        } = self;
    }
}

pub type Acts = Seq<Act>;

/// A world file: its facts, the functors that no agent sees, the artifacts that it uses, and its acts, each in order.
#[derive(Drop)]
pub struct WorldText {
    pub facts: Literals,
    pub hidden: Names,
    pub uses: Names,
    pub acts: Acts,
}
