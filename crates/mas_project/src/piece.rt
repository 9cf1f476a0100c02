//! Which pieces a project has, and what they say.

use asl_term::syntax::Text;

/// Which piece comes.
#[derive(Clone, Copy, Drop)]
pub enum NextPiece {
    /// The name of the project.
    Title,
    /// The options and the first entry.
    First,
    /// A further entry, or the end.
    Later,
}

/// An entry: the name of an agent, its file, and a number where one stands there.
#[derive(Drop)]
pub struct AgentEntry {
    pub name: Text,
    pub file: Text,
    pub count: Option<u64>,
}

/// What a piece says.
#[derive(Drop)]
pub enum PieceMeaning {
    /// The name of the project.
    Title(Text),
    /// The file of the world, where one is named, and the first entry.
    First(Option<Text>, AgentEntry),
    Next(AgentEntry),
    End,
}
