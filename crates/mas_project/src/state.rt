//! How far the reading of a piece has come.

use crate::piece::{AgentEntry, PieceMeaning};
use asl_term::syntax::Text;

/// In which piece an entry stands: in the first, before which a file of the world may have been named, or later.
#[derive(Drop)]
pub enum Before {
    First(Option<Text>),
    Next,
}

/// Which options stood there.
#[derive(Drop)]
pub struct SeenOptions {
    pub infrastructure: bool,
    pub world: Option<Text>,
}

/// How far the reading of a piece has come, by what has to stand next.
#[derive(Drop)]
pub enum State {
    /// `MAS`
    Start,
    /// The name of the project.
    Title,
    /// `{`, behind this name.
    Brace(Text),
    /// An option or `agents`.
    SeenOptions(SeenOptions),
    /// `:` behind `infrastructure`.
    InfrastructureColon(Option<Text>),
    /// `Centralised`
    Infrastructure(Option<Text>),
    /// `:` behind `environment`, where the other option stood before or not.
    EnvironmentColon(bool),
    /// The name of the environment.
    Environment(bool),
    /// `:` behind `agents`.
    AgentsColon(Option<Text>),
    /// The first entry.
    First(Option<Text>),
    /// An entry or `}`.
    Later,
    /// A file, `#` or `;` behind this name.
    Name(Before, Text),
    /// `.asl` behind the stem of a file, of the agent of this name.
    Stem(Before, Text, Text),
    /// `#` or `;` behind name and file.
    File(Before, Text, Text),
    /// A number behind name and file.
    Count(Before, Text, Text),
    /// `;` behind all of an entry.
    Semicolon(Before, AgentEntry),
    /// Nothing: the piece is whole.
    Whole(PieceMeaning),
}
