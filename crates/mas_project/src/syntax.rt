//! What a project says.

use asl_term::sequence::Seq;
use asl_term::syntax::Text;

/// An entry of a project: one agent of this name, or as many as counted, with numbers behind the name.
pub struct AgentLine {
    pub name: Text,
    pub file: Text,
    pub count: u32,
    pub numbered: bool,
}

/// By hand, so that a crate above that lets one go proves nothing of its parts.
impl Drop for AgentLine {
    fn drop(self) {
        let AgentLine {
            name: _,
            file: _,
            count: _,
            numbered: _,
        } = self;
    }
}

pub type AgentLines = Seq<AgentLine>;

/// A project: its name, the name of its world's file, where one is named, and its agents.
pub struct ProjectText {
    pub name: Text,
    pub world: Option<Text>,
    pub agents: AgentLines,
}

/// By hand, so that a crate above that lets one go proves nothing of its parts.
impl Drop for ProjectText {
    fn drop(self) {
        let ProjectText {
            name: _,
            world: _,
            agents: _,
        } = self;
    }
}
