//! What a row did beside its change.

use crate::rows::{Fall, Row};
use asl_resolve::answers::Spent;
use asl_term::syntax::{Call, Literal, Text};

/// What the row for the current stack did.
#[derive(Drop)]
pub enum Went {
    /// The row, which wrote no line of its own.
    Row(Row),
    /// The row IaOk of `.print`, with the text that it says.
    Say(Text),
    /// The row Action, with the action for which the current stack waits now.
    Action(Literal),
    /// An internal action that acts on goals, beliefs or other agents. Its row is still to be made.
    Outer(Call),
    /// The row in which a stack failed.
    Failed { row: Row, fall: Fall },
    /// The row that ends the cycle by a spent budget.
    Spent { row: Row, spent: Spent },
}
