//! What a message did.

ghost use Rattle.std.specs.Prelude.{◌≡◌, [], None};

use asl_exec_circumstance::rows::{Falls, Row};
use asl_resolve::answers::Spent;
use asl_term::sequence::Seq;
use mas_mind::mind::Message;
use std::alloc::Global;

/// What the row of a message did beside its change.
#[derive(Drop)]
pub enum Took {
    /// The row, the reply that it sends, and the stacks that failed in it.
    Row {
        row: Row,
        reply: Option<Message>,
        falls: Falls,
    },
    /// The row AskSpent, which ends the cycle by a spent budget.
    Spent(Spent),
}

/// A row with neither a reply nor a failure.
pub fn by(alloc: Global, row: Row) -> Took
    ensures { result ≡ Took.Row row None [] }
{
    Took::Row {
        row,
        reply: None,
        falls: Seq::new(alloc),
    }
}
