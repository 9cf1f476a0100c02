//! The first of the messages that go into a mind.

ghost use Rattle.std.specs.Prelude.{◌≡◌, slice_get, IfOk};

use asl_term::sequence::Starved;
use mas_mind::copying::copy_message;
use mas_mind::mind::{Message, Messages};
use std::alloc::Global;

/// The first message, where there is one.
pub fn copy_first(alloc: Global, messages: &Messages) -> Result<Option<Message>, Starved>
    ensures { IfOk result (λ r. r ≡ slice_get messages.now 0) }
{
    match messages.at(0) {
        None => Ok(None),
        Some(m) => Ok(Some(copy_message(alloc, m)?)),
    }
}
