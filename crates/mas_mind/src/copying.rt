//! Copies of messages.

ghost use Rattle.std.specs.Prelude.{◌≡◌, IfOk};

use crate::mind::{Message, Messages};
use asl_term::copying::copy;
use asl_term::sequence::{Seq, Starved};
use std::alloc::Global;

/// An equal message.
pub fn copy_message(alloc: Global, m: &Message) -> Result<Message, Starved>
    ensures { IfOk result (λ r. r ≡ m.now) }
{
    Ok(Message {
        from: m.from,
        to: m.to,
        verb: m.verb,
        content: copy(alloc, &m.content)?,
        ask: m.ask,
        reply: m.reply,
    })
}

/// Equal messages, in order.
pub fn copy_messages(alloc: Global, messages: &[Message]) -> Result<Messages, Starved>
    ensures { IfOk result (λ r. r ≡ messages.now) }
{
    let mut r = Seq::new(alloc);
    for m in messages {
        r.push(copy_message(alloc, m)?)?;
    }
    Ok(r)
}
