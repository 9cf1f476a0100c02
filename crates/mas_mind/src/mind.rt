//! What goes into a mind and comes out of it.

ghost use Rattle.std.specs.Prelude.{◌≡◌};
ghost use Rattle.mas_mind.specs.Minds as spec;

use asl_term::sequence::Seq;
use asl_term::syntax::{Literal, Literals, Term};

/// What a message asks of its receiver.
#[derive(Clone, Copy, PartialEq, Eq, Drop)]
pub enum Verb {
    Tell,
    Untell,
    Achieve,
    Unachieve,
    AskOne,
    AskAll,
    TellHow,
    UntellHow,
    AskHow,
}

/// The word of a verb, as a source and a trace write it.
pub fn verb_text(verb: Verb) -> &'static str
    ensures { result.now ≡ spec.verb_text verb }
{
    match verb {
        Verb::Tell => "tell",
        Verb::Untell => "untell",
        Verb::Achieve => "achieve",
        Verb::Unachieve => "unachieve",
        Verb::AskOne => "askOne",
        Verb::AskAll => "askAll",
        Verb::TellHow => "tellHow",
        Verb::UntellHow => "untellHow",
        Verb::AskHow => "askHow",
    }
}

/// A message between two agents, by their numbers. The `ask` is the number of the question that waits for
/// its answer, the `reply` that of the question that it answers, and 0 where there is none.
pub struct Message {
    pub from: u32,
    pub to: u32,
    pub verb: Verb,
    pub content: Term,
    pub ask: u64,
    pub reply: u64,
}

/// By hand, so that a crate above that lets one go proves nothing of its parts.
impl Drop for Message {
    fn drop(self) {
        let Message {
            from: _,
            to: _,
            verb: _,
            content: _,
            ask: _,
            reply: _,
        } = self;
    }
}

pub type Messages = Seq<Message>;

/// What a cycle is given.
#[derive(Drop)]
pub struct Input {
    pub percepts: Literals,
    pub message: Option<Message>,
}

/// What a cycle gives: an action on the world, messages, whether the agent asks the whole run to stop, and
/// whether the cycle was quiet.
#[derive(Drop)]
pub struct Outs {
    pub action: Option<Literal>,
    pub messages: Messages,
    pub stop: bool,
    pub quiet: bool,
}

/// How a cycle ended: with outs, or by a spent budget.
#[derive(Drop)]
pub enum Thought {
    Outs(Outs),
    Spent,
}

/// What became of an action: whether the world did it.
#[derive(Clone, Copy, PartialEq, Eq, Drop)]
pub enum Feedback {
    Done,
    Failed,
}

/// How an agent's part in a run ended.
#[derive(Clone, Copy, PartialEq, Eq, Drop)]
pub enum End {
    Quiet,
    Stopped,
    Cycles,
    Budget,
}

/// Which lines a trace shows.
#[derive(Clone, Copy, PartialEq, Eq, Drop)]
pub enum Level {
    Say,
    Acts,
    Rules,
}
