//! The lines that rows write.

use asl_exec_circumstance::rows::Row;
use asl_intend::agenda::Error;
use asl_resolve::answers::Spent;
use asl_term::sequence::Seq;
use asl_term::syntax::{Literal, Term, Text};
use mas_mind::mind::{Messages, Verb};

/// A message as a line tells it: the name of the other agent, the verb and the content.
#[derive(Drop)]
pub struct Mail {
    pub who: Text,
    pub verb: Verb,
    pub content: Term,
}

/// A line of a trace.
#[derive(Drop)]
pub enum TraceLine {
    /// The name of the row, before the row's other lines.
    Rule(Row),
    Say(Text),
    Took(Mail),
    Does(Literal),
    Done(Literal),
    Failed(Literal),
    Sends(Mail),
    Drops(Error),
    Spent(Spent),
    Stops,
}

pub type Lines = Seq<TraceLine>;

/// What the rows of a cycle have written and asked for so far.
#[derive(Drop)]
pub struct Sofar {
    pub lines: Lines,
    pub messages: Messages,
    pub stop: bool,
    /// The number of the next ask.
    pub asks: u64,
}
