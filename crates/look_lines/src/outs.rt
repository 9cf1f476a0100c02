//! Messages, and what a cycle has thought that is not yet handed over.
//!
//! After `Starved` a part of the text may stand in `out`.

ghost use Rattle.std.specs.Prelude.{◌≡◌, ◌++◌, OnOk};
ghost use Rattle.std.specs.List.{flat_map};
ghost use Rattle.std.specs.Option.{option_copied};
ghost use Rattle.look_lines.specs.Lines.{line};
ghost use Rattle.look_lines.specs.Outs as spec;

use crate::lines::{name_of, put_head};
use crate::pieces::{Piece, put_pieces};
use asl_term::names::Names;
use asl_term::sequence::Starved;
use asl_term::syntax::{Literal, Text};
use mas_mind::mind::{Message, Outs, Thought, verb_text};
use std::alloc::Global;

/// Appends from whom a message is, or to whom.
#[tactic(auto, unfolding(crate::specs::Outs::route_text))]
fn put_route<'a>(out: &mut Text, names: &'a Names, way: &'a [u8], a: u32) -> Result<(), Starved>
    ensures { OnOk result (out.new ≡ out.old ++ spec.route_text names.now way.now a) }
{
    let blank = Piece::Bytes(b" ");
    let name = Piece::Bytes(name_of(names, a));
    put_pieces(out, &[Piece::Bytes(way), blank, name, blank])
}

/// Appends what a message says.
#[tactic(auto, unfolding(crate::specs::Outs::content_text))]
fn put_content(out: &mut Text, m: &Message) -> Result<(), Starved>
    ensures { OnOk result (out.new ≡ out.old ++ spec.content_text m.now) }
{
    let pieces = [
        Piece::Bytes(verb_text(m.verb).as_bytes()),
        Piece::Bytes(b" "),
        Piece::Term(&m.content),
    ];
    put_pieces(out, &pieces)
}

/// Appends the line of a message.
#[tactic(auto, unfolding(crate::specs::Lines::line))]
fn put_mail(out: &mut Text, names: &Names, way: &[u8], a: u32, m: &Message) -> Result<(), Starved>
    ensures { OnOk result (out.new ≡ out.old ++ spec.mail_line names.now way.now a m.now) }
{
    out.append(b"  ")?;
    put_route(out, names, way, a)?;
    put_content(out, m)?;
    out.append(b"\n")
}

/// Appends the line of a message that waits to be read.
pub fn put_unread(out: &mut Text, names: &Names, m: &Message) -> Result<(), Starved>
    ensures { OnOk result (out.new ≡ out.old ++ spec.unread_line names.now m.now) }
{
    put_mail(out, names, b"from", m.from, m)
}

fn put_each_sent(out: &mut Text, names: &Names, all: &[Message]) -> Result<(), Starved>
    ensures { OnOk result (out.new ≡ out.old ++ flat_map (spec.sent_line names.now) all.now) }
{
    'messages: for m in all {
        put_mail(out, names, b"to", m.to, m)?;
    }
    Ok(())
}

#[tactic(auto, unfolding(crate::specs::Lines::line))]
fn put_action(out: &mut Text, action: &Option<Literal>) -> Result<(), Starved>
    ensures { OnOk result (out.new ≡ out.old ++ spec.action_text action.now) }
{
    match action {
        None => Ok(()),
        Some(action) => {
            let pieces = [
                Piece::Bytes(b"  action "),
                Piece::Literal(action),
                Piece::Bytes(b"\n"),
            ];
            put_pieces(out, &pieces)
        }
    }
}

#[tactic(auto, unfolding(crate::specs::Lines::line))]
fn put_word(out: &mut Text, word: &[u8]) -> Result<(), Starved>
    ensures { OnOk result (out.new ≡ out.old ++ line word.now) }
{
    let pieces = [Piece::Bytes(b"  "), Piece::Bytes(word), Piece::Bytes(b"\n")];
    put_pieces(out, &pieces)
}

fn put_stop(out: &mut Text, stop: bool) -> Result<(), Starved>
    ensures { OnOk result (out.new ≡ out.old ++ spec.stop_text stop) }
{
    if stop { put_word(out, b"stop") } else { Ok(()) }
}

/// How many lines outs have.
fn count(outs: &Outs) -> u64
    ensures { result ≡ spec.count outs.now }
{
    let action = if outs.action.is_some() { 1 } else { 0 };
    let stop = if outs.stop { 1 } else { 0 };
    action + outs.messages.as_slice().len() as u64 + stop
}

#[tactic(auto, unfolding(crate::specs::Outs::outs_text))]
fn put_outs(alloc: Global, out: &mut Text, names: &Names, outs: &Outs) -> Result<(), Starved>
    ensures { OnOk result (out.new ≡ out.old ++ spec.outs_text names.now outs.now) }
{
    put_head(alloc, out, b"out", count(outs))?;
    put_action(out, &outs.action)?;
    put_each_sent(out, names, outs.messages.as_slice())?;
    put_stop(out, outs.stop)
}

/// Appends the part of what a cycle has thought, where one has.
pub fn put_thought(
    alloc: Global,
    out: &mut Text,
    names: &Names,
    thought: Option<&Thought>,
) -> Result<(), Starved>
    ensures { OnOk result (out.new ≡ out.old ++ spec.thought_text names.now (option_copied thought.entry)) }
{
    match thought {
        None => put_head(alloc, out, b"out", 0),
        Some(Thought::Spent) => {
            put_head(alloc, out, b"out", 1)?;
            put_word(out, b"spent")
        }
        Some(Thought::Outs(outs)) => put_outs(alloc, out, names, outs),
    }
}
