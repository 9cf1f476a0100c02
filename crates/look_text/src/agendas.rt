//! Events, and stacks that run or wait.
//!
//! After `Starved` a part of the text may stand in `out`.

ghost use Rattle.std.specs.Prelude.{◌≡◌, ◌<◌, ◌+◌, ◌^◌, ◌++◌, codes, OnOk};
ghost use Rattle.std.specs.List.{flat_map};
ghost use Rattle.asl_print.specs.Agents.{trigger_text};
ghost use Rattle.look_text.specs.Agendas as spec;
ghost use Rattle.look_lines.specs.Lines.{part};

use crate::stacks::put_stack;
use asl_fail::failure::error_name;
use asl_intend::agenda::{Acting, Agenda, Ask, Event, Events, Running};
use asl_intend::event_trigger::EventTrigger;
use asl_intend::stack::Stack;
use asl_print::printing::write_trigger;
use asl_term::sequence::Starved;
use asl_term::syntax::Text;
use look_lines::lines::put_head;
use look_lines::pieces::{Piece, put_pieces};
use mas_mind::mind::Feedback;
use std::alloc::Global;

fn stand_text(stack: &Stack) -> &'static [u8]
    ensures { result.now ≡ spec.stand_text stack.now }
{
    if stack.len() == 0 {
        b"  external"
    } else {
        b"  on a stack"
    }
}

/// Appends what stands behind the trigger in the line of an event.
fn put_standing(out: &mut Text, e: &Event) -> Result<(), Starved>
    ensures { OnOk result (out.new ≡ out.old ++ (spec.error_text e.now.error ++ (spec.stand_text e.now.stack ++ codes "\n"))) }
{
    let stand = Piece::Bytes(stand_text(&e.stack));
    let end = Piece::Bytes(b"\n");
    match e.error {
        None => put_pieces(out, &[stand, end]),
        Some(error) => {
            let name = Piece::Bytes(error_name(error));
            put_pieces(out, &[Piece::Bytes(b"  error "), name, stand, end])
        }
    }
}

/// Appends the trigger of an event. One that passes the limits of a term is built for that, where it may be.
pub fn put_trigger(alloc: Global, out: &mut Text, t: &EventTrigger) -> Result<(), Starved>
    ensures { OnOk result (out.new ≡ out.old ++ trigger_text t.now) }
{
    match t.built() {
        Some(t) => write_trigger(t, out),
        None => {
            let full = t.full(alloc)?;
            let written = write_trigger(&full, out);
            drop(full);
            written
        }
    }
}

/// Appends the line of an event, and its stack.
#[tactic(auto, unfolding(crate::specs::Agendas::event_text, look_lines::specs::Lines::line))]
fn put_event(alloc: Global, out: &mut Text, e: &Event) -> Result<(), Starved>
    ensures { OnOk result (out.new ≡ out.old ++ spec.event_text e.now) }
{
    out.append(b"  ")?;
    put_trigger(alloc, out, &e.trigger)?;
    put_standing(out, e)?;
    put_stack(alloc, out, &e.stack)
}

fn put_each_event(alloc: Global, out: &mut Text, all: &[Event]) -> Result<(), Starved>
    ensures { OnOk result (out.new ≡ out.old ++ flat_map spec.event_text all.now) }
{
    'events: for e in all {
        put_event(alloc, out, e)?;
    }
    Ok(())
}

/// Appends the part of the events, the oldest first.
pub fn put_events(alloc: Global, out: &mut Text, events: &Events) -> Result<(), Starved>
    ensures { OnOk result (out.new ≡ out.old ++ part (codes "events") spec.event_text events.now) }
{
    let (front, back) = events.parts();
    put_head(
        alloc,
        out,
        b"events",
        front.len() as u64 + back.len() as u64,
    )?;
    put_each_event(alloc, out, front)?;
    put_each_event(alloc, out, back)
}

/// Appends a stack that runs, with its number.
#[tactic(auto, unfolding(crate::specs::Agendas::running_text, look_lines::specs::Lines::line))]
fn put_numbered(alloc: Global, out: &mut Text, k: u64, stack: &Stack) -> Result<(), Starved>
    ensures { OnOk result (out.new ≡ out.old ++ spec.running_text k stack.now) }
{
    let pieces = [
        Piece::Bytes(b"  stack "),
        Piece::Number(k),
        Piece::Bytes(b"\n"),
    ];
    put_pieces(out, &pieces)?;
    put_stack(alloc, out, stack)
}

/// Appends stacks that run, with their numbers from the one behind this on.
#[tactic(auto, using(crate::proofs::Numbered::running_step, crate::proofs::Numbered::running_end))]
fn put_each_running(
    alloc: Global,
    out: &mut Text,
    before: u64,
    all: &[Stack],
) -> Result<(), Starved>
    requires { before < 2 ^ 63 }
    ensures { OnOk result (out.new ≡ out.old ++ spec.running_from (before + 1) all.now) }
{
    'stacks: for k in 0..all.len() {
        put_numbered(alloc, out, before + k as u64 + 1, &all[k])?;
    }
    Ok(())
}

/// Appends the part of the stacks that run, the next to run first.
pub fn put_running(alloc: Global, out: &mut Text, all: &Running) -> Result<(), Starved>
    ensures { OnOk result (out.new ≡ out.old ++ spec.intentions_text all.now) }
{
    let (front, back) = all.parts();
    let first = front.len() as u64;
    put_head(alloc, out, b"intentions", first + back.len() as u64)?;
    put_each_running(alloc, out, 0, front)?;
    put_each_running(alloc, out, first, back)
}

fn kept_text(kept: Option<Feedback>) -> &'static [u8]
    ensures { result.now ≡ spec.kept_text kept }
{
    match kept {
        None => b"",
        Some(Feedback::Done) => b"  done",
        Some(Feedback::Failed) => b"  failed",
    }
}

#[tactic(auto, unfolding(crate::specs::Agendas::held_text, look_lines::specs::Lines::line))]
fn put_held(
    alloc: Global,
    out: &mut Text,
    kept: Option<Feedback>,
    a: &Acting,
) -> Result<(), Starved>
    ensures { OnOk result (out.new ≡ out.old ++ spec.held_text kept a.now) }
{
    let pieces = [
        Piece::Bytes(b"  action "),
        Piece::Literal(&a.action),
        Piece::Bytes(kept_text(kept)),
        Piece::Bytes(b"\n"),
    ];
    put_pieces(out, &pieces)?;
    put_stack(alloc, out, &a.stack)
}

/// Appends the part of the stack that waits for its action.
pub fn put_acting(
    alloc: Global,
    out: &mut Text,
    kept: Option<Feedback>,
    acting: &Option<Acting>,
) -> Result<(), Starved>
    ensures { OnOk result (out.new ≡ out.old ++ spec.acting_text kept acting.now) }
{
    match acting {
        None => put_head(alloc, out, b"acting", 0),
        Some(a) => {
            put_head(alloc, out, b"acting", 1)?;
            put_held(alloc, out, kept, a)
        }
    }
}

/// Appends the line of a stack that waits for an answer, and the stack.
#[tactic(auto, unfolding(crate::specs::Agendas::ask_text, look_lines::specs::Lines::line))]
fn put_ask(alloc: Global, out: &mut Text, q: &Ask) -> Result<(), Starved>
    ensures { OnOk result (out.new ≡ out.old ++ spec.ask_text q.now) }
{
    let pieces = [
        Piece::Bytes(b"  ask "),
        Piece::Number(q.number),
        Piece::Bytes(b" into "),
        Piece::Term(&q.answer),
        Piece::Bytes(b"\n"),
    ];
    put_pieces(out, &pieces)?;
    put_stack(alloc, out, &q.stack)
}

/// Appends the part of the stacks that wait for an answer.
pub fn put_asks(alloc: Global, out: &mut Text, all: &[Ask]) -> Result<(), Starved>
    ensures { OnOk result (out.new ≡ out.old ++ part (codes "asks") spec.ask_text all.now) }
{
    put_head(alloc, out, b"asks", all.len() as u64)?;
    'asks: for q in all {
        put_ask(alloc, out, q)?;
    }
    Ok(())
}

/// Appends the parts of an agenda, of an agent that was told this of its action.
#[tactic(auto, unfolding(crate::specs::Agendas::agenda_text))]
pub fn put_agenda(
    alloc: Global,
    out: &mut Text,
    kept: Option<Feedback>,
    a: &Agenda,
) -> Result<(), Starved>
    ensures { OnOk result (out.new ≡ out.old ++ spec.agenda_text kept a.now) }
{
    put_events(alloc, out, &a.events)?;
    put_running(alloc, out, &a.running)?;
    put_acting(alloc, out, kept, &a.acting)?;
    put_asks(alloc, out, a.asks.as_slice())
}
