//! What rows write and send, behind what the cycle has written and sent so far.

ghost use Rattle.std.specs.Prelude.{◌≡◌, ◌++◌, [], ◌∷◌, map, option_to_list, IfOk, OnOk};
ghost use Rattle.asl_cycle.specs.declared.rows.TraceLine.TheVariants as line;
ghost use Rattle.asl_exec_circumstance.specs.Circumstance as specs;
ghost use Rattle.asl_cycle.specs.Steps as spec;

use crate::rows::{Lines, Mail, Sofar, TraceLine};
use asl_exec_circumstance::peers::{Peers, agent_name};
use asl_exec_circumstance::rows::{Fall, Row};
use asl_fail::fail::Fell;
use asl_intend::agenda::Error;
use asl_kqml::took::Took;
use asl_term::copying::copy;
use asl_term::sequence::Starved;
use mas_mind::mind::{Message, Messages};
use std::alloc::Global;

/// Puts the line of a row last.
pub fn rule(sofar: &mut Sofar, row: Row) -> Result<(), Starved>
    ensures { OnOk result (sofar.new ≡ record sofar.old { lines = sofar.old.lines ++ line.Rule row ∷ [] }) }
{
    sofar.lines.push(TraceLine::Rule(row))
}

/// Puts so many rows Fail2 last.
fn put_popped(lines: &mut Lines, n: u64) -> Result<(), Starved>
    ensures { OnOk result (lines.new ≡ lines.old ++ spec.pops n) }
{
    for _ in 0..n {
        lines.push(TraceLine::Rule(Row::Fail2))?;
    }
    Ok(())
}

/// Puts the rows of a failure last.
pub fn put_fall(lines: &mut Lines, e: Error, fell: Fell) -> Result<(), Starved>
    ensures { OnOk result (lines.new ≡ lines.old ++ spec.fall_lines e fell) }
{
    match fell {
        Fell::Raised(n) => {
            put_popped(lines, n.saturating_sub(1))?;
            lines.push(TraceLine::Rule(Row::Fail1))
        }
        Fell::Dropped(n) => {
            put_popped(lines, n)?;
            lines.push(TraceLine::Rule(Row::Fail3))?;
            lines.push(TraceLine::Drops(e))
        }
    }
}

/// Puts the rows of several failures last, one after another.
fn put_falls(lines: &mut Lines, falls: &[Fall]) -> Result<(), Starved>
    ensures { OnOk result (lines.new ≡ lines.old ++ spec.falls_lines falls.now) }
{
    for fall in falls {
        put_fall(lines, fall.error, fall.fell)?;
    }
    Ok(())
}

/// Puts the line of a row last, and the rows of several failures.
pub fn put_falling(sofar: &mut Sofar, row: Row, falls: &[Fall]) -> Result<(), Starved>
    ensures { OnOk result (sofar.new ≡ record sofar.old { lines = sofar.old.lines ++ line.Rule row ∷ spec.falls_lines falls.now }) }
{
    rule(sofar, row)?;
    put_falls(&mut sofar.lines, falls)
}

/// A message as a line tells it, with the name of the other agent.
fn mail_of(alloc: Global, peers: &Peers, other: u32, m: &Message) -> Result<Mail, Starved>
    ensures { IfOk result (λ r. r ≡ spec.mail peers.now other m.now) }
{
    Ok(Mail {
        who: agent_name(alloc, peers.names.get(), other)?,
        verb: m.verb,
        content: copy(alloc, &m.content)?,
    })
}

/// Puts the line of a message that is sent last, and the message behind those before it.
pub fn send(alloc: Global, peers: &Peers, sofar: &mut Sofar, m: Message) -> Result<(), Starved>
    ensures { OnOk result (sofar.new ≡ record sofar.old {
      lines = sofar.old.lines ++ spec.sends_line peers.now m ∷ [];
      messages = sofar.old.messages ++ m ∷ [];
    }) }
{
    let mail = mail_of(alloc, peers, m.to, &m)?;
    sofar.lines.push(TraceLine::Sends(mail))?;
    sofar.messages.push(m)
}

/// The same of several messages, in order.
pub fn send_all(
    alloc: Global,
    peers: &Peers,
    sofar: &mut Sofar,
    messages: Messages,
) -> Result<(), Starved>
    ensures { OnOk result (sofar.new ≡ record sofar.old {
      lines = sofar.old.lines ++ map (spec.sends_line peers.now) messages;
      messages = sofar.old.messages ++ messages;
    }) }
{
    for m in messages.into_vec() {
        send(alloc, peers, sofar, m)?;
    }
    Ok(())
}

/// Sends a reply, where there is one.
fn send_reply(
    alloc: Global,
    peers: &Peers,
    sofar: &mut Sofar,
    reply: Option<Message>,
) -> Result<(), Starved>
    ensures { OnOk result (sofar.new ≡ record sofar.old {
      lines = sofar.old.lines ++ map (spec.sends_line peers.now) (option_to_list reply);
      messages = sofar.old.messages ++ option_to_list reply;
    }) }
{
    match reply {
        None => Ok(()),
        Some(m) => send(alloc, peers, sofar, m),
    }
}

/// Puts the line of a message that was received last.
fn put_taken(alloc: Global, peers: &Peers, lines: &mut Lines, m: &Message) -> Result<(), Starved>
    ensures { OnOk result (lines.new ≡ lines.old ++ spec.took_line peers.now m.now ∷ []) }
{
    let mail = mail_of(alloc, peers, m.from, m)?;
    lines.push(TraceLine::Took(mail))
}

/// Puts what the row of a message did last, and says whether the cycle goes on.
pub fn put_took(
    alloc: Global,
    peers: &Peers,
    sofar: &mut Sofar,
    m: &Message,
    took: Took,
) -> Result<bool, Starved>
    ensures made { (p : specs.Circumstance) → IfOk result (λ next. spec.took_row peers.now sofar.old m.now p took ≡ spec.moved p sofar.new next) }
    ensures asks { OnOk result (sofar.new.asks ≡ sofar.old.asks) }
{
    match took {
        Took::Row { row, reply, falls } => {
            rule(sofar, row)?;
            put_taken(alloc, peers, &mut sofar.lines, m)?;
            send_reply(alloc, peers, sofar, reply)?;
            put_falls(&mut sofar.lines, falls.as_slice())?;
            Ok(true)
        }
        Took::Spent(spent) => {
            rule(sofar, Row::AskSpent)?;
            put_taken(alloc, peers, &mut sofar.lines, m)?;
            sofar.lines.push(TraceLine::Spent(spent))?;
            Ok(false)
        }
    }
}
