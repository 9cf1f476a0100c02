//! The entries of failures: for each line of a failure its agent, cycle and turn, the row that made it, why, and what stack the agent had in mind.
//!
//! After `Starved` a part of the text may stand in `out`.

ghost use Rattle.std.specs.Prelude.{◌≡◌, ◌++◌, OnOk};
ghost use Rattle.look_mind.specs.Entries as spec;

use crate::marks::{cycle_of, turn_of};
use crate::reasons::{StackPlace, place_of, why};
use asl_term::sequence::Starved;
use asl_term::syntax::Text;
use look_lines::falls::FallLine;
use look_lines::pieces::{Piece, put_pieces};
use look_lines::words::words;
use look_run::before::TextsBefore;
use mas_report::options::Options;

/// Appends the line that says who, when and what.
#[tactic(auto, unfolding(crate::specs::Entries::heading, crate::specs::Entries::turn_text))]
fn put_heading<'a>(
    out: &mut Text,
    name: &'a [u8],
    turn: u64,
    fall: &'a FallLine,
) -> Result<(), Starved>
    ensures { OnOk result (out.new ≡ out.old ++ spec.heading name.now turn fall.now) }
{
    let pieces = [
        Piece::Bytes(name),
        Piece::Bytes(b" cycle "),
        Piece::Number(cycle_of(fall)),
        Piece::Bytes(b" turn "),
        Piece::Number(turn),
        Piece::Bytes(b": "),
        Piece::Bytes(words(fall.line.as_slice())),
        Piece::Bytes(b"\n"),
    ];
    put_pieces(out, &pieces)
}

/// Appends the row, and why it failed.
#[tactic(auto, unfolding(crate::specs::Entries::row_text))]
fn put_row(out: &mut Text, fall: &FallLine) -> Result<(), Starved>
    ensures { OnOk result (out.new ≡ out.old ++ spec.row_text fall.now) }
{
    let row = fall.row.as_slice();
    let pieces = [
        Piece::Bytes(b"  "),
        Piece::Bytes(row),
        Piece::Bytes(b"\n  why  "),
        Piece::Bytes(why(row, words(fall.line.as_slice()))),
        Piece::Bytes(b"\n"),
    ];
    put_pieces(out, &pieces)
}

/// Appends an option with its number.
#[tactic(auto, unfolding(crate::specs::Entries::past_text))]
fn put_past(out: &mut Text, option: &[u8], number: u64) -> Result<(), Starved>
    ensures { OnOk result (out.new ≡ out.old ++ spec.past_text option.now number) }
{
    let pieces = [
        Piece::Bytes(b"  past "),
        Piece::Bytes(option),
        Piece::Number(number),
        Piece::Bytes(b"\n"),
    ];
    put_pieces(out, &pieces)
}

/// What became of the stack of an action that failed.
fn then_line(taken_up: bool) -> &'static [u8]
    ensures { result.now ≡ spec.then_text taken_up }
{
    if taken_up {
        b"  then a failure plan\n"
    } else {
        b"  then dropped\n"
    }
}

/// Appends what became of an action's stack, or the option that a search used up.
fn put_outcome(out: &mut Text, o: &Options, fall: &FallLine) -> Result<(), Starved>
    ensures { OnOk result (out.new ≡ out.old ++ spec.outcome_text o.now fall.now) }
{
    let said = words(fall.line.as_slice());
    if said == b"spent depth".as_slice() {
        put_past(out, b"--depth ", o.depth)
    } else if said == b"spent tries".as_slice() {
        put_past(out, b"--tries ", o.tries)
    } else if said.starts_with(b"failed ") {
        out.append(then_line(fall.taken_up))
    } else {
        Ok(())
    }
}

/// A text at a place; empty where there is none.
fn text_at(texts: &[Text], at: usize) -> &[u8]
    ensures { result.now ≡ spec.text_at texts.now at }
{
    match texts.get(at) {
        Some(text) => text.as_slice(),
        None => b"",
    }
}

/// What stands behind the first line feed.
fn below_head(text: &[u8]) -> &[u8]
    ensures { result.now ≡ spec.below_head text.now }
{
    let mut rest = text;
    'bytes: while let Some((byte, behind)) = rest.split_first() {
        rest = behind;
        if *byte == b'\n' {
            return rest;
        }
    }
    rest
}

fn is_nothing(text: &[u8]) -> bool
    ensures { result ≡ spec.is_nothing text.now }
{
    match text.split_first() {
        None => true,
        Some(_) => false,
    }
}

/// A stack as it is told: its name, and what is told of it.
#[derive(Clone, Copy)]
struct ToldStack<'a> {
    name: &'a [u8],
    text: &'a [u8],
}

/// A text below its name, where there is one.
fn named<'a>(name: &'a [u8], text: &'a [u8]) -> ToldStack<'a>
    ensures { result.name.now ++ result.text.now ≡ spec.named name.now text.now }
{
    if is_nothing(text) {
        ToldStack { name: b"", text }
    } else {
        ToldStack { name, text }
    }
}

/// The stacks that wait for an answer.
fn asks(texts: &[Text]) -> ToldStack<'_>
    ensures { result.name.now ++ result.text.now ≡ spec.asks_text texts.now }
{
    ToldStack {
        name: b"",
        text: below_head(text_at(texts, 3)),
    }
}

/// The stack that was to run in a cycle: the first that ran, else the one that waited for its action, else that of the oldest event.
fn running(texts: &[Text]) -> ToldStack<'_>
    ensures { result.name.now ++ result.text.now ≡ spec.running_text texts.now }
{
    let next = text_at(texts, 1);
    let acting = text_at(texts, 2);
    let event = text_at(texts, 0);
    if !is_nothing(next) {
        ToldStack {
            name: b"  stack\n",
            text: next,
        }
    } else if !is_nothing(acting) {
        ToldStack {
            name: b"  acting\n",
            text: acting,
        }
    } else if !is_nothing(event) {
        ToldStack {
            name: b"  event\n",
            text: event,
        }
    } else {
        asks(texts)
    }
}

/// What the agent had in mind before the cycle, of the stack at this place.
fn placed(place: StackPlace, texts: &[Text]) -> ToldStack<'_>
    ensures { result.name.now ++ result.text.now ≡ spec.placed_text place texts.now }
{
    match place {
        StackPlace::Nowhere => named(b"", b""),
        StackPlace::Running => running(texts),
        StackPlace::Ask => asks(texts),
        StackPlace::Event => named(b"  event\n", text_at(texts, 0)),
        StackPlace::Acting => named(b"  acting\n", text_at(texts, 2)),
    }
}

/// Appends what the agent had in mind before a turn, of the stack of the row.
fn put_mind(out: &mut Text, before: &TextsBefore, turn: u64, row: &[u8]) -> Result<(), Starved>
    ensures { OnOk result (out.new ≡ out.old ++ spec.mind_text before.now turn row.now) }
{
    match before.at(turn.saturating_sub(1)) {
        Some(texts) => {
            let told = placed(place_of(row), texts.as_slice());
            out.append(told.name)?;
            out.append(told.text)
        }
        None => Ok(()),
    }
}

/// Appends an entry.
#[tactic(auto, unfolding(crate::specs::Entries::entry_text))]
fn put_entry(
    out: &mut Text,
    o: &Options,
    before: &TextsBefore,
    name: &[u8],
    turn: u64,
    fall: &FallLine,
) -> Result<(), Starved>
    ensures { OnOk result (out.new ≡ out.old ++ spec.entry_text o.now before.now name.now turn fall.now) }
{
    put_heading(out, name, turn, fall)?;
    put_row(out, fall)?;
    put_outcome(out, o, fall)?;
    put_mind(out, before, turn, fall.row.as_slice())?;
    out.append(b"\n")
}

/// Whether a failure is told: of those that a failure plan takes up only where all are.
pub fn is_told(unhandled: bool, fall: &FallLine) -> bool
    ensures { result ≡ spec.is_told unhandled fall.now }
{
    !(unhandled && fall.taken_up)
}

/// Appends an entry, where the failure is told.
fn put_told(
    out: &mut Text,
    unhandled: bool,
    o: &Options,
    before: &TextsBefore,
    name: &[u8],
    own: &[u64],
    fall: &FallLine,
) -> Result<(), Starved>
    ensures { OnOk result (out.new ≡ out.old ++ spec.told_text unhandled o.now before.now name.now own.now fall.now) }
{
    if is_told(unhandled, fall) {
        put_entry(out, o, before, name, turn_of(own, fall), fall)
    } else {
        Ok(())
    }
}

/// Appends the entries of an agent, of which these are the turns.
pub fn put_agent(
    out: &mut Text,
    unhandled: bool,
    o: &Options,
    before: &TextsBefore,
    name: &[u8],
    own: &[u64],
    falls: &[FallLine],
) -> Result<(), Starved>
    ensures { OnOk result (out.new ≡ out.old ++ spec.agent_text unhandled o.now before.now name.now own.now falls.now) }
{
    'falls: for fall in falls {
        put_told(out, unhandled, o, before, name, own, fall)?;
    }
    Ok(())
}
