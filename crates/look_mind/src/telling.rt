//! All entries of a run, by agent, and behind them how many.
//!
//! After `Starved` a part of the text may stand in `out`.

ghost use Rattle.std.specs.Prelude.{◌≡◌, ◌+◌, ◌++◌, IfOk, OnOk};
ghost use Rattle.look_mind.specs.Entries as spec;

use crate::entries::{is_told, put_agent};
use crate::fallen::RunFalls;
use crate::marks::numbers_at;
use asl_term::names::Names;
use asl_term::sequence::{Seq, Starved};
use asl_term::syntax::{Numbers, Text};
use look_answer::answer::Output;
use look_lines::falls::{FallLine, FallLines};
use look_lines::pieces::{Piece, put_pieces};
use look_lines::words::words;
use look_run::before::TextsBefore;
use std::alloc::Global;

/// So many, and one more where the failure is told by a line with this word.
fn count_on(unhandled: bool, word: &[u8], fall: &FallLine, before: u64) -> u64
    ensures { result ≡ spec.written (before + spec.one_if (spec.is_counted unhandled word.now fall.now)) }
{
    if is_told(unhandled, fall) && words(fall.line.as_slice()).starts_with(word) {
        before.saturating_add(1)
    } else {
        before
    }
}

/// So many, and those of these failures that are told by a line with this word.
#[tactic(auto, using(crate::proofs::Counted::count_step, crate::proofs::Counted::count_end))]
fn count_in(unhandled: bool, word: &[u8], falls: &[FallLine], before: u64) -> u64
    ensures { result ≡ spec.written (before + spec.count unhandled word.now falls.now) }
{
    let mut number = before;
    'falls: for fall in falls {
        number = count_on(unhandled, word, fall, number);
    }
    number
}

/// How many failures of all agents are told by a line with this word.
#[tactic(auto, using(crate::proofs::Counted::count_all_step, crate::proofs::Counted::count_all_end))]
fn count_all(unhandled: bool, word: &[u8], all: &[FallLines]) -> u64
    ensures { result ≡ spec.written (spec.count_all unhandled word.now all.now) }
{
    let mut number = 0;
    'agents: for falls in all {
        number = count_in(unhandled, word, falls.as_slice(), number);
    }
    number
}

/// Appends how many lines of each kind are told.
fn put_counts(out: &mut Text, dropped: u64, failed: u64, spent: u64) -> Result<(), Starved>
    ensures { OnOk result (out.new ≡ out.old ++ spec.numbers_text dropped failed spent) }
{
    let pieces = [
        Piece::Number(dropped),
        Piece::Bytes(b" dropped, "),
        Piece::Number(failed),
        Piece::Bytes(b" failed, "),
        Piece::Number(spent),
        Piece::Bytes(b" spent\n"),
    ];
    put_pieces(out, &pieces)
}

/// The name of the agent at a place, counted from 0; empty where there is none.
fn name_at(names: &Names, k: u64) -> &[u8]
    ensures { result.now ≡ spec.text_at names.now k }
{
    if k >= names.len() as u64 {
        return b"";
    }
    match names.at(k as u32 + 1) {
        Some(name) => name.as_slice(),
        None => b"",
    }
}

/// Appends the entries of all agents, of which these are the turns.
#[tactic(auto, using(crate::proofs::Counted::agents_step, crate::proofs::Counted::agents_end))]
fn put_agents(
    out: &mut Text,
    unhandled: bool,
    fallen: &RunFalls,
    before: &TextsBefore,
    own: &Seq<Numbers>,
) -> Result<(), Starved>
    ensures { OnOk result (out.new ≡ out.old ++ spec.agents_text unhandled fallen.now before.now own.now 0 fallen.now.falls) }
{
    let all = fallen.falls.as_slice();
    let names = fallen.names.get();
    let o = &fallen.options;
    'agents: for k in 0..all.len() {
        let name = name_at(names, k as u64);
        let turns = numbers_at(own, k as u64);
        put_agent(out, unhandled, o, before, name, turns, all[k].as_slice())?;
    }
    Ok(())
}

fn is_some(dropped: u64, failed: u64, spent: u64) -> bool
    ensures { result ≡ spec.some_number dropped failed spent }
{
    dropped > 0 || failed > 0 || spent > 0
}

/// All entries, and whether there is one.
#[tactic(auto, using(crate::proofs::Counted::found_so))]
pub fn entries(
    alloc: Global,
    unhandled: bool,
    fallen: &RunFalls,
    before: &TextsBefore,
    own: &Seq<Numbers>,
) -> Result<Output, Starved>
    ensures found { IfOk result (λ o. o.found ≡ spec.is_some_told unhandled fallen.now.falls) }
    ensures text { IfOk result (λ o. o.text ≡ spec.entries_text unhandled fallen.now before.now own.now) }
{
    let all = fallen.falls.as_slice();
    let dropped = count_all(unhandled, b"drops ", all);
    let failed = count_all(unhandled, b"failed ", all);
    let spent = count_all(unhandled, b"spent ", all);
    let found = is_some(dropped, failed, spent);
    let mut text = Seq::new(alloc);
    put_agents(&mut text, unhandled, fallen, before, own)?;
    put_counts(&mut text, dropped, failed, spent)?;
    Ok(Output { text, found })
}
