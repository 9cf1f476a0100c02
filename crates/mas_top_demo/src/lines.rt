//! The lines of the demo.

ghost use Rattle.std.specs.Prelude.{◌≡◌, ◌++◌, if◌then◌else◌, decimal, option_copied, IfOk, OnOk};
ghost use Rattle.mas_world.specs.Worlds.{facts};
ghost use Rattle.mas_top_demo.specs.Lines as spec;

use asl_term::printing::{print, write_number};
use asl_term::sequence::{Seq, Starved};
use asl_term::syntax::{Literal, Term, Text};
use mas_board::board::Board;
use mas_board::seats::Phase;
use mas_mind::mind::End;
use mas_world::artifact::Artifact;
use std::alloc::Global;

fn is_tally(fact: &Literal) -> bool
    ensures { result ≡ spec.is_tally fact.now }
{
    !fact.neg && fact.functor.as_slice() == b"tally".as_slice()
}

/// The term of a fact `tally(t)`.
fn counted(fact: &Literal) -> Option<&Term>
    ensures { option_copied result ≡ spec.counted fact.now }
{
    if !is_tally(fact) {
        return None;
    }
    match fact.args.as_slice() {
        [term] => Some(term),
        _ => None,
    }
}

/// Appends the first such term, or `0`.
fn put_tally(out: &mut Text, all: &[Literal]) -> Result<(), Starved>
    ensures { OnOk result (out.new ≡ out.old ++ spec.tally_text all.now) }
{
    'facts: for fact in all {
        if let Some(term) = counted(fact) {
            return print(term, out);
        }
    }
    out.append(b"0")
}

/// 1 for the end `quiet`, and 0 for another phase.
fn quiet_end(phase: Phase) -> u64
    ensures { result ≡ if spec.is_quiet phase then 1 else 0 }
{
    match phase {
        Phase::Left(End::Quiet) => 1,
        _ => 0,
    }
}

/// How many agents have left with the end `quiet`.
#[tactic(auto, using(crate::proofs::Counted::all_counted))]
fn quiet_ends<A: Artifact>(b: &Board<A>) -> u64
    ensures { result ≡ spec.quiet_ends b.now.state.seats }
{
    b.holds();
    let agents = b.names().len();
    let mut quiet: u64 = 0;
    let mut a: u32 = 1;
    'agents: while a <= agents {
        quiet += quiet_end(b.phase(a));
        a += 1;
    }
    quiet
}

#[tactic(auto, unfolding(crate::specs::Lines::line))]
fn put_line(out: &mut Text, word: &[u8], told: &[u8]) -> Result<(), Starved>
    ensures { OnOk result (out.new ≡ out.old ++ spec.line word.now told.now) }
{
    out.append(word)?;
    out.append(told)?;
    out.append(b"\n")
}

fn number_text(alloc: Global, n: u64) -> Result<Text, Starved>
    ensures { IfOk result (λ text. text ≡ decimal n) }
{
    let mut text = Seq::new(alloc);
    write_number(alloc, n, &mut text)?;
    Ok(text)
}

fn tally_text(alloc: Global, all: &[Literal]) -> Result<Text, Starved>
    ensures { IfOk result (λ text. text ≡ spec.tally_text all.now) }
{
    let mut text = Seq::new(alloc);
    put_tally(&mut text, all)?;
    Ok(text)
}

/// The lines of the demo with so many agents, at the end of its run.
pub fn demo_lines<A: Artifact>(
    alloc: Global,
    agents: u32,
    board: &Board<A>,
) -> Result<Text, Starved>
    ensures { IfOk result (λ text. text ≡ spec.demo_text agents board.now.state) }
{
    let all = board.world().facts(alloc)?;
    let number = number_text(alloc, agents as u64)?;
    let tally = tally_text(alloc, all.as_slice())?;
    let quiet = number_text(alloc, quiet_ends(board))?;
    let mut out = Seq::new(alloc);
    put_line(&mut out, b"demo ", number.as_slice())?;
    put_line(&mut out, b"agents ", number.as_slice())?;
    put_line(&mut out, b"tally ", tally.as_slice())?;
    put_line(&mut out, b"quiet ", quiet.as_slice())?;
    Ok(out)
}
