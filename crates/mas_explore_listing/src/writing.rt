//! What is written of a list of outcomes.

ghost use Rattle.std.specs.Prelude.{◌≡◌, ◌++◌, ◌+◌, slice_get, IfOk, OnOk};
ghost use Rattle.mas_report.specs.Report.{field};
ghost use Rattle.mas_explore_listing.specs.Text as spec;

use crate::answers::{Answer, Claim, Question};
use asl_term::printing::write_number;
use asl_term::sequence::{Seq, Starved};
use asl_term::syntax::Text;
use mas_explore::listing::{Extent, Listing, Plan, Shown};
use mas_report::options::Options;
use mas_report::report::{LATEST, put_options};
use mas_report_schedule::schedule::put_schedule;
use std::alloc::Global;

fn extent_word(extent: Extent) -> &'static [u8]
    ensures { result.now ≡ spec.extent_word extent }
{
    match extent {
        Extent::All => b"all",
        Extent::Bound => b"bound",
        Extent::Unshown => b"unshown",
    }
}

fn put_field(alloc: Global, out: &mut Text, word: &[u8], n: u64) -> Result<(), Starved>
    ensures { OnOk result (out.new ≡ out.old ++ field word.now n) }
{
    out.append(word)?;
    write_number(alloc, n, out)
}

/// Appends how far a list goes, and its numbers.
#[tactic(auto, unfolding(crate::specs::Text::counts_line))]
fn put_counts(alloc: Global, out: &mut Text, f: &Listing) -> Result<(), Starved>
    ensures { OnOk result (out.new ≡ out.old ++ spec.counts_line f.now) }
{
    out.append(extent_word(f.extent))?;
    put_field(alloc, out, b" outcomes ", f.list.len())?;
    put_field(alloc, out, b" states ", f.states)?;
    out.append(b"\n")
}

/// The options of the run along a plan.
fn options_of(o: &Options, plan: &Plan) -> Options
    ensures { result ≡ spec.options_of o.now plan.now }
{
    Options {
        cycles: plan.cycles,
        lead: plan.lead,
        depth: o.depth,
        tries: o.tries,
        level: o.level,
    }
}

/// Appends an outcome, with its number and its run.
#[tactic(auto, unfolding(crate::specs::Text::entry_text))]
fn put_entry(alloc: Global, out: &mut Text, o: &Options, n: u64, e: &Shown) -> Result<(), Starved>
    ensures { OnOk result (out.new ≡ out.old ++ spec.entry_text o.now n e.now) }
{
    put_field(alloc, out, b"outcome ", n)?;
    out.append(b"\n")?;
    put_options(alloc, out, &options_of(o, &e.plan))?;
    out.append(e.text.as_slice())?;
    put_schedule(alloc, LATEST, out, e.plan.schedule.as_slice())
}

fn put_entries(alloc: Global, out: &mut Text, o: &Options, list: &[Shown]) -> Result<(), Starved>
    ensures { OnOk result (out.new ≡ out.old ++ spec.entries_text o.now 1 list.now) }
{
    let mut n: u64 = 1;
    let mut rest = list;
    'entries: while let Some((e, after)) = rest.split_first() {
        put_entry(alloc, out, o, n, e)?;
        n += 1;
        rest = after;
    }
    Ok(())
}

/// Appends what stands before the outcomes.
#[tactic(auto, unfolding(crate::specs::Text::head_text))]
fn put_head(alloc: Global, out: &mut Text, f: &Listing) -> Result<(), Starved>
    ensures { OnOk result (out.new ≡ out.old ++ spec.head_text f.now) }
{
    out.append(b"explore 1\n")?;
    put_counts(alloc, out, f)
}

/// The text of a list.
pub fn listing_text(alloc: Global, o: &Options, f: &Listing) -> Result<Text, Starved>
    ensures { IfOk result (λ t. t ≡ spec.listing_text o.now f.now) }
{
    let mut out = Seq::new(alloc);
    put_head(alloc, &mut out, f)?;
    put_entries(alloc, &mut out, o, f.list.as_slice())?;
    Ok(out)
}

fn claim_word(claim: Claim) -> &'static [u8]
    ensures { result.now ≡ spec.claim_word claim }
{
    match claim {
        Claim::Never => b"never ",
        Claim::Always => b"always ",
    }
}

fn answer_line(answer: Answer) -> &'static [u8]
    ensures { result.now ≡ spec.answer_line answer }
{
    match answer {
        Answer::Holds => b"yes\n",
        Answer::Fails(_) => b"no\n",
        Answer::Unknown => b"unknown\n",
    }
}

/// Appends a claim and its answer.
#[tactic(auto, unfolding(crate::specs::Text::claim_text))]
fn put_claim(out: &mut Text, q: &Question, answer: Answer) -> Result<(), Starved>
    ensures { OnOk result (out.new ≡ out.old ++ spec.claim_text q.now answer) }
{
    out.append(claim_word(q.claim))?;
    out.append(q.line.as_slice())?;
    out.append(answer_line(answer))
}

/// Appends the outcome at a place, where there is one.
#[tactic(auto, using(crate::proofs::Entries::none_past))]
fn put_entry_at(
    alloc: Global,
    out: &mut Text,
    o: &Options,
    list: &Seq<Shown>,
    place: u64,
) -> Result<(), Starved>
    ensures { OnOk result (out.new ≡ out.old ++ spec.entry_or_none o.now (place + 1) (slice_get list.now place)) }
{
    if place >= list.len() {
        return Ok(());
    }
    match list.at(place) {
        None => Ok(()),
        Some(e) => put_entry(alloc, out, o, place + 1, e),
    }
}

/// Appends the outcome that speaks against a claim, where there is one.
fn put_against(
    alloc: Global,
    out: &mut Text,
    o: &Options,
    f: &Listing,
    answer: Answer,
) -> Result<(), Starved>
    ensures { OnOk result (out.new ≡ out.old ++ spec.against_text o.now f.now answer) }
{
    match answer {
        Answer::Holds | Answer::Unknown => Ok(()),
        Answer::Fails(place) => put_entry_at(alloc, out, o, &f.list, place),
    }
}

/// The text of an answer, with the outcome that speaks against the claim.
pub fn answered_text(
    alloc: Global,
    o: &Options,
    f: &Listing,
    q: &Question,
    answer: Answer,
) -> Result<Text, Starved>
    ensures { IfOk result (λ t. t ≡ spec.answered_text o.now f.now q.now answer) }
{
    let mut out = Seq::new(alloc);
    put_head(alloc, &mut out, f)?;
    put_claim(&mut out, q, answer)?;
    put_against(alloc, &mut out, o, f, answer)?;
    Ok(out)
}
