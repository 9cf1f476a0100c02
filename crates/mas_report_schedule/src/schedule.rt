//! The two lines of a schedule.

ghost use Rattle.std.specs.Prelude.{◌≡◌, ◌<◌, ◌≤◌, ◌+◌, ◌-◌, ◌^◌, ◌∷◌, ◌++◌, ℕ, List, IfOk, OnOk, OnErr};
ghost use Rattle.mas_report_schedule.specs.Schedule.{IsVersion, entries_text, entries_of, runs, runs_on, schedule_text, singles};

use crate::entry::{ScheduleEntry, once, put_entry};
use asl_term::printing::write_number;
use asl_term::sequence::{Seq, Starved};
use asl_term::syntax::Text;
use std::alloc::Global;

/// Appends an entry for each number.
#[tactic(auto, using(crate::proofs::Written::single_first, crate::proofs::Written::single_next))]
fn put_singles(alloc: Global, out: &mut Text, names: &[u64]) -> Result<(), Starved>
    ensures { OnOk result (out.new ≡ out.old ++ entries_text (singles names.now)) }
{
    let Some((first, more)) = names.split_first() else {
        return Ok(());
    };
    put_entry(alloc, out, once(*first))?;
    for n in more {
        out.append(b" ")?;
        put_entry(alloc, out, once(*n))?;
    }
    Ok(())
}

/// One number more behind a run that has begun: it makes the run longer, or else that is appended, and this is the next run.
#[tactic(auto, using(crate::proofs::Written::run_longer, crate::proofs::Written::run_ended))]
fn put_next(
    alloc: Global,
    out: &mut Text,
    run: ScheduleEntry,
    n: u64,
) -> Result<ScheduleEntry, Starved>
    requires { run.times < 2 ^ 64 - 1 }
    ensures text { IfOk result (λ next. (ns : List ℕ) →
        out.new ++ entries_text (runs_on next ns) ≡ out.old ++ entries_text (runs_on run (n ∷ ns))) }
    ensures few { IfOk result (λ next. next.times ≤ run.times + 1) }
{
    if n == run.agent {
        return Ok(ScheduleEntry {
            agent: run.agent,
            times: run.times + 1,
        });
    }
    put_entry(alloc, out, run)?;
    out.append(b" ")?;
    Ok(once(n))
}

/// Appends an entry for each maximal run of equal numbers.
fn put_runs(alloc: Global, out: &mut Text, names: &[u64]) -> Result<(), Starved>
    ensures { OnOk result (out.new ≡ out.old ++ entries_text (runs names.now)) }
{
    let Some((first, more)) = names.split_first() else {
        return Ok(());
    };
    let mut run = once(*first);
    for n in more {
        run = put_next(alloc, out, run, *n)?;
    }
    put_entry(alloc, out, run)
}

/// Appends the entries that the numbers have in this version.
fn put_entries(alloc: Global, version: u32, out: &mut Text, names: &[u64]) -> Result<(), Starved>
    ensures { OnOk result (out.new ≡ out.old ++ entries_text (entries_of version names.now)) }
{
    if version == 1 {
        put_singles(alloc, out, names)
    } else {
        put_runs(alloc, out, names)
    }
}

fn put_lines(alloc: Global, version: u32, out: &mut Text, names: &[u64]) -> Result<(), Starved>
    ensures { OnOk result (out.new ≡ out.old ++ schedule_text version names.now) }
{
    out.append(b"schedule ")?;
    write_number(alloc, names.len() as u64, out)?;
    out.append(b"\n")?;
    put_entries(alloc, version, out, names)?;
    out.append(b"\n")
}

/// Appends `schedule N` and the line of the entries that the N numbers have in this version, whole or not at all.
pub fn put_schedule(
    alloc: Global,
    version: u32,
    out: &mut Text,
    names: &[u64],
) -> Result<(), Starved>
    requires { IsVersion version }
    ensures ok { OnOk result (out.new ≡ out.old ++ schedule_text version names.now) }
    ensures err { OnErr result (out.new ≡ out.old) }
{
    let mut lines = Seq::new(alloc);
    put_lines(alloc, version, &mut lines, names)?;
    out.append(lines.as_slice())
}
