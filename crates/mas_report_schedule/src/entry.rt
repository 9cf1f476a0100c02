//! The entries of a schedule.

ghost use Rattle.std.specs.Prelude.{◌≡◌, ◌++◌, replicate, OnOk};
ghost use Rattle.mas_report_schedule.specs.Schedule as spec;

use asl_term::printing::write_number;
use asl_term::sequence::Starved;
use asl_term::syntax::{Numbers, Text};
use std::alloc::Global;

/// The number of an agent, so many times one after the other: written `A` for once, and `AxK` for K times.
#[derive(Clone, Copy)]
pub struct ScheduleEntry {
    pub agent: u64,
    pub times: u64,
}

/// The entry of an agent that has one turn.
pub fn once(agent: u64) -> ScheduleEntry
    ensures { result ≡ spec.once agent }
{
    ScheduleEntry { agent, times: 1 }
}

/// Appends an entry.
pub fn put_entry(alloc: Global, out: &mut Text, entry: ScheduleEntry) -> Result<(), Starved>
    ensures { OnOk result (out.new ≡ out.old ++ spec.entry_text entry) }
{
    write_number(alloc, entry.agent, out)?;
    if entry.times == 1 {
        return Ok(());
    }
    out.append(b"x")?;
    write_number(alloc, entry.times, out)
}

/// Appends the numbers for which an entry stands.
pub fn spread(names: &mut Numbers, entry: ScheduleEntry) -> Result<(), Starved>
    ensures { OnOk result (names.new ≡ names.old ++ replicate entry.times entry.agent) }
{
    for _ in 0..entry.times {
        names.push(entry.agent)?;
    }
    Ok(())
}
