//! Whether standard input is asked for.

ghost use Rattle.std.specs.Prelude.{◌≡◌, map, string_bytes, option_map, IfOk};
ghost use Rattle.look_top.specs.Asked as spec;

use crate::taken::asked_of;
use crate::words::LookAsked;
use asl_term::sequence::Starved;
use std::alloc::Global;

/// The report that is asked for, where one is.
fn report_of<'a>(asked: LookAsked<'a>) -> Option<&'a [u8]>
    ensures { option_map (λ r. r.now) result ≡ spec.report_of (spec.asked_of asked.entry) }
{
    match asked {
        LookAsked::Help => None,
        LookAsked::Version => None,
        LookAsked::Where { project: _ } => None,
        LookAsked::Hints { project: _ } => None,
        LookAsked::Messages { report, csv: _ } => Some(report),
        LookAsked::Mind(words) => Some(words.report),
        LookAsked::Page(words) => Some(words.report),
        LookAsked::Drops(words) => Some(words.report),
    }
}

fn is_input(report: Option<&[u8]>) -> bool
    ensures { result ≡ spec.is_input (option_map (λ r. r.now) report.entry) }
{
    match report {
        None => false,
        Some(word) => word == b"-".as_slice(),
    }
}

/// Whether the words ask for a report that is standard input. They leave out the program's own name.
pub fn reads_input(alloc: Global, words: &[String]) -> Result<bool, Starved>
    ensures { IfOk result (λ r. r ≡ spec.reads_input (spec.asked (map string_bytes words.now))) }
{
    match asked_of(alloc, words)? {
        None => Ok(false),
        Some(asked) => Ok(is_input(report_of(asked))),
    }
}
