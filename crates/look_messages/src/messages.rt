//! `messages`: from the bytes of a report to a table.

ghost use Rattle.std.specs.Prelude.{◌≡◌, IfOk, IfErr, false};
ghost use Rattle.look_answer.specs.Answers.{IsUnfit};
ghost use Rattle.look_messages.specs.Runs.{TellsRun};

use crate::fitting::put_sent;
use crate::lines::lines_of;
use crate::table::table_of;
use asl_term::sequence::{Seq, Starved};
use asl_term::syntax::Text;
use look_answer::answer::{LookFault, Output};
use look_reasons::phrase::{Phrase, sentence};
use mas_mind::mind::Level;
use mas_report::reading::{Told, read_report};
use mas_top_status::status::Status;
use std::alloc::Global;

/// The line that says why a file of this name is no report with messages.
fn unfit(alloc: Global, name: &[u8], why: &[u8]) -> LookFault
    ensures { IsUnfit result }
{
    match sentence(alloc, &[Phrase::Shown(name), Phrase::Words(why)]) {
        Ok(line) => LookFault::Unfit(line),
        Err(_) => LookFault::Ended(Status::Memory),
    }
}

/// The messages of a report with these turns, as a table; none where they do not fit.
fn messages_of(
    alloc: Global,
    bytes: &[u8],
    turns: &[u64],
    csv: bool,
) -> Result<Option<Text>, Starved> {
    let lines = lines_of(alloc, bytes)?;
    let mut rows = Seq::new(alloc);
    match put_sent(alloc, &lines, turns, &mut rows) {
        Ok(true) => match table_of(alloc, &lines.names, rows.as_slice(), csv) {
            Ok(text) => Ok(Some(text)),
            Err(_) => Err(Starved),
        },
        Ok(false) => Ok(None),
        Err(_) => Err(Starved),
    }
}

/// The messages of a report that tells this of its run.
fn told_messages(
    alloc: Global,
    name: &[u8],
    bytes: &[u8],
    told: &Told,
    csv: bool,
) -> Result<Output, LookFault>
    ensures found { IfOk result (λ o. o.found ≡ false) }
    ensures fault { IfErr result IsUnfit }
{
    if matches!(told.options.level, Level::Say) {
        return Err(unfit(alloc, name, b": a report of level say has no messages\n"));
    }
    match messages_of(alloc, bytes, told.turns.as_slice(), csv)? {
        Some(text) => Ok(Output { text, found: false }),
        None => Err(unfit(
            alloc,
            name,
            b": its messages do not fit: changed, or no report\n",
        )),
    }
}

/// The messages of a report, as a table or as a spreadsheet. Bytes that tell of no run have none.
#[tactic(auto, using(crate::proofs::Runs::tells))]
pub fn messages(alloc: Global, name: &[u8], bytes: &[u8], csv: bool) -> Result<Output, LookFault>
    ensures found { IfOk result (λ o. o.found ≡ false) }
    ensures report { IfOk result (λ o. TellsRun bytes.now) }
    ensures fault { IfErr result IsUnfit }
{
    match read_report(alloc, bytes)? {
        None => Err(unfit(alloc, name, b": no report\n")),
        Some(told) => {
            let output = told_messages(alloc, name, bytes, &told, csv);
            drop(told);
            match output {
                Ok(output) => Ok(output),
                Err(fault) => Err(fault),
            }
        }
    }
}
