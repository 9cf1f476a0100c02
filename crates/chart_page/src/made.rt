//! From the text of a report to a picture or a page of it.

ghost use Rattle.std.specs.Prelude.{◌≡◌, IfOk, IfSome, None, true};
ghost use Rattle.chart_page.specs.Form.{first_bad_line};
ghost use Rattle.chart_page.specs.Minds.{TellsMinds};
ghost use Rattle.chart_page.specs.Refused.{IsMade, IsRefusedAt, ShowsText};

use crate::choice::Choice;
use crate::faults::Fault;
use crate::form::{first_bad, lines_of};
use crate::minds::Minds;
use crate::page::page;
use crate::picture::draw;
use crate::report::read;
use crate::shown::pieces;
use std::alloc::Global;

/// The picture of a text that has the form of a report and numbers where they belong, or the page, which tells of minds too. What has not this
/// form is refused at the first line that may not stand there.
pub fn made(
    alloc: Global,
    choice: Choice<'_>,
    minds: &Minds<'_>,
    text: &[u8],
) -> Result<Vec<u8>, Fault>
    ensures whole { IfOk result (λ made. IsMade choice.entry made.items) }
    ensures shown { IfOk result (λ made. ShowsText choice.entry text.now made.items) }
    ensures minds { choice.entry.is_page ≡ true → IfOk result (λ made. TellsMinds minds.now made.items) }
    ensures form { IfOk result (λ _. first_bad_line text.now ≡ None) }
    ensures refused { IfSome (first_bad_line text.now) (IsRefusedAt result) }
{
    let lines = lines_of(alloc, text)?;
    if let Some(number) = first_bad(lines.as_slice()) {
        return Err(Fault::Line(number));
    }
    match read(alloc, lines.as_slice())? {
        Ok(report) => {
            let pieces = pieces(alloc, choice, &report, lines.as_slice())?;
            if choice.is_page {
                page(alloc, choice, minds, &report, pieces.as_slice())
            } else {
                draw(alloc, choice, &report, pieces.as_slice())
            }
        }
        Err(number) => Err(Fault::Line(number)),
    }
}
