//! The lines of a trace of level rules that tell of a failure.

ghost use Rattle.std.specs.Prelude.{◌≡◌, [], map, IfOk};
ghost use Rattle.look_lines.specs.Falls as spec;

use crate::words::{is_told, row_after, words};
use asl_term::copying::text_of;
use asl_term::sequence::{Seq, Starved};
use asl_term::syntax::Text;
use chart_page::form::lines_of;
use std::alloc::Global;

/// A line that tells of a failure: the line, the words of the row that made it, and whether a failure plan takes it up.
pub struct FallLine {
    pub line: Text,
    pub row: Text,
    pub taken_up: bool,
}

/// By hand, so that who lets one go proves nothing of its parts.
impl Drop for FallLine {
    fn drop(self) {
        let FallLine {
            line: _,
            row: _,
            taken_up: _,
        } = self;
    }
}

pub type FallLines = Seq<FallLine>;

/// Whether the lines go on with the rows by which a failure is raised.
fn is_raised(lines: &[&[u8]]) -> bool
    ensures { result ≡ spec.is_raised (map (λ l. l.now) lines.now) }
{
    for line in lines {
        let spoken = words(line);
        if spoken != b"rule Fail2".as_slice() {
            return spoken == b"rule Fail1".as_slice();
        }
    }
    false
}

/// Whether these are the words of an action that failed, and the lines behind raise its failure.
fn is_taken_up(words: &[u8], behind: &[&[u8]]) -> bool
    ensures { result ≡ spec.is_taken_up words.now (map (λ l. l.now) behind.now) }
{
    words.starts_with(b"failed ") && is_raised(behind)
}

/// What is told of a line, where these are the words of its row, and these lines stand behind it.
fn fall_of(alloc: Global, row: &[u8], line: &[u8], behind: &[&[u8]]) -> Result<FallLine, Starved>
    ensures { IfOk result (λ f. f ≡ spec.fall_of row.now line.now (map (λ l. l.now) behind.now)) }
{
    let taken_up = is_taken_up(words(line), behind);
    let line = text_of(alloc, line)?;
    let row = text_of(alloc, row)?;
    Ok(FallLine {
        line,
        row,
        taken_up,
    })
}

/// Those of the lines that tell of a failure, in order.
fn told_in(alloc: Global, lines: &[&[u8]]) -> Result<FallLines, Starved>
    ensures { IfOk result (λ f. f ≡ spec.told [] (map (λ l. l.now) lines.now)) }
{
    let mut found = Seq::new(alloc);
    let mut row: &[u8] = b"";
    for at in 0..lines.len() {
        let line = lines[at];
        let spoken = words(line);
        if is_told(spoken) {
            found.push(fall_of(alloc, row, line, &lines[at + 1..])?)?;
        }
        row = row_after(row, spoken);
    }
    Ok(found)
}

/// Those lines of a text that tell of a failure, in order.
pub fn falls(alloc: Global, text: &[u8]) -> Result<FallLines, Starved>
    ensures { IfOk result (λ f. f ≡ spec.falls text.now) }
{
    let lines = lines_of(alloc, text)?;
    told_in(alloc, lines.as_slice())
}
