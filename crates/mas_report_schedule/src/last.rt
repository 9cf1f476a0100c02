//! The schedule in the last two lines of a text.

ghost use Rattle.std.specs.Prelude.{◌≡◌, IfOk, MatchOption};
ghost use Rattle.mas_report_schedule.specs.Reading.{EndsIn, EndsInNone};
ghost use Rattle.mas_report_schedule.specs.inner.Scanning as spec;

use crate::reading::{LineFault, read_schedule};
use asl_term::sequence::Starved;
use asl_term::syntax::Numbers;
use std::alloc::Global;

/// The last two lines of bytes that end in a line feed, or all of them where there are no two.
fn last_two(bytes: &[u8]) -> &[u8]
    ensures { let all = bytes.now in result.now ≡ spec.last_two all all all all }
{
    let mut two = bytes;
    let mut one = bytes;
    let mut line = bytes;
    let mut rest = bytes;
    'bytes: while let Some((byte, behind)) = rest.split_first() {
        if *byte == b'\n' {
            two = one;
            one = line;
            line = behind;
        }
        rest = behind;
    }
    two
}

/// The numbers of the schedule in the last two lines; None exactly where these are no schedule.
#[tactic(auto, using(crate::proofs::Ends::last_is))]
pub fn last_schedule(alloc: Global, bytes: &[u8]) -> Result<Option<Numbers>, Starved>
    ensures { IfOk result (λ r. MatchOption r (EndsInNone bytes.now) (EndsIn bytes.now)) }
{
    match read_schedule(alloc, last_two(bytes)) {
        Ok(names) => Ok(Some(names)),
        Err(LineFault::Memory) => Err(Starved),
        Err(LineFault::BadLine(_)) => Ok(None),
    }
}
