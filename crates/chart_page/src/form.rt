//! Which lines may follow one another in a report.

ghost use Rattle.std.specs.Prelude.{◌≡◌, ◌==◌, map, IfOk};
ghost use Rattle.std.specs.List.{slice_split};
ghost use Rattle.chart_page.specs.Form as spec;

use crate::lines::{LineKind, kind_of};
use std::alloc::{AllocError, Global};

/// How far a report was read.
#[derive(Clone, Copy)]
pub enum ReadingStage {
    Start,
    Headed,
    Between,
    Inside,
    World,
    Mail,
    Counted,
    Turned,
    Done,
}

/// Where a line leads; None where it may not follow.
pub fn follow(stage: ReadingStage, kind: LineKind) -> Option<ReadingStage>
    ensures { result ≡ spec.follow stage kind }
{
    match (stage, kind) {
        (ReadingStage::Start, LineKind::Head) => Some(ReadingStage::Headed),
        (ReadingStage::Headed, LineKind::Options) => Some(ReadingStage::Between),
        (ReadingStage::Between, LineKind::AgentSection) => Some(ReadingStage::Inside),
        (ReadingStage::Inside, LineKind::Numbered) => Some(ReadingStage::Inside),
        (ReadingStage::Inside, LineKind::End) => Some(ReadingStage::Between),
        (ReadingStage::Between, LineKind::World) => Some(ReadingStage::World),
        (ReadingStage::World, LineKind::Fact) => Some(ReadingStage::World),
        (ReadingStage::World, LineKind::Mail) => Some(ReadingStage::Mail),
        (ReadingStage::Mail, LineKind::Letter) => Some(ReadingStage::Mail),
        (ReadingStage::Mail, LineKind::Count) => Some(ReadingStage::Counted),
        (ReadingStage::Counted, LineKind::Numbered) => Some(ReadingStage::Turned),
        (ReadingStage::Turned, LineKind::Empty) => Some(ReadingStage::Done),
        _ => None,
    }
}

/// The lines of a text; the last one is what stands behind the last line feed.
pub fn lines_of<'a>(alloc: Global, text: &'a [u8]) -> Result<Vec<&'a [u8]>, AllocError>
    ensures { IfOk result (λ v. map (λ l. l.now) v.items ≡ slice_split (λ b. b == 10) text.now) }
{
    text.split(|b| *b == b'\n').collect(alloc)
}

/// The number of the first line that may not follow, or of the one that is missing; None where the lines have the form of a report.
pub fn first_bad(lines: &[&[u8]]) -> Option<u64>
    ensures { result ≡ spec.first_bad (map (λ l. l.now) lines.now) }
{
    let mut stage = ReadingStage::Start;
    let mut number: u64 = 1;
    'lines: for line in lines {
        match follow(stage, kind_of(line)) {
            Some(next) => stage = next,
            None => return Some(number),
        }
        number += 1;
    }
    match stage {
        ReadingStage::Done => None,
        _ => Some(number),
    }
}
