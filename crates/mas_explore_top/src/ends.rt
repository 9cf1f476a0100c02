//! How a call of `explore` ended.

ghost use Rattle.std.specs.Prelude.{◌≡◌};
ghost use Rattle.mas_explore_top.specs.Ends as spec;

use asl_term::copying::text_of;
use asl_term::sequence::Starved;
use asl_term::syntax::Text;
use mas_top_status::status::{Status, code, fault_line};
use std::alloc::Global;

/// How a call ended: its output was written whole, and its status is this one; there was none; a part of it was written; or the words ask for nothing.
#[derive(Drop)]
pub enum ExploreEnd {
    Written(u8),
    Refused(Status),
    Cut,
    Usage,
}

/// The end where there is no memory.
pub fn starved() -> ExploreEnd
    ensures { result ≡ ExploreEnd.Refused Status.Memory }
{
    ExploreEnd::Refused(Status::Memory)
}

/// The status with which the process ends.
pub fn end_code(end: &ExploreEnd) -> u8
    ensures { result ≡ spec.end_code end.now }
{
    match end {
        ExploreEnd::Written(code) => *code,
        ExploreEnd::Refused(status) => code(status),
        ExploreEnd::Cut => 5,
        ExploreEnd::Usage => 2,
    }
}

/// What the words may be.
pub const USAGE: &[u8] =
    b"usage: explore PROJECT [--level ends|say|acts] [--depth N] [--tries N] [--states N]
               [--never LINE | --always LINE] [--progress]
       explore --help | --version
PROJECT is a .mas2j or an .asl file; N is 1 to 10000 for --depth, to 10000000 for --tries
and to 1000000 for --states; LINE is a line of an outcome.
";

/// The version.
pub const VERSION: &[u8] = b"explore 1.0.0\n";

/// The line for standard error.
pub fn end_line(alloc: Global, end: &ExploreEnd) -> Result<Text, Starved> {
    match end {
        ExploreEnd::Written(_) => text_of(alloc, b""),
        ExploreEnd::Refused(status) => fault_line(alloc, status),
        ExploreEnd::Cut => fault_line(alloc, &Status::WriteFault),
        ExploreEnd::Usage => text_of(alloc, USAGE),
    }
}
