//! How a call of `jasonlook` ended.

ghost use Rattle.std.specs.Prelude.{◌≡◌};
ghost use Rattle.look_top.specs.Ends as spec;

use asl_term::copying::{copy_text, text_of};
use asl_term::sequence::Starved;
use asl_term::syntax::Text;
use look_answer::answer::{LookFault, fault_code, found_code};
use mas_top_status::status::{Status, fault_line};
use std::alloc::Global;

/// How a call ended: its output was written whole, there was none, or a part of it was written. The words ask for nothing, or for help.
pub enum LookEnd {
    Written { found: bool },
    Refused(LookFault),
    Cut,
    Usage,
}

/// By hand, so that who lets one go proves nothing of its parts.
impl Drop for LookEnd {
    fn drop(self) {
        match self {
            LookEnd::Written { found: _ } => {}
            LookEnd::Refused(_) => {}
            LookEnd::Cut => {}
            LookEnd::Usage => {}
        }
    }
}

/// The end where standard input cannot be read.
pub fn unread() -> LookEnd
    ensures { result ≡ LookEnd.Refused (LookFault.Ended Status.ReadFault) }
{
    LookEnd::Refused(LookFault::Ended(Status::ReadFault))
}

/// The end where there is no memory.
pub fn starved() -> LookEnd
    ensures { result ≡ LookEnd.Refused (LookFault.Ended Status.Memory) }
{
    LookEnd::Refused(LookFault::Ended(Status::Memory))
}

/// The status with which the process ends.
pub fn end_code(end: &LookEnd) -> u8
    ensures { result ≡ spec.end_code end.now }
{
    match end {
        LookEnd::Written { found } => found_code(*found),
        LookEnd::Refused(fault) => fault_code(fault),
        LookEnd::Cut => 5,
        LookEnd::Usage => 2,
    }
}

/// What the words may be.
pub const USAGE: &[u8] =
    b"usage: jasonlook where PROJECT           what is refused, with line and column
       jasonlook hints PROJECT            what is read and looks wrong
       jasonlook messages REPORT [--csv]  who sent what to whom, and when it was taken
       jasonlook mind PROJECT REPORT AGENT TURN
                                          what an agent has in mind after the first TURN turns, or at the end
       jasonlook drops PROJECT REPORT [--unhandled]
                                          what was dropped, has failed or used up its budget, and on which stack
       jasonlook page PROJECT REPORT      the run as an HTML page, with what changed in the agents' minds
       jasonlook --help | --version
PROJECT is a .mas2j or an .asl file; REPORT is a file that jasonrun wrote, or - for standard input; TURN is a number or end.
";

/// The version.
pub const VERSION: &[u8] = b"jasonlook 1.0.0\n";

/// The line for standard error.
pub fn end_line(alloc: Global, end: &LookEnd) -> Result<Text, Starved> {
    match end {
        LookEnd::Written { .. } => text_of(alloc, b""),
        LookEnd::Refused(LookFault::Ended(status)) => fault_line(alloc, status),
        LookEnd::Refused(LookFault::Unfit(line)) => copy_text(alloc, line),
        LookEnd::Cut => fault_line(alloc, &Status::WriteFault),
        LookEnd::Usage => text_of(alloc, USAGE),
    }
}
