//! The answers of commands.

ghost use Rattle.std.specs.Prelude.{◌≡◌};
ghost use Rattle.look_answer.specs.Answers as spec;

use asl_term::sequence::Starved;
use asl_term::syntax::Text;
use mas_top_status::status::{Status, code};

/// What a command writes to standard output, and whether it found something.
pub struct Output {
    pub text: Text,
    pub found: bool,
}

/// By hand, so that who lets one go proves nothing of its parts.
impl Drop for Output {
    fn drop(self) {
        let Output { text: _, found: _ } = self;
    }
}

/// Why a command has no output.
pub enum LookFault {
    /// As a call of `jasonrun` ends so, with its line.
    Ended(Status),
    /// What it was given does not fit. The line says why, with its line feed.
    Unfit(Text),
}

/// By hand, so that who lets one go proves nothing of its parts.
impl Drop for LookFault {
    fn drop(self) {
        match self {
            LookFault::Ended(_) => {}
            LookFault::Unfit(_) => {}
        }
    }
}

impl From<Starved> for LookFault {
    ghost use Rattle.look_answer.specs.declared.answer.LookFault.TheVariants.{Ended};
    ghost use Rattle.mas_top_status.specs.declared.status.Status.TheVariants.{Memory};

    ghost from_gives = { λ _ f. f ≡ Ended Memory };

    fn from(_e: Starved) -> LookFault {
        LookFault::Ended(Status::Memory)
    }
}

impl From<Status> for LookFault {
    ghost use Rattle.look_answer.specs.declared.answer.LookFault.TheVariants.{Ended};

    ghost from_gives = { λ s f. f ≡ Ended s };

    fn from(s: Status) -> LookFault {
        LookFault::Ended(s)
    }
}

/// The status with which the process ends where the output was written.
pub fn found_code(found: bool) -> u8
    ensures { result ≡ spec.found_code found }
{
    if found { 1 } else { 0 }
}

/// The status with which the process ends where there is no output.
pub fn fault_code(fault: &LookFault) -> u8
    ensures { result ≡ spec.fault_code fault.now }
{
    match fault {
        LookFault::Ended(status) => code(status),
        LookFault::Unfit(_) => 10,
    }
}
