//! Why there is no picture.

ghost use Rattle.std.specs.Prelude.{◌≡◌};
ghost use Rattle.chart_page.specs.Refused.{status_of};

use std::alloc::AllocError;

#[derive(Clone, Copy)]
pub enum Fault {
    /// The number of the first line that is not as a report has it.
    Line(u64),
    /// The words of the call are not such.
    Words,
    Read,
    Write,
    Memory,
}

impl From<AllocError> for Fault {
    ghost use Rattle.chart_page.specs.declared.faults.Fault.TheVariants.{Memory};

    ghost from_gives = { λ _ e. e ≡ Memory };

    fn from(_error: AllocError) -> Fault {
        Fault::Memory
    }
}

/// The status of the program.
pub fn code(fault: Fault) -> u8
    ensures { result ≡ status_of fault }
{
    match fault {
        Fault::Line(_) => 1,
        Fault::Words => 2,
        Fault::Read => 4,
        Fault::Write => 5,
        Fault::Memory => 9,
    }
}
