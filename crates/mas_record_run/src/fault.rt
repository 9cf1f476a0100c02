//! What a recorded run comes to.

use mas_core::robin::Done;
use mas_mind::thinking::Mind;
use mas_record_disk::disk::DiskFail;
use mas_record_journal::back::BackWhy;
use mas_world::artifact::Artifact;

/// Why a run was not recorded to its end: want of memory, or a fault of the disk; there is no such file, it does not begin as
/// a journal, or it has too many bytes; or at this place, counted from 1, stands the first of its turns that is none.
#[derive(Clone, Copy, PartialEq, Eq, Drop)]
pub enum RecordFault {
    Memory,
    Disk,
    Missing,
    NoHeader,
    TooLong,
    Illegal(u64),
}

impl From<BackWhy> for RecordFault {
    ghost use Rattle.std.specs.Prelude.{◌≡◌};
    ghost use Rattle.mas_record_run.specs.Faults.{of_back};

    ghost from_gives = { λ w e. e ≡ of_back w };

    fn from(refused: BackWhy) -> RecordFault {
        match refused {
            BackWhy::Memory => RecordFault::Memory,
            BackWhy::Failed => RecordFault::Disk,
            BackWhy::NoHeader => RecordFault::NoHeader,
            BackWhy::TooLong => RecordFault::TooLong,
        }
    }
}

impl From<DiskFail> for RecordFault {
    ghost use Rattle.std.specs.Prelude.{◌≡◌};
    ghost use Rattle.mas_record_run.specs.Faults.{of_fail};

    ghost from_gives = { λ f e. e ≡ of_fail f };

    fn from(refused: DiskFail) -> RecordFault {
        match refused {
            DiskFail::Memory => RecordFault::Memory,
            DiskFail::Failed => RecordFault::Disk,
        }
    }
}

/// The disk, which always comes back, and the board and the minds at the end of the run, or why there is no such end.
#[derive(Drop)]
pub struct RecordedRun<M: Mind, A: Artifact, D> {
    pub disk: D,
    pub answer: Result<Done<M, A>, RecordFault>,
}
