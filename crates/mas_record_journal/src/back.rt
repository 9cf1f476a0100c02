//! A disk that is handed back.

use asl_term::sequence::Starved;
use mas_record_disk::disk::DiskFail;

/// Why no journal was opened: want of memory, a fault of the disk, a file that does not begin as a journal, or one of too
/// many bytes.
#[derive(Clone, Copy, Drop)]
pub enum BackWhy {
    Memory,
    Failed,
    NoHeader,
    TooLong,
}

impl From<Starved> for BackWhy {
    ghost use Rattle.std.specs.Prelude.{◌≡◌};
    ghost use Rattle.mas_record_journal.specs.declared.back.BackWhy.TheVariants.{Memory};

    ghost from_gives = { λ _ e. e ≡ Memory };

    fn from(_refused: Starved) -> BackWhy {
        BackWhy::Memory
    }
}

impl From<DiskFail> for BackWhy {
    ghost use Rattle.std.specs.Prelude.{◌≡◌};
    ghost use Rattle.mas_record_journal.specs.Whys.{why_of};

    ghost from_gives = { λ f e. e ≡ why_of f };

    fn from(refused: DiskFail) -> BackWhy {
        match refused {
            DiskFail::Memory => BackWhy::Memory,
            DiskFail::Failed => BackWhy::Failed,
        }
    }
}

/// A disk that is handed back where there is no journal of it.
#[derive(Drop)]
pub struct Back<D> {
    pub disk: D,
    pub why: BackWhy,
}
