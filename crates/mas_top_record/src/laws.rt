//! Laws of disks, as contracts of functions that do nothing.

ghost use Rattle.mas_top_record.specs.Disks.{state_of};
ghost use Rattle.mas_top_record.specs.Keeping.{IsUntouched};

use mas_record_disk::disk::Disk;

/// A disk with which nothing is done is left safely.
pub fn untouched<D: Disk>(disk: &Option<D>)
    ensures { IsUntouched (state_of D.state disk.now) }
{}
