//! A change of the picked file, and a sync: once it is done a crash leaves it.

ghost use Rattle.std.specs.Prelude.{◌≡◌, true, is_some, OnOk};
ghost use Rattle.mas_record_disk.specs.Disk.{after_write, after_cut};
ghost use Rattle.mas_record_disk.specs.Calls as calls;
ghost use Rattle.mas_record_journal.specs.Moments as spec;

use mas_record_disk::disk::{Disk, DiskFail};

/// Writes, and syncs.
pub fn write_through<D: Disk>(disk: &mut D, at: u64, bytes: &[u8]) -> Result<(), DiskFail>
    requires { calls.IsWritable (D.state disk.old) at }
    ensures ran { spec.Ran (spec.During (after_write at bytes.now) (D.state disk.old)) (D.state disk.old) (D.state disk.new) }
    ensures done { OnOk result (spec.IsSettled (after_write at bytes.now (calls.picked_file (D.state disk.old))).reads (D.state disk.new)) }
    ensures cause { calls.HasCause (D.state disk.old) (D.state disk.new) result }
{
    disk.write_at(at, bytes)?;
    disk.sync()
}

/// Cuts, and syncs.
pub fn cut_through<D: Disk>(disk: &mut D, len: u64) -> Result<(), DiskFail>
    requires { is_some (D.state disk.old).picked ≡ true }
    ensures ran { spec.Ran (spec.During (after_cut len) (D.state disk.old)) (D.state disk.old) (D.state disk.new) }
    ensures done { OnOk result (spec.IsSettled (after_cut len (calls.picked_file (D.state disk.old))).reads (D.state disk.new)) }
    ensures cause { calls.HasCause (D.state disk.old) (D.state disk.new) result }
{
    disk.cut(len)?;
    disk.sync()
}
