//! A disk as its users see it.

ghost use Rattle.std.specs.Prelude.{◌≡◌, ◌≤◌, ℕ, true, None, List, take, drop, length, is_some, IfOk, OnOk, OnErr};
ghost use Rattle.mas_record_disk.specs.Disk.{Image, DiskState, after_write, after_cut};
ghost use Rattle.mas_record_disk.specs.Calls as calls;

use asl_term::sequence::Starved;
use asl_term::syntax::Text;

/// Why a call of a disk was refused: want of memory, or a fault of the disk.
#[derive(Clone, Copy, Drop)]
pub enum DiskFail {
    Memory,
    Failed,
}

impl From<Starved> for DiskFail {
    ghost use Rattle.mas_record_disk.specs.declared.disk.DiskFail.TheVariants.{Memory};

    ghost from_gives = { λ _ e. e ≡ Memory };

    fn from(_refused: Starved) -> DiskFail {
        DiskFail::Memory
    }
}

/// Whether there is a file to be read and written.
#[derive(Clone, Copy, Drop)]
pub enum Picked {
    Ready,
    Missing,
}

/// Files by their names. One of them is picked, and then read and written; what is written is sure to outlive a crash only
/// once it was synced. After a refused call of `write_at` or `cut` the change may have been made in part.
pub trait Disk: Drop {
    /// What is known of it at this moment.
    ghost state: { Self → DiskState };

    /// Picks the file of that name. With `make` an empty file is made where there is none.
    fn pick(&mut self, name: &Text, make: bool) -> Result<Picked, DiskFail>
        requires { (state self.old).picked ≡ None }
        ensures on { calls.GoesOn (state self.old) (state self.new) }
        ensures picks { IfOk result (calls.Picks (state self.old) (state self.new) name.now make) }
        ensures refused { OnErr result (calls.PicksNone (state self.old) (state self.new)) }
        ensures cause { calls.HasCause (state self.old) (state self.new) result };

    /// The length of the picked file.
    fn len(&mut self) -> Result<u64, DiskFail>
        requires { is_some (state self.old).picked ≡ true }
        ensures looks { calls.Looks (state self.old) (state self.new) }
        ensures length { IfOk result (λ n. (state self.old).told ≡ true → n ≡ length (calls.picked_bytes (state self.old))) }
        ensures cause { calls.HasCause (state self.old) (state self.new) result };

    /// Reads the bytes of the picked file from a place on, as many as `out` has.
    fn read_at(&mut self, at: u64, out: &mut [u8]) -> Result<(), DiskFail>
        requires { calls.IsReadable (state self.old) at (length out.old) }
        ensures looks { calls.Looks (state self.old) (state self.new) }
        ensures bytes { OnOk result ((state self.old).told ≡ true → out.new ≡ take (length out.old) (drop at (calls.picked_bytes (state self.old)))) }
        ensures length { length out.new ≡ length out.old }
        ensures cause { calls.HasCause (state self.old) (state self.new) result };

    /// Writes over what the picked file has at a place, and past its end.
    fn write_at(&mut self, at: u64, bytes: &[u8]) -> Result<(), DiskFail>
        requires { calls.IsWritable (state self.old) at }
        ensures changes { calls.Changes (state self.old) (state self.new) (after_write at bytes.now) }
        ensures reads { OnOk result (calls.Reads (state self.old) (state self.new) (after_write at bytes.now)) }
        ensures cause { calls.HasCause (state self.old) (state self.new) result };

    /// Cuts the picked file to a length, where it is longer.
    fn cut(&mut self, len: u64) -> Result<(), DiskFail>
        requires { is_some (state self.old).picked ≡ true }
        ensures changes { calls.Changes (state self.old) (state self.new) (after_cut len) }
        ensures reads { OnOk result (calls.Reads (state self.old) (state self.new) (after_cut len)) }
        ensures cause { calls.HasCause (state self.old) (state self.new) result };

    /// After it a crash leaves of the picked file what reads.
    fn sync(&mut self) -> Result<(), DiskFail>
        requires { is_some (state self.old).picked ≡ true }
        ensures looks { calls.Looks (state self.old) (state self.new) }
        ensures synced { OnOk result (calls.IsSynced (state self.old) (state self.new)) }
        ensures cause { calls.HasCause (state self.old) (state self.new) result };

    /// This moment is one of those since an earlier one.
    ghost counts_now: { (d : Self) (t : ℕ) (name : List ℕ) (c : Image) → t ≤ (state d).moment
        → ((state d).file name).may_leave c → (state d).left_since t name c };

    /// Since this moment there is no other.
    ghost only_now: { (d : Self) (name : List ℕ) (c : Image) → (state d).left_since (state d).moment name c → ((state d).file name).may_leave c };

    /// What reads is one of the images.
    ghost reads_now: { (d : Self) (name : List ℕ) → (state d).told ≡ true → ((state d).file name).may_leave ((state d).file name).reads };
}
