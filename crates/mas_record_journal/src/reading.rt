//! The turns that a file tells.

ghost use Rattle.std.specs.Prelude.{◌≡◌, true, is_some, length, IfOk, OnOk, IfErr, IfSome};
ghost use Rattle.mas_record_disk.specs.Calls as calls;
ghost use Rattle.mas_record_journal.specs.Journals.{HasTurns, HasFront};
ghost use Rattle.mas_record_journal.specs.Journals as file;
ghost use Rattle.mas_record_journal.specs.Kept as spec;

use crate::back::BackWhy;
use asl_term::sequence::{Seq, Starved};
use asl_term::syntax::Numbers;
use mas_record_disk::disk::{Disk, DiskFail};
use std::alloc::Global;

/// The most bytes of a journal that is opened.
pub const MOST_BYTES: u64 = 15_000_009;

/// The turns up to the first whose gate is not open or that is cut short.
#[tactic(auto, using(crate::proofs::Blocks::one_more))]
fn read_turns(alloc: Global, bytes: &[u8]) -> Result<Numbers, Starved>
    ensures { IfOk result (λ turns. HasTurns turns bytes.now) }
{
    let mut turns = Seq::new(alloc);
    let mut rest = bytes;
    while let [1, high, low, after @ ..] = rest {
        turns.push(256 * (*high as u64) + (*low as u64))?;
        rest = after;
    }
    Ok(turns)
}

/// The turns that the bytes of a file tell, where they begin as a journal.
pub fn recovered(alloc: Global, bytes: &[u8]) -> Result<Option<Numbers>, Starved>
    ensures turns { IfOk result (λ told. told ≡ file.recovered bytes.now) }
    ensures front { IfOk result (λ told. IfSome told (λ turns. HasFront turns bytes.now)) }
{
    match bytes.strip_prefix(b"JASREC1\n") {
        Some(rest) => Ok(Some(read_turns(alloc, rest)?)),
        None => Ok(None),
    }
}

/// Whether the picked file begins as a journal. Its first eight bytes are read, and no others.
fn has_header<D: Disk>(disk: &mut D) -> Result<bool, DiskFail>
    requires { calls.IsReadable (D.state disk.old) 0 8 }
    ensures looks { calls.Looks (D.state disk.old) (D.state disk.new) }
    ensures answer { IfOk result (λ has. (D.state disk.old).told ≡ true → has ≡ file.has_header (calls.picked_bytes (D.state disk.old))) }
    ensures cause { calls.HasCause (D.state disk.old) (D.state disk.new) result }
{
    let mut front = [0u8; 8];
    disk.read_at(0, &mut front)?;
    Ok(front == *b"JASREC1\n")
}

/// The length of the picked file, all of which is on the disk then.
fn settled_len<D: Disk>(disk: &mut D) -> Result<u64, DiskFail>
    requires { is_some (D.state disk.old).picked ≡ true }
    ensures looked { spec.HasLooked (D.state disk.old) (D.state disk.new) }
    ensures length { IfOk result (λ n. (D.state disk.old).told ≡ true → n ≡ length (calls.picked_bytes (D.state disk.old))) }
    ensures only { OnOk result (spec.IsAllThatIsLeft (D.state disk.old) (D.state disk.new)) }
    ensures cause { calls.HasCause (D.state disk.old) (D.state disk.new) result }
{
    disk.sync()?;
    disk.len()
}

/// The bytes of the picked file, all of which are on the disk then.
fn read_bytes<D: Disk>(alloc: Global, disk: &mut D) -> Result<Vec<u8>, BackWhy>
    requires { is_some (D.state disk.old).picked ≡ true }
    ensures ok { IfOk result (λ bytes. spec.HasBytes (D.state disk.old) (D.state disk.new) bytes.items) }
    ensures err { IfErr result (spec.IsNotRead (D.state disk.old) (D.state disk.new)) }
{
    let len = settled_len(disk)?;
    if len > MOST_BYTES {
        return Err(BackWhy::TooLong);
    }
    if len < 8 || !has_header(disk)? {
        return Err(BackWhy::NoHeader);
    }
    let Ok(mut bytes) = vec![in alloc; 0; len as usize] else {
        return Err(BackWhy::Memory);
    };
    disk.read_at(0, &mut bytes)?;
    Ok(bytes)
}

/// The turns that the picked file tells, where it begins as a journal.
#[tactic(auto, using(crate::proofs::Told::is_read, crate::proofs::Told::not_read))]
pub fn read_journal<D: Disk>(alloc: Global, disk: &mut D) -> Result<Numbers, BackWhy>
    requires { is_some (D.state disk.old).picked ≡ true }
    ensures ok { IfOk result (spec.IsRead (D.state disk.old) (D.state disk.new)) }
    ensures err { IfErr result (spec.IsNotRead (D.state disk.old) (D.state disk.new)) }
{
    let bytes = read_bytes(alloc, disk)?;
    match recovered(alloc, bytes.as_slice())? {
        Some(turns) => Ok(turns),
        None => Err(BackWhy::NoHeader),
    }
}
