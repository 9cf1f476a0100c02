//! A journal of turns.

ghost use Rattle.std.specs.Prelude.{◌≡◌, ◌<◌, ◌^◌, ◌++◌, ◌∷◌, [], Some, None, true, is_some, IfOk, OnOk, IfErr};
ghost use Rattle.mas_record_disk.specs.Calls as calls;
ghost use Rattle.mas_record_journal.specs.Journals.{file_of, Recovers, RecoversEither};
ghost use Rattle.mas_record_journal.specs.Moments.{Ran, IsSettled};
ghost use Rattle.mas_record_journal.specs.Kept as spec;

use crate::back::{Back, BackWhy};
use crate::reading::read_journal;
use crate::through::{cut_through, write_through};
use asl_term::sequence::Seq;
use asl_term::syntax::Numbers;
use mas_record_disk::disk::{Disk, DiskFail};
use std::alloc::Global;

/// The eight bytes that a journal begins with, and a closed gate.
const EMPTY: [u8; 9] = *b"JASREC1\n\0";

/// The turns of a run, by the numbers of the agents that made them, and the disk in whose picked file they are. A refusal tears
/// it: from then on it takes no more turns.
#[derive(Drop)]
pub struct Journal<D: Disk> {
    disk: D,
    turns: Numbers,
    torn: Option<DiskFail>,
}

/// Writes one more turn behind the others, and then opens its gate.
fn write_turn<D: Disk>(disk: &mut D, turns: &[u64], agent: u32) -> Result<(), DiskFail>
    requires picked { is_some (D.state disk.old).picked ≡ true }
    requires file { IsSettled (Some (file_of turns.now)) (D.state disk.old) }
    requires agent { agent < 2 ^ 16 }
    ensures ran { Ran (RecoversEither turns.now agent) (D.state disk.old) (D.state disk.new) }
    ensures done { OnOk result (IsSettled (Some (file_of (turns.now ++ agent ∷ []))) (D.state disk.new)) }
    ensures cause { calls.HasCause (D.state disk.old) (D.state disk.new) result }
{
    let gate = 8 + 3 * turns.len() as u64;
    let number = [(agent / 256) as u8, (agent % 256) as u8, 0];
    write_through(disk, gate + 1, &number)?;
    write_through(disk, gate, &[1])?;
    Ok(())
}

/// Cuts off what stands behind the turns, and closes the gate behind them.
fn repair<D: Disk>(disk: &mut D, turns: &[u64]) -> Result<(), DiskFail>
    requires picked { is_some (D.state disk.old).picked ≡ true }
    requires file { spec.IsOpenable turns.now (D.state disk.old) }
    ensures ran { Ran (Recovers turns.now) (D.state disk.old) (D.state disk.new) }
    ensures done { OnOk result (IsSettled (Some (file_of turns.now)) (D.state disk.new)) }
    ensures cause { calls.HasCause (D.state disk.old) (D.state disk.new) result }
{
    let end = 8 + 3 * turns.len() as u64;
    cut_through(disk, end)?;
    write_through(disk, end, &[0])?;
    Ok(())
}

/// Makes the picked file a journal without turns.
fn write_empty<D: Disk>(disk: &mut D) -> Result<(), DiskFail>
    requires { is_some (D.state disk.old).picked ≡ true }
    ensures ran { Ran spec.Anything (D.state disk.old) (D.state disk.new) }
    ensures done { OnOk result (IsSettled (Some (file_of [])) (D.state disk.new)) }
    ensures cause { calls.HasCause (D.state disk.old) (D.state disk.new) result }
{
    cut_through(disk, 0)?;
    write_through(disk, 0, &EMPTY)
}

/// A journal without turns, in place of what the picked file was.
pub fn create<D: Disk>(alloc: Global, disk: D) -> Result<Journal<D>, Back<D>>
    requires { is_some (D.state disk).picked ≡ true }
    ensures ok { IfOk result (λ j. spec.IsCreated (D.state disk) (D.state j.disk) j.turns j.torn) }
    ensures there { IfOk result (λ j. spec.AllRecover [] (D.state j.disk)) }
    ensures err { IfErr result (λ b. spec.IsNotCreated (D.state disk) (D.state b.disk) b.why) }
{
    let mut disk = disk;
    match write_empty(&mut disk) {
        Ok(()) => Ok(Journal {
            disk,
            turns: Seq::new(alloc),
            torn: None,
        }),
        Err(e) => Err(Back {
            disk,
            why: e.into(),
        }),
    }
}

/// The journal that the picked file tells, whatever a crash made of its end.
pub fn open_journal<D: Disk>(alloc: Global, disk: D) -> Result<Journal<D>, Back<D>>
    requires { is_some (D.state disk).picked ≡ true }
    ensures ok { IfOk result (λ j. spec.IsOpened (D.state disk) (D.state j.disk) j.turns j.torn) }
    ensures there { IfOk result (λ j. spec.AllRecover j.turns (D.state j.disk)) }
    ensures err { IfErr result (λ b. spec.IsRefused (D.state disk) (D.state b.disk) b.why) }
{
    let mut disk = disk;
    let turns = match read_journal(alloc, &mut disk) {
        Ok(turns) => turns,
        Err(why) => return Err(Back { disk, why }),
    };
    match repair(&mut disk, turns.as_slice()) {
        Ok(()) => Ok(Journal {
            disk,
            turns,
            torn: None,
        }),
        Err(e) => Err(Back {
            disk,
            why: e.into(),
        }),
    }
}

/// The journal of these turns, which the picked file of the disk has.
pub fn journal_of<D: Disk>(disk: D, turns: Numbers) -> Journal<D>
    requires { spec.IsJournal (D.state disk) turns None }
    ensures disk { result.disk ≡ disk }
    ensures turns { result.turns ≡ turns }
    ensures torn { result.torn ≡ None }
{
    Journal {
        disk,
        turns,
        torn: None,
    }
}

impl<D: Disk> Journal<D> {
    /// One more turn. With `Ok` it is there for good.
    pub fn append(&mut self, agent: u32) -> Result<(), DiskFail>
        requires whole { spec.IsJournal (D.state self.old.disk) self.old.turns self.old.torn }
        requires open_now { self.old.torn ≡ None }
        requires agent { spec.IsTurn agent }
        ensures whole { spec.IsJournal (D.state self.new.disk) self.new.turns self.new.torn }
        ensures ok { OnOk result (spec.IsAppended self.old.turns self.new.turns agent self.new.torn) }
        ensures refused { IfErr result (spec.IsTornBy self.old.turns self.new.turns self.new.torn) }
        ensures any_moment { Ran (RecoversEither self.old.turns agent) (D.state self.old.disk) (D.state self.new.disk) }
        ensures there { OnOk result (spec.AllRecover self.new.turns (D.state self.new.disk)) }
        ensures cause { calls.HasCause (D.state self.old.disk) (D.state self.new.disk) result }
    {
        match self.write(agent) {
            Ok(()) => Ok(()),
            Err(e) => {
                self.torn = Some(e);
                Err(e)
            }
        }
    }

    /// One more turn on the disk, and then in the list.
    fn write(&mut self, agent: u32) -> Result<(), DiskFail>
        requires picked { is_some (D.state self.old.disk).picked ≡ true }
        requires file { IsSettled (Some (file_of self.old.turns)) (D.state self.old.disk) }
        requires agent { agent < 2 ^ 16 }
        ensures ran { Ran (RecoversEither self.old.turns agent) (D.state self.old.disk) (D.state self.new.disk) }
        ensures done { OnOk result (IsSettled (Some (file_of self.new.turns)) (D.state self.new.disk)) }
        ensures ok { OnOk result (self.new.turns ≡ self.old.turns ++ agent ∷ []) }
        ensures err { IfErr result (λ e. self.new.turns ≡ self.old.turns) }
        ensures torn { self.new.torn ≡ self.old.torn }
        ensures cause { calls.HasCause (D.state self.old.disk) (D.state self.new.disk) result }
    {
        self.turns.reserve(1)?;
        write_turn(&mut self.disk, self.turns.as_slice(), agent)?;
        self.turns.push(agent as u64)?;
        Ok(())
    }

    /// The turns.
    pub fn turns(&self) -> &Numbers
        ensures { result.now ≡ self.now.turns }
    {
        &self.turns
    }

    /// The refusal that tore it.
    pub fn torn(&self) -> Option<DiskFail>
        ensures { result ≡ self.now.torn }
    {
        self.torn
    }

    /// Its disk.
    pub fn release(self) -> D
        ensures { result ≡ self.disk }
    {
        self.part().0
    }

    /// Its disk and its turns.
    pub fn part(self) -> (D, Numbers)
        ensures disk { result.0 ≡ self.disk }
        ensures turns { result.1 ≡ self.turns }
    {
        let Journal {
            disk,
            turns,
            torn: _,
        } = self;
        (disk, turns)
    }
}
