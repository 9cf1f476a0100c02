//! Files in memory, and their changes.

ghost use Rattle.std.specs.Prelude.{◌≡◌, true, Some, None, is_some, IfOk, OnOk, OnErr};
ghost use Rattle.std.specs.Option.{option_copied};
ghost use Rattle.mas_record_files.specs.declared.change.FileChange.TheVariants.{Made};
ghost use Rattle.mas_record_files.specs.Memory.{held, image_after};
ghost use Rattle.mas_record_files.specs.Disks.{Sets, HasChanged};

use crate::change::{Change, FileChange};
use asl_term::compare::same_text;
use asl_term::copying::{copy_text, text_of};
use asl_term::sequence::{Seq, Starved};
use asl_term::syntax::{Filed, Files, Text};
use std::alloc::Global;

/// The bytes of the first file of that name.
pub fn find_file<'a>(files: &'a [Filed], name: &Text) -> Option<&'a Text>
    ensures { option_copied result ≡ held files.now name.now }
{
    'files: for file in files {
        if same_text(&file.name, name) {
            return Some(&file.bytes);
        }
    }
    None
}

/// Whether there is a file of that name.
pub fn has_file(files: &[Filed], name: &Text) -> bool
    ensures { result ≡ is_some (held files.now name.now) }
{
    match find_file(files, name) {
        Some(_) => true,
        None => false,
    }
}

/// Gives the first file of that name these bytes.
#[tactic(auto, using(crate::proofs::Held::set_held, crate::proofs::Held::none_after, crate::proofs::Held::none_all))]
fn set_file(files: &mut Files, name: &Text, bytes: Text)
    requires { is_some (held files.old name.now) ≡ true }
    ensures { Sets name.now bytes files.old files.new }
{
    let count = files.len();
    'files: for i in 0..count {
        let Some(file) = files.at(i) else {
            unreachable!()
        };
        if same_text(&file.name, name) {
            let place = files.at_mut(i);
            place.bytes = bytes;
            return;
        }
    }
}

/// The bytes of a file after a change.
pub fn apply(alloc: Global, what: &FileChange, old: &[u8]) -> Result<Text, Starved>
    ensures { IfOk result (λ new. Some new ≡ image_after what.now (Some old.now)) }
{
    match what {
        FileChange::Made => text_of(alloc, old),
        FileChange::Wrote { at, bytes } => {
            let start = (*at).min(old.len() as u64) as usize;
            let end = start + bytes.as_slice().len();
            let mut new = text_of(alloc, &old[..start])?;
            new.append(bytes.as_slice())?;
            if end < old.len() {
                new.append(&old[end..])?;
            }
            Ok(new)
        }
        FileChange::Cut(n) => {
            let end = (*n).min(old.len() as u64) as usize;
            text_of(alloc, &old[..end])
        }
        FileChange::Synced => text_of(alloc, old),
    }
}

/// Changes the file of that name, and notes it. After `Starved` nothing was done.
#[tactic(auto, using(crate::proofs::Held::sets_after))]
pub fn change_file(
    changes: &mut Seq<Change>,
    files: &mut Files,
    name: &Text,
    what: FileChange,
) -> Result<(), Starved>
    requires { is_some (held files.old name.now) ≡ true }
    ensures ok { OnOk result (HasChanged name.now what changes.old changes.new files.old files.new) }
    ensures changes_stay { OnErr result (changes.new ≡ changes.old) }
    ensures files_stay { OnErr result (files.new ≡ files.old) }
{
    let alloc = files.alloc();
    let Some(old) = find_file(files.as_slice(), name) else {
        unreachable!()
    };
    let new = apply(alloc, &what, old.as_slice())?;
    let copied = copy_text(alloc, name)?;
    let change = Change { name: copied, what };
    changes.push(change)?;
    set_file(files, name, new);
    Ok(())
}

/// Makes an empty file of that name, and notes it. After `Starved` nothing was done.
#[tactic(auto, using(crate::proofs::Held::made_after, crate::proofs::Held::push_held))]
pub fn make_file(changes: &mut Seq<Change>, files: &mut Files, name: &Text) -> Result<(), Starved>
    requires { held files.old name.now ≡ None }
    ensures ok { OnOk result (HasChanged name.now Made changes.old changes.new files.old files.new) }
    ensures changes_stay { OnErr result (changes.new ≡ changes.old) }
    ensures files_stay { OnErr result (files.new ≡ files.old) }
{
    let alloc = files.alloc();
    let file = Filed {
        name: copy_text(alloc, name)?,
        bytes: Seq::new(alloc),
    };
    let change = Change {
        name: copy_text(alloc, name)?,
        what: FileChange::Made,
    };
    changes.push(change)?;
    match files.push(file) {
        Ok(()) => Ok(()),
        Err(e) => {
            let _ = changes.pop();
            Err(e)
        }
    }
}
