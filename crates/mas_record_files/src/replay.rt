//! What a crash leaves that keeps some of the last changes.

ghost use Rattle.std.specs.Prelude.{◌≡◌, None, Some, IfOk, OnOk};
ghost use Rattle.mas_record_files.specs.Memory as spec;

use crate::change::{Change, FileChange};
use crate::files::{apply, find_file};
use asl_term::compare::same_text;
use asl_term::copying::copy_text;
use asl_term::sequence::{Seq, Starved};
use asl_term::syntax::{Filed, Files, Text};
use std::alloc::Global;

/// While the changes of a file are gone through: what reads, what is kept, and how many more writes and cuts are kept.
#[derive(Drop)]
pub struct Replayed {
    pub reads: Option<Text>,
    pub kept: Option<Text>,
    pub more: u64,
}

fn copy_image(alloc: Global, image: &Option<Text>) -> Result<Option<Text>, Starved>
    ensures { IfOk result (λ copy. copy ≡ image.now) }
{
    match image {
        Some(bytes) => Ok(Some(copy_text(alloc, bytes)?)),
        None => Ok(None),
    }
}

/// What reads after a change.
fn image_after(
    alloc: Global,
    what: &FileChange,
    image: &Option<Text>,
) -> Result<Option<Text>, Starved>
    ensures { IfOk result (λ after. after ≡ spec.image_after what.now image.now) }
{
    match image {
        Some(old) => Ok(Some(apply(alloc, what, old.as_slice())?)),
        None => match what {
            FileChange::Made => Ok(Some(Seq::new(alloc))),
            FileChange::Wrote { .. } => Ok(None),
            FileChange::Cut(_) => Ok(None),
            FileChange::Synced => Ok(None),
        },
    }
}

/// A change is kept while there are more to keep.
fn kept_by(
    alloc: Global,
    more: u64,
    kept: Option<Text>,
    reads: &Option<Text>,
) -> Result<Option<Text>, Starved>
    ensures { IfOk result (λ k. k ≡ spec.kept_by more kept reads.now) }
{
    if more == 0 {
        Ok(kept)
    } else {
        copy_image(alloc, reads)
    }
}

/// One more change.
fn replay(alloc: Global, keep: u64, what: &FileChange, r: Replayed) -> Result<Replayed, Starved>
    ensures { IfOk result (λ after. after ≡ spec.replay keep what.now r) }
{
    let Replayed { reads, kept, more } = r;
    let reads = image_after(alloc, what, &reads)?;
    match what {
        FileChange::Made => {
            let kept = kept_by(alloc, more, kept, &reads)?;
            Ok(Replayed { reads, kept, more })
        }
        FileChange::Wrote { .. } | FileChange::Cut(_) => {
            let kept = kept_by(alloc, more, kept, &reads)?;
            Ok(Replayed {
                reads,
                kept,
                more: more.saturating_sub(1),
            })
        }
        FileChange::Synced => {
            let kept = copy_image(alloc, &reads)?;
            Ok(Replayed {
                reads,
                kept,
                more: keep,
            })
        }
    }
}

/// What a crash leaves of the file of that name, where `keep` of its last writes and cuts are kept.
fn replay_all(
    alloc: Global,
    keep: u64,
    name: &Text,
    start: Replayed,
    changes: &[Change],
) -> Result<Option<Text>, Starved>
    ensures { IfOk result (λ kept. kept ≡ (spec.replay_all keep name.now start changes.now).kept) }
{
    let mut r = start;
    'changes: for change in changes {
        if same_text(&change.name, name) {
            r = replay(alloc, keep, &change.what, r)?;
        }
    }
    let Replayed {
        reads: _,
        kept,
        more: _,
    } = r;
    Ok(kept)
}

/// The file of that name after a crash.
fn crashed(
    alloc: Global,
    keep: u64,
    first: &[Filed],
    changes: &[Change],
    name: &Text,
) -> Result<Option<Text>, Starved>
    ensures { IfOk result (λ kept. kept ≡ spec.crashed keep first.now changes.now name.now) }
{
    let start = match find_file(first, name) {
        Some(bytes) => Replayed {
            reads: Some(copy_text(alloc, bytes)?),
            kept: Some(copy_text(alloc, bytes)?),
            more: keep,
        },
        None => Replayed {
            reads: None,
            kept: None,
            more: keep,
        },
    };
    replay_all(alloc, keep, name, start, changes)
}

/// One more file, where the crash left it.
fn put_image(
    alloc: Global,
    left: &mut Files,
    name: &Text,
    image: Option<Text>,
) -> Result<(), Starved>
    ensures { OnOk result (left.new ≡ spec.with_image left.old name.now image) }
{
    match image {
        Some(bytes) => {
            let name = copy_text(alloc, name)?;
            left.push(Filed { name, bytes })?;
            Ok(())
        }
        None => Ok(()),
    }
}

/// The files after a crash.
pub fn crash_all(
    alloc: Global,
    keep: u64,
    first: &[Filed],
    changes: &[Change],
    files: &[Filed],
) -> Result<Files, Starved>
    ensures { IfOk result (spec.AreCrashed keep first.now changes.now files.now) }
{
    let mut left: Files = Seq::new(alloc);
    'files: for file in files {
        let image = crashed(alloc, keep, first, changes, &file.name)?;
        put_image(alloc, &mut left, &file.name, image)?;
    }
    Ok(left)
}
