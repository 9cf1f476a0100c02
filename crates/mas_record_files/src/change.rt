//! The changes that were made to a disk.

use asl_term::syntax::Text;

/// What was done to a file: it was made, bytes were written at a place, it was cut to a length, or it was synced.
#[derive(Drop)]
pub enum FileChange {
    Made,
    Wrote { at: u64, bytes: Text },
    Cut(u64),
    Synced,
}

/// A change, and the name of the file.
#[derive(Drop)]
pub struct Change {
    pub name: Text,
    pub what: FileChange,
}
