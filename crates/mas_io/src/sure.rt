//! A shelf of which no call fails.

ghost use Rattle.std.specs.Prelude.{ℕ, ◌≡◌, ◌≢◌, ◌≤◌, Some, IfOk, OnErr};
ghost use Rattle.mas_io.specs.Shelf.{FetchFits, IsCopy, fetched};
ghost use Rattle.mas_io.specs.declared.shelf.Fetched.TheVariants.{Failed};

use crate::memory::find_file;
use crate::shelf::{Fetched, Shelf};
use asl_term::sequence::Starved;
use asl_term::syntax::{Files, Text};
use std::alloc::Global;

/// Files in memory. Its count of faults never rises.
#[derive(Drop)]
pub struct SureShelf {
    files: Files,
}

/// A shelf of these files.
pub fn sure_shelf(files: Files) -> SureShelf
    ensures { result ≡ record { files = files } }
{
    SureShelf { files }
}

impl Shelf for SureShelf {
    ghost holds = { λ s. Some s.files };

    ghost faults = { λ s. 0 };

    fn fetch(&mut self, alloc: Global, name: &Text, most: u64) -> Result<Fetched, Starved>
        ensures same { Some self.new.files ≡ Some self.old.files }
        ensures later { 0 ≤ 0 }
        ensures fits { IfOk result (FetchFits (Some self.old.files) name.now most 0 0) }
        ensures starved_counted { OnErr result (◌≡◌ {A = ℕ} 0 0) }
        ensures answer { IfOk result (λ f. f ≡ fetched self.old.files name.now most) }
        ensures no_failure { IfOk result (λ f. f ≢ Failed) }
        ensures starved { OnErr result (IsCopy (fetched self.old.files name.now most)) }
    {
        match find_file(alloc, self.files.as_slice(), name, most) {
            Ok(found) => Ok(found),
            Err(starved) => Err(starved),
        }
    }
}
