//! Files by their names.

ghost use Rattle.std.specs.Prelude.{◌≡◌, ◌≤◌, List, Option, ℕ, IfOk, OnErr};
ghost use Rattle.asl_term.specs.declared.syntax.Filed.{Filed};
ghost use Rattle.mas_io.specs.Shelf.{FetchFits};

use asl_term::sequence::Starved;
use asl_term::syntax::Text;
use std::alloc::Global;

/// What a shelf has under a name. `TooLong` is a file of more bytes than were asked for.
#[derive(Drop)]
pub enum Fetched {
    Bytes(Text),
    Missing,
    TooLong,
    Failed,
}

/// Files by their names, of which a call can fail.
pub trait Shelf {
    /// What it holds, where it tells that.
    ghost holds: { Self → Option (List Filed) };

    /// How often it has failed.
    ghost faults: { Self → ℕ };

    /// The bytes of the file of that name, at most `most` of them. Want of memory is no fault of the shelf.
    fn fetch(&mut self, alloc: Global, name: &Text, most: u64) -> Result<Fetched, Starved>
        ensures same { holds self.new ≡ holds self.old }
        ensures later { faults self.old ≤ faults self.new }
        ensures fits { IfOk result (FetchFits (holds self.old) name.now most (faults self.old) (faults self.new)) }
        ensures starved_counted { OnErr result (faults self.new ≡ faults self.old) };
}
