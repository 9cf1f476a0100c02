//! The folder of a file.

ghost use Rattle.std.specs.Prelude.{◌≡◌};
ghost use Rattle.mas_top_files.specs.Projects as spec;

/// A word up to its last `/`, with it.
#[tactic(auto, using(crate::proofs::Folders::folder_ends, crate::proofs::Folders::folder_goes_on))]
pub fn folder(word: &[u8]) -> &[u8]
    ensures { result.now ≡ spec.folder word.now }
{
    let mut rest = word;
    'bytes: while let Some((last, before)) = rest.split_last() {
        if *last == b'/' {
            return rest;
        }
        rest = before;
    }
    rest
}
