//! The bytes of a report: those of standard input, or of a file.

ghost use Rattle.std.specs.Prelude.{◌≡◌, ◌≤◌, None, option_map, MatchResult};
ghost use Rattle.look_top.specs.Reports as spec;

use asl_term::copying::text_of;
use asl_term::sequence::Starved;
use asl_term::syntax::Text;
use mas_io::shelf::Shelf;
use mas_top_files::files::{MOST_REPORT_BYTES, bytes_of};
use mas_top_status::status::{Status, What};
use std::alloc::Global;

/// Of so many bytes of standard input at most a report is read. Where one more is handed in they are too many.
pub const MOST_INPUT_BYTES: u64 = MOST_REPORT_BYTES;

/// Standard input, where it is handed in and the word is `-`.
fn input_for<'a>(word: &[u8], input: Option<&'a [u8]>) -> Option<&'a [u8]>
    ensures { option_map (λ b. b.now) result ≡ spec.input_for word.now (option_map (λ b. b.now) input.entry) }
{
    match input {
        None => None,
        Some(bytes) => {
            if word == b"-".as_slice() {
                Some(bytes)
            } else {
                None
            }
        }
    }
}

/// The bytes of standard input, where they are not too many.
#[tactic(auto, using(crate::proofs::Inputs::too_many, crate::proofs::Inputs::no_memory))]
fn input_bytes(alloc: Global, bytes: &[u8]) -> Result<Text, Status>
    ensures { MatchResult result (spec.IsInput bytes.now) (spec.IsNoInput bytes.now) }
{
    if bytes.len() as u64 > MOST_REPORT_BYTES {
        return Err(Status::Limit {
            what: What::File,
            count: MOST_REPORT_BYTES,
        });
    }
    match text_of(alloc, bytes) {
        Ok(text) => Ok(text),
        Err(Starved) => Err(Status::Memory),
    }
}

/// The bytes of the file of a report.
#[tactic(auto, using(crate::proofs::Inputs::of_file))]
fn file_bytes<S: Shelf>(alloc: Global, word: &[u8], shelf: &mut S) -> Result<Text, Status>
    ensures same { S.holds shelf.new ≡ S.holds shelf.old }
    ensures later { S.faults shelf.old ≤ S.faults shelf.new }
    ensures answer { let held = S.holds shelf.old in
        MatchResult result (spec.AreBytes held word.now None) (spec.LackBytes held word.now None (S.faults shelf.old) (S.faults shelf.new)) }
{
    match text_of(alloc, word) {
        Ok(name) => bytes_of(alloc, &name, MOST_REPORT_BYTES, shelf),
        Err(Starved) => Err(Status::Memory),
    }
}

/// The bytes of a report: of the file of this name, or of standard input where it is `-`.
#[tactic(auto, using(crate::proofs::Inputs::by_input, crate::proofs::Inputs::by_file))]
pub fn report_bytes<S: Shelf>(
    alloc: Global,
    report: &[u8],
    input: Option<&[u8]>,
    shelf: &mut S,
) -> Result<Text, Status>
    ensures same { S.holds shelf.new ≡ S.holds shelf.old }
    ensures later { S.faults shelf.old ≤ S.faults shelf.new }
    ensures answer { let held = S.holds shelf.old in
        let given = option_map (λ b. b.now) input.entry in
        MatchResult result
        (spec.HasReport given held report.now)
        (spec.LacksReport given held report.now (S.faults shelf.old) (S.faults shelf.new)) }
{
    match input_for(report, input) {
        Some(bytes) => input_bytes(alloc, bytes),
        None => file_bytes(alloc, report, shelf),
    }
}
