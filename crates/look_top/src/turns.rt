//! What the text of a turn says.

ghost use Rattle.std.specs.Prelude.{◌≡◌};
ghost use Rattle.look_top.specs.Asked as spec;

/// A number below 2^64, in front of which a plus may stand.
#[tactic(auto, using(crate::proofs::Numerals::is_read, crate::proofs::Numerals::is_unread))]
fn number_in(text: &str) -> Option<u64>
    ensures { result ≡ spec.number_in text.now }
{
    match text.parse::<u64>() {
        Ok(number) => Some(number),
        Err(_) => None,
    }
}

/// A number, or the word `end`, for which there is none; None outside where it is neither.
pub fn turn_in(text: &str) -> Option<Option<u64>>
    ensures { result ≡ spec.turn_in text.now }
{
    if text.as_bytes() == b"end".as_slice() {
        return Some(None);
    }
    match number_in(text) {
        Some(number) => Some(Some(number)),
        None => None,
    }
}
