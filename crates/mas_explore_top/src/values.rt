//! What the texts of options say.

ghost use Rattle.std.specs.Prelude.{◌≡◌, option_map};
ghost use Rattle.mas_explore_top.specs.Asked as spec;

use crate::detail::Detail;
use crate::words::Claimed;
use mas_explore_listing::answers::Claim;

fn detail_of(text: &[u8]) -> Option<Detail>
    ensures { result ≡ spec.detail_of text.now }
{
    if text == b"ends".as_slice() {
        return Some(Detail::Ends);
    }
    if text == b"say".as_slice() {
        return Some(Detail::Say);
    }
    if text == b"acts".as_slice() {
        return Some(Detail::Acts);
    }
    None
}

/// What an outcome is to show, or the usual where it is not said.
pub fn detail_for(given: Option<&[u8]>) -> Option<Detail>
    ensures { result ≡ spec.detail_for (option_map (λ t. t.now) given.entry) }
{
    match given {
        None => Some(Detail::Say),
        Some(text) => detail_of(text),
    }
}

/// Whether a text has a byte and no line feed.
fn is_line(text: &[u8]) -> bool
    ensures { result ≡ spec.is_line text.now }
{
    let ended = text.contains(&b'\n');
    !text.is_empty() && !ended
}

fn claimed_in<'a>(claim: Claim, line: &'a [u8]) -> Option<Option<Claimed<'a>>>
    ensures { option_map (option_map spec.claimed_of) result ≡ spec.claimed_in claim line.now }
{
    if is_line(line) {
        Some(Some(Claimed { claim, line }))
    } else {
        None
    }
}

/// What is claimed: nothing, or one thing; None outside where it is neither.
pub fn claimed_for<'a>(
    never: Option<&'a [u8]>,
    always: Option<&'a [u8]>,
) -> Option<Option<Claimed<'a>>>
    ensures { option_map (option_map spec.claimed_of) result
        ≡ spec.claimed_for (option_map (λ t. t.now) never.entry) (option_map (λ t. t.now) always.entry) }
{
    match never {
        None => match always {
            None => Some(None),
            Some(line) => claimed_in(Claim::Always, line),
        },
        Some(line) => match always {
            None => claimed_in(Claim::Never, line),
            Some(_) => None,
        },
    }
}
