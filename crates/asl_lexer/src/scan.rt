//! The token at the front of bytes.

ghost use Rattle.std.specs.Prelude.{◌≡◌, ◌+◌, ◌-◌, ◌<◌, ◌≤◌, length};
ghost use Rattle.std.specs.List.{prefix_len};
ghost use Rattle.asl_lexer.specs.Spelling as spelling;
ghost use Rattle.asl_lexer.specs.Scan as scan;

use crate::signs::sign_len;
use crate::strings::string_len;
use crate::token::TokKind;

fn is_lower(b: u8) -> bool
    ensures { result ≡ spelling.is_lower b }
{
    b >= b'a' && b <= b'z'
}

fn is_upper(b: u8) -> bool
    ensures { result ≡ spelling.is_upper b }
{
    (b >= b'A' && b <= b'Z') || b == b'_'
}

fn is_digit(b: u8) -> bool
    ensures { result ≡ spelling.is_digit b }
{
    b >= b'0' && b <= b'9'
}

fn is_word(b: u8) -> bool
    ensures { result ≡ spelling.is_word b }
{
    is_lower(b) || is_upper(b) || is_digit(b)
}

fn word_len(bytes: &[u8]) -> usize
    ensures len { result ≡ prefix_len spelling.is_word bytes.now }
    ensures within { result ≤ length bytes.now }
{
    let mut count = 0;
    let mut rest = bytes;
    'bytes: while let Some((b, after)) = rest.split_first() {
        if !is_word(*b) {
            return count;
        }
        count += 1;
        rest = after;
    }
    count
}

fn digits_len(bytes: &[u8]) -> usize
    ensures len { result ≡ prefix_len spelling.is_digit bytes.now }
    ensures within { result ≤ length bytes.now }
{
    let mut count = 0;
    let mut rest = bytes;
    'bytes: while let Some((b, after)) = rest.split_first() {
        if !is_digit(*b) {
            return count;
        }
        count += 1;
        rest = after;
    }
    count
}

fn starts_word(bytes: &[u8]) -> bool
    ensures { result ≡ scan.starts_word bytes.now }
{
    match bytes {
        [a, ..] => is_lower(*a),
        _ => false,
    }
}

/// The longest token at the front, and how many bytes it has.
#[tactic(auto, unfolding(crate::specs::Scan::token_at))]
pub fn token_at(bytes: &[u8]) -> Option<(TokKind, usize)>
    ensures { result ≡ scan.token_at bytes.now }
{
    let Some((first, rest)) = bytes.split_first() else {
        return None;
    };
    if is_lower(*first) {
        return Some((TokKind::Atom, word_len(rest) + 1));
    }
    if is_upper(*first) {
        return Some((TokKind::Var, word_len(rest) + 1));
    }
    if is_digit(*first) {
        return Some((TokKind::Number, digits_len(rest) + 1));
    }
    if *first == b'.' {
        if starts_word(rest) {
            return Some((TokKind::Inner, word_len(rest) + 1));
        }
        return Some((TokKind::End, 1));
    }
    if *first == b'"' {
        let len = string_len(rest)?;
        return Some((TokKind::Str, len + 1));
    }
    let len = sign_len(bytes);
    if len == 0 {
        return None;
    }
    Some((TokKind::Sign, len))
}

/// The number that digits spell, unless it is above 9223372036854775807.
#[tactic(auto, using(crate::proofs::Marks::value_is, crate::proofs::Marks::too_big, crate::proofs::Marks::too_big_next))]
pub fn value(digits: &[u8]) -> Option<u64>
    ensures { result ≡ scan.value digits.now }
{
    let mut sum: u64 = 0;
    let mut rest = digits;
    'digits: while let Some((d, after)) = rest.split_first() {
        if sum > 922337203685477580 {
            return None;
        }
        sum = sum * 10 + (d.saturating_sub(b'0')) as u64;
        if sum > 9223372036854775807 {
            return None;
        }
        rest = after;
    }
    Some(sum)
}
