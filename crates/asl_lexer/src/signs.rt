//! The table of signs.

ghost use Rattle.std.specs.Prelude.{◌≡◌, [], ◌∷◌};
ghost use Rattle.asl_lexer.specs.Spelling as spelling;
ghost use Rattle.asl_lexer.specs.Scan as scan;

use crate::token::Sign;

#[tactic(auto, using(crate::proofs::SignFacts::no_one))]
fn one_sign(a: u8) -> Option<Sign>
    ensures { result ≡ spelling.sign_of (a ∷ []) }
{
    match a {
        b'(' => Some(Sign::Open),
        b')' => Some(Sign::Close),
        b'[' => Some(Sign::OpenSquare),
        b']' => Some(Sign::CloseSquare),
        b'{' => Some(Sign::OpenBrace),
        b'}' => Some(Sign::CloseBrace),
        b',' => Some(Sign::Comma),
        b';' => Some(Sign::Semicolon),
        b':' => Some(Sign::Colon),
        b'!' => Some(Sign::Bang),
        b'?' => Some(Sign::Question),
        b'~' => Some(Sign::Tilde),
        b'@' => Some(Sign::At),
        b'#' => Some(Sign::Hash),
        b'&' => Some(Sign::Ampersand),
        b'|' => Some(Sign::Bar),
        b'+' => Some(Sign::Plus),
        b'-' => Some(Sign::Minus),
        b'*' => Some(Sign::Star),
        b'<' => Some(Sign::Less),
        b'>' => Some(Sign::More),
        b'=' => Some(Sign::Unify),
        _ => None,
    }
}

#[tactic(auto, using(crate::proofs::SignFacts::no_two))]
fn two_sign(a: u8, b: u8) -> Option<Sign>
    ensures { result ≡ spelling.sign_of (a ∷ b ∷ []) }
{
    match (a, b) {
        (b':', b'-') => Some(Sign::If),
        (b'<', b'-') => Some(Sign::LeftArrow),
        (b'-', b'>') => Some(Sign::RightArrow),
        (b'!', b'!') => Some(Sign::Bangs),
        (b'-', b'+') => Some(Sign::MinusPlus),
        (b'<', b'=') => Some(Sign::LessEq),
        (b'>', b'=') => Some(Sign::MoreEq),
        (b'=', b'=') => Some(Sign::Same),
        _ => None,
    }
}

#[tactic(auto, using(crate::proofs::SignFacts::differ, crate::proofs::SignFacts::no_three))]
fn three_sign(a: u8, b: u8, c: u8) -> Option<Sign>
    ensures { result ≡ spelling.sign_of (a ∷ b ∷ c ∷ []) }
{
    match (a, b, c) {
        (b'\\', b'=', b'=') => Some(Sign::Differ),
        _ => None,
    }
}

/// The sign that a whole text spells.
#[tactic(auto, using(crate::proofs::SignFacts::no_short, crate::proofs::SignFacts::no_long))]
pub fn sign_of(text: &[u8]) -> Option<Sign>
    ensures { result ≡ spelling.sign_of text.now }
{
    match text {
        [a] => one_sign(*a),
        [a, b] => two_sign(*a, *b),
        [a, b, c] => three_sign(*a, *b, *c),
        _ => None,
    }
}

fn is_one(a: u8) -> bool
    ensures { result ≡ spelling.is_sign (a ∷ []) }
{
    one_sign(a).is_some()
}

fn is_two(a: u8, b: u8) -> bool
    ensures { result ≡ spelling.is_sign (a ∷ b ∷ []) }
{
    two_sign(a, b).is_some()
}

fn is_three(a: u8, b: u8, c: u8) -> bool
    ensures { result ≡ spelling.is_sign (a ∷ b ∷ c ∷ []) }
{
    three_sign(a, b, c).is_some()
}

/// How many bytes the longest sign at the front has; 0 where none stands there.
pub fn sign_len(bytes: &[u8]) -> usize
    ensures { result ≡ scan.sign_len bytes.now }
{
    match bytes {
        [a, b, c, ..] if is_three(*a, *b, *c) => 3,
        [a, b, ..] if is_two(*a, *b) => 2,
        [a, ..] if is_one(*a) => 1,
        _ => 0,
    }
}
