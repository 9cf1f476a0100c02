//! Numbers and words in a line.

ghost use Rattle.std.specs.Prelude.{◌≡◌};
ghost use Rattle.chart_page.specs.Shown.{behind};

/// The number that these digits write; None where they are none, or it has more than 64 bits.
pub fn number(digits: &[u8]) -> Option<u64> {
    if digits.is_empty() {
        return None;
    }
    let mut sum: u64 = 0;
    for digit in digits {
        if *digit < b'0' || *digit > b'9' {
            return None;
        }
        sum = sum.checked_mul(10)?.checked_add((*digit - b'0') as u64)?;
    }
    Some(sum)
}

/// What stands before the first such byte, and what behind it; all and nothing where it is not there.
pub fn cut_at(sign: u8, text: &[u8]) -> (&[u8], &[u8])
    ensures { result.1.now ≡ behind sign text.now }
{
    for at in 0..text.len() {
        if text[at] == sign {
            return (&text[..at], &text[at + 1..]);
        }
    }
    (text, &[])
}

/// The last word of a text.
pub fn last_word(text: &[u8]) -> &[u8] {
    let mut word = text;
    for piece in text.split(|b| *b == b' ') {
        word = piece;
    }
    word
}
