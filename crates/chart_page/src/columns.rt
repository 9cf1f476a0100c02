//! How wide a text is, and where it is cut.

/// How many columns a character takes at most, by its first byte; none by a later one.
fn columns_of(byte: u8) -> usize {
    match byte {
        0..=127 => 1,
        128..=191 => 0,
        192..=223 => 1,
        _ => 2,
    }
}

pub fn columns(text: &[u8]) -> usize {
    let mut sum: usize = 0;
    for byte in text {
        sum = sum.saturating_add(columns_of(*byte));
    }
    sum
}

/// The front of a text that takes so many columns at most; it ends before a character, never within one.
pub fn front(text: &[u8], most: usize) -> &[u8] {
    let mut room = most;
    for at in 0..text.len() {
        let wanted = columns_of(text[at]);
        if wanted > room {
            return &text[..at];
        }
        room = room.saturating_sub(wanted);
    }
    text
}

/// How wide the columns of a text are that are shown where there is room for so many of them, each of so many tenths.
pub fn width(text: &[u8], most: usize, letter: u64) -> u64 {
    let shown = columns(text).min(most) as u64;
    shown.saturating_mul(letter).saturating_add(9) / 10
}
