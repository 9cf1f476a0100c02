//! Numbers by which values are found. Nothing is said of them.

/// Two numbers in one.
pub fn stirred(a: u64, b: u64) -> u64 {
    let turned = a.wrapping_mul(0x9E37_79B9_7F4A_7C15).rotate_left(29);
    (turned ^ b).wrapping_mul(0xBF58_476D_1CE4_E5B9)
}

/// The bytes of a text in one number.
pub fn mix_text(bytes: &[u8]) -> u64 {
    let mut mix = 0;
    for byte in bytes {
        mix = stirred(mix, *byte as u64);
    }
    mix
}
