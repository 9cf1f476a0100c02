//! The words of a line, behind the number of its cycle.

ghost use Rattle.std.specs.Prelude.{◌≡◌};
ghost use Rattle.look_lines.specs.Falls as spec;

/// What stands behind the first blank.
pub fn words(line: &[u8]) -> &[u8]
    ensures { result.now ≡ spec.words line.now }
{
    let mut rest = line;
    'bytes: while let Some((byte, behind)) = rest.split_first() {
        rest = behind;
        if *byte == b' ' {
            return rest;
        }
    }
    rest
}

/// Whether the words tell of a failure.
pub fn is_told(words: &[u8]) -> bool
    ensures { result ≡ spec.is_told words.now }
{
    words.starts_with(b"drops ") || words.starts_with(b"failed ") || words.starts_with(b"spent ")
}

/// Whether they name a row that says what becomes of a stack that fails.
pub fn is_fate(words: &[u8]) -> bool
    ensures { result ≡ spec.is_fate words.now }
{
    words == b"rule Fail1".as_slice()
        || words == b"rule Fail2".as_slice()
        || words == b"rule Fail3".as_slice()
}

/// The words of the last row that is none of those, behind a line with these words.
pub fn row_after<'a>(row: &'a [u8], words: &'a [u8]) -> &'a [u8]
    ensures { result.now ≡ spec.row_after row.now words.now }
{
    if words.starts_with(b"rule ") && !is_fate(words) {
        words
    } else {
        row
    }
}
