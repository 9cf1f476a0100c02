//! Whether a text has a line.

ghost use Rattle.std.specs.Prelude.{◌≡◌, ◌&&◌};
ghost use Rattle.mas_explore_listing.specs.Questions as spec;

/// Whether a line begins at the front, and it is this one, which ends in a line feed.
fn is_here(front: bool, rest: &[u8], line: &[u8]) -> bool
    ensures { result ≡ (front && spec.begins line.now rest.now) }
{
    front && rest.starts_with(line)
}

/// Whether one of the lines of a text is this one, which ends in a line feed.
pub fn has_line(text: &[u8], line: &[u8]) -> bool
    ensures { result ≡ spec.has_line line.now text.now }
{
    let mut front = true;
    let mut rest = text;
    'bytes: while let Some((byte, behind)) = rest.split_first() {
        if is_here(front, rest, line) {
            return true;
        }
        front = *byte == b'\n';
        rest = behind;
    }
    false
}
