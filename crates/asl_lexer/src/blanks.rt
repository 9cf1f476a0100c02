//! Blank bytes and comments.

ghost use Rattle.std.specs.Prelude.{◌≡◌, ◌+◌, ◌<◌, ◌≤◌, length, IfSome};
ghost use Rattle.std.specs.List.{prefix_len};
ghost use Rattle.asl_lexer.specs.Spelling as spelling;
ghost use Rattle.asl_lexer.specs.Scan as scan;

/// What stands at the front that is no token.
#[derive(Clone, Copy, Drop)]
pub enum Blank {
    None,
    /// A blank byte or a comment of so many bytes.
    Bytes(usize),
    /// A comment without its end.
    OpenComment,
}

fn is_blank(b: u8) -> bool
    ensures { result ≡ spelling.is_blank b }
{
    b == b' ' || b == b'\t' || b == b'\r' || b == b'\n'
}

fn line_len(bytes: &[u8]) -> usize
    ensures len { result ≡ prefix_len spelling.is_no_feed bytes.now }
    ensures within { result ≤ length bytes.now }
{
    let mut count = 0;
    let mut rest = bytes;
    'bytes: while let Some((b, after)) = rest.split_first() {
        if *b == 10 {
            return count;
        }
        count += 1;
        rest = after;
    }
    count
}

fn closes(bytes: &[u8]) -> bool
    ensures { result ≡ scan.closes bytes.now }
{
    match bytes {
        [42, 47, ..] => true,
        _ => false,
    }
}

/// How many bytes there are up to the next close of a comment.
fn comment_len(bytes: &[u8]) -> Option<usize>
    ensures value { result ≡ scan.comment_len bytes.now }
    ensures within { IfSome result (λ n. n ≤ length bytes.now) }
{
    let mut count = 0;
    let mut rest = bytes;
    'bytes: while let Some((_, after)) = rest.split_first() {
        if closes(rest) {
            return Some(count + 2);
        }
        count += 1;
        rest = after;
    }
    None
}

fn after_line_mark(bytes: &[u8]) -> Option<&[u8]>
    ensures { scan.view_rest result ≡ scan.after_line_mark bytes.now }
{
    match bytes {
        [a, b, rest @ ..] if *a == 47 && *b == 47 => Some(rest),
        _ => None,
    }
}

fn after_comment_mark(bytes: &[u8]) -> Option<&[u8]>
    ensures { scan.view_rest result ≡ scan.after_comment_mark bytes.now }
{
    match bytes {
        [a, b, rest @ ..] if *a == 47 && *b == 42 => Some(rest),
        _ => None,
    }
}

fn starts_blank(bytes: &[u8]) -> bool
    ensures { result ≡ scan.starts_blank bytes.now }
{
    match bytes {
        [a, ..] => is_blank(*a),
        _ => false,
    }
}

/// The blank byte or the comment at the front.
#[tactic(auto, unfolding(crate::specs::Scan::blank_at), using(crate::proofs::Marks::line_shorter, crate::proofs::Marks::comment_shorter))]
pub fn blank_at(bytes: &[u8]) -> Blank
    ensures value { result ≡ scan.blank_at bytes.now }
    ensures within { scan.IsWithin result (length bytes.now) }
{
    if let Some(rest) = after_line_mark(bytes) {
        return Blank::Bytes(line_len(rest) + 2);
    }
    if let Some(rest) = after_comment_mark(bytes) {
        let Some(len) = comment_len(rest) else {
            return Blank::OpenComment;
        };
        return Blank::Bytes(len + 2);
    }
    if starts_blank(bytes) {
        return Blank::Bytes(1);
    }
    Blank::None
}
