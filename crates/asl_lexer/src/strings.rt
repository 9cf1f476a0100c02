//! Strings: where they end, what may not stand in them, and what they mean.

ghost use Rattle.std.specs.Prelude.{◌≡◌, ◌+◌, ◌<◌, ◌≤◌, ◌^◌, false, length, IfSome, IfOk};
ghost use Rattle.std.specs.Option.{is_some};
ghost use Rattle.asl_lexer.specs.Spelling as spelling;
ghost use Rattle.asl_lexer.specs.Scan as scan;

use asl_term::sequence::{Seq, Starved};
use asl_term::syntax::Text;
use std::alloc::Global;

fn is_plain(b: u8) -> bool
    ensures { result ≡ spelling.is_plain b }
{
    if b == 127 || b == b'"' || b == b'\\' {
        return false;
    }
    b >= 32
}

fn is_escaped(b: u8) -> bool
    ensures { result ≡ spelling.is_escaped b }
{
    b == b'"' || b == b'\\' || b == b'n' || b == b't'
}

/// How many bytes a string has behind its first quote, if it is closed.
fn close_len(text: &[u8]) -> Option<usize>
    ensures value { result ≡ scan.close_len false text.now }
    ensures within { IfSome result (λ n. n ≤ length text.now) }
{
    let mut count = 0;
    let mut escaped = false;
    let mut rest = text;
    'bytes: while let Some((b, after)) = rest.split_first() {
        if *b == b'\n' {
            return None;
        }
        if !escaped && *b == b'"' {
            return Some(count + 1);
        }
        escaped = !escaped && *b == b'\\';
        count += 1;
        rest = after;
    }
    None
}

/// The place of the first byte that may not stand in a string, where the first quote has the place 0.
pub fn bad_at(text: &[u8]) -> Option<usize>
    requires { length text.now + 1 < 2 ^ 64 }
    ensures value { result ≡ scan.bad_from 1 false text.now }
    ensures within { IfSome result (λ k. k ≤ length text.now) }
{
    let mut place = 1;
    let mut escaped = false;
    let mut rest = text;
    'bytes: while let Some((b, after)) = rest.split_first() {
        if escaped {
            if !is_escaped(*b) {
                return Some(place);
            }
            escaped = false;
            place += 2;
        } else if *b == b'"' {
            return None;
        } else if *b == b'\\' {
            escaped = true;
        } else if is_plain(*b) {
            place += 1;
        } else {
            return Some(place);
        }
        rest = after;
    }
    None
}

/// Whether a string is closed in its line, if its first quote stands before these bytes.
pub fn is_closed(text: &[u8]) -> bool
    ensures { result ≡ is_some (scan.close_len false text.now) }
{
    close_len(text).is_some()
}

/// How many bytes a string has behind its first quote, if it is one.
pub fn string_len(text: &[u8]) -> Option<usize>
    requires { length text.now + 1 < 2 ^ 64 }
    ensures value { result ≡ scan.string_len text.now }
    ensures within { IfSome result (λ n. n ≤ length text.now) }
{
    let len = close_len(text)?;
    if bad_at(text).is_some() {
        return None;
    }
    Some(len)
}

fn meant(b: u8) -> u8
    ensures { result ≡ scan.meant b }
{
    match b {
        b'n' => b'\n',
        b't' => b'\t',
        _ => b,
    }
}

/// The content of a string, without its first quote.
pub fn content(alloc: Global, text: &[u8]) -> Result<Text, Starved>
    ensures { IfOk result (λ r. r ≡ scan.content false text.now) }
{
    let mut all = Seq::new(alloc);
    let mut escaped = false;
    let mut rest = text;
    'bytes: while let Some((b, after)) = rest.split_first() {
        if escaped {
            all.push(meant(*b))?;
            escaped = false;
        } else if *b == b'"' {
            return Ok(all);
        } else if *b == b'\\' {
            escaped = true;
        } else {
            all.push(*b)?;
        }
        rest = after;
    }
    Ok(all)
}
