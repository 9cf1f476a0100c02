//! The places of bytes.

ghost use Rattle.std.specs.Prelude.{◌≡◌, take};
ghost use Rattle.asl_lexer.specs.Lexing.{start, after};
ghost use Rattle.look_pieces.specs.Telling as spec;

use asl_lexer::token::{LexFault, Place};

/// The place behind a text that begins a file.
fn behind(text: &[u8]) -> Place
    ensures { result ≡ after start text.now }
{
    let mut here = Place {
        at: 0,
        line: 1,
        column: 1,
    };
    let mut rest = text;
    'bytes: while let Some((b, next)) = rest.split_first() {
        if *b == b'\n' {
            here = Place {
                at: here.at + 1,
                line: here.line + 1,
                column: 1,
            };
        } else {
            here = Place {
                at: here.at + 1,
                line: here.line,
                column: here.column + 1,
            };
        }
        rest = next;
    }
    here
}

/// The bytes before a place.
fn before(bytes: &[u8], at: u64) -> &[u8]
    ensures { result.now ≡ take at bytes.now }
{
    if at < bytes.len() as u64 {
        &bytes[..at as usize]
    } else {
        bytes
    }
}

/// The line and the column of a byte, from 1.
pub fn place_in(bytes: &[u8], at: u64) -> Place
    ensures { result ≡ after start (take at bytes.now) }
{
    behind(before(bytes, at))
}

/// Where a fault of bytes stands.
pub fn fault_place(why: LexFault) -> u64
    ensures { result ≡ spec.place_of why }
{
    match why {
        LexFault::Memory => 0,
        LexFault::BadByte(at) => at,
        LexFault::OpenString(at) => at,
        LexFault::OpenComment(at) => at,
        LexFault::NumberRange(at) => at,
    }
}
