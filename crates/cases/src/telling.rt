//! The lines that tell why a case failed.

use crate::comparing::Difference;
use crate::form::{CaseFault, Desk, Plain, WantedPlace};
use asl_term::syntax::Text;

/// Why a file can't be read, with its line where it has one.
pub fn put_fault(fault: &CaseFault, out: &mut Text, desk: &mut Desk) {
    if fault.line > 0 {
        desk.put_named("line ", fault.line, out);
        desk.put(b": ", out);
    }
    desk.put(fault.what.as_bytes(), out);
}

fn put_place(place: &WantedPlace, out: &mut Text, desk: &mut Desk) {
    match place {
        WantedPlace::Status => desk.put(b"status", out),
        WantedPlace::Fault => desk.put(b"fault", out),
        WantedPlace::Line(number) => desk.put_named("line ", *number, out),
        WantedPlace::InOrder(number) => desk.put_named("has ", *number, out),
        WantedPlace::Disk => desk.put(b"disk", out),
    }
}

/// A word, and the bytes in quotes, as far as they are a text.
fn put_quoted(word: &[u8], bytes: &[u8], out: &mut Text, desk: &mut Desk) {
    desk.put(word, out);
    let Ok(text) = std::str::from_utf8(bytes) else {
        return desk.put(b"bytes that are no text", out);
    };
    match format!(in desk.alloc; "{text:?}") {
        Ok(quoted) => desk.put(quoted.as_bytes(), out),
        Err(_) => desk.refuse(0, "memory"),
    }
}

/// Why a case has not passed: the place that differs, with what was wanted there and what came, or that nothing does.
pub fn put_reason(
    plain: &Plain,
    code: u64,
    found: &Option<Difference<'_>>,
    out: &mut Text,
    desk: &mut Desk,
) {
    match (found, &plain.differs) {
        (Some(difference), _) => {
            put_place(&difference.place, out, desk);
            if let WantedPlace::Status = difference.place {
                desk.put_named(": wanted ", plain.status, out);
                return desk.put_named(", got ", code, out);
            }
            put_quoted(b": wanted ", difference.wanted, out, desk);
            put_quoted(b", got ", difference.got, out, desk);
        }
        (None, Some(place)) => {
            desk.put(b"does not differ at ", out);
            put_place(place, out, desk);
        }
        (None, None) => {}
    }
}
