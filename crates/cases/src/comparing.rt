//! Where what came differs first from what was wanted.

ghost use Rattle.std.specs.Prelude.{◌≡◌, ◌≢◌, ◌+◌, ◌==◌, ◌↔◌, IsNone, IfSome, IsTrue, count_by, take, slice_get};

use crate::form::{Desk, Mode, Plain, Wanted, WantedPlace};
use crate::lines::{is_feed, line_of};
use asl_term::syntax::{Files, Text};

/// What a call did: its status by its code, the fault line, what was written, and the files of the disk.
#[derive(Clone, Copy)]
pub struct Got<'a> {
    pub status: u64,
    pub fault: &'a [u8],
    pub written: &'a [u8],
    pub files: &'a Files,
}

/// The first place that differs, with what was wanted there and what came.
#[derive(Clone, Copy)]
pub struct Difference<'a> {
    pub place: WantedPlace,
    pub wanted: &'a [u8],
    pub got: &'a [u8],
}

/// The first place at which two texts have not the same byte.
#[tactic(auto, using(crate::proofs::Places::differs_in, crate::proofs::Places::differs_behind))]
pub fn first_place(wanted: &[u8], got: &[u8]) -> Option<usize>
    ensures same { IsNone result ↔ (wanted.now ≡ got.now) }
    ensures before { IfSome result (λ n. take n wanted.now ≡ take n got.now) }
    ensures there { IfSome result (λ n. slice_get wanted.now n ≢ slice_get got.now n) }
{
    if wanted == got {
        return None;
    }
    let shorter = wanted.len().min(got.len());
    'bytes: for n in 0..shorter {
        if wanted[n] != got[n] {
            return Some(n);
        }
    }
    Some(shorter)
}

/// The number of the line of this place, from 1.
pub fn line_number(text: &[u8], place: usize) -> u64
    ensures { result ≡ count_by (λ b. b == 10) (take place text.now) + 1 }
{
    let front = &text[..place.min(text.len())];
    front.iter().filter(|b| **b == b'\n').count() as u64 + 1
}

/// The line of this number, with its line feed; nothing where there is no such line.
fn line_at(text: &[u8], number: u64) -> &[u8] {
    let mut at = 1u64;
    for line in text.split_inclusive(is_feed) {
        if at == number {
            return line;
        }
        at = at.saturating_add(1);
    }
    &[]
}

/// The first line in which two texts differ.
fn line_difference<'a>(wanted: &'a [u8], got: &'a [u8]) -> Option<Difference<'a>> {
    let Some(place) = first_place(wanted, got) else {
        return None;
    };
    let number = line_number(wanted, place);
    Some(Difference {
        place: WantedPlace::Line(number),
        wanted: line_at(wanted, number),
        got: line_at(got, number),
    })
}

/// What of the output is compared: the whole, or the lines of a report from each `agent NAME` to its `end NAME`.
pub fn put_shown(mode: Mode, report: &[u8], lines: &mut Text, desk: &mut Desk) {
    let mut inside = match mode {
        Mode::Whole | Mode::InOrder => return desk.put(report, lines),
        Mode::Agents => false,
    };
    for line in report.split_inclusive(is_feed) {
        if line.starts_with(b"agent ") {
            inside = true;
        }
        if line == b"world\n".as_slice() {
            inside = false;
        }
        if inside {
            desk.put(line, lines);
        }
    }
}

/// A line up to its last blank.
fn front_of(line: &[u8]) -> &[u8] {
    let mut end = 0usize;
    for at in 0..line.len() {
        if line[at] == b' ' {
            end = at;
        }
    }
    line.get(..end).unwrap_or(&[])
}

/// Whether a line is the wanted one, in which `#` stands for any first or any last word.
fn is_like(wanted: &[u8], line: &[u8]) -> bool {
    if wanted.starts_with(b"# ") {
        return line_of(0, wanted).rest == line_of(0, line).rest;
    }
    if wanted.ends_with(b" #\n") {
        return front_of(wanted) == front_of(line);
    }
    wanted == line
}

/// The first of these lines that the text does not have behind those before it.
fn order_difference<'a>(lines: &'a [u8], text: &'a [u8]) -> Option<Difference<'a>> {
    let mut number = 1u64;
    for line in text.split_inclusive(is_feed) {
        if is_like(line_at(lines, number), line) {
            number = number.saturating_add(1);
        }
    }
    let wanted = line_at(lines, number);
    if wanted.is_empty() {
        return None;
    }
    Some(Difference {
        place: WantedPlace::InOrder(number),
        wanted,
        got: &[],
    })
}

/// The bytes of the file of this name.
pub fn held<'a>(files: &'a Files, name: &[u8]) -> Option<&'a [u8]> {
    for file in files.as_slice() {
        if file.name.as_slice() == name {
            return Some(file.bytes.as_slice());
        }
    }
    None
}

/// The first wanted file that is not there or holds other bytes.
fn disk_difference<'a>(wanted: &'a Files, files: &'a Files) -> Option<Difference<'a>> {
    for file in wanted.as_slice() {
        let found = held(files, file.name.as_slice());
        if found != Some(file.bytes.as_slice()) {
            return Some(Difference {
                place: WantedPlace::Disk,
                wanted: file.bytes.as_slice(),
                got: found.unwrap_or(&[]),
            });
        }
    }
    None
}

/// The first place that differs: of the status, the fault line, the output and the files of the disk.
pub fn first_difference<'a>(
    plain: &Plain,
    wanted: &'a Wanted,
    got: &Got<'a>,
) -> Option<Difference<'a>> {
    let fault = wanted.fault.as_slice();
    let output = wanted.output.as_slice();
    if plain.status != got.status {
        return Some(Difference {
            place: WantedPlace::Status,
            wanted: &[],
            got: &[],
        });
    }
    if fault != got.fault {
        return Some(Difference {
            place: WantedPlace::Fault,
            wanted: fault,
            got: got.fault,
        });
    }
    let found = match plain.mode {
        Mode::Whole | Mode::Agents => line_difference(output, got.written),
        Mode::InOrder => order_difference(output, got.written),
    };
    if found.is_some() {
        return found;
    }
    disk_difference(&wanted.kept, got.files)
}

/// Whether two places are the same.
fn is_same(one: &WantedPlace, other: &WantedPlace) -> bool
    ensures { IsTrue result ↔ (one.now ≡ other.now) }
{
    match (one, other) {
        (WantedPlace::Status, WantedPlace::Status) => true,
        (WantedPlace::Fault, WantedPlace::Fault) => true,
        (WantedPlace::Line(m), WantedPlace::Line(n)) => *m == *n,
        (WantedPlace::InOrder(m), WantedPlace::InOrder(n)) => *m == *n,
        (WantedPlace::Disk, WantedPlace::Disk) => true,
        _ => false,
    }
}

/// Whether a case passes: it differs first where it has to, or nowhere where it has not to.
pub fn passes(found: &Option<WantedPlace>, differs: &Option<WantedPlace>) -> bool
    ensures { IsTrue result ↔ (found.now ≡ differs.now) }
{
    match (found, differs) {
        (None, None) => true,
        (Some(one), Some(other)) => is_same(one, other),
        _ => false,
    }
}
