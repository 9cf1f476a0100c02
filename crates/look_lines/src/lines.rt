//! The lines of a part.
//!
//! After `Starved` a part of the text may stand in `out`.

ghost use Rattle.std.specs.Prelude.{◌≡◌, ◌-◌, ◌++◌, min, true, OnOk};
ghost use Rattle.look_lines.specs.Lines as spec;

use crate::pieces::{Piece, put_pieces};
use asl_term::names::Names;
use asl_term::printing::write_number;
use asl_term::sequence::Starved;
use asl_term::syntax::{Literal, Text};
use std::alloc::Global;

/// Appends the name of a part and how many it has.
#[tactic(auto, unfolding(crate::specs::Lines::head))]
pub fn put_head(alloc: Global, out: &mut Text, name: &[u8], n: u64) -> Result<(), Starved>
    ensures { OnOk result (out.new ≡ out.old ++ spec.head name.now n) }
{
    out.append(name)?;
    out.append(b" ")?;
    write_number(alloc, n, out)?;
    out.append(b"\n")
}

/// The name of the agent of this number, and nothing where there is none.
pub fn name_of(names: &Names, a: u32) -> &[u8]
    ensures { result.now ≡ spec.name_of names.now a }
{
    match names.at(a) {
        Some(name) => name.as_slice(),
        None => b"",
    }
}

/// Appends a line of a literal.
#[tactic(auto, unfolding(crate::specs::Lines::line))]
pub fn put_literal(out: &mut Text, l: &Literal) -> Result<(), Starved>
    ensures { OnOk result (out.new ≡ out.old ++ spec.literal_line l.now) }
{
    put_pieces(
        out,
        &[Piece::Bytes(b"  "), Piece::Literal(l), Piece::Bytes(b"\n")],
    )
}

/// Appends a part of literals.
pub fn put_literals(
    alloc: Global,
    out: &mut Text,
    name: &[u8],
    all: &[Literal],
) -> Result<(), Starved>
    ensures { OnOk result (out.new ≡ out.old ++ spec.part name.now spec.literal_line all.now) }
{
    put_head(alloc, out, name, all.len() as u64)?;
    'literals: for l in all {
        put_literal(out, l)?;
    }
    Ok(())
}

/// How many line feeds a text has.
fn feeds(text: &[u8]) -> u64
    ensures number { result ≡ spec.feeds text.now }
{
    let mut n = 0;
    for c in text {
        if *c == b'\n' {
            n += 1;
        }
    }
    n
}

/// What stands behind so many line feeds.
fn behind(n: u64, text: &[u8]) -> &[u8]
    ensures { result.now ≡ spec.behind n text.now }
{
    let mut left = n;
    let mut rest = text;
    'lines: while left > 0 {
        let Some((c, after)) = rest.split_first() else {
            return rest;
        };
        if *c == b'\n' {
            left -= 1;
        }
        rest = after;
    }
    rest
}

/// Appends a text with two blanks in front of each line.
fn put_indented(out: &mut Text, text: &[u8]) -> Result<(), Starved>
    ensures { OnOk result (out.new ≡ out.old ++ spec.indented true text.now) }
{
    let mut begins = true;
    for c in text {
        if begins {
            out.append(b"  ")?;
        }
        out.push(*c)?;
        begins = *c == b'\n';
    }
    Ok(())
}

/// The most lines that are written of those that an agent has shown.
const MOST_LINES: u64 = 5;

/// Appends the last lines of a text.
pub fn put_last(alloc: Global, out: &mut Text, text: &[u8]) -> Result<(), Starved>
    ensures { OnOk result (out.new ≡ out.old ++ spec.last_text text.now) }
{
    let all = feeds(text);
    put_head(alloc, out, b"lines", all.min(MOST_LINES))?;
    put_indented(out, behind(all.saturating_sub(MOST_LINES), text))
}
