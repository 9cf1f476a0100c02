//! How an outcome is written: the lines of a trace without the numbers of their cycles, and the section of an agent.

ghost use Rattle.std.specs.Prelude.{◌≡◌, ◌++◌, ◌∷◌, List, ℕ, IfOk, OnOk};
ghost use Rattle.mas_free.specs.Lines as lines;
ghost use Rattle.mas_free.specs.Outcome as spec;

use crate::view::View;
use asl_term::sequence::Starved;
use asl_term::syntax::Text;
use mas_board::seats::Phase;
use mas_report::report::{phase_word, put_agent_line};

/// Appends a byte, unless it goes: whether what is behind it goes.
fn put_byte(out: &mut Text, byte: u8, goes: bool) -> Result<bool, Starved>
    ensures { IfOk result (λ r. (behind : List ℕ) → out.new ++ lines.unnumbered_from r behind ≡ out.old ++ lines.unnumbered_from goes (byte ∷ behind)) }
{
    if goes {
        return Ok(byte != b' ');
    }
    out.push(byte)?;
    Ok(byte == b'\n')
}

/// Appends the lines of a trace, each without the number of its cycle.
fn put_unnumbered(out: &mut Text, text: &[u8]) -> Result<(), Starved>
    ensures { OnOk result (out.new ≡ out.old ++ lines.unnumbered text.now) }
{
    let mut goes = true;
    let mut rest = text;
    'bytes: while let Some((byte, behind)) = rest.split_first() {
        goes = put_byte(out, *byte, goes)?;
        rest = behind;
    }
    Ok(())
}

/// Appends what an outcome tells of the lines that a mind has shown.
pub fn put_viewed(out: &mut Text, view: View, text: &[u8]) -> Result<(), Starved>
    ensures { OnOk result (out.new ≡ out.old ++ lines.viewed view text.now) }
{
    match view {
        View::Ends => Ok(()),
        View::Lines => put_unnumbered(out, text),
    }
}

#[tactic(auto, unfolding(crate::specs::Outcome::end_line))]
fn put_end_line(out: &mut Text, name: &[u8], phase: Phase) -> Result<(), Starved>
    ensures { OnOk result (out.new ≡ out.old ++ spec.end_line name.now phase) }
{
    out.append(b"end ")?;
    out.append(name)?;
    out.append(b" ")?;
    out.append(phase_word(phase))?;
    out.append(b"\n")
}

/// Appends the section of an agent: its name, its lines and its end.
#[tactic(auto, unfolding(crate::specs::Outcome::section))]
pub fn put_section(
    out: &mut Text,
    name: &[u8],
    view: View,
    text: &[u8],
    phase: Phase,
) -> Result<(), Starved>
    ensures { OnOk result (out.new ≡ out.old ++ spec.section name.now (lines.viewed view text.now) phase) }
{
    put_agent_line(out, name)?;
    put_viewed(out, view, text)?;
    put_end_line(out, name, phase)
}
