//! The lines of a trace, as an outcome tells them.

ghost use Rattle.std.specs.Prelude.{◌≡◌, true, IfOk};
ghost use Rattle.mas_free.specs.Lines as spec;
ghost use Rattle.mas_explore_likes.specs.Likes.{ShowAlike};

use asl_term::compare::same_text;
use asl_term::sequence::{Seq, Starved};
use asl_term::syntax::Text;
use mas_free::outcome::put_viewed;
use mas_free::view::View;
use std::alloc::Global;

/// What an outcome tells of the lines that a mind has shown.
pub fn viewed(alloc: Global, view: View, lines: &[u8]) -> Result<Text, Starved>
    ensures { IfOk result (λ r. r ≡ spec.viewed view lines.now) }
{
    let mut out = Seq::new(alloc);
    put_viewed(&mut out, view, lines)?;
    Ok(out)
}

/// Whether there is nothing, or the last line is ended too.
fn are_lines(text: &[u8]) -> bool
    ensures { result ≡ spec.are_lines text.now }
{
    let mut front = true;
    let mut rest = text;
    'bytes: while let Some((byte, behind)) = rest.split_first() {
        front = *byte == b'\n';
        rest = behind;
    }
    front
}

/// Whether two minds with these lines have shown the same in this view, in whole lines.
#[tactic(auto, using(crate::proofs::Standing::shows_alike))]
pub fn show_alike(alloc: Global, view: View, a: &Text, b: &Text) -> Result<bool, Starved>
    ensures { IfOk result (λ r. r ≡ true → ShowAlike view a.now b.now) }
{
    if !are_lines(a.as_slice()) || !are_lines(b.as_slice()) {
        return Ok(false);
    }
    let x = viewed(alloc, view, a.as_slice())?;
    let y = viewed(alloc, view, b.as_slice())?;
    Ok(same_text(&x, &y))
}
