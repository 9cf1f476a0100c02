//! The change from the texts of a mind's parts to those of a later one, as lines.
//!
//! After `Starved` some lines may stand in `out`.

ghost use Rattle.std.specs.Prelude.{◌≡◌, ◌++◌, ◌∷◌, [], OnOk, IfOk, map};
ghost use Rattle.look_lines.specs.Changes as spec;

use crate::difference::minus;
use asl_term::copying::text_of;
use asl_term::sequence::{Seq, Starved};
use asl_term::syntax::Text;
use chart_page::form::lines_of;
use chart_page::minds::ChangeSign;
use std::alloc::Global;

/// A line of a change.
pub struct ChangedLine {
    pub sign: ChangeSign,
    pub text: Text,
}

/// By hand, so that who lets one go proves nothing of its parts.
impl Drop for ChangedLine {
    fn drop(self) {
        let ChangedLine { sign: _, text: _ } = self;
    }
}

fn put_line(
    alloc: Global,
    out: &mut Seq<ChangedLine>,
    sign: ChangeSign,
    line: &[u8],
) -> Result<(), Starved>
    ensures { OnOk result (out.new ≡ out.old ++ spec.signed sign line.now ∷ []) }
{
    let text = text_of(alloc, line)?;
    out.push(ChangedLine { sign, text })
}

fn put_lines(
    alloc: Global,
    out: &mut Seq<ChangedLine>,
    sign: ChangeSign,
    lines: &[&[u8]],
) -> Result<(), Starved>
    ensures { OnOk result (out.new ≡ out.old ++ map (spec.signed sign) (map (λ l. l.now) lines.now)) }
{
    'lines: for line in lines {
        put_line(alloc, out, sign, line)?;
    }
    Ok(())
}

/// Appends the head of a part, and its lines that are gone and that are new, where there is one.
fn put_told(
    alloc: Global,
    out: &mut Seq<ChangedLine>,
    head: &[u8],
    gone: &[&[u8]],
    fresh: &[&[u8]],
) -> Result<(), Starved>
    ensures { OnOk result (out.new ≡ out.old ++ spec.told head.now (map (λ l. l.now) gone.now) (map (λ l. l.now) fresh.now)) }
{
    if gone.is_empty() && fresh.is_empty() {
        return Ok(());
    }
    put_line(alloc, out, ChangeSign::Part, head)?;
    put_lines(alloc, out, ChangeSign::Gone, gone)?;
    put_lines(alloc, out, ChangeSign::New, fresh)
}

/// The first line.
fn head_of<'a>(lines: &[&'a [u8]]) -> &'a [u8]
    ensures { result.now ≡ spec.head_of (map (λ l. l.now) lines.now) }
{
    match lines.first() {
        Some(line) => line,
        None => b"",
    }
}

/// The lines behind the first one.
fn below_head<'s, 'a>(lines: &'s [&'a [u8]]) -> &'s [&'a [u8]]
    ensures { map (λ l. l.now) result.now ≡ spec.below_head (map (λ l. l.now) lines.now) }
{
    let [_, rest @ ..] = lines else {
        return lines;
    };
    rest
}

/// Appends the change from one text of a part to another.
fn put_part(
    alloc: Global,
    out: &mut Seq<ChangedLine>,
    before: &[u8],
    after: &[u8],
) -> Result<(), Starved>
    ensures { OnOk result (out.new ≡ out.old ++ spec.part_change before.now after.now) }
{
    let olds = lines_of(alloc, before)?;
    let news = lines_of(alloc, after)?;
    let old_items = below_head(olds.as_slice());
    let new_items = below_head(news.as_slice());
    let gone = minus(alloc, old_items, new_items)?;
    let fresh = minus(alloc, new_items, old_items)?;
    put_told(
        alloc,
        out,
        head_of(news.as_slice()),
        gone.as_slice(),
        fresh.as_slice(),
    )
}

/// The change from the texts of a mind's parts to those of a later one.
pub fn change(alloc: Global, befores: &[Text], afters: &[Text]) -> Result<Seq<ChangedLine>, Starved>
    ensures { IfOk result (λ c. c ≡ spec.change befores.now afters.now) }
{
    let mut out = Seq::new(alloc);
    let most = befores.len().min(afters.len());
    'parts: for at in 0..most {
        put_part(
            alloc,
            &mut out,
            befores[at].as_slice(),
            afters[at].as_slice(),
        )?;
    }
    Ok(out)
}
