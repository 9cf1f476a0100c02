//! What is told of a place in a file.

ghost use Rattle.std.specs.Prelude.{◌≡◌, IfOk};
ghost use Rattle.look_pieces.specs.Telling as spec;
ghost use Rattle.look_pieces.specs.Telling.{AreIn, Each, IsSome, StandsIn};

use asl_lexer::token::Tok;
use asl_term::copying::text_of;
use asl_term::sequence::{Seq, Starved};
use asl_term::syntax::Text;
use look_reasons::excerpt::{Marked, put_excerpt};
use look_reasons::phrase::{Phrase, put_phrases, sentence};
use look_reasons::reason::Reason;
use std::alloc::Global;

/// A place in a file, and what is said about it: a reason, its code, the line of the source and notes.
pub struct Finding {
    pub line: u64,
    pub column: u64,
    pub about: Text,
}

/// By hand, so that who lets one go proves nothing of its parts.
impl Drop for Finding {
    fn drop(self) {
        let Finding {
            line: _,
            column: _,
            about: _,
        } = self;
    }
}

pub type Findings = Seq<Finding>;

/// What is said about a place in this line and column.
pub fn about(
    alloc: Global,
    bytes: &[u8],
    line: u64,
    column: u64,
    r: &Reason,
) -> Result<Text, Starved> {
    let reason = [
        Phrase::Words(r.text.as_slice()),
        Phrase::Words(b" ["),
        Phrase::Words(r.code),
        Phrase::Words(b"]\n"),
    ];
    let mut out = sentence(alloc, &reason)?;
    let marked = Marked {
        line,
        column,
        at: r.at,
        end: r.end,
    };
    let mut spent = put_excerpt(alloc, bytes, marked, &mut out).is_err();
    for note in r.notes.as_slice() {
        let line = [
            Phrase::Words(b"      = "),
            Phrase::Words(note.as_slice()),
            Phrase::Words(b"\n"),
        ];
        spent = spent || put_phrases(alloc, &line, &mut out).is_err();
    }
    if spent {
        drop(out);
        return Err(Starved);
    }
    Ok(out)
}

/// The place of the last token that begins at a byte or before.
fn token_before(toks: &[Tok], at: u64) -> usize {
    let mut found = 0;
    for (k, t) in toks.iter().enumerate() {
        if t.at <= at {
            found = k;
        }
    }
    found
}

/// A finding for a reason, at its token of the piece.
fn finding_at(
    alloc: Global,
    bytes: &[u8],
    toks: &[Tok],
    r: &Reason,
) -> Result<Option<Finding>, Starved>
    ensures { IfOk result (spec.IfThere (StandsIn toks.now)) }
{
    let Some(t) = toks.get(token_before(toks, r.at as u64)) else {
        return Ok(None);
    };
    let line = t.line;
    let first = t.column;
    let behind = first.saturating_add((r.at as u64).saturating_sub(t.at));
    let column = if behind < first { first } else { behind };
    Ok(Some(Finding {
        line,
        column,
        about: about(alloc, bytes, line, column, r)?,
    }))
}

/// The findings for reasons, at tokens of the piece.
#[tactic(auto, using(crate::proofs::Each::one_more))]
pub fn findings_in(
    alloc: Global,
    bytes: &[u8],
    toks: &[Tok],
    reasons: &[Reason],
) -> Result<Findings, Starved>
    ensures { IfOk result (Each (StandsIn toks.now)) }
{
    let mut all = Seq::new(alloc);
    let mut rest = reasons;
    'reasons: while let Some((r, after)) = rest.split_first() {
        if let Some(f) = finding_at(alloc, bytes, toks, r)? {
            all.push(f)?;
        }
        rest = after;
    }
    Ok(all)
}

fn plain_finding(alloc: Global, line: u64, column: u64) -> Result<Finding, Starved>
    ensures { IfOk result (λ f. (f.line ≡ line) × (f.column ≡ column)) }
{
    Ok(Finding {
        line,
        column,
        about: text_of(alloc, b"what begins here is refused [syntax]\n")?,
    })
}

/// These findings, or where there is none one at the beginning.
pub fn at_least_one(alloc: Global, found: Findings) -> Result<Findings, Starved>
    ensures { IfOk result IsSome }
{
    if found.len() > 0 {
        return Ok(found);
    }
    let mut all = found;
    all.push(plain_finding(alloc, 1, 1)?)?;
    Ok(all)
}

/// These findings, or where there is none one at the first token.
#[tactic(auto, using(crate::proofs::Each::at_first))]
pub fn some_of(
    alloc: Global,
    first: &Tok,
    toks: &[Tok],
    found: Findings,
) -> Result<Findings, Starved>
    requires first { spec.IsFirst first.now toks.now }
    requires stand { Each (StandsIn toks.now) found }
    ensures { IfOk result (AreIn toks.now) }
{
    if found.len() > 0 {
        return Ok(found);
    }
    let mut all = found;
    all.push(plain_finding(alloc, first.line, first.column)?)?;
    Ok(all)
}
