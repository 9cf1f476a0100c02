//! The lines of what is found in a file.

ghost use Rattle.std.specs.Prelude.{◌≡◌, ◌++◌, OnOk};
ghost use Rattle.look_pieces.specs.Printing as spec;

use crate::findings::Finding;
use asl_term::printing::write_number;
use asl_term::sequence::Starved;
use asl_term::syntax::Text;
use std::alloc::Global;

/// Puts where a finding is, in a file that is shown so.
fn put_place(alloc: Global, file: &Text, f: &Finding, out: &mut Text) -> Result<(), Starved>
    ensures { OnOk result (out.new ≡ out.old ++ spec.place_text file.now f.now) }
{
    out.append(file.as_slice())?;
    out.append(b":")?;
    write_number(alloc, f.line, out)?;
    out.append(b":")?;
    write_number(alloc, f.column, out)?;
    out.append(b": ")
}

/// Puts a finding, as an error or a hint, in a file that is shown so.
fn put_finding(
    alloc: Global,
    file: &Text,
    word: &[u8],
    f: &Finding,
    out: &mut Text,
) -> Result<(), Starved>
    ensures { OnOk result (out.new ≡ out.old ++ spec.finding_text file.now word.now f.now) }
{
    put_place(alloc, file, f, out)?;
    out.append(word)?;
    out.append(b": ")?;
    out.append(f.about.as_slice())
}

/// Puts the findings in a file that is shown so, in order: `error` or `hint` is the word of each.
pub fn put_findings(
    alloc: Global,
    file: &Text,
    word: &[u8],
    findings: &[Finding],
    out: &mut Text,
) -> Result<(), Starved>
    ensures { OnOk result (out.new ≡ out.old ++ spec.findings_text file.now word.now findings.now) }
{
    let mut rest = findings;
    'findings: while let Some((f, after)) = rest.split_first() {
        put_finding(alloc, file, word, f, out)?;
        rest = after;
    }
    Ok(())
}
