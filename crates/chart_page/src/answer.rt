//! From a report that is read to a picture that is written.

ghost use Rattle.std.specs.Prelude.{◌≡◌, OnOk, IfOk, IfErr, IfSome};
ghost use Rattle.std.specs.Io.KnownBytes.{Keeps};
ghost use Rattle.std.specs.Str.Lossy.{utf8_lossy};
ghost use Rattle.std.specs.String.{string_bytes};
ghost use Rattle.chart_page.specs.Refused.{IsNoWrite, IsRefused, IsUnread, IsWritten, IsShownIn, refused_line};

use crate::choice::Choice;
use crate::faults::Fault;
use crate::made::made;
use crate::minds::no_minds;
use std::alloc::Global;
use std::io;
use std::io::{Read, Write};

/// All that can be read, as text: bytes that are none are shown by a sign of their own.
fn read_all<R: Read>(alloc: Global, input: &mut R) -> Result<String, Fault>
    ensures text { IfOk result (λ t. IfSome (R.remaining input.old) (λ bytes. string_bytes t ≡ utf8_lossy bytes)) }
    ensures fault { IfErr result IsUnread }
{
    let mut bytes = Vec::new(alloc);
    match input.read_to_end(&mut bytes) {
        Ok(_) => Ok(String::from_utf8_lossy(alloc, bytes.as_slice())?),
        Err(error) if error.kind() == io::ErrorKind::OutOfMemory => Err(Fault::Memory),
        Err(_) => Err(Fault::Read),
    }
}

/// Draws the report that is read, as was asked for. The picture or page is made whole before any of it is written.
pub fn answer<R: Read, W: Write>(
    alloc: Global,
    choice: Choice<'_>,
    input: &mut R,
    output: &mut W,
) -> Result<(), Fault>
    ensures refused { IfSome (refused_line (R.remaining input.old)) (IsRefused result) }
    ensures shown { OnOk result (IfSome (R.remaining input.old) (IsShownIn choice.entry (W.contents output.old) (W.contents output.new))) }
    ensures written { OnOk result (IsWritten choice.entry (W.contents output.old) (W.contents output.new)) }
    ensures kept { IfErr result (λ e. IsNoWrite e → Keeps (W.contents output.old) (W.contents output.new)) }
{
    let text = read_all(alloc, input)?;
    let made = made(alloc, choice, &no_minds(), text.as_bytes())?;
    match output.write_all(made.as_slice()) {
        Ok(()) => Ok(()),
        Err(_) => Err(Fault::Write),
    }
}
