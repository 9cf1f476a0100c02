//! How a call of the program ended.

ghost use Rattle.std.specs.Prelude.{◌≡◌, ◌≢◌, ◌++◌, IfOk, OnOk, OnErr};
ghost use Rattle.mas_top_status.specs.Statuses.{fault_text, status_code};
ghost use Rattle.mas_top_status.specs.Statuses as spec;

use asl_term::copying::text_of;
use asl_term::printing::write_number;
use asl_term::sequence::{Seq, Starved};
use asl_term::syntax::Text;
use std::alloc::Global;

/// Why a file is refused.
#[derive(Drop)]
pub enum Reason {
    /// A byte that stands in no token.
    Byte,
    /// A string without an end.
    String,
    /// A comment without an end.
    Comment,
    /// A number that is too large.
    Number,
    /// A clause outside the grammar.
    Clause,
    /// An agent of this name, where an earlier one has it.
    Name(Text),
    /// A word of a project that is none there, as an unknown option is.
    Option(Text),
    /// A variable of this name in an effect, which nothing binds.
    Unbound(Text),
    /// An artifact of this name, which is not there.
    Artifact(Text),
    /// A line that is none of a schedule.
    Line,
    /// A number of a schedule that has no turn.
    Illegal,
    /// An agent that has not left at the end of a schedule.
    Unended,
}

/// What passes a limit: the bytes of a file, the trees of a clause, the agents of a project, or the cycles that they may
/// make together.
#[derive(Clone, Copy, Drop)]
pub enum What {
    File,
    Clause,
    Agents,
    Cycles,
}

/// How a call of the program ended. `No` is the answer that a report is not that of a run, or that what `lint` looks for is there.
/// The place of `Refused` is that of a byte, from 0, for the first four reasons, and for
/// the others the number, from 1, of the clause, of the piece of a project, of the agent, of the line of a schedule or of the turn.
/// The count of `Limit` is the allowed bytes of a file, the number of the clause, of the agents, or of their cycles together.
#[derive(Drop)]
pub enum Status {
    Ok,
    No,
    Usage,
    Missing(Text),
    ReadFault,
    WriteFault,
    Refused { file: Text, place: u64, why: Reason },
    Limit { what: What, count: u64 },
    Budget,
    Memory,
    DiskFault,
}

impl From<Starved> for Status {
    ghost use Rattle.mas_top_status.specs.declared.status.Status.TheVariants.{Memory};

    ghost from_gives = { λ _ s. s ≡ Memory };

    fn from(_e: Starved) -> Status {
        Status::Memory
    }
}

/// The status with which the process ends.
pub fn code(s: &Status) -> u8
    ensures { result ≡ status_code s.now }
{
    match s {
        Status::Ok => 0,
        Status::No => 1,
        Status::Usage => 2,
        Status::Missing(_) => 3,
        Status::ReadFault => 4,
        Status::WriteFault => 5,
        Status::Refused { .. } => 6,
        Status::Limit { .. } => 7,
        Status::Budget => 8,
        Status::Memory => 9,
        Status::DiskFault => 11,
    }
}

fn usage_line(alloc: Global) -> Result<Text, Starved>
    ensures { IfOk result (λ t. t ≡ fault_text Status.Usage) }
{
    let mut text = text_of(
        alloc,
        b"usage: jasonrun run PROJECT | replay PROJECT SCHEDULE | check PROJECT REPORT | demo K | renew PROJECT REPORT",
    )?;
    text.append(b" | record PROJECT FILE | resume PROJECT FILE | sites P Q | lint PROJECT")?;
    text.push(b'\n')?;
    Ok(text)
}

fn missing_line(alloc: Global, name: &Text) -> Result<Text, Starved>
    ensures { IfOk result (λ t. t ≡ fault_text (Status.Missing name.now)) }
{
    let mut text = text_of(alloc, b"missing ")?;
    text.append(name.as_slice())?;
    text.push(b'\n')?;
    Ok(text)
}

/// Puts a word and a name last.
fn put_named(out: &mut Text, word: &[u8], name: &Text) -> Result<(), Starved>
    ensures { OnOk result (out.new ≡ out.old ++ (word.now ++ name.now)) }
{
    out.append(word)?;
    out.append(name.as_slice())
}

fn put_reason(out: &mut Text, why: &Reason) -> Result<(), Starved>
    ensures { OnOk result (out.new ≡ out.old ++ spec.reason_word why.now) }
{
    match why {
        Reason::Byte => out.append(b"byte"),
        Reason::String => out.append(b"string"),
        Reason::Comment => out.append(b"comment"),
        Reason::Number => out.append(b"number"),
        Reason::Clause => out.append(b"clause"),
        Reason::Name(name) => put_named(out, b"name ", name),
        Reason::Option(word) => put_named(out, b"option ", word),
        Reason::Unbound(name) => put_named(out, b"unbound ", name),
        Reason::Artifact(name) => put_named(out, b"artifact ", name),
        Reason::Line => out.append(b"line"),
        Reason::Illegal => out.append(b"illegal"),
        Reason::Unended => out.append(b"unended"),
    }
}

fn what_word(what: What) -> &'static [u8]
    ensures { result.now ≡ spec.what_word what }
{
    match what {
        What::File => b"file",
        What::Clause => b"clause",
        What::Agents => b"agents",
        What::Cycles => b"cycles",
    }
}

fn refused_line(alloc: Global, file: &Text, place: u64, why: &Reason) -> Result<Text, Starved>
    ensures { IfOk result (λ t. t ≡ fault_text (Status.Refused file.now place why.now)) }
{
    let mut text = text_of(alloc, b"refused ")?;
    text.append(file.as_slice())?;
    text.push(b' ')?;
    write_number(alloc, place, &mut text)?;
    text.push(b' ')?;
    put_reason(&mut text, why)?;
    text.push(b'\n')?;
    Ok(text)
}

fn limit_line(alloc: Global, what: What, count: u64) -> Result<Text, Starved>
    ensures { IfOk result (λ t. t ≡ fault_text (Status.Limit what count)) }
{
    let mut text = text_of(alloc, b"limit ")?;
    text.append(what_word(what))?;
    text.push(b' ')?;
    write_number(alloc, count, &mut text)?;
    text.push(b'\n')?;
    Ok(text)
}

/// The status of a report that was written whole.
pub fn whole(spent: bool) -> Status
    ensures { result ≡ spec.whole spent }
{
    if spent { Status::Budget } else { Status::Ok }
}

/// The status of an answer that was written whole.
pub fn verdict(yes: bool) -> Status
    ensures { result ≡ spec.verdict yes }
{
    if yes { Status::Ok } else { Status::No }
}

/// The line for standard error, with its line feed, empty for `Ok`.
pub fn fault_line(alloc: Global, s: &Status) -> Result<Text, Starved>
    ensures text { IfOk result (λ t. t ≡ fault_text s.now) }
    ensures starved { OnErr result (s.now ≢ Status.Ok) }
{
    match s {
        Status::Ok => Ok(Seq::new(alloc)),
        Status::No => text_of(alloc, b"no\n"),
        Status::Usage => usage_line(alloc),
        Status::Missing(name) => missing_line(alloc, name),
        Status::ReadFault => text_of(alloc, b"read fault\n"),
        Status::WriteFault => text_of(alloc, b"write fault\n"),
        Status::Refused { file, place, why } => refused_line(alloc, file, *place, why),
        Status::Limit { what, count } => limit_line(alloc, *what, *count),
        Status::Budget => text_of(alloc, b"budget\n"),
        Status::Memory => text_of(alloc, b"memory\n"),
        Status::DiskFault => text_of(alloc, b"disk fault\n"),
    }
}
