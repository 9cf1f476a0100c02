//! The lines of a trace as text.

ghost use Rattle.std.specs.Prelude.{◌≡◌, ◌++◌, OnOk, OnErr};
ghost use Rattle.asl_term.specs.Exprs.{literal_text};
ghost use Rattle.asl_cycle.specs.Trace as spec;

use crate::rows::{Mail, TraceLine};
use asl_exec_circumstance::rows::Row;
use asl_fail::failure::error_name;
use asl_resolve::answers::Spent;
use asl_term::printing::{print, write_number};
use asl_term::printing_expr::print_literal;
use asl_term::sequence::{Seq, Starved};
use asl_term::syntax::{Literal, Text};
use mas_mind::mind::{Level, verb_text};
use std::alloc::Global;

fn row_name(row: Row) -> &'static [u8]
    ensures { result.now ≡ spec.row_name row }
{
    match row {
        Row::Percept0 => b"Percept0",
        Row::Percept1 => b"Percept1",
        Row::Feed0 => b"Feed0",
        Row::FeedDone => b"FeedDone",
        Row::FeedFail => b"FeedFail",
        Row::Msg0 => b"Msg0",
        Row::Tell => b"Tell",
        Row::Untell => b"Untell",
        Row::Achieve => b"Achieve",
        Row::Unachieve => b"Unachieve",
        Row::AskOne => b"AskOne",
        Row::AskAll => b"AskAll",
        Row::AskSpent => b"AskSpent",
        Row::Reply => b"Reply",
        Row::ReplyFail => b"ReplyFail",
        Row::TellHow => b"TellHow",
        Row::UntellHow => b"UntellHow",
        Row::AskHow => b"AskHow",
        Row::Ignore => b"Ignore",
        Row::SelEv1 => b"SelEv1",
        Row::SelEv2 => b"SelEv2",
        Row::Rel1 => b"Rel1",
        Row::Rel2 => b"Rel2",
        Row::Rel3 => b"Rel3",
        Row::Appl1 => b"Appl1",
        Row::Appl2 => b"Appl2",
        Row::Appl3 => b"Appl3",
        Row::ApplSpent => b"ApplSpent",
        Row::SelAppl => b"SelAppl",
        Row::ExtEv => b"ExtEv",
        Row::IntEv => b"IntEv",
        Row::SelInt1 => b"SelInt1",
        Row::SelInt2 => b"SelInt2",
        Row::Exec0 => b"Exec0",
        Row::ExecLimit => b"ExecLimit",
        Row::ExecArith => b"ExecArith",
        Row::Action => b"Action",
        Row::ExecFree => b"ExecFree",
        Row::AchvGl => b"AchvGl",
        Row::AchvNew => b"AchvNew",
        Row::TestGl1 => b"TestGl1",
        Row::TestGl2 => b"TestGl2",
        Row::TestErr => b"TestErr",
        Row::TestSpent => b"TestSpent",
        Row::AddBel => b"AddBel",
        Row::DelBel => b"DelBel",
        Row::RepBel => b"RepBel",
        Row::RelYes => b"RelYes",
        Row::RelNo => b"RelNo",
        Row::IaOk => b"IaOk",
        Row::IaFail => b"IaFail",
        Row::IaBig => b"IaBig",
        Row::IaSpent => b"IaSpent",
        Row::IaGone => b"IaGone",
        Row::AskOut => b"AskOut",
        Row::ClrInt1 => b"ClrInt1",
        Row::ClrInt2 => b"ClrInt2",
        Row::ClrInt3 => b"ClrInt3",
        Row::ClrLimit => b"ClrLimit",
        Row::Fail1 => b"Fail1",
        Row::Fail2 => b"Fail2",
        Row::Fail3 => b"Fail3",
    }
}

fn spent_name(spent: Spent) -> &'static [u8]
    ensures { result.now ≡ spec.spent_name spent }
{
    match spent {
        Spent::Depth => b"depth",
        Spent::Tries => b"tries",
    }
}

/// Appends a word and a text behind it.
fn two(out: &mut Text, word: &[u8], text: &[u8]) -> Result<(), Starved>
    ensures { OnOk result (out.new ≡ out.old ++ (word.now ++ text.now)) }
{
    out.append(word)?;
    out.append(text)
}

fn write_act(out: &mut Text, word: &[u8], l: &Literal) -> Result<(), Starved>
    ensures { OnOk result (out.new ≡ out.old ++ (word.now ++ literal_text l.now)) }
{
    out.append(word)?;
    print_literal(l, out)
}

fn write_mail(out: &mut Text, word: &[u8], m: &Mail) -> Result<(), Starved>
    ensures { OnOk result (out.new ≡ out.old ++ (word.now ++ spec.mail_text m.now)) }
{
    out.append(word)?;
    out.append(m.who.as_slice())?;
    out.append(b" ")?;
    out.append(verb_text(m.verb).as_bytes())?;
    out.append(b" ")?;
    print(&m.content, out)
}

fn write_line(out: &mut Text, line: &TraceLine) -> Result<(), Starved>
    ensures { OnOk result (out.new ≡ out.old ++ spec.line_text line.now) }
{
    match line {
        TraceLine::Rule(row) => two(out, b"rule ", row_name(*row)),
        TraceLine::Say(text) => two(out, b"say ", text.as_slice()),
        TraceLine::Took(mail) => write_mail(out, b"took ", mail),
        TraceLine::Does(l) => write_act(out, b"does ", l),
        TraceLine::Done(l) => write_act(out, b"done ", l),
        TraceLine::Failed(l) => write_act(out, b"failed ", l),
        TraceLine::Sends(mail) => write_mail(out, b"sends ", mail),
        TraceLine::Drops(error) => two(out, b"drops ", error_name(*error)),
        TraceLine::Spent(spent) => two(out, b"spent ", spent_name(*spent)),
        TraceLine::Stops => out.append(b"stops"),
    }
}

fn shows_rules(level: Level) -> bool
    ensures { result ≡ spec.shows_rules level }
{
    match level {
        Level::Rules => true,
        _ => false,
    }
}

fn shows_acts(level: Level) -> bool
    ensures { result ≡ spec.shows_acts level }
{
    match level {
        Level::Say => false,
        _ => true,
    }
}

fn shows(level: Level, line: &TraceLine) -> bool
    ensures { result ≡ spec.shows level line.now }
{
    match line {
        TraceLine::Rule(_) => shows_rules(level),
        TraceLine::Say(_) => true,
        _ => shows_acts(level),
    }
}

fn write_shown(
    alloc: Global,
    out: &mut Text,
    level: Level,
    cycle: u64,
    line: &TraceLine,
) -> Result<(), Starved>
    ensures { OnOk result (out.new ≡ out.old ++ spec.line_shown level cycle line.now) }
{
    if !shows(level, line) {
        return Ok(());
    }
    write_number(alloc, cycle, out)?;
    out.append(b" ")?;
    write_line(out, line)?;
    out.append(b"\n")
}

fn write_all(
    alloc: Global,
    out: &mut Text,
    level: Level,
    cycle: u64,
    lines: &[TraceLine],
) -> Result<(), Starved>
    ensures { OnOk result (out.new ≡ out.old ++ spec.shown level cycle lines.now) }
{
    for line in lines {
        write_shown(alloc, out, level, cycle, line)?;
    }
    Ok(())
}

/// Puts those of the lines last that the level shows, all of them or none.
pub fn write_lines(
    alloc: Global,
    out: &mut Text,
    level: Level,
    cycle: u64,
    lines: &[TraceLine],
) -> Result<(), Starved>
    ensures ok { OnOk result (out.new ≡ out.old ++ spec.shown level cycle lines.now) }
    ensures err { OnErr result (out.new ≡ out.old) }
{
    let mut text = Seq::new(alloc);
    write_all(alloc, &mut text, level, cycle, lines)?;
    out.append(text.as_slice())
}
