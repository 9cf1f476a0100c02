//! What changed in the minds of agents, as rows of a page below the lines of each cycle.

ghost use Rattle.std.specs.Prelude.{◌≤◌, ◌<◌, length, take};
ghost use Rattle.chart_page.specs.Minds.{texts_of};
ghost use Rattle.chart_page.specs.Texts.{Adds, Grew, HasAll};

use crate::escape::put_escaped;
use crate::minds::{ChangeSign, MindLine, Minds};
use crate::shown::{Piece, PieceKind};
use kept_text::filling::Value;
use kept_text::kept::KeptText;

/// The class of a line, and the sign that stands before it.
fn look_of(sign: ChangeSign) -> (&'static [u8], &'static [u8]) {
    match sign {
        ChangeSign::Part => (b"part", b""),
        ChangeSign::Gone => (b"gone", b"-"),
        ChangeSign::New => (b"new", b"+"),
    }
}

/// What stands before the text of a line.
fn put_line_front(out: &mut KeptText, sign: ChangeSign)
    ensures { Grew out.old out.new }
{
    let (class, sign) = look_of(sign);
    out.fill(
        b"<div class=\"{}\">{}",
        &[Value::Bytes(class), Value::Bytes(sign)],
    );
}

/// A line.
fn put_line(out: &mut KeptText, line: &MindLine<'_>)
    ensures { Adds out.old out.new line.now.text.now }
{
    put_line_front(out, line.sign);
    put_escaped(out, line.text);
    out.put(b"</div>\n");
}

/// The turn of a line, where it is not the one before.
fn put_turn(out: &mut KeptText, before: u64, turn: u64)
    ensures { Grew out.old out.new }
{
    if turn != before {
        out.fill(
            b"<div class=\"turn\">turn {}</div>\n",
            &[Value::Number(turn)],
        );
    }
}

/// The lines from one on to another.
fn put_lines(out: &mut KeptText, lines: &[MindLine<'_>], from: usize, to: usize)
    requires order { from ≤ to }
    requires within { to ≤ length lines.now }
    requires before { HasAll out.old (take from (texts_of lines.now)) }
    ensures grew { Grew out.old out.new }
    ensures texts { HasAll out.new (take to (texts_of lines.now)) }
{
    let mut turn: u64 = 0;
    for at in from..to {
        put_turn(out, turn, lines[at].turn);
        put_line(out, &lines[at]);
        turn = lines[at].turn;
    }
}

/// How many of the lines are gone, and how many are new.
fn counts(lines: &[MindLine<'_>]) -> (u64, u64) {
    let mut gone: u64 = 0;
    let mut new: u64 = 0;
    for line in lines {
        match line.sign {
            ChangeSign::Part => {}
            ChangeSign::Gone => gone = gone.saturating_add(1),
            ChangeSign::New => new = new.saturating_add(1),
        }
    }
    (gone, new)
}

/// What stands before the lines of a row: its cycle, and how many lines are gone and new.
fn put_front(out: &mut KeptText, index: usize, first: &MindLine<'_>, counts: (u64, u64))
    ensures { Grew out.old out.new }
{
    let values = [
        Value::Number(index as u64),
        Value::Number(first.agent as u64),
        Value::Number(first.ends),
        Value::Number(first.ends),
        Value::Number(first.cycle),
        Value::Number(counts.0),
        Value::Number(counts.1),
    ];
    out.fill(
        b"<li id=\"lx{}\" tabindex=\"-1\" class=\"mind\" data-kind=\"mind\" data-agent=\"{}\" data-turn=\"{}\">\
<span class=\"at\">{}</span><span class=\"at\">{}</span><details><summary>mind: {} gone, {} new</summary>\n",
        &values,
    );
}

/// A row of the lines from one on to another.
fn put_row(out: &mut KeptText, lines: &[MindLine<'_>], from: usize, to: usize)
    requires order { from < to }
    requires within { to ≤ length lines.now }
    requires before { HasAll out.old (take from (texts_of lines.now)) }
    ensures grew { Grew out.old out.new }
    ensures texts { HasAll out.new (take to (texts_of lines.now)) }
{
    put_front(out, from, &lines[from], counts(&lines[from..to]));
    put_lines(out, lines, from, to);
    out.put(b"</details></li>\n");
}

/// Where the lines of the cycle end that begin there.
fn end_of(lines: &[MindLine<'_>], from: usize) -> usize
    requires { from < length lines.now }
    ensures more { from < result }
    ensures within { result ≤ length lines.now }
{
    let first = lines[from];
    for at in from + 1..lines.len() {
        if lines[at].agent != first.agent || lines[at].cycle != first.cycle {
            return at;
        }
    }
    lines.len()
}

/// Whether a line stands before a piece: it is of a cycle before that of the piece, or of an agent whose trace ends there.
fn is_due(line: &MindLine<'_>, piece: &Piece<'_>) -> bool {
    match piece.kind {
        PieceKind::Line if line.agent == piece.agent => line.cycle < piece.cycle,
        PieceKind::Line => line.agent < piece.agent,
        PieceKind::End => line.agent <= piece.agent,
        _ => false,
    }
}

/// The rows from a line on that stand before a piece; returns the first line behind them.
pub fn put_due(out: &mut KeptText, lines: &[MindLine<'_>], next: usize, piece: &Piece<'_>) -> usize
    requires within { next ≤ length lines.now }
    requires before { HasAll out.old (take next (texts_of lines.now)) }
    ensures grew { Grew out.old out.new }
    ensures within { result ≤ length lines.now }
    ensures texts { HasAll out.new (take result (texts_of lines.now)) }
{
    let mut at = next;
    'rows: while at < lines.len() && is_due(&lines[at], piece) {
        let end = end_of(lines, at);
        put_row(out, lines, at, end);
        at = end;
    }
    at
}

/// The lines from one on that stand before no piece, in a list of their own.
pub fn put_rest(out: &mut KeptText, lines: &[MindLine<'_>], next: usize)
    requires within { next ≤ length lines.now }
    requires before { HasAll out.old (take next (texts_of lines.now)) }
    ensures grew { Grew out.old out.new }
    ensures texts { HasAll out.new (texts_of lines.now) }
{
    if next == lines.len() {
        return;
    }
    out.put(b"<section><ol>\n");
    put_row(out, lines, next, lines.len());
    out.put(b"</ol></section>\n");
}

/// What a reader has to know of the rows.
pub fn put_note(out: &mut KeptText, minds: &Minds<'_>) {
    if !minds.lines.is_empty() || minds.untold.is_some() {
        out.put(
            b"<p class=\"small\">below the lines of a cycle: what of the agent's mind is gone in it (-), and what is new (+)</p>\n",
        );
    }
    if let Some(turn) = minds.untold {
        out.fill(
            b"<p class=\"small\">From turn {} on nothing is told of minds: they are left out where a run is longer.</p>\n",
            &[Value::Number(turn)],
        );
    }
}
