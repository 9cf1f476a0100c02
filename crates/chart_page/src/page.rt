//! The page of a report: its picture, its schedule as a bar, all its lines, and what is told of minds, in one file that needs no other.

ghost use Rattle.std.specs.Prelude.{map, IfOk};
ghost use Rattle.chart_page.specs.Minds.{TellsMinds, texts_of};
ghost use Rattle.chart_page.specs.Refused.{IsPage};
ghost use Rattle.chart_page.specs.Texts.{Adds, Grew, HasAll, HoldsAll};

use crate::choice::Choice;
use crate::escape::put_escaped;
use crate::faults::Fault;
use crate::messages::{Message, messages};
use crate::mind_rows::{put_due, put_note, put_rest};
use crate::minds::Minds;
use crate::order::{Cycle, in_order};
use crate::page_parts::{FILTER, FRONT, SCRIPT};
use crate::picture::{COLOURS, draw};
use crate::report::Report;
use crate::shown::{Piece, PieceKind};
use crate::signs::look_of;
use kept_text::filling::Value;
use kept_text::kept::KeptText;
use std::alloc::{AllocError, Global};

/// Of a piece the turn that ends its cycle, 0 where there is none, and the piece at the other end of its message.
#[derive(Clone, Copy)]
struct Link {
    turn: u64,
    other: Option<usize>,
}

/// Notes at the pieces of a cycle the turn that ends it.
fn put_turn(links: &mut [Link], cycle: &Cycle) {
    for index in cycle.first..cycle.first.saturating_add(cycle.count) {
        if let Some(link) = links.get_mut(index) {
            link.turn = cycle.turn;
        }
    }
}

/// Notes at a piece the other end of its message.
fn put_other(links: &mut [Link], index: usize, other: usize) {
    if let Some(link) = links.get_mut(index) {
        link.other = Some(other);
    }
}

/// Notes at these links what cycles and messages tell.
fn put_links(links: &mut [Link], cycles: &[Cycle], messages: &[Message]) {
    for cycle in cycles {
        put_turn(links, cycle);
    }
    for message in messages {
        if let Some(taken) = message.taken {
            put_other(links, message.sent, taken);
            put_other(links, taken, message.sent);
        }
    }
}

/// The links of all pieces.
fn links(
    alloc: Global,
    choice: Choice<'_>,
    report: &Report<'_>,
    pieces: &[Piece<'_>],
) -> Result<Vec<Link>, AllocError> {
    let none = Link {
        turn: 0,
        other: None,
    };
    let cycles = in_order(alloc, choice, report, pieces)?;
    let messages = messages(alloc, pieces)?;
    let mut links = Vec::from_elem(alloc, none, pieces.len())?;
    put_links(links.as_mut_slice(), cycles.as_slice(), messages.as_slice());
    Ok(links)
}

fn link_of(links: &[Link], index: usize) -> Link {
    match links.get(index) {
        Some(link) => *link,
        None => Link {
            turn: 0,
            other: None,
        },
    }
}

/// A sign, which the picture of the page defines.
fn put_sign(out: &mut KeptText, sign: &[u8])
    ensures { Grew out.old out.new }
{
    if !sign.is_empty() {
        out.fill(
            b"<svg class=\"sign\" viewBox=\"-1 -10 11 12\" aria-hidden=\"true\"><use href=\"#{}\"/></svg>",
            &[Value::Bytes(sign)],
        );
    }
}

/// What stands before the text of a trace's line.
fn put_line_front(out: &mut KeptText, index: usize, piece: &Piece<'_>, turn: u64)
    ensures { Grew out.old out.new }
{
    let look = look_of(piece.text);
    let values = [
        Value::Number(index as u64),
        Value::Bytes(look.class),
        Value::Bytes(look.kind),
        Value::Number(piece.agent as u64),
        Value::Number(turn),
        Value::Number(turn),
        Value::Number(piece.cycle),
    ];
    out.fill(
        b"<li id=\"l{}\" tabindex=\"-1\" class=\"{}\" data-kind=\"{}\" data-agent=\"{}\" data-turn=\"{}\">\
<span class=\"at\">{}</span><span class=\"at\">{}</span>",
        &values,
    );
    put_sign(out, look.sign);
}

/// What stands behind the text of a trace's line: where it has one, the way to the other end of its message.
fn put_line_back(out: &mut KeptText, link: Link)
    ensures { Grew out.old out.new }
{
    match link.other {
        None => out.put(b"</li>\n"),
        Some(other) => out.fill(
            b" <a class=\"other\" href=\"#l{}\">other end</a></li>\n",
            &[Value::Number(other as u64)],
        ),
    }
}

/// What stands before the text of a piece, as the page has it.
fn put_before(out: &mut KeptText, index: usize, piece: &Piece<'_>, turn: u64)
    ensures { Grew out.old out.new }
{
    match piece.kind {
        PieceKind::Line => put_line_front(out, index, piece, turn),
        PieceKind::Name => out.fill(
            b"<section class=\"trace\" data-agent=\"{}\"><h3>",
            &[Value::Number(piece.agent as u64)],
        ),
        PieceKind::Head => out.put(b"<p class=\"name\">"),
        PieceKind::World => out.put(b"</div><section><h2>"),
        PieceKind::Mail | PieceKind::Count => out.put(b"</ul></section>\n<section><h2>"),
        PieceKind::Fact | PieceKind::Letter => out.put(b"<li>"),
        PieceKind::End => out.put(b"</ol><p class=\"end\">"),
        _ => out.put(b"<p class=\"small\">"),
    }
}

/// What stands behind the text of a piece.
fn put_behind(out: &mut KeptText, piece: &Piece<'_>, link: Link)
    ensures { Grew out.old out.new }
{
    match piece.kind {
        PieceKind::Line => put_line_back(out, link),
        PieceKind::Name => out.put(b"</h3><ol>\n"),
        PieceKind::World | PieceKind::Mail => out.put(b"</h2><ul>\n"),
        PieceKind::Count => out.put(b"</h2>\n"),
        PieceKind::Fact | PieceKind::Letter => out.put(b"</li>\n"),
        PieceKind::End => out.put(b"</p></section>\n"),
        PieceKind::Options => out.put(b"</p>\n<div id=\"traces\">\n"),
        PieceKind::Head => out.put(b"</p>\n"),
        _ => out.put(b"</p></section>\n"),
    }
}

/// A piece, as the page has it.
fn put_piece(out: &mut KeptText, links: &[Link], index: usize, piece: &Piece<'_>)
    ensures { Adds out.old out.new piece.now.text.now }
{
    let link = link_of(links, index);
    put_before(out, index, piece, link.turn);
    put_escaped(out, piece.text);
    put_behind(out, piece, link);
}

/// All pieces, and below the lines of each cycle what is told of it.
fn put_pieces(out: &mut KeptText, links: &[Link], pieces: &[Piece<'_>], minds: &Minds<'_>)
    ensures texts { HasAll out.new (map (λ p. p.text.now) pieces.now) }
    ensures minds { HasAll out.new (texts_of minds.now.lines.now) }
{
    let mut next: usize = 0;
    for (index, piece) in pieces.iter().enumerate() {
        next = put_due(out, minds.lines, next, piece);
        put_piece(out, links, index, piece);
    }
    put_rest(out, minds.lines, next);
}

/// A stroke of the bar: the turn that ends a cycle, in the colour of its agent.
fn put_stroke(out: &mut KeptText, links: &[Link], index: usize, piece: &Piece<'_>, turns: u64) {
    let turn = link_of(links, index).turn;
    let colour = piece.agent % COLOURS;
    let values = [
        Value::Number(index as u64),
        Value::Number(colour as u64),
        Value::Number(turn.saturating_mul(1000) / turns.max(1)),
        Value::Number((colour * 4) as u64),
        Value::Number(turn),
    ];
    out.fill(
        b"<a href=\"#l{}\" tabindex=\"-1\"><rect class=\"c{}\" x=\"{}\" y=\"{}\" width=\"2\" height=\"4\"><title>turn {}</title></rect></a>",
        &values,
    );
}

/// The schedule as a bar: the turns with which the cycles end that have a line.
fn put_bar(out: &mut KeptText, report: &Report<'_>, links: &[Link], pieces: &[Piece<'_>]) {
    let turns = report.count.unwrap_or(0);
    out.fill(
        b"</div>\n<svg class=\"turns\" viewBox=\"0 0 1003 48\" preserveAspectRatio=\"none\" role=\"img\" aria-label=\"{} turns\">\n",
        &[Value::Number(turns)],
    );
    for (index, piece) in pieces.iter().enumerate() {
        if let PieceKind::Line = piece.kind {
            put_stroke(out, links, index, piece, turns);
        }
    }
    out.put(b"</svg>\n");
}

/// The page of pieces.
pub fn page(
    alloc: Global,
    choice: Choice<'_>,
    minds: &Minds<'_>,
    report: &Report<'_>,
    pieces: &[Piece<'_>],
) -> Result<Vec<u8>, Fault>
    ensures whole { IfOk result (λ html. IsPage html.items) }
    ensures texts { IfOk result (λ html. HoldsAll html.items (map (λ p. p.text.now) pieces.now)) }
    ensures minds { IfOk result (λ html. TellsMinds minds.now html.items) }
{
    let links = links(alloc, choice, report, pieces)?;
    let svg = draw(alloc, choice, report, pieces)?;
    let mut out = KeptText::new(alloc);
    out.put(FRONT);
    out.put(svg.as_slice());
    put_bar(&mut out, report, links.as_slice(), pieces);
    out.put(FILTER);
    put_note(&mut out, minds);
    put_pieces(&mut out, links.as_slice(), pieces, minds);
    out.put(SCRIPT);
    out.put(b"</html>\n");
    Ok(out.into_bytes()?)
}
