//! The picture of a report.

ghost use Rattle.std.specs.Prelude.{map, IfOk};
ghost use Rattle.chart_page.specs.Refused.{IsPicture};
ghost use Rattle.chart_page.specs.Texts.{Adds, Grew, HasAll, HoldsAll};

use crate::choice::Choice;
use crate::drawing::{
    put_box, put_circle, put_curve, put_cut, put_line, put_number, put_sign, put_text,
};
use crate::faults::Fault;
use crate::lanes::{LEFT, Lane, NAMED, SIGN, stem};
use crate::layout::{Cell, Layout, Place, TOP, lay_out, place_of};
use crate::messages::{Message, messages};
use crate::report::Report;
use crate::shown::{Piece, PieceKind};
use crate::signs::{SIGNS, STYLE, is_bad_end, look_of};
use kept_text::filling::Value;
use kept_text::kept::KeptText;
use std::alloc::Global;

/// Half of a row: where an arrow meets it.
const HALF: u64 = 4;

/// How far an arrow runs level.
const BEND: u64 = 30;

/// Arrows have so many colours.
pub const COLOURS: usize = 12;

/// Between the numbers of turns at the left, at least.
const APART: u64 = 9;

/// The class of a piece's text.
fn class_of(piece: &Piece<'_>) -> &'static [u8] {
    match piece.kind {
        PieceKind::Line => look_of(piece.text).class,
        PieceKind::Head | PieceKind::Count | PieceKind::World | PieceKind::Mail => b"name",
        PieceKind::Name => b"name",
        PieceKind::End if is_bad_end(piece.text) => b"bad",
        PieceKind::End => b"end",
        PieceKind::Options | PieceKind::Turns => b"small",
        _ => b"fact",
    }
}

/// What stands before the text of a piece.
fn put_open(out: &mut KeptText, index: usize, place: Place, class: &[u8])
    ensures { Grew out.old out.new }
{
    let values = [
        Value::Number(index as u64),
        Value::Bytes(class),
        Value::Number(place.x),
        Value::Number(place.y),
    ];
    out.fill(b"<text id=\"t{}\" class=\"{}\" x=\"{}\" y=\"{}\">", &values);
}

/// A piece at its place.
fn put_piece(out: &mut KeptText, places: &[Place], index: usize, piece: &Piece<'_>)
    ensures { Adds out.old out.new piece.now.text.now }
{
    let place = place_of(places, index);
    put_open(out, index, place, class_of(piece));
    put_cut(out, piece.text, place.most);
    out.put(b"</text>\n");
}

/// All pieces, each at its place.
fn put_pieces(out: &mut KeptText, places: &[Place], pieces: &[Piece<'_>])
    ensures { HasAll out.new (map (λ p. p.text.now) pieces.now) }
{
    for (index, piece) in pieces.iter().enumerate() {
        put_piece(out, places, index, piece);
    }
}

/// The name of a lane: of a group what its names have in common, and how many it has.
fn put_name(out: &mut KeptText, lane: &Lane<'_>, y: u64) {
    let most = (lane.width / 8) as usize;
    if lane.members == 1 {
        return put_text(out, lane.left, y, b"name", most, lane.name);
    }
    put_text(out, lane.left, y, b"name", most, stem(lane.name));
    let values = [
        Value::Number(lane.left),
        Value::Number(y.saturating_sub(11)),
        Value::Number(lane.members),
    ];
    out.fill(
        b"<text class=\"small\" x=\"{}\" y=\"{}\">{} agents</text>\n",
        &values,
    );
}

/// The dashes down the lanes, and their names where these come again; those of a group at the top too.
fn put_lanes(out: &mut KeptText, plan: &Layout<'_>) {
    for lane in &plan.lanes.all {
        let x = lane.left.saturating_add(2);
        put_line(out, (x, TOP.saturating_sub(6)), (x, plan.bottom), b"lane");
        if plan.lanes.scale.is_folded {
            put_name(out, lane, TOP.saturating_sub(9));
        }
        for y in &plan.names {
            put_name(out, lane, *y);
        }
    }
}

/// The number of a cycle, in a lane of several agents behind the agent's name.
fn put_label(out: &mut KeptText, plan: &Layout<'_>, cell: &Cell, name: &[u8]) {
    let x = cell.left.saturating_add(3);
    let y = cell
        .top
        .saturating_add(plan.lanes.scale.row)
        .saturating_sub(2);
    if !plan.lanes.scale.is_folded {
        return put_number(out, x, y, cell.cycle.number);
    }
    out.fill(
        b"<text class=\"small\" x=\"{}\" y=\"{}\">",
        &[Value::Number(x), Value::Number(y)],
    );
    put_cut(out, name, NAMED);
    out.fill(b" {}</text>\n", &[Value::Number(cell.cycle.number)]);
}

/// The signs of a cycle's lines.
fn put_signs(out: &mut KeptText, plan: &Layout<'_>, pieces: &[Piece<'_>], cell: &Cell) {
    for index in cell.cycle.first..cell.cycle.first.saturating_add(cell.cycle.count) {
        if let (Some(piece), Some(place)) = (pieces.get(index), plan.places.get(index)) {
            let x = place.x.saturating_sub(SIGN);
            put_sign(out, x, place.y, look_of(piece.text).sign);
        }
    }
}

/// The number of the turn that ends a cycle, where there is room for it, and dots above it where turns were left out.
fn put_turn(out: &mut KeptText, row: u64, last: u64, at: u64, cell: &Cell) -> u64 {
    let y = cell.top.saturating_add(row).saturating_sub(2);
    if cell.cycle.turn > last.saturating_add(2) {
        let gap = cell.top.saturating_sub(2);
        put_line(out, (8, gap), (LEFT.saturating_sub(8), gap), b"gap");
    }
    if cell.cycle.count == 0 || cell.cycle.turn == 0 || y < at.saturating_add(APART) {
        return at;
    }
    put_number(out, 8, y, cell.cycle.turn);
    y
}

fn put_turns(out: &mut KeptText, plan: &Layout<'_>) {
    put_text(out, 8, TOP.saturating_sub(9), b"small", 8, b"turn");
    let mut last: u64 = 0;
    let mut at: u64 = 0;
    for cell in &plan.cells {
        at = put_turn(out, plan.lanes.scale.row, last, at, cell);
        last = cell.cycle.turn;
    }
}

/// The name of an agent.
fn name_of<'a>(report: &Report<'a>, agent: usize) -> &'a [u8] {
    match report.names.get(agent) {
        Some(name) => name,
        None => &[],
    }
}

fn put_boxes(out: &mut KeptText, plan: &Layout<'_>) {
    for cell in &plan.cells {
        let class: &[u8] = if cell.cycle.count == 0 {
            b"quiet"
        } else {
            b"cycle"
        };
        put_box(out, (cell.left, cell.top), (cell.right, cell.bottom), class);
    }
}

fn put_cells(out: &mut KeptText, report: &Report<'_>, plan: &Layout<'_>, pieces: &[Piece<'_>]) {
    for cell in &plan.cells {
        if cell.cycle.count > 0 {
            put_label(out, plan, cell, name_of(report, cell.cycle.agent));
            put_signs(out, plan, pieces, cell);
        }
    }
}

/// The left edge of the box in which a line stands.
fn left_of(plan: &Layout<'_>, place: &Place) -> u64 {
    let room = plan.lanes.scale.margin.saturating_add(SIGN);
    place.x.saturating_sub(room)
}

/// The end of a message that no one took.
fn put_stub(out: &mut KeptText, sent: &Place) {
    let y = sent.y.saturating_sub(HALF);
    let end = sent.right.saturating_add(14);
    put_line(out, (sent.right, y), (end, y), b"stub");
    put_circle(out, end, y);
}

/// An arrow from the line that sends to the line that took: to a lane at the right from edge to edge, and else to the right edge of the box.
fn put_arrow(
    out: &mut KeptText,
    plan: &Layout<'_>,
    name: (usize, usize),
    sent: &Place,
    taken: &Place,
) {
    let from = sent.y.saturating_sub(HALF);
    let y = taken.y.saturating_sub(HALF);
    let near = sent.right.saturating_add(BEND);
    let left = left_of(plan, taken);
    if left > sent.right {
        let bends = (near, left.saturating_sub(BEND));
        return put_curve(out, name, (sent.right, from), (left, y), bends);
    }
    let far = taken.right.saturating_add(BEND);
    let start = left_of(plan, sent);
    if start > taken.right {
        let bends = (start.saturating_sub(BEND), far);
        return put_curve(out, name, (start, from), (taken.right, y), bends);
    }
    put_curve(out, name, (sent.right, from), (taken.right, y), (near, far));
}

/// A message: an arrow where it was taken, and a short line with a circle where it was not, in all the turns.
fn put_message(out: &mut KeptText, choice: Choice<'_>, plan: &Layout<'_>, message: &Message) {
    let Some(sent) = plan.places.get(message.sent) else {
        return;
    };
    let Some(taken) = message.taken else {
        if choice.turns.is_none() {
            put_stub(out, sent);
        }
        return;
    };
    let colour = if plan.lanes.scale.is_many {
        message.from % COLOURS
    } else {
        0
    };
    if let Some(taken) = plan.places.get(taken) {
        put_arrow(out, plan, (message.sent, colour), sent, taken);
    }
}

fn put_messages(out: &mut KeptText, choice: Choice<'_>, plan: &Layout<'_>, messages: &[Message]) {
    for message in messages {
        put_message(out, choice, plan, message);
    }
}

/// The signs of the agents' ends.
fn put_end_signs(out: &mut KeptText, plan: &Layout<'_>, pieces: &[Piece<'_>]) {
    for (index, piece) in pieces.iter().enumerate() {
        if let (PieceKind::End, Some(place)) = (piece.kind, plan.places.get(index)) {
            let sign: &[u8] = if is_bad_end(piece.text) {
                b"failed"
            } else {
                b"stops"
            };
            put_sign(out, place.x.saturating_sub(SIGN), place.y, sign);
        }
    }
}

/// A word beside each heading below which there is nothing.
fn put_bare(out: &mut KeptText, plan: &Layout<'_>, pieces: &[Piece<'_>]) {
    for (index, piece) in pieces.iter().enumerate() {
        let is_bare = match pieces.get(index.saturating_add(1)) {
            Some(next) => !matches!(next.kind, PieceKind::Fact | PieceKind::Letter),
            None => true,
        };
        if matches!(piece.kind, PieceKind::World | PieceKind::Mail) && is_bare {
            if let Some(place) = plan.places.get(index) {
                let x = place.x.saturating_add(60);
                put_text(out, x, place.y, b"small", 20, b"nothing");
            }
        }
    }
}

/// What stands below the lanes.
fn put_foot(out: &mut KeptText, plan: &Layout<'_>, pieces: &[Piece<'_>]) {
    let y = plan.bottom.saturating_add(5);
    for lane in &plan.lanes.all {
        let right = lane.left.saturating_add(lane.width).saturating_sub(6);
        put_line(out, (lane.left, y), (right, y), b"bar");
    }
    put_end_signs(out, plan, pieces);
    put_bare(out, plan, pieces);
}

/// What stands above the lanes.
fn put_top(out: &mut KeptText, choice: Choice<'_>, report: &Report<'_>, plan: &Layout<'_>) {
    let mut drawn: u64 = 0;
    for lane in &plan.lanes.all {
        drawn = drawn.saturating_add(lane.members);
    }
    out.fill(
        b"<text class=\"name\" x=\"290\" y=\"20\">agents: {} of {}</text>\n",
        &[
            Value::Number(drawn),
            Value::Number(report.names.len() as u64),
        ],
    );
    if let Some(stretch) = choice.turns {
        out.fill(
            b"<text class=\"name\" x=\"450\" y=\"20\">turns {} to {}</text>\n",
            &[Value::Number(stretch.from), Value::Number(stretch.to)],
        );
    }
}

fn put_head(out: &mut KeptText, plan: &Layout<'_>) {
    let (width, height) = (plan.width, plan.height);
    let class: &[u8] = if plan.lanes.scale.is_many {
        b"many"
    } else {
        b"few"
    };
    let values = [
        Value::Bytes(class),
        Value::Number(width),
        Value::Number(height),
        Value::Number(width),
        Value::Number(height),
    ];
    out.fill(
        b"<svg xmlns=\"http://www.w3.org/2000/svg\" class=\"{}\" width=\"{}\" height=\"{}\" viewBox=\"0 0 {} {}\">\n",
        &values,
    );
    out.put(STYLE);
    out.put(SIGNS);
    put_box(out, (0, 0), (width, height), b"paper");
}

/// What stands around and below the texts: what is drawn later covers what is drawn before.
fn put_shapes(
    out: &mut KeptText,
    choice: Choice<'_>,
    report: &Report<'_>,
    plan: &Layout<'_>,
    pieces: &[Piece<'_>],
    messages: &[Message],
) {
    put_head(out, plan);
    put_top(out, choice, report, plan);
    put_lanes(out, plan);
    put_boxes(out, plan);
    put_messages(out, choice, plan, messages);
    put_turns(out, plan);
    put_cells(out, report, plan, pieces);
    put_foot(out, plan, pieces);
}

/// The picture of pieces.
pub fn draw(
    alloc: Global,
    choice: Choice<'_>,
    report: &Report<'_>,
    pieces: &[Piece<'_>],
) -> Result<Vec<u8>, Fault>
    ensures whole { IfOk result (λ svg. IsPicture svg.items) }
    ensures texts { IfOk result (λ svg. HoldsAll svg.items (map (λ p. p.text.now) pieces.now)) }
{
    let plan = lay_out(alloc, choice, report, pieces)?;
    let messages = messages(alloc, pieces)?;
    let mut out = KeptText::new(alloc);
    put_shapes(&mut out, choice, report, &plan, pieces, messages.as_slice());
    put_pieces(&mut out, plan.places.as_slice(), pieces);
    out.put(b"</svg>\n");
    Ok(out.into_bytes()?)
}
