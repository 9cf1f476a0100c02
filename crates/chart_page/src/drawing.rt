//! The pieces of a picture, as text.

ghost use Rattle.chart_page.specs.Texts.{Adds};

use crate::columns::{columns, front};
use crate::escape::put_escaped;
use kept_text::filling::Value;
use kept_text::kept::KeptText;

/// A text of which so many columns are shown: a longer one ends with dots, and its whole stands behind them, to be shown where it is pointed at.
pub fn put_cut(out: &mut KeptText, text: &[u8], most: usize)
    ensures { Adds out.old out.new text.now }
{
    if columns(text) <= most {
        put_escaped(out, text);
        return;
    }
    put_escaped(out, front(text, most.saturating_sub(1)));
    out.put("\u{2026}<title>".as_bytes());
    put_escaped(out, text);
    out.put(b"</title>");
}

/// A text at a place.
pub fn put_text(out: &mut KeptText, x: u64, y: u64, class: &[u8], most: usize, text: &[u8]) {
    out.fill(
        b"<text class=\"{}\" x=\"{}\" y=\"{}\">",
        &[Value::Bytes(class), Value::Number(x), Value::Number(y)],
    );
    put_cut(out, text, most);
    out.put(b"</text>\n");
}

/// A small number at a place.
pub fn put_number(out: &mut KeptText, x: u64, y: u64, number: u64) {
    out.fill(
        b"<text class=\"small\" x=\"{}\" y=\"{}\">{}</text>\n",
        &[Value::Number(x), Value::Number(y), Value::Number(number)],
    );
}

/// The sign of this name, with its left lower corner at a place; nothing where the name is empty.
pub fn put_sign(out: &mut KeptText, x: u64, y: u64, sign: &[u8]) {
    if !sign.is_empty() {
        out.fill(
            b"<use href=\"#{}\" x=\"{}\" y=\"{}\"/>\n",
            &[Value::Bytes(sign), Value::Number(x), Value::Number(y)],
        );
    }
}

/// A box with round corners, by its left upper and its right lower corner. Its class tells how it looks.
pub fn put_box(out: &mut KeptText, from: (u64, u64), to: (u64, u64), class: &[u8]) {
    let (x, y) = from;
    let values = [
        Value::Bytes(class),
        Value::Number(x),
        Value::Number(y),
        Value::Number(to.0.saturating_sub(x)),
        Value::Number(to.1.saturating_sub(y)),
    ];
    out.fill(
        b"<rect class=\"{}\" x=\"{}\" y=\"{}\" width=\"{}\" height=\"{}\" rx=\"2\"/>\n",
        &values,
    );
}

/// A straight line from one place to another. Its class tells how it looks.
pub fn put_line(out: &mut KeptText, from: (u64, u64), to: (u64, u64), class: &[u8]) {
    let values = [
        Value::Bytes(class),
        Value::Number(from.0),
        Value::Number(from.1),
        Value::Number(to.0),
        Value::Number(to.1),
    ];
    out.fill(
        b"<line class=\"{}\" x1=\"{}\" y1=\"{}\" x2=\"{}\" y2=\"{}\"/>\n",
        &values,
    );
}

/// An arrow of this name and colour that leaves level towards the one bend, and arrives level from the other one.
pub fn put_curve(
    out: &mut KeptText,
    name: (usize, usize),
    from: (u64, u64),
    to: (u64, u64),
    bends: (u64, u64),
) {
    let (end, bottom) = to;
    let (near, far) = bends;
    let back = if far < end {
        end.saturating_sub(6)
    } else {
        end.saturating_add(6)
    };
    let values = [
        Value::Number(name.0 as u64),
        Value::Number(name.1 as u64),
        Value::Number(from.0),
        Value::Number(from.1),
        Value::Number(near),
        Value::Number(from.1),
        Value::Number(far),
        Value::Number(bottom),
        Value::Number(back),
        Value::Number(bottom),
        Value::Number(end),
        Value::Number(bottom),
        Value::Number(back),
        Value::Number(bottom.saturating_sub(3)),
        Value::Number(bottom.saturating_add(3)),
    ];
    out.fill(
        b"<g id=\"m{}\" class=\"c{}\"><path class=\"arrow\" d=\"M{} {}C{} {} {} {} {} {}\"/>\
<path class=\"head\" d=\"M{} {}L{} {}V{}z\"/></g>\n",
        &values,
    );
}

/// A small circle around a place: the end of a message that no one took.
pub fn put_circle(out: &mut KeptText, x: u64, y: u64) {
    out.fill(
        b"<circle class=\"lost\" cx=\"{}\" cy=\"{}\" r=\"3\"/>\n",
        &[Value::Number(x), Value::Number(y)],
    );
}
