//! Messages as a table, for people and for spreadsheets.

use crate::fitting::by_turns;
use crate::lines::{Fate, Letter};
use asl_term::names::Names;
use asl_term::sequence::{Seq, Starved};
use asl_term::syntax::Text;
use look_reasons::phrase::{Phrase, sentence};
use std::alloc::Global;

/// What is written so far.
struct Sheet {
    text: Text,
    /// Whether memory was wanting.
    starved: bool,
}

/// By hand, so that who lets one go proves nothing of its parts.
impl Drop for Sheet {
    fn drop(self) {
        let Sheet {
            text: _,
            starved: _,
        } = self;
    }
}

impl Sheet {
    fn put(&mut self, bytes: &[u8]) {
        if self.text.append(bytes).is_err() {
            self.starved = true;
        }
    }

    /// Puts a byte so many times.
    fn put_times(&mut self, byte: u8, count: u64) {
        for _ in 0..count {
            if self.text.push(byte).is_err() {
                self.starved = true;
            }
        }
    }

    /// Takes away blanks at the end.
    fn trim(&mut self) {
        for _ in 0..self.text.len() {
            match self.text.as_slice() {
                [.., b' '] => {
                    let _ = self.text.pop();
                }
                _ => return,
            }
        }
    }

    fn into_text(self) -> Result<Text, Starved> {
        let Sheet { text, starved } = self;
        if starved {
            drop(text);
            return Err(Starved);
        }
        Ok(text)
    }
}

/// The cells of a line, by columns.
type Cells<'a> = [Phrase<'a>; 8];

/// What stands above the columns.
fn heads(csv: bool) -> Cells<'static> {
    let (turn, cycle): (&'static [u8], &'static [u8]) = if csv {
        (b"taken_turn", b"taken_cycle")
    } else {
        (b"taken", b"cycle")
    };
    [
        Phrase::Words(b"turn"),
        Phrase::Words(b"cycle"),
        Phrase::Words(b"from"),
        Phrase::Words(b"to"),
        Phrase::Words(turn),
        Phrase::Words(cycle),
        Phrase::Words(b"verb"),
        Phrase::Words(b"content"),
    ]
}

fn name_of(names: &Names, agent: u64) -> &[u8] {
    match names.at(agent.min(4_294_967_295) as u32) {
        Some(name) => name.as_slice(),
        None => &[],
    }
}

/// The cells of a message, from the agent of this name. Where it was not taken its columns say why.
fn cells_of<'a>(from: &'a [u8], row: &Letter<'a>) -> Cells<'a> {
    let nothing = Phrase::Words(b"");
    let (turn, cycle) = match row.fate {
        Fate::Taken { turn, cycle } => (Phrase::Number(turn), Phrase::Number(cycle)),
        Fate::Unread => (Phrase::Words(b"unread"), nothing),
        Fate::Lost => (Phrase::Words(b"lost"), nothing),
    };
    [
        Phrase::Number(row.turn),
        Phrase::Number(row.cycle),
        Phrase::Shown(from),
        Phrase::Shown(row.other),
        turn,
        cycle,
        Phrase::Shown(row.verb),
        Phrase::Shown(row.content),
    ]
}

/// Whether a cell of a spreadsheet needs no quotes: it has no comma, quote or end of line.
fn is_plain(cell: &[u8]) -> bool {
    let mut plain = true;
    for b in cell {
        plain = plain && !matches!(*b, b'"' | b',' | b'\r' | b'\n');
    }
    plain
}

/// Puts a cell of a spreadsheet, where it has to be in quotes and each quote in it twice.
fn put_quoted(cell: &[u8], sheet: &mut Sheet) {
    let quotes = if is_plain(cell) { 0 } else { 1 };
    sheet.put_times(b'"', quotes);
    for b in cell {
        sheet.put_times(*b, if *b == b'"' { 2 } else { 1 });
    }
    sheet.put_times(b'"', quotes);
}

/// Puts a cell in so many columns: numbers stand to the right.
fn put_padded(cell: &[u8], column: usize, width: u64, sheet: &mut Sheet) {
    let blanks = width.saturating_sub(cell.len() as u64);
    let right = matches!(column, 0 | 1 | 4 | 5);
    let (before, behind) = if right { (blanks, 0) } else { (0, blanks) };
    sheet.put_times(b' ', before);
    sheet.put(cell);
    sheet.put_times(b' ', behind);
}

/// Puts the cells of a line, of a spreadsheet behind commas, of a table in these widths and two columns apart.
fn put_line(alloc: Global, csv: bool, widths: &[u64; 8], cells: &Cells<'_>, sheet: &mut Sheet) {
    let gap: &[u8] = if csv { b"," } else { b"  " };
    for column in 0..8 {
        let Ok(cell) = sentence(alloc, &[cells[column]]) else {
            sheet.starved = true;
            return;
        };
        if column > 0 {
            sheet.put(gap);
        }
        if csv {
            put_quoted(cell.as_slice(), sheet);
        } else {
            put_padded(cell.as_slice(), column, widths[column], sheet);
        }
    }
    if !csv {
        sheet.trim();
    }
    sheet.put(b"\n");
}

/// Puts how many were sent, taken, unread and lost.
fn put_sums(alloc: Global, rows: &[Letter<'_>], sheet: &mut Sheet) {
    let mut taken: u64 = 0;
    let mut unread: u64 = 0;
    let mut lost: u64 = 0;
    for row in rows {
        match row.fate {
            Fate::Taken { .. } => taken = taken.saturating_add(1),
            Fate::Unread => unread = unread.saturating_add(1),
            Fate::Lost => lost = lost.saturating_add(1),
        }
    }
    let phrases = [
        Phrase::Number(rows.len() as u64),
        Phrase::Words(b" sent, "),
        Phrase::Number(taken),
        Phrase::Words(b" taken, "),
        Phrase::Number(unread),
        Phrase::Words(b" unread, "),
        Phrase::Number(lost),
        Phrase::Words(b" lost\n"),
    ];
    match sentence(alloc, &phrases) {
        Ok(line) => sheet.put(line.as_slice()),
        Err(_) => sheet.starved = true,
    }
}

/// Makes columns but for the last one as wide as the cells of a line; whether memory was wanting.
fn widen(alloc: Global, cells: &Cells<'_>, widths: &mut [u64; 8]) -> bool {
    let mut starved = false;
    for column in 0..7 {
        match sentence(alloc, &[cells[column]]) {
            Ok(cell) => widths[column] = widths[column].max(cell.len()),
            Err(_) => starved = true,
        }
    }
    starved
}

/// Puts the head, and messages in the order of their turns.
fn put_lines<'a>(
    alloc: Global,
    names: &'a Names,
    rows: &[Letter<'a>],
    csv: bool,
    sheet: &mut Sheet,
) {
    let mut widths = [0; 8];
    if !csv {
        sheet.starved = widen(alloc, &heads(csv), &mut widths);
        for row in rows {
            let cells = cells_of(name_of(names, row.agent), row);
            sheet.starved = sheet.starved || widen(alloc, &cells, &mut widths);
        }
    }
    put_line(alloc, csv, &widths, &heads(csv), sheet);
    let order = by_turns(alloc, rows);
    sheet.starved = sheet.starved || order.starved;
    for key in order.all.as_slice() {
        if let Some(row) = rows.get(key.place as usize) {
            let cells = cells_of(name_of(names, row.agent), row);
            put_line(alloc, csv, &widths, &cells, sheet);
        }
    }
}

/// Messages as a table, or as a spreadsheet.
pub fn table_of<'a>(
    alloc: Global,
    names: &'a Names,
    rows: &[Letter<'a>],
    csv: bool,
) -> Result<Text, Starved> {
    let mut sheet = Sheet {
        text: Seq::new(alloc),
        starved: false,
    };
    put_lines(alloc, names, rows, csv, &mut sheet);
    if !csv {
        put_sums(alloc, rows, &mut sheet);
    }
    sheet.into_text()
}
