//! Which line that sends a message belongs to which line that took it.

use crate::numbers::cut_at;
use crate::shown::{Piece, PieceKind};
use std::alloc::{AllocError, Global};

/// A line that sends or took a message: from whom to whom, and which piece it is.
#[derive(Clone, Copy)]
struct Mark {
    from: usize,
    to: usize,
    piece: usize,
}

/// A message: from whom, by which piece it was sent, and by which it was taken, where that is shown.
#[derive(Clone, Copy)]
pub struct Message {
    pub from: usize,
    pub sent: usize,
    pub taken: Option<usize>,
}

#[derive(Drop)]
struct Marks {
    sends: Vec<Mark>,
    takes: Vec<Mark>,
}

/// The agent of that name.
fn agent_of(pieces: &[Piece<'_>], name: &[u8]) -> Option<usize> {
    for piece in pieces {
        if let PieceKind::Name = piece.kind {
            if piece.text == name {
                return Some(piece.agent);
            }
        }
    }
    None
}

/// Keeps a piece where it sends or took a message.
fn put_mark(
    marks: &mut Marks,
    pieces: &[Piece<'_>],
    index: usize,
    piece: &Piece<'_>,
) -> Result<(), AllocError> {
    let (verb, behind) = cut_at(b' ', piece.text);
    let is_send = verb == b"sends".as_slice();
    if !is_send && verb != b"took".as_slice() {
        return Ok(());
    }
    let (name, _) = cut_at(b' ', behind);
    let Some(other) = agent_of(pieces, name) else {
        return Ok(());
    };
    if is_send {
        marks.sends.push(Mark {
            from: piece.agent,
            to: other,
            piece: index,
        })?;
    } else {
        marks.takes.push(Mark {
            from: other,
            to: piece.agent,
            piece: index,
        })?;
    }
    Ok(())
}

/// The first mark from there on whose pair of agents does not come before this one.
fn first_from(marks: &[Mark], from: usize, pair: (usize, usize)) -> usize {
    for at in from..marks.len() {
        if let Some(mark) = marks.get(at) {
            if (mark.from, mark.to) >= pair {
                return at;
            }
        }
    }
    marks.len()
}

/// The messages of a pair arrive in order: the first that was sent is the first that was taken. Both lists are sorted.
fn join(alloc: Global, sends: &[Mark], takes: &[Mark]) -> Result<Vec<Message>, AllocError> {
    let mut messages = Vec::new(alloc);
    let mut next: usize = 0;
    for send in sends {
        next = first_from(takes, next, (send.from, send.to));
        let mut taken = None;
        if let Some(take) = takes.get(next) {
            if take.from == send.from && take.to == send.to {
                taken = Some(take.piece);
                next = next.saturating_add(1);
            }
        }
        messages.push(Message {
            from: send.from,
            sent: send.piece,
            taken,
        })?;
    }
    Ok(messages)
}

/// The messages of the pieces.
pub fn messages(alloc: Global, pieces: &[Piece<'_>]) -> Result<Vec<Message>, AllocError> {
    let mut marks = Marks {
        sends: Vec::new(alloc),
        takes: Vec::new(alloc),
    };
    for (index, piece) in pieces.iter().enumerate() {
        if let PieceKind::Line = piece.kind {
            put_mark(&mut marks, pieces, index, piece)?;
        }
    }
    marks
        .sends
        .sort_by_key(|mark| (mark.from, mark.to, mark.piece))?;
    marks
        .takes
        .sort_by_key(|mark| (mark.from, mark.to, mark.piece))?;
    join(alloc, marks.sends.as_slice(), marks.takes.as_slice())
}
