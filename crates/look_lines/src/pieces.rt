//! Texts that are put together of pieces.

ghost use Rattle.std.specs.Prelude.{◌≡◌, ◌++◌, OnOk};
ghost use Rattle.look_lines.specs.Pieces as spec;

use asl_term::printing::{print, write_number};
use asl_term::printing_expr::print_literal;
use asl_term::sequence::Starved;
use asl_term::syntax::{Literal, Term, Text};

/// A piece of a text.
#[derive(Clone, Copy)]
pub enum Piece<'a> {
    Bytes(&'a [u8]),
    Number(u64),
    Literal(&'a Literal),
    Term(&'a Term),
}

/// Appends a piece.
fn put_piece(out: &mut Text, piece: Piece<'_>) -> Result<(), Starved>
    ensures { OnOk result (out.new ≡ out.old ++ spec.piece_text piece.entry) }
{
    match piece {
        Piece::Bytes(bytes) => out.append(bytes),
        Piece::Number(number) => write_number(out.alloc(), number, out),
        Piece::Literal(literal) => print_literal(literal, out),
        Piece::Term(term) => print(term, out),
    }
}

/// Appends the pieces in order. After `Starved` some of them may stand in `out`.
pub fn put_pieces(out: &mut Text, pieces: &[Piece<'_>]) -> Result<(), Starved>
    ensures { OnOk result (out.new ≡ out.old ++ spec.pieces_text pieces.now) }
{
    'pieces: for piece in pieces {
        put_piece(out, *piece)?;
    }
    Ok(())
}
