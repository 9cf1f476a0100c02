//! Why a source is refused.

ghost use Rattle.std.specs.Prelude.{◌≡◌};

use asl_lexer::token::LexFault;
use asl_term::sequence::Starved;

/// Why a source is refused. Clauses are counted from 1.
#[derive(Clone, Copy, Debug, Drop)]
pub enum TextFault {
    Memory,
    /// It has no tokens.
    Lex(LexFault),
    /// This clause is outside the grammar. Its first token stands there.
    Clause { number: u64, line: u64, column: u64 },
    /// This clause passes a limit.
    Limit { number: u64 },
}

impl From<Starved> for TextFault {
    ghost use Rattle.asl_parser_expr.specs.declared.fault.TextFault.TheVariants.{Memory};

    ghost from_gives = { λ _ e. e ≡ Memory };

    fn from(_e: Starved) -> TextFault {
        TextFault::Memory
    }
}
