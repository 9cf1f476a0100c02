//! Why a world file is refused.

ghost use Rattle.std.specs.Prelude.{◌≡◌};

use asl_lexer::token::LexFault;
use asl_term::sequence::Starved;
use asl_term::syntax::Text;

/// Why a world file is refused. Clauses are counted from 1.
#[derive(Drop)]
pub enum WorldFault {
    Memory,
    /// It has no tokens.
    Lex(LexFault),
    /// This clause is outside the grammar. Its first token stands there.
    Clause { number: u64, line: u64, column: u64 },
    /// This clause passes a limit.
    Limit { number: u64 },
    /// An effect of this clause has a variable of that name, which nothing binds.
    Unbound { number: u64, name: Text },
    /// This clause uses an artifact that is not there.
    UnknownArtifact { number: u64, name: Text },
}

impl From<Starved> for WorldFault {
    ghost use Rattle.env_file.specs.declared.fault.WorldFault.TheVariants.{Memory};

    ghost from_gives = { λ _ e. e ≡ Memory };

    fn from(_e: Starved) -> WorldFault {
        WorldFault::Memory
    }
}
