//! Why the file of a project is refused.

ghost use Rattle.std.specs.Prelude.{◌≡◌};

use asl_lexer::token::LexFault;
use asl_term::sequence::Starved;
use asl_term::syntax::Text;

/// Why the file of a project is refused. Pieces and agents are counted from 1.
#[derive(Drop)]
pub enum ProjectFault {
    Memory,
    /// It has no tokens.
    Lex(LexFault),
    /// This piece is outside the grammar. Its first token stands there; of a piece that is missing it is the last
    /// token of the file.
    Clause { number: u64, line: u64, column: u64 },
    /// This piece is outside the grammar from this word on, which may be an option that is not known.
    Option { number: u64, word: Text },
    /// There are so many agents, more than may be.
    TooMany(u64),
    /// This agent has the name of an earlier one.
    TwoNames { place: u64, name: Text },
}

impl From<Starved> for ProjectFault {
    ghost use Rattle.mas_project.specs.declared.fault.ProjectFault.TheVariants.{Memory};

    ghost from_gives = { λ _ e. e ≡ Memory };

    fn from(_e: Starved) -> ProjectFault {
        ProjectFault::Memory
    }
}
