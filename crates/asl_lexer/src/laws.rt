//! Laws of tokens and of texts: what texts that are written give when they are read.

ghost use Rattle.asl_lexer.specs.Bare.{TokensSpelled};
ghost use Rattle.asl_lexer.specs.Seams.{SignsGive, NamesGive, VariablesGive, InnersGive, NumbersGive, StringsGive, StopGives, BlanksGive, WholesHave};
ghost use Rattle.asl_lexer.specs.Seams.{SignsSpelled, SignsRead, NumbersRead};
ghost use Rattle.asl_lexer.specs.Total.{SomeAnswer};

/// What each text gives before other bytes; what a whole text gives is all that it has.
pub fn texts_give()
    ensures signs { SignsGive }
    ensures names { NamesGive }
    ensures variables { VariablesGive }
    ensures inners { InnersGive }
    ensures numbers { NumbersGive }
    ensures strings { StringsGive }
    ensures stop { StopGives }
    ensures blanks { BlanksGive }
    ensures whole { WholesHave }
{}

/// The table of signs, read in both directions.
pub fn signs_spelled()
    ensures spelled { SignsSpelled }
    ensures read { SignsRead }
{}

/// The value of a printed number.
pub fn numbers_read()
    ensures { NumbersRead }
{}

/// The tokens of bytes have texts of their kinds.
pub fn tokens_spelled()
    ensures { TokensSpelled }
{}

/// Each list of bytes has tokens, or a fault: the reader has an answer to all of them.
#[tactic(auto, using(crate::proofs::Total::some_answer))]
pub fn some_answer()
    ensures { SomeAnswer }
{}
