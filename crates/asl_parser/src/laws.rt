//! What is true of the grammar of clauses.

ghost use Rattle.asl_parser.specs.Laws.{OneSentence, OneAnswer, SomeAnswer, OneAgent, GroundBeliefs};

/// A clause says one thing at most.
#[tactic(auto, using(crate::proofs::Answered::one_sentence))]
pub fn one_sentence()
    ensures { OneSentence }
{}

/// Each list of bytes has one answer: what its clauses say, or one fault, and not both. So it is the source of one
/// agent at most.
#[tactic(auto, using(crate::proofs::Single::one_answer, crate::proofs::Total::some_answer))]
pub fn one_answer()
    ensures answer { OneAnswer }
    ensures some { SomeAnswer }
    ensures agent { OneAgent }
{}

/// The beliefs of a source have no variables. (A belief with a variable is a rule.)
pub fn ground_beliefs()
    ensures { GroundBeliefs }
{}
