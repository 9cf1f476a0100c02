//! What is true of the grammar of expressions.

ghost use Rattle.asl_parser_expr.specs.Laws.{OneMeaning, WithinLimit};

/// Whole tokens are an expression with one meaning at most.
#[tactic(auto, using(crate::proofs::Meant::one_meaning))]
pub fn one_meaning()
    ensures { OneMeaning }
{}

/// An expression whose brackets are within the limit is read within it.
#[tactic(auto, using(crate::proofs::Within::within_limit))]
pub fn within_limit()
    ensures { WithinLimit }
{}
