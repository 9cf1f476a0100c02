//! What is printed is read again.

ghost use Rattle.asl_print_reread.specs.Laws.{PrintedIsRead, PlanLinesAreRead, NothingElseIsRead, LiteralsAreRead, TermsAreRead, FormulasAreRead};

/// The text of an agent that was read is a source of that agent, within all limits, and of no other agent.
pub fn printed_is_read()
    ensures agent { PrintedIsRead }
    ensures only { NothingElseIsRead }
{}

/// The text of a plan that was read, in one line, is a source with that plan and nothing else.
#[tactic(auto, using(crate::proofs::Whole::line_is_read))]
pub fn plan_lines_are_read()
    ensures { PlanLinesAreRead }
{}

/// The text of a literal that was read, as of a percept, reads as that literal.
#[tactic(auto, using(crate::proofs::PartsAlone::literals_are_read))]
pub fn literals_are_read()
    ensures { LiteralsAreRead }
{}

/// The text of a term that was read means what was read.
#[tactic(auto, using(crate::proofs::PartsAlone::terms_are_read))]
pub fn terms_are_read()
    ensures { TermsAreRead }
{}

/// The text of a formula that was read means what was read.
#[tactic(auto, using(crate::proofs::PartsAlone::formulas_are_read))]
pub fn formulas_are_read()
    ensures { FormulasAreRead }
{}
