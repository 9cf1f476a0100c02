//! Laws of the texts of agents: what their tokens are.

ghost use Rattle.asl_print.specs.Laws.{TermsGive, LiteralsGive, ExprsGive, FormulasGive, PlansGive, AgentsGive};
ghost use Rattle.asl_print.specs.Laws.{TermsLex, LiteralsLex, ExprsLex, FormulasLex, PlansLex, AgentsLex};
ghost use Rattle.asl_print.specs.Laws.{LinesLex, LinesEnd, ClausesCut};
ghost use Rattle.asl_print.specs.Means.{TokensMean};

/// The tokens of a term's text, before others and alone.
pub fn terms_lex()
    ensures before { TermsGive }
    ensures alone { TermsLex }
{}

/// The tokens of a literal's text.
pub fn literals_lex()
    ensures before { LiteralsGive }
    ensures alone { LiteralsLex }
{}

/// The tokens of an expression's text.
pub fn exprs_lex()
    ensures before { ExprsGive }
    ensures alone { ExprsLex }
{}

/// The tokens of the text of a formula of a body.
pub fn formulas_lex()
    ensures before { FormulasGive }
    ensures alone { FormulasLex }
{}

/// The tokens of a plan's text.
pub fn plans_lex()
    ensures before { PlansGive }
    ensures alone { PlansLex }
{}

/// The tokens of a plan's text in one line, which is the text of an agent with this plan alone, but for the line feed.
#[tactic(auto, using(crate::proofs::Agents::lines_lex, crate::proofs::Agents::lines_end))]
pub fn lines_lex()
    ensures tokens { LinesLex }
    ensures end { LinesEnd }
{}

/// The tokens of an agent's text.
pub fn agents_lex()
    ensures before { AgentsGive }
    ensures alone { AgentsLex }
{}

/// The pieces of an agent's tokens are the tokens of its clauses.
pub fn clauses_cut()
    ensures { ClausesCut }
{}

/// What those tokens are to a grammar.
pub fn tokens_mean()
    ensures { TokensMean }
{}
