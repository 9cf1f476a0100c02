//! Laws of goals that are covered, as contracts of functions that do nothing.

ghost use Rattle.asl_lint_laws.specs.Served.{ServedIsRelevant, RelevanceStays, SourceServes, SourceOpens};
ghost use Rattle.asl_lint_laws.specs.Stays.{PutStays, VariedStays, SettledStays, VariedStaysMerged, SettledStaysMerged};

/// What the rules make of an instance of a trigger stays one: with terms in place of variables, with other variables, and settled.
pub fn instances_stay()
    ensures put { PutStays }
    ensures varied { VariedStays }
    ensures settled { SettledStays }
{}

/// With other variables, and settled, its lists stay merged.
pub fn merged_stay()
    ensures varied { VariedStaysMerged }
    ensures settled { SettledStaysMerged }
{}

/// Some plan is relevant for the event of a goal that a plan serves.
pub fn served_is_relevant()
    ensures { ServedIsRelevant }
{}

/// Where some plan is relevant for an event, some plan is so under another number by which plans are renamed.
pub fn relevance_stays()
    ensures { RelevanceStays }
{}

/// What a source covers is served by the plans with which its agent begins.
pub fn sources_serve()
    ensures serve { SourceServes }
    ensures open { SourceOpens }
{}
