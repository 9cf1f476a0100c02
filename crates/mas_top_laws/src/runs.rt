//! Laws of runs, as contracts of functions that do nothing.

ghost use Rattle.mas_top_laws.specs.Runs.{RunsNever, LintedNever, SourcesNever};

/// Along every list of turns, no cycle has the row of an event of a goal for which no plan is relevant.
pub fn runs_never()
    ensures { RunsNever }
{}

/// So it is from the opening of a project of which lint says yes.
pub fn linted_never()
    ensures { LintedNever }
{}

/// So it is of each project whose agents' sources were read.
pub fn sources_never()
    ensures { SourcesNever }
{}
