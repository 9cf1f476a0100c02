//! A law of openings, as the contract of a function that does nothing.

ghost use Rattle.asl_lint_laws.specs.Opening.{OpensServed};

/// Where every initial goal and every item of all sources holds, each agent begins as one all of whose goals are covered.
pub fn opens_served()
    ensures { OpensServed }
{}
