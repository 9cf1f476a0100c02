//! Laws of the demo's files, as contracts of functions that do nothing.

ghost use Rattle.mas_top_demo.specs.Laws.{DemoDescribed, DemoNotRefused, DemoRefused};

/// Where an artifact `tally` is there, the files of the demo are those of a project.
#[tactic(auto, using(crate::proofs::Described::demo_described))]
pub fn demo_is_described()
    ensures { DemoDescribed }
{}

/// So none of them is refused on a shelf of which no call fails, and no limit is passed.
#[tactic(auto, using(crate::proofs::Described::demo_not_refused))]
pub fn demo_is_not_refused()
    ensures { DemoNotRefused }
{}

/// Where there is none, the first refusal of the files is `refused demo.env 1 artifact tally`.
pub fn demo_is_refused()
    ensures { DemoRefused }
{}
