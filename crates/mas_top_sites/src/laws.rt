//! Laws of what the files of two projects describe, and of what is written of two sites.

ghost use Rattle.mas_top_sites.specs.Laws.{NotRefused, OnePair, OneRefusal, SitesHaveReports, SomePair, UnrefusedDescribe};

use mas_mind::thinking::Mind;

/// Files describe one pair at most.
pub fn one_pair()
    ensures { OnePair }
{}

/// Files describe a pair, or one of them is refused for what it has. So files of which none is refused describe one.
pub fn some_pair()
    ensures some { SomePair }
    ensures unrefused { UnrefusedDescribe }
{}

/// Where files describe a pair, none of them is refused.
pub fn not_refused()
    ensures { NotRefused }
{}

/// Files are refused with one status at most, whoever reads them, unless a call fails or memory lacks.
pub fn one_refusal()
    ensures { OneRefusal }
{}

/// The text of two sites has a report of each, as that of a run of one project.
#[tactic(auto, using(crate::proofs::Reported::sites_have_reports))]
pub fn sites_have_reports<M: Mind>()
    ensures { SitesHaveReports M.kind }
{}
