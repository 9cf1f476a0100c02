//! Two projects as two sites: from their words to the text of their runs.

ghost use Rattle.std.specs.Prelude.{◌≡◌, ◌≤◌, MatchResult};
ghost use Rattle.mas_io.specs.Told.{told_of, IsKept};
ghost use Rattle.mas_top_opening.specs.Opening.{objects_of, setup};
ghost use Rattle.mas_report.specs.Limits.{IsFrom, IsWithin};
ghost use Rattle.mas_top_sites.specs.Caused as spec;
ghost use Rattle.mas_top_sites.specs.Pairs.{ArePairRefused};

use crate::meeting::run_sides;
use crate::reading::read_pair;
use asl_term::copying::text_of;
use mas_io::shelf::Shelf;
use mas_io::sink::Sink;
use mas_io::writing::write_all;
use mas_report::options::Options;
use mas_report::output::Output;
use mas_top_status::status::{Status, whole};
use mas_world::artifact::Artifact;
use std::alloc::Global;
use std::sync::Wait;
use std::thread::Threads;

/// Two projects by their words, and by how many workers their sites run.
#[derive(Clone, Copy)]
pub struct Sites<'a> {
    pub first: &'a [u8],
    pub second: &'a [u8],
    pub workers: u32,
}

/// The text of the runs that are asked for, or why a file is refused.
#[tactic(auto, using(crate::proofs::Answered::can_meet, crate::proofs::Answered::answered))]
fn run_files<R: Threads + Wait + Sync, S: Shelf, A: Artifact + Send>(
    rt: &R,
    alloc: Global,
    o: &Options,
    sites: &Sites<'_>,
    shelf: &mut S,
    artifacts: Vec<A>,
) -> Result<Output, Status>
    requires within { IsWithin o.now }
    requires workers { IsFrom 1 2 sites.now.workers }
    ensures same { S.holds shelf.new ≡ S.holds shelf.old }
    ensures later { S.faults shelf.old ≤ S.faults shelf.new }
    ensures answer { let held = S.holds shelf.old in
        let u = setup o.now (objects_of A.named A.table A.facts artifacts.items) in
        let s = spec.sites_of sites.now in
        MatchResult result
        (λ out. spec.ForPair u held s out.spent out.text)
        (ArePairRefused u.objects held (spec.wish_of u s) (S.faults shelf.old) (S.faults shelf.new)) }
{
    let first = text_of(alloc, sites.first)?;
    let second = text_of(alloc, sites.second)?;
    let sides = read_pair(alloc, o.cycles, &first, &second, artifacts, shelf)?;
    Ok(run_sides(rt, alloc, o, sides, sites.workers)?)
}

/// Makes the runs that are asked for, and writes the text.
#[tactic(auto, using(crate::proofs::Caused::refused_pair, crate::proofs::Caused::written_sites, crate::proofs::Caused::cut_sites))]
pub fn print_sites<R: Threads + Wait + Sync, S: Shelf, K: Sink, A: Artifact + Send>(
    rt: &R,
    alloc: Global,
    o: &Options,
    sites: &Sites<'_>,
    shelf: &mut S,
    sink: &mut K,
    artifacts: Vec<A>,
) -> Status
    requires within { IsWithin o.now }
    requires workers { IsFrom 1 2 sites.now.workers }
    ensures kept { let told = told_of S.holds S.faults K.written K.faults in
        IsKept (told shelf.old sink.old) (told shelf.new sink.new) }
    ensures caused { let told = told_of S.holds S.faults K.written K.faults in
        let u = setup o.now (objects_of A.named A.table A.facts artifacts.items) in
        spec.SitesCaused u (spec.sites_of sites.now) (told shelf.old sink.old) (told shelf.new sink.new) result }
{
    match run_files(rt, alloc, o, sites, shelf, artifacts) {
        Err(status) => status,
        Ok(out) => match write_all(sink, out.text.as_slice()) {
            Ok(()) => whole(out.spent),
            Err(_) => Status::WriteFault,
        },
    }
}
