//! The top call.

ghost use Rattle.std.specs.Prelude.{◌≤◌, map, string_bytes, option_map, IfSome};
ghost use Rattle.mas_io.specs.Told.{told_of, IsKept};
ghost use Rattle.mas_explore_top.specs.Asked.{ArePermitted, IsPermitted, asked_of, exploring_of};
ghost use Rattle.mas_explore_top.specs.Ends as spec;

use crate::ends::{ExploreEnd, USAGE, VERSION};
use crate::taken::asked_of;
use crate::telling::explored;
use crate::watching::Watch;
use crate::words::{ExploreAsked, ExploreWords};
use asl_term::sequence::Starved;
use mas_explore_files::kinds::Kinds;
use mas_io::shelf::Shelf;
use mas_io::sink::Sink;
use mas_io::writing::write_all;
use mas_top_status::status::Status;
use mas_world::artifact::Artifact;
use std::alloc::Global;

/// Writes what is told of all runs of the project of these words, where the world may use artifacts of these kinds.
#[tactic(auto, using(crate::proofs::Caused::written, crate::proofs::Caused::cut))]
pub fn print_explored<S: Shelf, P: Sink, A: Artifact, K: Kinds<A>, W: Watch>(
    alloc: Global,
    words: &ExploreWords<'_>,
    kinds: K,
    watch: W,
    shelf: &mut S,
    sink: &mut P,
) -> ExploreEnd
    requires { IsPermitted (exploring_of words.now) }
    ensures kept { let told = told_of S.holds S.faults P.written P.faults in
        IsKept (told shelf.old sink.old) (told shelf.new sink.new) }
    ensures caused { let told = told_of S.holds S.faults P.written P.faults in
        spec.ExploreCaused (K.objects kinds) (exploring_of words.now) (told shelf.old sink.old) (told shelf.new sink.new) result }
{
    match explored(alloc, words, kinds, watch, shelf) {
        Err(status) => ExploreEnd::Refused(status),
        Ok(told) => match write_all(sink, told.text.as_slice()) {
            Ok(()) => ExploreEnd::Written(told.code),
            Err(_) => ExploreEnd::Cut,
        },
    }
}

/// Writes a text as it is.
fn print_plain<P: Sink>(text: &[u8], sink: &mut P) -> ExploreEnd
    ensures later { P.faults sink.old ≤ P.faults sink.new }
    ensures caused { spec.WrotePlain text.now (P.written sink.old) (P.written sink.new) (P.faults sink.old) (P.faults sink.new) result }
{
    match write_all(sink, text) {
        Ok(()) => ExploreEnd::Written(0),
        Err(_) => ExploreEnd::Cut,
    }
}

/// Does what is asked for, where something is.
fn do_asked<S: Shelf, P: Sink, A: Artifact, K: Kinds<A>, W: Watch>(
    alloc: Global,
    asked: Option<ExploreAsked<'_>>,
    kinds: K,
    watch: W,
    shelf: &mut S,
    sink: &mut P,
) -> ExploreEnd
    requires { IfSome asked (λ a. ArePermitted (asked_of a)) }
    ensures kept { let told = told_of S.holds S.faults P.written P.faults in
        IsKept (told shelf.old sink.old) (told shelf.new sink.new) }
    ensures caused { let told = told_of S.holds S.faults P.written P.faults in
        let wanted = option_map asked_of asked.entry in
        spec.AskedCaused (K.objects kinds) wanted (told shelf.old sink.old) (told shelf.new sink.new) result }
{
    match asked {
        None => ExploreEnd::Usage,
        Some(ExploreAsked::Help) => print_plain(USAGE, sink),
        Some(ExploreAsked::Version) => print_plain(VERSION, sink),
        Some(ExploreAsked::Explore(words)) => {
            print_explored(alloc, &words, kinds, watch, shelf, sink)
        }
    }
}

/// Does what the words ask for. The words leave out the program's own name.
#[tactic(auto, using(crate::proofs::Caused::starved, crate::proofs::Caused::asked_so))]
pub fn explore_words<S: Shelf, P: Sink, A: Artifact, K: Kinds<A>, W: Watch>(
    alloc: Global,
    words: &[String],
    kinds: K,
    watch: W,
    shelf: &mut S,
    sink: &mut P,
) -> ExploreEnd
    ensures kept { let told = told_of S.holds S.faults P.written P.faults in
        IsKept (told shelf.old sink.old) (told shelf.new sink.new) }
    ensures caused { let told = told_of S.holds S.faults P.written P.faults in
        spec.WordsCaused (K.objects kinds) (map string_bytes words.now) (told shelf.old sink.old) (told shelf.new sink.new) result }
{
    match asked_of(alloc, words) {
        Err(Starved) => ExploreEnd::Refused(Status::Memory),
        Ok(asked) => do_asked(alloc, asked, kinds, watch, shelf, sink),
    }
}
