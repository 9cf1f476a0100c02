//! Laws of what the files of a run describe, as contracts of functions that do nothing.

ghost use Rattle.mas_top_files.specs.Laws.{KnownNamed, KnownUses, NotRefused, OneRefusal, OneSource, SomeSource, UnrefusedDescribe};

/// Files describe one source at most.
#[tactic(auto, using(crate::proofs::Single::one_source))]
pub fn one_source()
    ensures { OneSource }
{}

/// Where files describe a source, none of them is refused.
#[tactic(auto, using(crate::proofs::Single::not_refused))]
pub fn not_refused()
    ensures { NotRefused }
{}

/// Files are refused with one status at most, whoever reads them, unless a call fails or memory lacks.
#[tactic(auto, using(crate::proofs::Refusals::one_refusal))]
pub fn one_refusal()
    ensures { OneRefusal }
{}

/// Files describe a source, or one of them is refused for what it has. So files that no reader refuses describe one.
pub fn some_source()
    ensures some { SomeSource }
    ensures unrefused { UnrefusedDescribe }
{}

/// The names that `known_names` gives are those of artifacts. So a world that was read with them uses artifacts that are
/// there.
pub fn known_there()
    ensures named { KnownNamed }
    ensures uses { KnownUses }
{}
