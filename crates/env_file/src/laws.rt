//! What is true of world files.

ghost use Rattle.env_file.specs.Laws.{BoundEffects, GroundEffects, OneStatement, NoAnnotations, OneWorld, SomeWorld, GoodFacts, UsesKnown};

/// A clause says one thing at most.
#[tactic(auto, using(crate::proofs::Answered::one_statement))]
pub fn one_statement()
    ensures { OneStatement }
{}

/// No literal of what a clause says has annotations.
pub fn no_annotations()
    ensures { NoAnnotations }
{}

/// Each list of bytes has one answer: a world, or one fault, and not both.
#[tactic(auto, using(crate::proofs::Single::one_world, crate::proofs::Total::some_world))]
pub fn one_world()
    ensures one { OneWorld }
    ensures some { SomeWorld }
{}

/// The facts of a world file have no variables and no arithmetic, and none stands twice. Each name that it uses is
/// that of an artifact.
pub fn worlds_open()
    ensures facts { GoodFacts }
    ensures uses { UsesKnown }
{}

/// An act whose effects have no variable that is not bound, as each act of a world file, leaves none in an effect. So the
/// case of an act that does not act since an effect keeps a variable never comes of a world file.
pub fn ground_effects()
    ensures bound { BoundEffects }
    ensures worlds { GroundEffects }
{}
