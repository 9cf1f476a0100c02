//! Places of plans by the sign and the kind of their triggers, and by the sign, functor and number of arguments of these.

ghost use Rattle.std.specs.Prelude.{◌≡◌, [], ℕ, Bool, List, OnOk, OnErr};
ghost use Rattle.asl_index_tables.specs.Frames.{filed};
ghost use Rattle.asl_term.specs.declared.syntax.Kind.{Kind};
ghost use Rattle.asl_plans.specs.FiledPlaces.{IsPut, IsPutOf, IsSame, IsSameOf, IsTaken, IsTakenOf, frames_of, of_kind};

use asl_index_tables::frames::Frames;
use asl_term::sequence::Starved;
use asl_term::syntax::{Kind, Literal, Trigger};
use std::alloc::Global;

/// Places by the kind of a trigger, and then by frame.
#[derive(Drop)]
pub struct Kinds {
    pub belief: Frames,
    pub achieve: Frames,
    pub test: Frames,
}

/// Places by whether a trigger adds, and then by its kind and frame.
#[derive(Drop)]
pub struct FiledPlaces {
    pub plus: Kinds,
    pub minus: Kinds,
}

impl Kinds {
    fn new(alloc: Global) -> Kinds
        ensures { (kind : Kind) (neg : Bool) (functor : List ℕ) (count : ℕ) → filed (of_kind kind result) neg functor count ≡ [] }
    {
        Kinds {
            belief: Frames::new(alloc),
            achieve: Frames::new(alloc),
            test: Frames::new(alloc),
        }
    }

    fn of(&self, kind: Kind) -> &Frames
        ensures { result.now ≡ of_kind kind self.now }
    {
        match kind {
            Kind::Belief => &self.belief,
            Kind::Achieve => &self.achieve,
            Kind::Test => &self.test,
        }
    }

    /// Puts a place last under a kind and the frame of a literal.
    fn put(&mut self, alloc: Global, kind: Kind, l: &Literal, place: u64) -> Result<(), Starved>
        ensures ok { OnOk result (IsPutOf kind l.now place self.old self.new) }
        ensures err { OnErr result (IsSameOf self.old self.new) }
    {
        match kind {
            Kind::Belief => self.belief.put(alloc, l, place),
            Kind::Achieve => self.achieve.put(alloc, l, place),
            Kind::Test => self.test.put(alloc, l, place),
        }
    }

    /// Takes a place out under a kind and the frame of a literal.
    fn take(&mut self, kind: Kind, l: &Literal, place: u64)
        ensures { IsTakenOf kind l.now place self.old self.new }
    {
        match kind {
            Kind::Belief => self.belief.take(l, place),
            Kind::Achieve => self.achieve.take(l, place),
            Kind::Test => self.test.take(l, place),
        }
    }
}

impl FiledPlaces {
    /// No place is filed. It takes no memory before the first is put in.
    pub fn new(alloc: Global) -> FiledPlaces
        ensures { (add : Bool) (kind : Kind) (neg : Bool) (functor : List ℕ) (count : ℕ) → filed (frames_of add kind result) neg functor count ≡ [] }
    {
        FiledPlaces {
            plus: Kinds::new(alloc),
            minus: Kinds::new(alloc),
        }
    }

    /// The places of the plans whose triggers have this sign and kind.
    pub fn under(&self, add: bool, kind: Kind) -> &Frames
        ensures { result.now ≡ frames_of add kind self.now }
    {
        if add {
            self.plus.of(kind)
        } else {
            self.minus.of(kind)
        }
    }

    /// The places of the plans for what has the sign and the kind of an event.
    pub fn of(&self, event: &Trigger) -> &Frames
        ensures { result.now ≡ frames_of event.now.add event.now.kind self.now }
    {
        self.under(event.add, event.kind)
    }

    /// Puts a place last under a trigger.
    pub fn put(&mut self, alloc: Global, t: &Trigger, place: u64) -> Result<(), Starved>
        ensures ok { OnOk result (IsPut t.now place self.old self.new) }
        ensures err { OnErr result (IsSame self.old self.new) }
    {
        if t.add {
            self.plus.put(alloc, t.kind, &t.lit, place)
        } else {
            self.minus.put(alloc, t.kind, &t.lit, place)
        }
    }

    /// Takes a place out under a trigger.
    pub fn take(&mut self, t: &Trigger, place: u64)
        ensures { IsTaken t.now place self.old self.new }
    {
        if t.add {
            self.plus.take(t.kind, &t.lit, place);
        } else {
            self.minus.take(t.kind, &t.lit, place);
        }
    }
}
