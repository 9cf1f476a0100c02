//! The minds that were met, to be compared with.

ghost use Rattle.std.specs.Prelude.{◌≡◌, [], true, slice_get, Some, IfOk, IfSome, OnOk};
ghost use Rattle.mas_explore_minds.specs.Minds.{Fits, minds_in};
ghost use Rattle.mas_explore_likes.specs.Likes as spec;

use crate::likened::Likened;
use crate::lines::{show_alike, viewed};
use asl_term::sequence::{Seq, Starved};
use mas_explore_minds::fresh::Fresh;
use mas_explore_minds::minds::{Minds, mind_of};
use mas_explore_tables::answers::Answered;
use mas_explore_tables::mixing::{mix_text, stirred};
use mas_explore_tables::table::Known;
use mas_free::view::View;
use std::alloc::Global;

/// A mind of this number, which made no more than so many cycles; and one and the place of the last one before it whose mix fell into the same slot, 0
/// where there is none.
pub struct MetMind<M: Likened> {
    pub mind: M,
    pub number: u64,
    pub most: u64,
    pub before: u64,
}

/// By hand, so that who lets one go proves nothing of its parts.
impl<M: Likened> Drop for MetMind<M> {
    fn drop(self) {
        let MetMind {
            mind: _,
            number: _,
            most: _,
            before: _,
        } = self;
    }
}

/// The mind of this number, in a view.
#[derive(Clone, Copy, PartialEq, Eq, Drop)]
pub struct Liking {
    pub mind: u64,
    pub view: View,
}

impl Known for Liking {
    fn same(&self, other: &Liking) -> bool {
        *self == *other
    }

    fn mix(&self) -> u64 {
        stirred(self.mind, 1)
    }
}

/// The number of a mind that stands for all that are alike, and how many cycles it made at most.
#[derive(Clone, Copy, Drop)]
pub struct Settled {
    pub mind: u64,
    pub most: u64,
}

/// Minds that were met, no two of them known to be alike, and the answers for all that were asked for.
pub struct Likes<M: Likened> {
    pub met: Seq<MetMind<M>>,
    pub settled: Answered<Liking, Settled>,
    /// Of each slot one and the place of the last mind whose mix fell into it, 0 where there is none.
    slots: Seq<u64>,
}

/// By hand, so that who lets one go proves nothing of its parts.
impl<M: Likened> Drop for Likes<M> {
    fn drop(self) {
        let Likes {
            met: _,
            settled: _,
            slots: _,
        } = self;
    }
}

/// So many slots are taken at the start.
const SLOTS: u64 = 65_536;

/// None.
pub fn no_likes<M: Likened>(alloc: Global) -> Result<Likes<M>, Starved>
    ensures met { IfOk result (λ l. l.met ≡ []) }
    ensures settled { IfOk result (λ l. l.settled ≡ record { keys = []; values = [] }) }
{
    let mut slots = Seq::new(alloc);
    slots.reserve_exact(SLOTS)?;
    for _ in 0..SLOTS {
        slots.push(0)?;
    }
    Ok(Likes {
        met: Seq::new(alloc),
        settled: Answered::new(alloc),
        slots,
    })
}

/// One and the place of the last mind of this slot, or 0.
fn last_of(slots: &Seq<u64>, mix: u64) -> u64 {
    let size = slots.len();
    if size == 0 {
        return 0;
    }
    match slots.at(mix % size) {
        Some(last) => *last,
        None => 0,
    }
}

fn set_last(slots: &mut Seq<u64>, mix: u64, last: u64) {
    let size = slots.len();
    if size == 0 {
        return;
    }
    let place = mix % size;
    if place < slots.len() {
        *slots.at_mut(place) = last;
    }
}

/// A number that two minds have which are the same and have shown the same.
fn mix_of<M: Likened>(alloc: Global, mind: &M, view: View) -> Result<u64, Starved> {
    let shown = viewed(alloc, view, mind.lines().as_slice())?;
    let own = mind.mix(alloc)?;
    Ok(stirred(own, mix_text(shown.as_slice())))
}

/// Whether the two are alike in this view.
#[tactic(auto, using(crate::proofs::Standing::both_alike))]
fn are_alike<M: Likened>(alloc: Global, a: &M, b: &M, view: View) -> Result<bool, Starved>
    ensures { IfOk result (λ r. r ≡ true → spec.AreAlike M.kind view a.now b.now) }
{
    let shown = show_alike(alloc, view, a.lines(), b.lines())?;
    if !shown {
        return Ok(false);
    }
    let same = a.same(alloc, b)?;
    Ok(same)
}

/// One of those that were met that is alike to this mind, whose mix is this one.
#[tactic(auto, using(crate::proofs::Standing::met_like))]
fn find<M: Likened>(
    alloc: Global,
    likes: &Likes<M>,
    mind: &M,
    mix: u64,
    view: View,
) -> Result<Option<Settled>, Starved>
    ensures { IfOk result (λ r. IfSome r (spec.IsMetLike M.kind view likes.now.met mind.now)) }
{
    let mut last = last_of(&likes.slots, mix);
    for _ in 0..likes.met.len() {
        if last == 0 {
            return Ok(None);
        }
        let Some(met) = likes.met.at(last - 1) else {
            return Ok(None);
        };
        let alike = are_alike(alloc, mind, &met.mind, view)?;
        if alike {
            return Ok(Some(Settled {
                mind: met.number,
                most: met.most,
            }));
        }
        last = met.before;
    }
    Ok(None)
}

/// Keeps a mind, which stands for itself.
fn keep<M: Likened>(
    alloc: Global,
    likes: &mut Likes<M>,
    mind: M,
    mix: u64,
    own: Settled,
) -> Result<(), Starved>
    ensures met { OnOk result (spec.HasKept likes.old.met likes.new.met mind own) }
    ensures settled { OnOk result (likes.new.settled ≡ likes.old.settled) }
{
    let _room = alloc;
    let before = last_of(&likes.slots, mix);
    likes.met.push(MetMind {
        mind,
        number: own.mind,
        most: own.most,
        before,
    })?;
    let last = likes.met.len();
    set_last(&mut likes.slots, mix, last);
    Ok(())
}

/// Keeps the mind of this number, which stands for itself.
fn stand_alone<M: Likened, F: Fresh<M>>(
    alloc: Global,
    fresh: &F,
    minds: &Minds,
    likes: &mut Likes<M>,
    mind: M,
    mix: u64,
    liking: Liking,
    most: u64,
) -> Result<Settled, Starved>
    requires met { spec.AreMet M.kind (F.first fresh.now) minds.now likes.old }
    requires made { spec.HasMade M.kind (F.first fresh.now) minds.now liking.mind most }
    requires at { slice_get (minds_in M.kind (F.first fresh.now) minds.now) liking.mind ≡ Some mind }
    ensures met { OnOk result (spec.AreMet M.kind (F.first fresh.now) minds.now likes.new) }
    ensures stands { IfOk result (spec.StandsFor M.kind (F.first fresh.now) minds.now liking) }
{
    let _agents = fresh.agents();
    let _minds = minds;
    let own = Settled {
        mind: liking.mind,
        most,
    };
    keep(alloc, likes, mind, mix, own)?;
    Ok(own)
}

/// The mind that stands for that of this number: one that was met, or itself.
fn settle_anew<M: Likened, F: Fresh<M>>(
    alloc: Global,
    fresh: &F,
    minds: &Minds,
    likes: &mut Likes<M>,
    liking: Liking,
    most: u64,
) -> Result<Settled, Starved>
    requires fits { Fits M.kind (F.first fresh.now) minds.now }
    requires met { spec.AreMet M.kind (F.first fresh.now) minds.now likes.old }
    requires made { spec.HasMade M.kind (F.first fresh.now) minds.now liking.mind most }
    ensures met { OnOk result (spec.AreMet M.kind (F.first fresh.now) minds.now likes.new) }
    ensures stands { IfOk result (spec.StandsFor M.kind (F.first fresh.now) minds.now liking) }
{
    let mind = mind_of(alloc, fresh, minds, liking.mind)?;
    let mix = mix_of(alloc, &mind, liking.view)?;
    let found = find(alloc, &*likes, &mind, mix, liking.view)?;
    if let Some(settled) = found {
        drop(mind);
        return Ok(settled);
    }
    let own = stand_alone(alloc, fresh, minds, likes, mind, mix, liking, most)?;
    Ok(own)
}

/// The mind that stands for this one, remembered.
fn settled_of<M: Likened, F: Fresh<M>>(
    alloc: Global,
    fresh: &F,
    minds: &Minds,
    likes: &mut Likes<M>,
    liking: Liking,
    most: u64,
) -> Result<Settled, Starved>
    requires fits { Fits M.kind (F.first fresh.now) minds.now }
    requires met { spec.AreMet M.kind (F.first fresh.now) minds.now likes.old }
    requires made { spec.HasMade M.kind (F.first fresh.now) minds.now liking.mind most }
    ensures met { OnOk result (spec.AreMet M.kind (F.first fresh.now) minds.now likes.new) }
    ensures stands { IfOk result (spec.StandsFor M.kind (F.first fresh.now) minds.now liking) }
{
    if let Some(settled) = likes.settled.get(&liking) {
        return Ok(settled);
    }
    let settled = settle_anew(alloc, fresh, minds, likes, liking, most)?;
    likes.settled.note(alloc, liking, settled)?;
    Ok(settled)
}

/// The number of a mind that is alike to this one in the view, and has made no more than so many cycles.
#[tactic(auto, using(crate::proofs::Standing::stands_within, crate::proofs::Standing::stands_self))]
pub fn settle<M: Likened, F: Fresh<M>>(
    alloc: Global,
    fresh: &F,
    minds: &Minds,
    likes: &mut Likes<M>,
    liking: Liking,
    most: u64,
) -> Result<u64, Starved>
    requires fits { Fits M.kind (F.first fresh.now) minds.now }
    requires met { spec.AreMet M.kind (F.first fresh.now) minds.now likes.old }
    requires made { spec.HasMade M.kind (F.first fresh.now) minds.now liking.mind most }
    ensures met { OnOk result (spec.AreMet M.kind (F.first fresh.now) minds.now likes.new) }
    ensures stands { IfOk result (λ n. spec.StandsFor M.kind (F.first fresh.now) minds.now liking (record { mind = n; most = most })) }
{
    let settled = settled_of(alloc, fresh, minds, likes, liking, most)?;
    if settled.most <= most {
        return Ok(settled.mind);
    }
    Ok(liking.mind)
}
