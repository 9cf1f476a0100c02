//! The rule that ties what each seat knows to the board.

use crate::parcel::Parcel;
use crossbeam_queue::protocol::{Lesson, Outcome, Protocol};
use mas_board::board::Board;
use mas_board_turns::view::{Making, SideView};
use mas_world::artifact::Artifact;
use std::marker::PhantomData;

/// The rule of the queue in which the board lies.
pub struct BatonRule;

impl<A: Artifact> Protocol<Parcel<Board<A>>, SideView> for BatonRule {
    ghost use Rattle.mas_board_turns.specs.Steps.{blank};
    ghost use Rattle.mas_board_turns.specs.Rule.{Holds};
    ghost use Rattle.mas_baton.specs.Rule.{showing};

    ghost holds = { Holds showing };

    ghost first = { blank };
}

/// The board comes.
pub struct BatonOpens;

impl<A: Artifact> Outcome<Parcel<Board<A>>, SideView> for BatonOpens {
    ghost use Rattle.std.specs.Prelude.{◌≡◌};
    ghost use Rattle.mas_board_turns.specs.Views.{bare};
    ghost use Rattle.mas_board_turns.specs.Steps.{opened};

    ghost then = { λ v x w. w ≡ opened (bare x) };
}

/// A seat takes the board.
pub struct BatonTakes;

impl<A: Artifact> Outcome<Parcel<Board<A>>, SideView> for BatonTakes {
    ghost use Rattle.mas_board_turns.specs.Rule.{Taken};
    ghost use Rattle.mas_baton.specs.Rule.{showing};

    ghost then = { Taken showing };
}

/// A seat gives the board back.
pub struct BatonGives<K: Making> {
    of: PhantomData<K>,
}

impl<K: Making, A: Artifact> Outcome<Parcel<Board<A>>, SideView> for BatonGives<K> {
    ghost use Rattle.std.specs.Prelude.{◌≡◌};
    ghost use Rattle.mas_board_turns.specs.Steps.{gave};

    ghost then = { λ v x w. w ≡ gave K.made v x };
}

/// Whoever has every agent takes the board for good.
pub struct BatonCloses;

impl<A: Artifact> Outcome<Parcel<Board<A>>, SideView> for BatonCloses {
    ghost use Rattle.mas_board_turns.specs.Rule.{Told};
    ghost use Rattle.mas_baton.specs.Rule.{showing};

    ghost then = { λ v x w. Told showing v x };
}

impl<A: Artifact> Lesson<Parcel<Board<A>>, SideView> for BatonCloses {
    ghost use Rattle.std.specs.Prelude.{◌≡◌, length};

    ghost fact = { λ v items. length items ≡ 1 };
}
