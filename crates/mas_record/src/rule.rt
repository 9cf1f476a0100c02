//! The rule that ties what each ticket knows to the board and the journal.

use crate::deck::Deck;
use crate::side::DeckView;
use crossbeam_queue::protocol::{Lesson, Outcome, Protocol};
use mas_board_turns::view::Making;
use mas_record_disk::disk::Disk;
use mas_world::artifact::Artifact;
use std::marker::PhantomData;

/// The rule of the queue in which board and journal lie.
pub struct RecorderRule;

impl<A: Artifact, D: Disk + Send> Protocol<Deck<A, D>, DeckView<D>> for RecorderRule {
    ghost use Rattle.mas_record.specs.Views.{blank};
    ghost use Rattle.mas_record.specs.Standing.{DeckHolds};

    ghost holds = { DeckHolds D.state };

    ghost first = { blank };
}

/// Board and journal come.
pub struct RecorderOpens;

impl<A: Artifact, D: Disk + Send> Outcome<Deck<A, D>, DeckView<D>> for RecorderOpens {
    ghost use Rattle.std.specs.Prelude.{◌≡◌};
    ghost use Rattle.mas_record.specs.Rule.{opening};
    ghost use Rattle.mas_record.specs.Views.{opened};

    ghost then = { λ v x w. w ≡ opened (opening D.state x) };
}

/// A ticket takes board and journal.
pub struct RecorderTakes;

impl<A: Artifact, D: Disk + Send> Outcome<Deck<A, D>, DeckView<D>> for RecorderTakes {
    ghost use Rattle.mas_record.specs.Standing.{DeckTaken};

    ghost then = { DeckTaken D.state };
}

/// A ticket gives board and journal back.
pub struct RecorderGives<K: Making> {
    of: PhantomData<K>,
}

impl<K: Making, A: Artifact, D: Disk + Send> Outcome<Deck<A, D>, DeckView<D>> for RecorderGives<K> {
    ghost use Rattle.std.specs.Prelude.{◌≡◌};
    ghost use Rattle.mas_record.specs.Views.{gave};

    ghost then = { λ v x w. w ≡ gave D.state K.made v x };
}

/// Whoever has every agent takes board and journal for good.
pub struct RecorderCloses;

impl<A: Artifact, D: Disk + Send> Outcome<Deck<A, D>, DeckView<D>> for RecorderCloses {
    ghost use Rattle.mas_record.specs.Standing.{DeckTold};

    ghost then = { λ v x w. DeckTold D.state v x };
}

impl<A: Artifact, D: Disk + Send> Lesson<Deck<A, D>, DeckView<D>> for RecorderCloses {
    ghost use Rattle.std.specs.Prelude.{◌≡◌, length};

    ghost fact = { λ v items. length items ≡ 1 };
}
