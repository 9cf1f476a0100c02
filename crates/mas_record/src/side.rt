//! What a ticket knows of board and journal.

use crossbeam_queue::protocol::{Join, Split};
use mas_board_turns::view::SideView;
use mas_record_disk::disk::Disk;
use mas_record_journal::journal::Journal;
use std::collections::LinkedList;

/// What is known by one side of the queue: of the board; the journal as it was last taken, and the disk's count of faults
/// then; the journal as it was given back, each time, the last one first, and the count at the last time. No value of it is
/// made.
pub struct DeckView<D: Disk> {
    pub side: SideView,
    pub met: Option<Journal<D>>,
    pub met_faults: u64,
    pub left: LinkedList<Journal<D>>,
    pub left_faults: u64,
}

/// One agent for a new side.
pub struct SplitsDeck;

impl<D: Disk> Split<DeckView<D>> for SplitsDeck {
    ghost use Rattle.mas_record.specs.Views.{rest_of, one_of};

    ghost left = { rest_of };

    ghost right = { one_of };
}

impl<D: Disk> Join<DeckView<D>> for SplitsDeck {
    ghost use Rattle.mas_record.specs.Views.{both_of, spent};

    ghost both = { both_of };

    ghost spent = { spent };
}
