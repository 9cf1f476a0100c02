//! What an agent knows of the board, and the turn that is being noted.

use crossbeam_queue::protocol::{Join, Split};
use std::collections::LinkedList;
use std::marker::{Brand, Model};

/// The meaning of a board. No value of it is made.
pub struct Shown {
    kept: (),
}

impl Model for Shown {
    ghost use Rattle.mas_board.specs.Boards.{Noted};
    ghost use Rattle.mas_board_turns.specs.Views.{no_board};
    ghost use Rattle.asl_term.specs.contracts.syntax.Term as t;
    ghost use Rattle.asl_term.specs.contracts.syntax.Expr as e;
    ghost use Rattle.std.specs.Coded.{codes};

    ghost Value = { Noted };

    ghost coded = { Prim.hlevel (codes, t.the_row.coded, e.the_row.coded) };

    ghost view = { λ s. no_board };
}

/// How it stood when the board came. No value of it is made.
pub struct Begun {
    kept: (),
}

impl Model for Begun {
    ghost use Rattle.mas_board_turns.specs.Views.{Opening, no_opening};
    ghost use Rattle.asl_term.specs.contracts.syntax.Term as t;
    ghost use Rattle.asl_term.specs.contracts.syntax.Expr as e;
    ghost use Rattle.std.specs.Coded.{codes};

    ghost Value = { Opening };

    ghost coded = { Prim.hlevel (codes, t.the_row.coded, e.the_row.coded) };

    ghost view = { λ s. no_opening };
}

/// The turns of each agent of one side. No value of it is made.
pub struct Past {
    kept: (),
}

impl Model for Past {
    ghost use Rattle.std.specs.Prelude.{[]};
    ghost use Rattle.mas_board_turns.specs.Views.{Turns};
    ghost use Rattle.asl_term.specs.contracts.syntax.Term as t;
    ghost use Rattle.asl_term.specs.contracts.syntax.Expr as e;
    ghost use Rattle.std.specs.Coded.{codes};

    ghost Value = { Turns };

    ghost coded = { Prim.hlevel (codes, t.the_row.coded, e.the_row.coded) };

    ghost view = { λ s. [] };
}

/// What is known by one side of the queue: whether the board has come, and whether it is in hand; of each of the side's
/// agents the turns since the opening; the schedule that was seen, and those that the views joined into it had seen; the
/// board as it was last taken; whether it was halted when it was last given back; and how it stood at the opening. No
/// value of it is made.
pub struct SideView {
    pub started: bool,
    pub in_hand: bool,
    pub turns: Past,
    pub seen: LinkedList<u64>,
    pub olds: LinkedList<LinkedList<u64>>,
    pub met: Shown,
    pub halted: bool,
    pub first: Begun,
}

/// The turn that is being noted, if any. Each call picks it.
pub trait Making {
    ghost use Rattle.std.specs.Prelude.{Option};
    ghost use Rattle.mas_board_turns.specs.declared.turn.Turn.{Turn};

    ghost made: { Option Turn };
}

impl Making for Brand {
    ghost use Rattle.std.specs.Prelude.{None};

    ghost made = { None };
}

/// No turn.
pub struct Nothing;

impl Making for Nothing {
    ghost use Rattle.std.specs.Prelude.{None};

    ghost made = { None };
}

/// The agent goes, since its budget is spent.
pub struct Departs;

impl Making for Departs {
    ghost use Rattle.std.specs.Prelude.{Some};
    ghost use Rattle.mas_board_turns.specs.declared.turn.Turn.TheVariants.{Gone};

    ghost made = { Some Gone };
}

/// One agent for a new side.
pub struct SplitsSide;

impl Split<SideView> for SplitsSide {
    ghost use Rattle.mas_board_turns.specs.Steps.{rest_of, one_of};

    ghost left = { rest_of };

    ghost right = { one_of };
}

impl Join<SideView> for SplitsSide {
    ghost use Rattle.mas_board_turns.specs.Steps.{both_of, spent};

    ghost both = { both_of };

    ghost spent = { spent };
}
