//! The names of the rows of a cycle, and what a row tells of a stack that failed.

use asl_fail::fail::Fell;
use asl_intend::agenda::Error;
use asl_term::sequence::Seq;

/// A row of a step. A step asks its rows in this order, but for ClrLimit, which it asks before ClrInt2, and for those of
/// an internal action: IaBig, IaSpent, IaFail, AskOut, IaGone, IaOk. The first whose condition holds applies.
#[derive(Clone, Copy, Drop)]
pub enum Row {
    Percept0,
    Percept1,
    Feed0,
    FeedDone,
    FeedFail,
    Msg0,
    Tell,
    Untell,
    Achieve,
    Unachieve,
    AskOne,
    AskAll,
    AskSpent,
    Reply,
    ReplyFail,
    TellHow,
    UntellHow,
    AskHow,
    Ignore,
    SelEv1,
    SelEv2,
    Rel1,
    Rel2,
    Rel3,
    Appl1,
    Appl2,
    Appl3,
    ApplSpent,
    SelAppl,
    ExtEv,
    IntEv,
    SelInt1,
    SelInt2,
    Exec0,
    ExecLimit,
    ExecArith,
    Action,
    ExecFree,
    AchvGl,
    AchvNew,
    TestGl1,
    TestGl2,
    TestErr,
    TestSpent,
    AddBel,
    DelBel,
    RepBel,
    RelYes,
    RelNo,
    IaOk,
    IaFail,
    IaBig,
    IaSpent,
    IaGone,
    AskOut,
    ClrInt1,
    ClrInt2,
    ClrInt3,
    ClrLimit,
    Fail1,
    Fail2,
    Fail3,
}

/// Why a stack failed, and what became of it.
#[derive(Clone, Copy, Drop)]
pub struct Fall {
    pub error: Error,
    pub fell: Fell,
}

/// Why stacks failed and what became of them, in order.
pub type Falls = Seq<Fall>;
