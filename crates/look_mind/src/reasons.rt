//! What is said of failures, in words.

ghost use Rattle.std.specs.Prelude.{◌≡◌};
ghost use Rattle.std.specs.Str.{bytes_eq};
ghost use Rattle.look_mind.specs.Reasons as spec;

/// A comparison costs less where a call of a function makes it.
fn is_text(text: &[u8], other: &[u8]) -> bool
    ensures { result ≡ bytes_eq text.now other.now }
{
    text == other
}

/// Why no plan was found.
fn irrelevant(words: &[u8]) -> &'static [u8]
    ensures { result.now ≡ spec.irrelevant words.now }
{
    if is_text(words, b"drops test_failed") {
        b"nothing believed matches, and no plan is relevant for the question"
    } else {
        b"no plan is relevant for the goal"
    }
}

/// What a test without an answer met.
fn untested(words: &[u8]) -> &'static [u8]
    ensures { result.now ≡ spec.untested words.now }
{
    if is_text(words, b"drops arith") {
        b"arithmetic in the search has no value"
    } else {
        b"a term in the search passes its limits"
    }
}

/// What a search was for that used up its budget.
fn searched(row: &[u8]) -> &'static [u8]
    ensures { result.now ≡ spec.searched row.now }
{
    if is_text(row, b"rule AskSpent") {
        b"the search for what an agent asks used up its budget"
    } else if is_text(row, b"rule ApplSpent") {
        b"the search for a plan whose context holds used up its budget"
    } else if is_text(row, b"rule TestSpent") {
        b"the search for the test used up its budget"
    } else {
        b"the search for the internal action used up its budget"
    }
}

/// Whether a term passed its limits.
fn is_limit(row: &[u8]) -> bool
    ensures { result ≡ spec.is_limit row.now }
{
    is_text(row, b"rule ExecLimit") || is_text(row, b"rule ClrLimit") || is_text(row, b"rule IaBig")
}

/// Whether an internal action was done.
fn is_done(row: &[u8]) -> bool
    ensures { result ≡ spec.is_done row.now }
{
    is_text(row, b"rule IaOk") || is_text(row, b"rule IaGone")
}

/// Why a formula of a body failed.
fn in_body(row: &[u8], words: &[u8]) -> &'static [u8]
    ensures { result.now ≡ spec.in_body row.now words.now }
{
    if is_text(row, b"rule ExecFree") {
        b"a variable has no value"
    } else if is_text(row, b"rule ExecArith") {
        b"arithmetic has no value"
    } else if is_text(row, b"rule TestErr") {
        untested(words)
    } else if is_limit(row) {
        b"a term passes its limits"
    } else if is_text(row, b"rule RelNo") {
        b"the relation does not hold"
    } else if is_done(row) {
        b"the internal action ends a goal of this or of another stack"
    } else {
        b"the internal action fails"
    }
}

/// Why a row failed, where the line has these words.
fn failing(row: &[u8], words: &[u8]) -> &'static [u8]
    ensures { result.now ≡ spec.failing row.now words.now }
{
    if is_text(row, b"rule FeedFail") {
        b"the world does not do the action"
    } else if is_text(row, b"rule ReplyFail") {
        b"the answer does not match what takes it"
    } else if is_text(row, b"rule Rel3") {
        irrelevant(words)
    } else if is_text(row, b"rule Appl3") {
        b"no context of a relevant plan holds"
    } else {
        in_body(row, words)
    }
}

/// Why a row failed, in words.
#[tactic(auto, unfolding(crate::specs::Reasons::why))]
pub fn why(row: &[u8], words: &[u8]) -> &'static [u8]
    ensures { result.now ≡ spec.why row.now words.now }
{
    if words.starts_with(b"spent ") {
        searched(row)
    } else {
        failing(row, words)
    }
}

/// Where a stack stands in an agent's mind.
#[derive(Clone, Copy)]
pub enum StackPlace {
    Event,
    Running,
    Acting,
    Ask,
    Nowhere,
}

/// Whether a row is one of an event.
fn is_event(row: &[u8]) -> bool
    ensures { result ≡ spec.is_event row.now }
{
    is_text(row, b"rule Rel3") || is_text(row, b"rule Appl3") || is_text(row, b"rule ApplSpent")
}

/// Where the stack of a row stood before its cycle.
pub fn place_of(row: &[u8]) -> StackPlace
    ensures { result ≡ spec.place_of row.now }
{
    if is_text(row, b"rule FeedFail") {
        StackPlace::Acting
    } else if is_text(row, b"rule ReplyFail") {
        StackPlace::Ask
    } else if is_event(row) {
        StackPlace::Event
    } else if is_text(row, b"rule AskSpent") {
        StackPlace::Nowhere
    } else {
        StackPlace::Running
    }
}
