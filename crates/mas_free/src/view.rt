//! How much an outcome tells of each agent.

/// What stands before the end of an agent: nothing, or the lines that its mind has shown, without the numbers of their cycles. Which lines a mind
/// shows is settled where it is opened.
#[derive(Clone, Copy, PartialEq, Eq, Drop)]
pub enum View {
    Ends,
    Lines,
}
