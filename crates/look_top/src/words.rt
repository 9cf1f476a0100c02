//! What the words ask for, as it is held.

/// The commands that take words.
#[derive(Clone, Copy)]
pub enum LookVerb {
    Where,
    Hints,
    Messages,
    Mind,
    Page,
    Drops,
}

/// What the words ask for. Names of files are as they stand.
#[derive(Clone, Copy)]
pub enum LookAsked<'a> {
    Help,
    Version,
    Where { project: &'a [u8] },
    Hints { project: &'a [u8] },
    Messages { report: &'a [u8], csv: bool },
    Mind(MindWords<'a>),
    Page(PageWords<'a>),
    Drops(DropsWords<'a>),
}

/// The words of `mind`: the project, its report, the name of an agent, and after how many turns; without a number after all.
#[derive(Clone, Copy)]
pub struct MindWords<'a> {
    pub project: &'a [u8],
    pub report: &'a [u8],
    pub agent: &'a [u8],
    pub turn: Option<u64>,
}

/// The words of `page`: the project and its report.
#[derive(Clone, Copy)]
pub struct PageWords<'a> {
    pub project: &'a [u8],
    pub report: &'a [u8],
}

/// The words of `drops`: the project, its report, and whether those failures alone are told that no failure plan takes up.
#[derive(Clone, Copy)]
pub struct DropsWords<'a> {
    pub project: &'a [u8],
    pub report: &'a [u8],
    pub unhandled: bool,
}
