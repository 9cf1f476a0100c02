//! What a report of a run looks like: a picture of it, an SVG, or a page.
//!
//! May stand on: kept_text
//!
//! Must not: open a file, start a thread, run an agent, stand on a crate of the platform.
#![tactic(auto)]

pub mod answer;
pub mod choice;
pub mod columns;
pub mod drawing;
pub mod escape;
pub mod faults;
pub mod form;
pub mod lanes;
pub mod layout;
pub mod lines;
pub mod made;
pub mod messages;
pub mod mind_rows;
pub mod minds;
pub mod numbers;
pub mod order;
pub mod page;
pub mod page_parts;
pub mod picture;
pub mod report;
pub mod shown;
pub mod signs;
