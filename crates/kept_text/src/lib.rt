//! A text that is put together piece by piece, and keeps in itself whether memory lacked.
//!
//! May stand on: the kit's `itoa`
//!
//! Must not: know what a text says, write it anywhere.
#![tactic(auto)]

pub mod filling;
pub mod kept;
