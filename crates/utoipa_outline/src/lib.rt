//! What a document has, told in lines: its operations ([`operation_lines`]), and how much of each thing ([`stats_lines`]).
//!
//! All is defined over the tree of a document, in the terms of the standard (`specs/Operations.antt`, `specs/Stats.antt`), letter by letter.
#![tactic(auto)]

pub mod counted;
pub mod depth;
pub mod laws;
mod lines;
pub mod operation;
mod stats;
mod used;

pub use lines::operation_lines;
pub use operation::{Operation, operations};
pub use stats::stats_lines;
