//! What is found in the file of a document, told in lines as compilers tell it: `FILE: /pointer: what`.
//!
//! [`check`] tells all that is found in a file: the names that stand again in their objects ([`repeated_names`]), what does not fit, what is read
//! otherwise than it was meant, what a document that was written again lacks, and the references that lead to nothing ([`findings`],
//! `specs/Findings.antt`). [`document_of`] reads a file, and tells with a refusal every place that does not fit; [`tree_of_document`] answers the
//! tree of one that fits.
//!
//! [`document_with_losses`] reads a file too, and tells what it loses when its document is written again ([`lost_of`] tells it alone),
//! [`conflict_lines`] what merging the documents of files drops, and [`nested_conflict_lines`] what nesting one into another drops.
//!
//! A document in which nothing is found comes back ([`laws`]): it is written as its tree, but for a null that external docs have, and reads
//! from there as itself.
//!
//! The lines are defined letter by letter (`specs/Lines.antt`), but for the line and the column at which a text that is no JSON is broken.
#![tactic(auto)]

mod conflict;
pub mod finding;
pub mod laws;
mod lines;
mod lost;
mod reading;
mod refusal;
mod repeated;
mod report;
mod source;
mod text;

pub use conflict::{conflict_lines, nested_conflict_lines};
pub use finding::{Finding, What};
pub use lost::{document_with_losses, losses, lost_of};
pub use reading::{document_of, tree_of_document};
pub use refusal::Refusal;
pub use repeated::repeated_names;
pub use report::{check, findings};
pub use source::{Form, Source};
