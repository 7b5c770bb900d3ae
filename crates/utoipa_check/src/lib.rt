//! Where and why a tree is no document of a kind: every place that does not fit, with its JSON Pointer and the cause ([`misfits`]).
//!
//! What a misfit is, is defined beside reading (`specs/Misfits.antt`), and two theorems tie it to reading and to the tree: there is no
//! misfit exactly where the tree reads as a document, and each misfit is true of the place that it names (`specs/Truth.antt`). Both are
//! clauses of [`misfits`], and laws of every kind and tree ([`laws`]).
//!
//! [`from_json_located`] reads a text and tells with a fault the first such place, and [`doubts`](doubt::doubts) lists what has no misfit
//! only because a later alternative of a choice fits, which drops what was wrong (`specs/Doubts.antt`). [`references`](references::references)
//! lists where a document refers, and where that leads (`specs/References.antt`).
//!
//! The walk (`walk.rt`) has a list of tasks and a stack of outcomes, and calls itself nowhere, so that the stack that it takes does not
//! grow with the depth of a tree. A place is looked at once, whatever the alternatives of a choice: what was found in its members is
//! tried with the table of each alternative (`rows.rt`, `schema.rt`), and that of the alternative that was meant is kept.
#![tactic(auto)]

mod choice;
mod copied;
pub mod doubt;
mod doubter;
pub mod dropped;
mod head;
pub mod laws;
mod layout;
mod leaf;
pub mod located;
mod mention;
mod message;
pub mod misfit;
mod moves;
mod object;
mod pointer;
pub mod references;
mod referrer;
pub mod referring;
pub mod report;
mod rows;
mod schema;
pub mod shown;
mod task;
mod tree;
mod version;
mod walk;

pub use doubt::doubts;
pub use dropped::{Dropped, Loss, dropped_between, dropped_by};
pub use located::{FaultPlace, LocatedFault, from_json_located, from_value_located};
pub use misfit::{Cause, Misfit, Pointer, Step};
pub use pointer::ShownPointer;
pub use referring::{State, Way};
pub use report::{Report, misfits, without_fractions};
pub use shown::Shown;
