//! What an operation means in its document, and what merging changes of it.
//!
//! The security, the servers and the parameters that hold for an operation are not all its own: it has them from its path item and from its
//! document too. The page `specs/Meaning.antt` says which, in the terms of the standard. [`changed_meanings`] lists the operations for which
//! that is another in a merged document (`specs/Changes.antt`). Where it lists nothing, each operation means the same there ([`laws`]).
#![tactic(auto)]

mod change;
mod compared;
mod difference;
mod inherited;
pub mod laws;
mod message;
mod operation;
mod origin;
mod parameters;

pub use change::{Change, changed_meanings};
pub use difference::{Difference, Source};
pub use operation::{Operation, OperationPlace, operations};
