//! What merging OpenAPI documents drops: a merge that says what it drops ([`tree_conflicts`]).
//!
//! Where documents are merged, each slot comes from one of them, the first or the last that has what may decide it. A slot is a member of
//! the document, an entry of a map of components, an operation at a path, and so on; what may decide it, its *holder*, is most often the
//! slot itself. A value that another document has in the slot is dropped, and that is a conflict unless it is the same value.
//!
//! The list is defined over the trees that the documents are written as (`specs/Conflicts.antt`), and once more without a list
//! (`specs/IsConflict.antt`); that both agree is a clause of [`tree_conflicts`] and a law ([`laws`]).
//!
//! Two passes make it, and no document is compared with all others. The first lists the holders of each document (`holder.rt`) and notes for
//! each holder the document that decides (`deciders.rt`). The second lists the slots of each document (`slot.rt`) and looks up, for each,
//! what the document that decides has there (`conflict.rt`).
//!
//! Of unambiguous documents the conflicts are exactly the values that the document lacks that they are merged into, and where there is none,
//! it lacks none ([`laws`], `specs/Merged.antt`). Documents of whose trees `doubts` of utoipa_check lists nothing are unambiguous
//! (`specs/Undoubted.antt`). Nesting drops more, which [`tree_nested_conflicts`] lists (`nested.rt`). Both are there for
//! documents of any type too, as `OpenApi` of the crate `utoipa`, each place as a text ([`conflicts()`], [`nested_conflicts`], `told.rt`).
#![tactic(auto)]

mod conflict;
mod deciders;
mod holder;
pub mod laws;
mod nested;
mod same;
mod slot;
mod told;

pub use conflict::{Conflict, tree_conflicts};
pub use nested::{tree_nested_conflicts, tree_nested_paths};
pub use same::is_same;
pub use told::{
    DocumentConflict, composed_conflicts, conflicts, nested_conflicts, nested_paths,
    trees_of_documents,
};
