//! The paths of an API with their items, and merging them: the module `path` of the original crate but for operations and path items.
#![tactic(auto)]

mod builder;
mod items;
mod merging;
pub mod paths;
mod traits;
mod unambiguous;

pub use builder::PathsBuilder;
pub use merging::merge_paths;
pub use paths::{Paths, PathsMap};
pub use traits::Path;
