//! Operations and path items, which hold each other through callbacks: the module `path` of the original crate but for the paths.
#![tactic(auto)]

mod assemble;
mod copy;
mod emit;
mod lists;
pub mod methods;
pub mod operation;
pub mod operations;
pub mod path_item;
mod read;
mod rows;
pub mod trees;
mod types;
mod unambiguous;

pub use operation::{Callback, Operation, OperationBuilder};
pub use operations::{ItemOperation, OperationMethod};
pub use path_item::{PathItem, PathItemBuilder};
pub use trees::{read_callback, read_operation_map, read_ref_or_callback};
