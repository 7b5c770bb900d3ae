//! The objects and words of the document model that hold no schema, under the modules of the original crate.
#![tactic(auto)]

pub mod example;
pub mod external_docs;
pub mod info;
pub mod path;
pub mod server;
pub mod tag;
mod unambiguous;
pub mod version;
