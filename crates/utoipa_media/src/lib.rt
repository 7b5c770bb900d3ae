//! Contents of media types, their encodings, headers and links, under the modules of the original crate.
#![tactic(auto)]

mod assemble;
pub mod content;
mod copy;
mod emit;
pub mod encoding;
mod fill;
pub mod header;
pub mod link;
mod parts;
mod read;
mod rows;
pub mod trees;
mod types;
mod unambiguous;

pub use trees::{read_content_map, read_encoding_list, read_ref_or_header};
