//! Types whose schemas are composed.

mod answers;
mod own;
mod types;

pub use types::answer_to_call;
