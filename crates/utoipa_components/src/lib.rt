//! The objects that the other parts of a document refer to: the components, which the module `schema` of the original crate has.
#![tactic(auto)]

mod builder;
pub mod components;
pub mod merging;
mod resolve;
mod unambiguous;

pub use builder::ComponentsBuilder;
pub use components::Components;
pub use merging::{FilledComponents, fill_components, merge_components, take_back_components};
