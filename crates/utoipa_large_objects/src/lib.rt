//! Objects of which some members are large: these are read from the tokens of a text one by one, and no tree of them stands.
#![tactic(auto)]

pub mod members;

pub use members::members_from_tokens;
