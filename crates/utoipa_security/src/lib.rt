//! The security of a document: requirements, and the schemes that they name.
#![tactic(auto)]

pub mod security;
mod unambiguous;
