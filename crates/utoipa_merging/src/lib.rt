//! What it means that OpenAPI documents are merged into one, or that one is nested into another: the laws of merging
//! ([`laws`]), over the definitions that their contracts cite.
#![tactic(auto)]

pub mod laws;
