//! What needs code to be tested of paths, components, documents and the command: builders, conversions, what merging makes of fractions,
//! composers of paths, references that are followed, texts in lines, the module paths at which a user finds all items, and what a caller of
//! the command learns.
#![tactic(auto)]

#[cfg(test)]
mod command;
#[cfg(test)]
mod components;
#[cfg(test)]
mod documents;
#[cfg(test)]
mod merging;
#[cfg(test)]
mod module_paths;
#[cfg(test)]
mod paths;
#[cfg(test)]
mod resolve;
#[cfg(test)]
mod shared;
