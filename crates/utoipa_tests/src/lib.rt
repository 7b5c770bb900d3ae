//! What needs code to be tested of the basic types, the small objects, security, schemas, contents, responses, operations and path items:
//! builders, conversions, `==`, orders and hashes, what no text tells of a value, and calls that nothing else makes. What can be told as an
//! input and an output is a case of `utoipa_cases` or `utoipa_document_cases`. What callers learn of `==` is no test: `equality` is proved
//! alone.
#![tactic(auto)]

#[cfg(test)]
mod combinations;
#[cfg(test)]
mod conversions;
pub mod equality;
#[cfg(test)]
mod example;
#[cfg(test)]
mod extensions;
#[cfg(test)]
mod info;
#[cfg(test)]
mod media;
#[cfg(test)]
mod numbers;
#[cfg(test)]
mod operation_parts;
#[cfg(test)]
mod operations;
#[cfg(test)]
mod ordered_maps;
#[cfg(test)]
mod path_items;
#[cfg(test)]
mod references;
#[cfg(test)]
mod rows;
#[cfg(test)]
mod schema_arrays;
#[cfg(test)]
mod schema_objects;
#[cfg(test)]
mod schema_parts;
#[cfg(test)]
mod schema_words;
#[cfg(test)]
mod security_flows;
#[cfg(test)]
mod security_schemes;
#[cfg(test)]
mod server;
#[cfg(test)]
mod shared;
#[cfg(test)]
mod tag;
#[cfg(test)]
mod words;
#[cfg(test)]
mod xml;
