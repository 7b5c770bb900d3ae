//! Whether two values are the same.

use serde_json::Value;
use std::alloc::{AllocError, Global};
use std::collections::BTreeMap;
use utoipa_base::{ReadFault, Readings, Same, Tree, has_fraction, same_tree};
use utoipa_case_kit::two_trees;
use utoipa_leaf::external_docs::ExternalDocs;
use utoipa_leaf::server::{Server, ServerVariable};
use utoipa_leaf::tag::Tag;
use utoipa_security::security::SecurityRequirement;

/// Whether the values that two texts, with a tab between them, read as are the same, as the type of that name.
pub fn are_same(alloc: Global, name: &str, texts: &str) -> Result<String, AllocError> {
    match two_trees(alloc, texts) {
        Ok((left, right)) => String::from_str(alloc, told(alloc, name, &left, &right)),
        Err(lacking) => String::from_str(alloc, lacking),
    }
}

fn told(alloc: Global, name: &str, left: &Value, right: &Value) -> &'static str {
    match name {
        "Value" => trees_told(left, right),
        "String" => values_told::<String>(alloc, left, right),
        "Vec<String>" => values_told::<Vec<String>>(alloc, left, right),
        "BTreeMap<String, String>" => values_told::<BTreeMap<String, String>>(alloc, left, right),
        "Server" => values_told::<Server>(alloc, left, right),
        "ServerVariable" => values_told::<ServerVariable>(alloc, left, right),
        "Tag" => values_told::<Tag>(alloc, left, right),
        "ExternalDocs" => values_told::<ExternalDocs>(alloc, left, right),
        "SecurityRequirement" => values_told::<SecurityRequirement>(alloc, left, right),
        _ => "no such type",
    }
}

fn trees_told(left: &Value, right: &Value) -> &'static str {
    if has_fraction(left) || has_fraction(right) {
        return "fraction";
    }
    word_of(same_tree(left, right), same_tree(right, left))
}

// Read so that an extension may hold a fraction.
fn values_told<T: Same>(alloc: Global, left: &Value, right: &Value) -> &'static str {
    match (read::<T>(alloc, left), read::<T>(alloc, right)) {
        (Ok(left), Ok(right)) => {
            if left.has_fraction() || right.has_fraction() {
                return "fraction";
            }
            word_of(left.same(&right), right.same(&left))
        }
        _ => "refused",
    }
}

fn read<T: Tree>(alloc: Global, tree: &Value) -> Result<T, ReadFault> {
    T::read_plain(alloc, tree, &mut Readings::new())
}

fn word_of(forward: bool, backward: bool) -> &'static str {
    match (forward, backward) {
        (true, true) => "same",
        (false, false) => "different",
        _ => "the same in one order alone",
    }
}
