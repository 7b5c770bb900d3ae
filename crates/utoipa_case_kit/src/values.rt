//! How many values a tree has: itself, and those of its elements or members.

use serde_json::{Map, Value};

/// The values of a tree, up to the greatest `u64`.
#[cycle(values)]
pub fn values_of(tree: &Value) -> u64 {
    match tree {
        Value::Array(items) => values_of_items(items).saturating_add(1),
        Value::Object(members) => values_of_members(members).saturating_add(1),
        _ => 1,
    }
}

#[cycle(values)]
fn values_of_items(items: &Vec<Value>) -> u64 {
    let mut values = 0u64;
    for item in items {
        values = values.saturating_add(values_of(item));
    }
    values
}

#[cycle(values)]
fn values_of_members(members: &Map<String, Value>) -> u64 {
    let mut values = 0u64;
    for (_, member) in members.iter() {
        values = values.saturating_add(values_of(member));
    }
    values
}
