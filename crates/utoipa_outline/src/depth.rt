//! How deep a tree nests.
ghost use Rattle.std.specs.Prelude.{◌≡◌};
ghost use Rattle.serde_json.specs.View.{view, items_view, members_view};
ghost use Rattle.utoipa_outline.specs.Depth as specs;

use serde_json::{Map, Value};

/// The larger of two numbers.
fn larger(first: usize, second: usize) -> usize
    ensures { result ≡ specs.larger first second }
{
    if first < second { second } else { first }
}

/// One level more, up to the greatest `usize`.
fn deeper(levels: usize) -> usize
    ensures { result ≡ specs.deeper levels }
{
    if levels < usize::MAX {
        levels + 1
    } else {
        levels
    }
}

/// How many levels of arrays and objects stand in each other in a tree, up to the greatest `usize`.
#[cycle(depth)]
pub fn depth(tree: &Value) -> usize
    ensures { result ≡ specs.depth (view tree.now) }
{
    match tree {
        Value::Null => 0,
        Value::Bool(_) => 0,
        Value::Number(_) => 0,
        Value::String(_) => 0,
        Value::Array(items) => deeper(items_depth(items)),
        Value::Object(members) => deeper(members_depth(members)),
    }
}

#[cycle(depth)]
fn items_depth(items: &Vec<Value>) -> usize
    ensures { result ≡ specs.items_depth 0 (items_view items.now.items) }
{
    let mut deepest = 0;
    for item in items {
        deepest = larger(deepest, depth(item));
    }
    deepest
}

#[cycle(depth)]
fn members_depth(members: &Map<String, Value>) -> usize
    ensures { result ≡ specs.members_depth 0 (members_view members.now.entries) }
{
    let mut deepest = 0;
    for (_, member) in members.iter() {
        deepest = larger(deepest, depth(member));
    }
    deepest
}
