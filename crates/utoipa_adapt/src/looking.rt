//! What the rules look at in a tree.
ghost use Rattle.std.specs.Prelude.{◌≡◌};
ghost use Rattle.std.specs.List.{list_any};
ghost use Rattle.std.specs.Str.{bytes_eq};
ghost use Rattle.serde_json.specs.Find.{get};
ghost use Rattle.serde_json.specs.View.{view, items_view};
ghost use Rattle.utoipa_adapt.specs.Trees as specs;
ghost use Rattle.utoipa_base.specs.Rows.{texts};

use serde_json::Value;

/// Whether a tree has a member of the name.
pub(crate) fn has(tree: &Value, name: &'static str) -> bool
    ensures { result ≡ specs.has name.now (view tree.now) }
{
    tree.get(name).is_some()
}

/// Whether a tree is an object without a member of the name.
pub(crate) fn lacks(tree: &Value, name: &str) -> bool
    ensures { result ≡ specs.lacks name.now (view tree.now) }
{
    match tree {
        Value::Object(members) => !members.contains_key(name),
        _ => false,
    }
}

/// Whether the member of a name is the word.
pub(crate) fn says(tree: &Value, name: &'static str, word: &str) -> bool
    ensures { result ≡ specs.says name.now word.now (view tree.now) }
{
    match tree.get(name) {
        Some(Value::String(text)) => text.as_str() == word,
        _ => false,
    }
}

/// Whether the member of a name is true.
pub(crate) fn is_true_at(tree: &Value, name: &'static str) -> bool
    ensures { result ≡ specs.passes specs.is_true (get name.now (view tree.now)) }
{
    match tree.get(name) {
        Some(Value::Bool(flag)) => *flag,
        _ => false,
    }
}

/// Whether the member of a name is false.
pub(crate) fn is_false_at(tree: &Value, name: &'static str) -> bool
    ensures { result ≡ specs.passes specs.is_false (get name.now (view tree.now)) }
{
    match tree.get(name) {
        Some(Value::Bool(flag)) => !*flag,
        _ => false,
    }
}

/// Whether the member of a name is a number.
pub(crate) fn is_number_at(tree: &Value, name: &'static str) -> bool
    ensures { result ≡ specs.passes specs.is_number (get name.now (view tree.now)) }
{
    match tree.get(name) {
        Some(Value::Number(_)) => true,
        _ => false,
    }
}

/// Whether the member of a name is an array without null.
pub(crate) fn lacks_null_at(tree: &Value, name: &'static str) -> bool
    ensures { result ≡ specs.passes specs.lacks_null (get name.now (view tree.now)) }
{
    match tree.get(name) {
        Some(Value::Array(items)) => !any_null(items),
        _ => false,
    }
}

/// Whether a tree is null.
fn is_null(tree: &Value) -> bool
    ensures { result ≡ specs.is_null (view tree.now) }
{
    matches!(tree, Value::Null)
}

/// Whether one of some trees is null.
fn any_null(items: &Vec<Value>) -> bool
    ensures { result ≡ specs.any_null (items_view items.now.items) }
{
    for item in items {
        if is_null(item) {
            return true;
        }
    }
    false
}

/// Whether an object has a member of one of the names.
pub(crate) fn has_any(tree: &Value, names: &[&'static str]) -> bool
    ensures { result ≡ specs.has_any (texts names.now) (view tree.now) }
{
    for name in names {
        if tree.get(*name).is_some() {
            return true;
        }
    }
    false
}

/// Whether an object has two members or more.
pub(crate) fn has_two(tree: &Value) -> bool
    ensures { result ≡ specs.has_two (view tree.now) }
{
    match tree {
        Value::Object(members) => members.len() >= 2,
        _ => false,
    }
}

/// Whether a tree is an array of one reference.
pub(crate) fn is_one_reference(tree: &Value) -> bool
    ensures { result ≡ specs.is_one_reference (view tree.now) }
{
    match tree {
        Value::Array(items) => is_only_reference(items),
        _ => false,
    }
}

/// Whether the only one of some trees is a reference.
fn is_only_reference(items: &[Value]) -> bool
    ensures { result ≡ specs.is_only_reference (items_view items.now) }
{
    match items {
        [only] => has(only, "$ref"),
        _ => false,
    }
}

/// The one of three that is there, if the others are not.
pub(crate) fn only_one<T: Drop>(first: Option<T>, second: Option<T>, third: Option<T>) -> Option<T>
    ensures { result ≡ specs.only_one first second third }
{
    match (first, second, third) {
        (Some(only), None, None) => Some(only),
        (None, Some(only), None) => Some(only),
        (None, None, Some(only)) => Some(only),
        _ => None,
    }
}

/// Whether a text is one of some words.
pub(crate) fn is_one_of(text: &str, words: &[&str]) -> bool
    ensures { result ≡ list_any (bytes_eq text.now) (texts words.now) }
{
    for word in words {
        if text == *word {
            return true;
        }
    }
    false
}
