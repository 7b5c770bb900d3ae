//! What the rules of the upgrade look at in a tree of OpenAPI 3.0.
ghost use Rattle.std.specs.Prelude.{◌≡◌, option_map};
ghost use Rattle.serde_json.specs.View.{view};
ghost use Rattle.utoipa_adapt.specs.Rules as specs;

use crate::looking::{
    has, has_any, has_two, is_false_at, is_number_at, is_one_reference, is_true_at, only_one, says,
};
use serde_json::Value;

/// Whether a tree is a version 3.0.
pub(crate) fn is_version_of_3_0(tree: &Value) -> bool
    ensures { result ≡ specs.applies specs.version_of_3_0 (view tree.now) }
{
    match tree {
        Value::String(text) => is_3_0(text.as_str()),
        _ => false,
    }
}

/// Whether a text is a version 3.0, with any third number or none.
fn is_3_0(text: &str) -> bool
    ensures { result ≡ specs.is_3_0 text.now }
{
    text == "3.0" || text.as_bytes().starts_with(b"3.0.")
}

/// Whether a tree is a reference with other members beside `$ref`.
pub(crate) fn is_reference_of_two(tree: &Value) -> bool
    ensures { result ≡ specs.applies specs.beside_reference (view tree.now) }
{
    match tree.get("$ref") {
        Some(Value::String(_)) => has_two(tree),
        _ => false,
    }
}

/// The keywords beside which a format `binary` stays: what takes its place, and the combinations.
static BESIDE_BINARY: [&str; 4] = ["contentMediaType", "oneOf", "allOf", "anyOf"];

/// The keywords beside which a format `byte` stays.
static BESIDE_BYTE: [&str; 4] = ["contentEncoding", "oneOf", "allOf", "anyOf"];

/// Whether a tree is a schema of texts in the format `binary`.
pub(crate) fn is_binary(tree: &Value) -> bool
    ensures { result ≡ specs.applies specs.binary_format (view tree.now) }
{
    says(tree, "format", "binary") && says(tree, "type", "string") && !has_any(tree, &BESIDE_BINARY)
}

/// Whether a tree is a schema of texts in the format `byte`.
pub(crate) fn is_byte(tree: &Value) -> bool
    ensures { result ≡ specs.applies specs.byte_format (view tree.now) }
{
    says(tree, "format", "byte") && says(tree, "type", "string") && !has_any(tree, &BESIDE_BYTE)
}

/// Whether a keyword is true, and so excludes the bound of another, which is a number.
pub(crate) fn excludes(tree: &Value, keyword: &'static str, bound: &'static str) -> bool
    ensures { result ≡ specs.excludes keyword.now bound.now (view tree.now) }
{
    is_true_at(tree, keyword) && is_number_at(tree, bound)
}

/// Whether a keyword is false, or true without a bound to exclude.
pub(crate) fn excludes_nothing(tree: &Value, keyword: &'static str, bound: &'static str) -> bool
    ensures { result ≡ specs.excludes_nothing keyword.now bound.now (view tree.now) }
{
    is_false_at(tree, keyword) || (is_true_at(tree, keyword) && !has(tree, bound))
}

/// Whether `nullable` adds null to a type, which is another one.
pub(crate) fn is_nullable_type(tree: &Value) -> bool
    ensures { result ≡ specs.is_nullable_type (view tree.now) }
{
    match tree.get("type") {
        Some(Value::String(word)) => is_true_at(tree, "nullable") && word.as_str() != "null",
        _ => false,
    }
}

/// The only combination that a schema has.
fn combination(tree: &Value) -> Option<&Value>
    ensures { option_map (λ v. view v.now) result ≡ specs.combination (view tree.now) }
{
    only_one(tree.get("allOf"), tree.get("oneOf"), tree.get("anyOf"))
}

/// Whether a schema has no type, and is a combination of one reference.
fn is_combined_reference(tree: &Value) -> bool
    ensures { result ≡ specs.is_combined_reference (view tree.now) }
{
    match combination(tree) {
        Some(only) => !has(tree, "type") && is_one_reference(only),
        None => false,
    }
}

/// Whether `nullable` adds null to a reference.
pub(crate) fn is_nullable_reference(tree: &Value) -> bool
    ensures { result ≡ specs.applies specs.nullable_reference (view tree.now) }
{
    is_true_at(tree, "nullable") && is_combined_reference(tree)
}

/// Whether null is added to nothing.
fn adds_nothing(tree: &Value) -> bool
    ensures { result ≡ specs.adds_nothing (view tree.now) }
{
    says(tree, "type", "null") || (!has(tree, "type") && !is_combined_reference(tree))
}

/// Whether `nullable` has no effect.
pub(crate) fn is_nullable_idle(tree: &Value) -> bool
    ensures { result ≡ specs.applies specs.idle_nullable (view tree.now) }
{
    is_false_at(tree, "nullable") || (is_true_at(tree, "nullable") && adds_nothing(tree))
}
