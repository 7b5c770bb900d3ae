//! One value of a tree beside another, whatever stands in them.
ghost use Rattle.std.specs.Prelude.{◌≡◌};
ghost use Rattle.std.specs.Float.Ieee.{to_bits};
ghost use Rattle.std.specs.Float.{binary64};
ghost use Rattle.serde_json.specs.Find.{to_float};
ghost use Rattle.serde_json.specs.View.{view, number_view};
ghost use Rattle.utoipa_check.specs.Dropped as specs;

use serde_json::{Number, Value};
use std::num::f64_to_bits_with_nan;

/// The bits of the `f64` that is nearest to a number.
fn bits(number: &Number) -> u64
    ensures { result ≡ to_bits binary64 (to_float (number_view number.now)) }
{
    match number.as_f64() {
        Some(nearest) => f64_to_bits_with_nan(nearest),
        None => unreachable!(),
    }
}

/// Whether two numbers are the same: whole numbers by their value, fractions by the bits of their `f64`.
fn same_number(left: &Number, right: &Number) -> bool
    ensures { result ≡ specs.same_number (number_view left.now) (number_view right.now) }
{
    if left.is_f64() && right.is_f64() {
        return bits(left) == bits(right);
    }
    left.as_u64() == right.as_u64() && left.as_i64() == right.as_i64()
}

/// Whether a tree is null, `{}` or `[]`.
pub(crate) fn is_empty(tree: &Value) -> bool
    ensures { result ≡ specs.is_empty (view tree.now) }
{
    match tree {
        Value::Null => true,
        Value::Array(items) => items.is_empty(),
        Value::Object(members) => members.is_empty(),
        _ => false,
    }
}

/// Whether two trees have the same value but for what stands in them.
pub(crate) fn is_alike(tree: &Value, written: &Value) -> bool
    ensures { result ≡ specs.is_alike (view tree.now) (view written.now) }
{
    match tree {
        Value::Null => written.is_null(),
        Value::Bool(flag) => written.as_bool() == Some(*flag),
        Value::Number(number) => match written {
            Value::Number(other) => same_number(number, other),
            _ => false,
        },
        Value::String(text) => match written {
            Value::String(other) => text.as_str() == other.as_str(),
            _ => false,
        },
        Value::Array(_) => written.is_array(),
        Value::Object(_) => written.is_object(),
    }
}
