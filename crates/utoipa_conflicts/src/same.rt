//! Whether two trees are one value.
ghost use Rattle.std.specs.Prelude.{◌≡◌};
ghost use Rattle.std.specs.Float.Ieee.{to_bits};
ghost use Rattle.std.specs.Float.{binary64};
ghost use Rattle.serde_json.specs.Find.{to_float};
ghost use Rattle.serde_json.specs.View.{view, number_view, items_view, members_view};
ghost use Rattle.utoipa_check.specs.Dropped as numbers;
ghost use Rattle.utoipa_conflicts.specs.Same as specs;

use serde_json::{Map, Number, Value};
use std::num::f64_to_bits_with_nan;

/// Whether two trees are one value: the same flag or text, a whole number of the same value, a fraction of the same bits of its `f64`, an
/// array of the same items in their order, an object of the same names with the same values. A whole number is no fraction.
#[cycle(is_same)]
pub fn is_same(left: &Value, right: &Value) -> bool
    ensures { result ≡ specs.is_same (view left.now) (view right.now) }
{
    match left {
        Value::Null => right.is_null(),
        Value::Bool(flag) => right.as_bool() == Some(*flag),
        Value::Number(number) => match right {
            Value::Number(other) => same_number(number, other),
            _ => false,
        },
        Value::String(text) => match right {
            Value::String(other) => text.as_str() == other.as_str(),
            _ => false,
        },
        Value::Array(items) => match right {
            Value::Array(others) => same_items(items, others),
            _ => false,
        },
        Value::Object(members) => match right {
            Value::Object(others) => same_members(members, others),
            _ => false,
        },
    }
}

/// The bits of the `f64` that is nearest to a number.
fn bits(number: &Number) -> u64
    ensures { result ≡ to_bits binary64 (to_float (number_view number.now)) }
{
    match number.as_f64() {
        Some(nearest) => f64_to_bits_with_nan(nearest),
        None => unreachable!(),
    }
}

fn same_number(left: &Number, right: &Number) -> bool
    ensures { result ≡ numbers.same_number (number_view left.now) (number_view right.now) }
{
    if left.is_f64() && right.is_f64() {
        return bits(left) == bits(right);
    }
    left.as_u64() == right.as_u64() && left.as_i64() == right.as_i64()
}

#[cycle(is_same)]
fn same_items(left: &Vec<Value>, right: &Vec<Value>) -> bool
    ensures { result ≡ specs.same_items (items_view left.now.items) (items_view right.now.items) }
{
    let mut others = right.iter();
    for item in left {
        let Some(other) = others.next() else {
            return false;
        };
        if !is_same(item, other) {
            return false;
        }
    }
    others.next().is_none()
}

#[cycle(is_same)]
fn same_members(left: &Map<String, Value>, right: &Map<String, Value>) -> bool
    ensures { result ≡ specs.same_members (members_view left.now.entries) (members_view right.now.entries) }
{
    let mut others = right.iter();
    for (name, member) in left.iter() {
        let Some((other_name, other)) = others.next() else {
            return false;
        };
        if name.as_str() != other_name.as_str() || !is_same(member, other) {
            return false;
        }
    }
    others.next().is_none()
}
