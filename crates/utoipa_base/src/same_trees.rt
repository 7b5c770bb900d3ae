//! Whether two trees are equal.
ghost use Rattle.std.specs.Prelude.{◌≡◌, ◌↔◌, false, IsTrue};
ghost use Rattle.serde_json.specs.Find.{is_float};
ghost use Rattle.serde_json.specs.View.{view, number_view, items_view, members_view};
ghost use Rattle.serde_json.specs.Written.{has_float, items_have_float, members_have_float};

use serde_json::{Map, Number, Value};

/// Whether two trees are equal: equal whole numbers, lists in order, objects name by name.
/// Neither may hold a fraction: whether two fractions are equal is not decided here.
#[cycle(same_tree)]
pub fn same_tree(left: &Value, right: &Value) -> bool
    requires left_whole { has_float (view left.now) ≡ false }
    requires right_whole { has_float (view right.now) ≡ false }
    ensures { IsTrue result ↔ (view left.now ≡ view right.now) }
{
    match left {
        Value::Null => right.is_null(),
        Value::Bool(flag) => right.as_bool() == Some(*flag),
        Value::Number(number) => match right {
            Value::Number(other) => same_number(number, other),
            _ => false,
        },
        Value::String(text) => right.as_str() == Some(text.as_str()),
        Value::Array(items) => match right {
            Value::Array(others) => same_items(items, others),
            _ => false,
        },
        Value::Object(members) => match right {
            Value::Object(others) => same_members(members, others),
            _ => false,
        },
    }
}

fn same_number(left: &Number, right: &Number) -> bool
    requires left_whole { is_float (number_view left.now) ≡ false }
    requires right_whole { is_float (number_view right.now) ≡ false }
    ensures { IsTrue result ↔ (number_view left.now ≡ number_view right.now) }
{
    left.as_u64() == right.as_u64() && left.as_i64() == right.as_i64()
}

#[cycle(same_tree)]
fn same_items(left: &Vec<Value>, right: &Vec<Value>) -> bool
    requires left_whole { items_have_float (items_view left.now.items) ≡ false }
    requires right_whole { items_have_float (items_view right.now.items) ≡ false }
    ensures { IsTrue result ↔ (items_view left.now.items ≡ items_view right.now.items) }
{
    let mut others = right.iter();
    for item in left {
        let Some(other) = others.next() else {
            return false;
        };
        if !same_tree(item, other) {
            return false;
        }
    }
    others.next().is_none()
}

/// Whether two objects have the same names with equal trees. Neither may hold a fraction.
#[cycle(same_tree)]
pub fn same_members(left: &Map<String, Value>, right: &Map<String, Value>) -> bool
    requires left_whole { members_have_float (members_view left.now.entries) ≡ false }
    requires right_whole { members_have_float (members_view right.now.entries) ≡ false }
    ensures { IsTrue result
        ↔ (members_view left.now.entries ≡ members_view right.now.entries) }
{
    let mut others = right.iter();
    for (name, member) in left.iter() {
        let Some((other_name, other)) = others.next() else {
            return false;
        };
        if name.as_str() != other_name.as_str() || !same_tree(member, other) {
            return false;
        }
    }
    others.next().is_none()
}
