//! Objects in which members are taken away and put. The parts of a tree are moved into the new one.
ghost use Rattle.std.specs.Prelude.{◌≡◌, ◌∷◌, [], IfOk, option_map, codes};
ghost use Rattle.serde_json.specs.Data.{null, object, put};
ghost use Rattle.serde_json.specs.Find.{get_member};
ghost use Rattle.serde_json.specs.View.{view, members_view};
ghost use Rattle.utoipa_adapt.specs.Rules as rules;
ghost use Rattle.utoipa_adapt.specs.Trees as specs;

use crate::looking::only_one;
use serde_json::{Map, Value};
use std::alloc::{AllocError, Global};

/// Takes the member of a name away.
fn take(members: &mut Map<String, Value>, name: &str) -> Option<Value>
    ensures value { option_map view result ≡ get_member name.now (members_view members.old.entries) }
    ensures rest { members_view members.new.entries ≡ specs.without name.now (members_view members.old.entries) }
{
    members.remove(name)
}

/// The members with one more.
fn with_entry(
    alloc: Global,
    name: &str,
    value: Value,
    members: Map<String, Value>,
) -> Result<Map<String, Value>, AllocError>
    ensures { IfOk result
        (λ m. members_view m.entries ≡ put name.now (view value) (members_view members.entries)) }
{
    let mut all = members;
    drop(all.insert(String::from_str(alloc, name)?, value)?);
    Ok(all)
}

/// The members with a value at a name, if there is a value.
fn put_some(
    alloc: Global,
    name: &str,
    value: Option<Value>,
    members: Map<String, Value>,
) -> Result<Map<String, Value>, AllocError>
    ensures { IfOk result (λ m. members_view m.entries
        ≡ specs.put_some name.now (option_map view value) (members_view members.entries)) }
{
    match value {
        Some(value) => with_entry(alloc, name, value, members),
        None => Ok(members),
    }
}

/// An object with the member; any other tree stays.
pub(crate) fn with_member(
    alloc: Global,
    name: &str,
    value: Value,
    tree: Value,
) -> Result<Value, AllocError>
    ensures { IfOk result (λ v. view v ≡ specs.with_member name.now (view value) (view tree)) }
{
    match tree {
        Value::Object(members) => Ok(Value::Object(with_entry(alloc, name, value, members)?)),
        other => Ok(other),
    }
}

/// An object without any other member than that of a name; any other tree stays.
pub(crate) fn only_member(alloc: Global, name: &str, tree: Value) -> Result<Value, AllocError>
    ensures { IfOk result (λ v. view v ≡ specs.only_member name.now (view tree)) }
{
    match tree {
        Value::Object(members) => {
            let mut rest = members;
            let value = take(&mut rest, name);
            Ok(Value::Object(put_some(alloc, name, value, Map::new(alloc))?))
        }
        other => Ok(other),
    }
}

/// An object without the member of a name; any other tree stays.
pub(crate) fn taken_away(name: &str, tree: Value) -> Value
    ensures { view result ≡ rules.taken_away name.now (view tree) }
{
    match tree {
        Value::Object(members) => {
            let mut rest = members;
            drop(take(&mut rest, name));
            Value::Object(rest)
        }
        other => other,
    }
}

/// An object with the value of a member under another name in its place; any other tree stays.
pub(crate) fn moved(alloc: Global, from: &str, to: &str, tree: Value) -> Result<Value, AllocError>
    ensures { IfOk result (λ v. view v ≡ rules.moved from.now to.now (view tree)) }
{
    match tree {
        Value::Object(members) => {
            let mut rest = members;
            let value = take(&mut rest, from);
            Ok(Value::Object(put_some(alloc, to, value, rest)?))
        }
        other => Ok(other),
    }
}

/// An object with a text under another name, in place of a member; any other tree stays.
pub(crate) fn replaced(
    alloc: Global,
    from: &str,
    to: &str,
    text: &str,
    tree: Value,
) -> Result<Value, AllocError>
    ensures { IfOk result (λ v. view v ≡ rules.replaced from.now to.now text.now (view tree)) }
{
    match tree {
        Value::Object(members) => {
            let mut rest = members;
            drop(take(&mut rest, from));
            let value = Value::String(String::from_str(alloc, text)?);
            Ok(Value::Object(with_entry(alloc, to, value, rest)?))
        }
        other => Ok(other),
    }
}

/// An object with a list of the value of a member, under another name in its place; any other tree stays.
pub(crate) fn listed(alloc: Global, from: &str, to: &str, tree: Value) -> Result<Value, AllocError>
    ensures { IfOk result (λ v. view v ≡ rules.listed from.now to.now (view tree)) }
{
    match tree {
        Value::Object(members) => Ok(Value::Object(listed_member(alloc, from, to, members)?)),
        other => Ok(other),
    }
}

/// The members with a list of the value of one, under another name in its place.
fn listed_member(
    alloc: Global,
    from: &str,
    to: &str,
    members: Map<String, Value>,
) -> Result<Map<String, Value>, AllocError>
    ensures { IfOk result (λ m. members_view m.entries ≡ specs.put_some to.now
        (option_map specs.list_of_one (get_member from.now (members_view members.entries)))
        (specs.without from.now (members_view members.entries))) }
{
    let mut rest = members;
    match take(&mut rest, from) {
        Some(value) => with_entry(alloc, to, list_of_one(alloc, value)?, rest),
        None => Ok(rest),
    }
}

/// An array of a value.
fn list_of_one(alloc: Global, value: Value) -> Result<Value, AllocError>
    ensures { IfOk result (λ v. view v ≡ specs.list_of_one (view value)) }
{
    let mut items = Vec::new(alloc);
    items.push(value)?;
    Ok(Value::Array(items))
}

/// An array with one item more; any other tree stays.
fn with_item(item: Value, tree: Value) -> Result<Value, AllocError>
    ensures { IfOk result (λ v. view v ≡ specs.with_item (view item) (view tree)) }
{
    match tree {
        Value::Array(items) => {
            let mut all = items;
            all.push(item)?;
            Ok(Value::Array(all))
        }
        other => Ok(other),
    }
}

/// A schema with null at the end of its `enum`; any other tree stays.
pub(crate) fn null_in_enum(alloc: Global, tree: Value) -> Result<Value, AllocError>
    ensures { IfOk result (λ v. view v ≡ rules.changed rules.null_in_enum (view tree)) }
{
    match tree {
        Value::Object(members) => Ok(Value::Object(null_in_enum_member(alloc, members)?)),
        other => Ok(other),
    }
}

/// The members of a schema with null at the end of their `enum`.
fn null_in_enum_member(
    alloc: Global,
    members: Map<String, Value>,
) -> Result<Map<String, Value>, AllocError>
    ensures { IfOk result (λ m. members_view m.entries ≡ specs.put_some (codes "enum")
        (option_map (specs.with_item null) (get_member (codes "enum") (members_view members.entries)))
        (specs.without (codes "enum") (members_view members.entries))) }
{
    let mut rest = members;
    match take(&mut rest, "enum") {
        Some(values) => with_entry(alloc, "enum", with_item(Value::Null, values)?, rest),
        None => Ok(rest),
    }
}

/// A schema with the type `null` beside its own, in place of `nullable`; any other tree stays.
pub(crate) fn nullable_type(alloc: Global, tree: Value) -> Result<Value, AllocError>
    ensures { IfOk result (λ v. view v ≡ rules.changed rules.nullable_type (view tree)) }
{
    match tree {
        Value::Object(members) => Ok(Value::Object(nullable_type_member(alloc, members)?)),
        other => Ok(other),
    }
}

/// The members of a schema with the type `null` beside their own, in place of `nullable`.
fn nullable_type_member(
    alloc: Global,
    members: Map<String, Value>,
) -> Result<Map<String, Value>, AllocError>
    ensures { IfOk result (λ m. members_view m.entries ≡ specs.put_some (codes "type")
        (option_map (λ t. specs.list_of_two t rules.null_type)
        (get_member (codes "type") (members_view members.entries)))
        (specs.without_all (codes "type" ∷ codes "nullable" ∷ [])
        (members_view members.entries))) }
{
    let mut rest = members;
    let own = take(&mut rest, "type");
    drop(take(&mut rest, "nullable"));
    match own {
        Some(own) => with_entry(alloc, "type", type_or_null(alloc, own)?, rest),
        None => Ok(rest),
    }
}

/// The list of a type and of the type `null`.
fn type_or_null(alloc: Global, own: Value) -> Result<Value, AllocError>
    ensures { IfOk result (λ v. view v ≡ specs.list_of_two (view own) rules.null_type) }
{
    with_item(null_type(alloc)?, list_of_one(alloc, own)?)
}

/// The type that null alone is of.
fn null_type(alloc: Global) -> Result<Value, AllocError>
    ensures { IfOk result (λ v. view v ≡ rules.null_type) }
{
    Ok(Value::String(String::from_str(alloc, "null")?))
}

/// The schema of null.
fn null_schema(alloc: Global) -> Result<Value, AllocError>
    ensures { IfOk result (λ v. view v ≡ rules.null_schema) }
{
    let members = with_entry(alloc, "type", null_type(alloc)?, Map::new(alloc))?;
    Ok(Value::Object(members))
}

/// A schema with its only combination, or null, in place of `nullable`; any other tree stays.
pub(crate) fn nullable_reference(alloc: Global, tree: Value) -> Result<Value, AllocError>
    ensures { IfOk result (λ v. view v ≡ rules.changed rules.nullable_reference (view tree)) }
{
    match tree {
        Value::Object(members) => Ok(Value::Object(nullable_reference_member(alloc, members)?)),
        other => Ok(other),
    }
}

/// The members of a schema with their only combination, or null, in place of `nullable`.
fn nullable_reference_member(
    alloc: Global,
    members: Map<String, Value>,
) -> Result<Map<String, Value>, AllocError>
    ensures { IfOk result (λ m. members_view m.entries ≡ specs.put_some (codes "anyOf")
        (option_map (specs.with_item rules.null_schema)
        (rules.combination (object (members_view members.entries))))
        (specs.without_all (codes "allOf" ∷ codes "oneOf" ∷ codes "anyOf" ∷ codes "nullable" ∷ [])
        (members_view members.entries))) }
{
    let mut rest = members;
    let all_of = take(&mut rest, "allOf");
    let one_of = take(&mut rest, "oneOf");
    let any_of = take(&mut rest, "anyOf");
    drop(take(&mut rest, "nullable"));
    match only_one(all_of, one_of, any_of) {
        Some(only) => with_entry(alloc, "anyOf", with_item(null_schema(alloc)?, only)?, rest),
        None => Ok(rest),
    }
}
