//! The parameters that are in effect for an operation.
ghost use Rattle.std.specs.Prelude.{◌≡◌, ◌++◌, ◌||◌, IfOk, OnOk, codes, option_map};
ghost use Rattle.serde_json.specs.Find.{get};
ghost use Rattle.serde_json.specs.View.{view, items_view, members_view};
ghost use Rattle.utoipa_base.specs.References.{component};
ghost use Rattle.utoipa_meaning.specs.Changes as changes;
ghost use Rattle.utoipa_meaning.specs.Meaning as specs;
ghost use Rattle.utoipa_meaning.specs.Views.{borrowed, difference_of, has_key, names_of, standing_of};

use crate::compared::Standing;
use crate::difference::Difference;
use serde_json::{Map, Value};
use std::alloc::{AllocError, Global};
use std::collections::BTreeSet;
use utoipa_base::Ref;
use utoipa_conflicts::is_same;

/// What tells parameters apart: `name` and `in` (Parameter Object: OpenAPI 3.1, section 4.8.12).
#[derive(Clone, Copy, PartialEq, Eq, PartialOrd, Ord, Drop)]
pub(crate) struct ParameterKey<'a> {
    pub(crate) name: &'a str,
    pub(crate) place: &'a str,
}

/// A member that is a text.
fn text_member<'v>(name: &str, tree: &'v Value) -> Option<&'v str>
    ensures { option_map (λ v. v.now) result ≡ specs.text_member name.now (view tree.now) }
{
    match tree.get(name) {
        Some(Value::String(text)) => Some(text.as_str()),
        _ => None,
    }
}

/// The parameters of the components (Components Object: OpenAPI 3.1, section 4.8.7).
fn component_parameters(document: &Value) -> Option<&Value>
    ensures { option_map (λ v. view v.now) result ≡ specs.component_parameters (view document.now) }
{
    document.get("components")?.get("parameters")
}

/// How many members an object has.
fn member_count(members: &Map<String, Value>) -> usize
    ensures { result ≡ specs.member_count (members_view members.now.entries) }
{
    members.len()
}

/// How many entries a map has that may be there.
fn entry_count(entries: Option<&Value>) -> usize
    ensures { result ≡ specs.entry_count (option_map (λ v. view v.now) entries.entry) }
{
    match entries {
        Some(Value::Object(members)) => member_count(members),
        _ => 0,
    }
}

/// How many parameters the components have.
fn parameter_count(document: &Value) -> usize
    ensures { result ≡ specs.parameter_count (view document.now) }
{
    entry_count(component_parameters(document))
}

/// What stands among the parameters of the components under a name.
fn parameter_named<'v>(document: &'v Value, name: &str) -> Option<&'v Value>
    ensures { option_map (λ v. view v.now) result ≡ component (codes "parameters") name.now (view document.now) }
{
    component_parameters(document)?.get(name)
}

/// What stands among the parameters of the components where a reference leads to. Fails where memory runs out.
fn referred<'v>(
    alloc: Global,
    document: &'v Value,
    location: &str,
) -> Result<Option<&'v Value>, AllocError>
    ensures { IfOk result (λ found. option_map (λ v. view v.now) found ≡ specs.referred (view document.now) location.now) }
{
    let reference = Ref::new(alloc, String::from_str(alloc, location)?);
    let Some(key) = reference.component(alloc)? else {
        return Ok(None);
    };
    if key.map.as_text() == "parameters" {
        return Ok(parameter_named(document, key.name.as_str()));
    }
    Ok(None)
}

/// The parameter that is meant in a place, through references. Fails where memory runs out.
fn meant_parameter<'v>(
    alloc: Global,
    document: &'v Value,
    parameter: &'v Value,
) -> Result<&'v Value, AllocError>
    ensures { IfOk result (λ v. view v.now ≡ specs.meant_parameter (view document.now) (view parameter.now)) }
{
    let mut reached = parameter;
    // References that lead past more parameters than there are go round in a circle.
    for _ in 0..=parameter_count(document) {
        let Some(location) = text_member("$ref", reached) else {
            return Ok(reached);
        };
        let Some(entry) = referred(alloc, document, location)? else {
            return Ok(parameter);
        };
        reached = entry;
    }
    Ok(parameter)
}

/// Adds some parameters, each as it is meant. Fails where memory runs out.
fn push_meant<'v>(
    alloc: Global,
    document: &'v Value,
    parameters: &'v Vec<Value>,
    found: &mut Vec<&'v Value>,
) -> Result<(), AllocError>
    ensures { OnOk result (borrowed found.new.items ≡ borrowed found.old.items
        ++ specs.all_meant (view document.now) (items_view parameters.now.items)) }
{
    for parameter in parameters {
        found.push(meant_parameter(alloc, document, parameter)?)?;
    }
    Ok(())
}

/// The parameters that a path item or an operation lists, each as it is meant. Fails where memory runs out.
fn listed_parameters<'v>(
    alloc: Global,
    document: &'v Value,
    holder: &'v Value,
) -> Result<Vec<&'v Value>, AllocError>
    ensures { IfOk result (λ v. borrowed v.items ≡ specs.listed_parameters (view document.now) (view holder.now)) }
{
    let mut found = Vec::new(alloc);
    if let Some(Value::Array(parameters)) = holder.get("parameters") {
        push_meant(alloc, document, parameters, &mut found)?;
    }
    Ok(found)
}

/// What tells a parameter apart, if it has both.
fn key_of(parameter: &Value) -> Option<ParameterKey<'_>>
    ensures { option_map names_of result ≡ specs.names_in (view parameter.now) }
{
    let name = text_member("name", parameter)?;
    let place = text_member("in", parameter)?;
    Some(ParameterKey { name, place })
}

/// Notes what tells a parameter apart. Fails where memory runs out.
fn note<'v>(keys: &mut BTreeSet<ParameterKey<'v>>, parameter: &'v Value) -> Result<(), AllocError>
    ensures { OnOk result ((n : specs.Names) → has_key keys.new n
        ≡ (specs.has_names n (specs.names_in (view parameter.now)) || has_key keys.old n)) }
{
    if let Some(key) = key_of(parameter) {
        drop(keys.insert(key)?);
    }
    Ok(())
}

/// What tells some parameters apart. Fails where memory runs out.
fn keys_of<'v>(
    alloc: Global,
    parameters: &Vec<&'v Value>,
) -> Result<BTreeSet<ParameterKey<'v>>, AllocError>
    ensures { IfOk result (λ s. (n : specs.Names) → has_key s n ≡ specs.is_listed n (borrowed parameters.now.items)) }
{
    let mut keys = BTreeSet::new(alloc);
    for parameter in parameters {
        note(&mut keys, *parameter)?;
    }
    Ok(keys)
}

/// Whether a parameter has the names of one that overrides it.
fn is_overridden<'v>(keys: &BTreeSet<ParameterKey<'v>>, parameter: &'v Value) -> bool
    ensures { result ≡ specs.is_overridden (has_key keys.now) (specs.names_in (view parameter.now)) }
{
    match key_of(parameter) {
        Some(key) => keys.contains(&key),
        None => false,
    }
}

/// Adds the parameters that are not overridden. Fails where memory runs out.
fn push_others<'v>(
    keys: &BTreeSet<ParameterKey<'v>>,
    parameters: &Vec<&'v Value>,
    found: &mut Vec<&'v Value>,
) -> Result<(), AllocError>
    ensures { OnOk result (borrowed found.new.items ≡ borrowed found.old.items
        ++ specs.not_overridden (has_key keys.now) (borrowed parameters.now.items)) }
{
    for parameter in parameters {
        if !is_overridden(keys, *parameter) {
            found.push(*parameter)?;
        }
    }
    Ok(())
}

/// The parameters that are in effect for an operation: its own, and those of its path item that it does not override. Fails where memory runs
/// out.
fn effective_parameters<'v>(
    alloc: Global,
    standing: Standing<'v>,
) -> Result<Vec<&'v Value>, AllocError>
    ensures { IfOk result (λ v. borrowed v.items
        ≡ specs.effective_parameters (standing_of standing.entry).0 (standing_of standing.entry).1 (standing_of standing.entry).2) }
{
    let mut all = listed_parameters(alloc, standing.document, standing.operation)?;
    let of_item = listed_parameters(alloc, standing.document, standing.path_item)?;
    let keys = keys_of(alloc, &all)?;
    push_others(&keys, &of_item, &mut all)?;
    Ok(all)
}

/// Whether trees are the same, one after the other.
fn same_trees(left: &Vec<&Value>, right: &Vec<&Value>) -> bool
    ensures { result ≡ changes.same_trees (borrowed left.now.items) (borrowed right.now.items) }
{
    let mut others = right.iter();
    for tree in left {
        let Some(other) = others.next() else {
            return false;
        };
        if !is_same(*tree, *other) {
            return false;
        }
    }
    others.next().is_none()
}

/// What differs of the parameters, if something does. Fails where memory runs out.
pub(crate) fn parameters_difference(
    alloc: Global,
    own: Standing<'_>,
    merged: Standing<'_>,
) -> Result<Option<Difference>, AllocError>
    ensures { IfOk result (λ d. option_map difference_of d
        ≡ changes.parameters_difference (standing_of own.entry) (standing_of merged.entry)) }
{
    let of_own = effective_parameters(alloc, own)?;
    let of_merged = effective_parameters(alloc, merged)?;
    if same_trees(&of_own, &of_merged) {
        return Ok(None);
    }
    Ok(Some(Difference::Parameters))
}
