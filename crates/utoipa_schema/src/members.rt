//! The members of a schema that hold schemas, whose places have been read before.
ghost use Rattle.std.specs.Prelude.{◌≡◌, option_map, map, codes, true, false};
ghost use Rattle.serde_json.specs.Data.{Data};
ghost use Rattle.serde_json.specs.Find.{get};
ghost use Rattle.serde_json.specs.View.{view};
ghost use Rattle.utoipa_base.specs.Fields.{field};
ghost use Rattle.utoipa_base.specs.Kinds.{schema, array_items, additional_properties as additional_kind, ref_or, list_of, map_of, required, optional, defaulted};
ghost use Rattle.utoipa_base.specs.Reading.{read};
ghost use Rattle.utoipa_base.specs.Refs.{ref_or_doc};
ghost use Rattle.utoipa_base.specs.Tables.{row};
ghost use Rattle.utoipa_base.specs.Views.{boxed, option_of, list_of_docs, map_of_docs};
ghost use Rattle.utoipa_schema.specs.Choice.{content_schema_doc};
ghost use Rattle.utoipa_schema.specs.Docs.{places_doc, additional_properties_doc, schema_doc, array_items_doc};
ghost use Rattle.utoipa_schema.specs.Outcomes.{outcome_doc, list_docs, map_docs, own_part, list_of_own, count_of, count_of_list, count_of_map, last, all_docs, all_entries, Fits};
ghost use Rattle.utoipa_schema.specs.Places.{elements, entries, alone, part, found};

use crate::outcomes::{ListOutcome, MapOutcome, Outcome};
use crate::types::{AdditionalProperties, ArrayItems, Schema};
use serde_json::Value;
use std::alloc::Global;
use std::collections::BTreeMap;
use utoipa_base::{ReadFault, RefOr};

/// The schema that a place holds, where it is no reference and fits one.
fn own_schema(outcome: Outcome) -> Option<Schema>
    ensures { option_map schema_doc result ≡ own_part (outcome_doc outcome) }
{
    match Box::into_inner(outcome?) {
        RefOr::T(schema) => Some(schema),
        RefOr::Ref(_) => None,
    }
}

/// The schemas of a list, where each of its places holds one. Fails with `Alternative` where one does not.
fn all_schemas(alloc: Global, places: Vec<RefOr<Schema>>) -> Result<Vec<Schema>, ReadFault>
    ensures { Fits (list_of_own (map (ref_or_doc schema schema_doc) places.items)) (list_of_docs schema_doc) result
        (count_of_list (list_docs (Some places))) }
{
    let mut list = Vec::new(alloc);
    for place in places {
        match place {
            RefOr::T(schema) => list.push(schema)?,
            RefOr::Ref(_) => return Err(ReadFault::Alternative),
        }
    }
    Ok(list)
}

/// The one place that there is. Fails with `Alternative` where it fits nothing, and where there is none.
pub(crate) fn only_place(outcome: Outcome) -> Result<Box<RefOr<Schema>>, ReadFault>
    ensures { Fits (outcome_doc outcome) (boxed (ref_or_doc schema schema_doc)) result
        (count_of (outcome_doc outcome)) }
{
    match outcome {
        Some(place) => Ok(place),
        None => Err(ReadFault::Alternative),
    }
}

/// The schema in the one place that there is. Fails with `Alternative` where it holds none, and where there is no place.
pub(crate) fn only_schema(outcome: Outcome) -> Result<Schema, ReadFault>
    ensures { Fits (own_part (outcome_doc outcome)) schema_doc result (count_of (outcome_doc outcome)) }
{
    match own_schema(outcome) {
        Some(schema) => Ok(schema),
        None => Err(ReadFault::Alternative),
    }
}

/// A list of references and schemas. Fails where the tree is no list, and where an element is neither.
pub(crate) fn places_in_list(
    tree: &Value,
    outcome: ListOutcome,
) -> Result<Vec<RefOr<Schema>>, ReadFault>
    requires { list_docs outcome ≡ all_docs (elements true (view tree.now)) }
    ensures { Fits (read (list_of (ref_or schema)) (view tree.now)) (places_doc schema_doc) result
        (count_of_list (list_docs outcome)) }
{
    let Some(_list) = tree.as_array() else {
        return Err(ReadFault::Kind("list"));
    };
    match outcome {
        Some(places) => Ok(places),
        None => Err(ReadFault::Alternative),
    }
}

/// A list of schemas. Fails where the tree is no list, and where an element is no schema.
fn schemas_in_list(
    alloc: Global,
    tree: &Value,
    outcome: ListOutcome,
) -> Result<Vec<Schema>, ReadFault>
    requires { list_docs outcome ≡ all_docs (elements false (view tree.now)) }
    ensures { Fits (read (list_of schema) (view tree.now)) (list_of_docs schema_doc) result
        (count_of_list (list_docs outcome)) }
{
    let Some(_list) = tree.as_array() else {
        return Err(ReadFault::Kind("list"));
    };
    match outcome {
        Some(places) => all_schemas(alloc, places),
        None => Err(ReadFault::Alternative),
    }
}

/// References and schemas by their names. Fails where the tree is no object, and where a member is neither.
pub(crate) fn places_by_name(
    tree: &Value,
    outcome: MapOutcome,
) -> Result<BTreeMap<String, RefOr<Schema>>, ReadFault>
    requires { map_docs outcome ≡ all_entries (entries true (view tree.now)) }
    ensures { Fits (read (map_of (ref_or schema)) (view tree.now)) (map_of_docs (ref_or_doc schema schema_doc)) result
        (count_of_map (map_docs outcome)) }
{
    let Some(_members) = tree.as_object() else {
        return Err(ReadFault::Kind("map"));
    };
    match outcome {
        Some(places) => Ok(places),
        None => Err(ReadFault::Alternative),
    }
}

/// What the items of an array are: `false`, a reference, or a schema. Fails where the tree is none of these.
pub(crate) fn items_from(tree: &Value, outcome: Outcome) -> Result<ArrayItems, ReadFault>
    requires { outcome_doc outcome ≡ last (alone true (view tree.now)) }
    ensures { Fits (read array_items (view tree.now)) array_items_doc result (count_of (outcome_doc outcome)) }
{
    match tree.as_bool() {
        Some(false) => Ok(ArrayItems::False),
        Some(true) => Err(ReadFault::Alternative),
        None => Ok(ArrayItems::RefOrSchema(only_place(outcome)?)),
    }
}

/// What the properties are that an object does not list: true, false, a reference, or a schema. Fails where the tree is none
/// of these.
pub(crate) fn additional_from(
    tree: &Value,
    outcome: Outcome,
) -> Result<AdditionalProperties<Schema>, ReadFault>
    requires { outcome_doc outcome ≡ last (alone true (view tree.now)) }
    ensures { Fits (read additional_kind (view tree.now)) (additional_properties_doc schema_doc) result
        (count_of (outcome_doc outcome)) }
{
    match tree.as_bool() {
        Some(free) => Ok(AdditionalProperties::FreeForm(free)),
        None => {
            let place = only_place(outcome)?;
            Ok(AdditionalProperties::RefOr(Box::into_inner(place)))
        }
    }
}

/// The schemas that a combination combines: its member of that name. Fails where there is none, or not of its kind.
pub(crate) fn combined_from(
    member: Option<&Value>,
    name: &'static str,
    outcome: ListOutcome,
) -> Result<Vec<RefOr<Schema>>, ReadFault>
    requires { list_docs outcome ≡ all_docs (part (elements true) (found member)) }
    ensures { (d : Data) → found member.entry ≡ get name.now d
        → Fits (field (row name.now required (list_of (ref_or schema))) d) (places_doc schema_doc) result
        (count_of_list (list_docs outcome)) }
{
    match member {
        Some(member) => places_in_list(member, outcome),
        None => Err(ReadFault::Missing(name)),
    }
}

/// The items of an array: the member `items`. Fails where there is none, or not of its kind.
pub(crate) fn array_items_from(
    member: Option<&Value>,
    outcome: Outcome,
) -> Result<ArrayItems, ReadFault>
    requires { outcome_doc outcome ≡ last (part (alone true) (found member)) }
    ensures { (d : Data) → found member.entry ≡ get (codes "items") d
        → Fits (field (row (codes "items") required array_items) d) array_items_doc result
        (count_of (outcome_doc outcome)) }
{
    match member {
        Some(member) => items_from(member, outcome),
        None => Err(ReadFault::Missing("items")),
    }
}

/// The schemas of the first items: the member `prefixItems`. Fails where it is not of its kind.
pub(crate) fn prefix_items_from(
    alloc: Global,
    member: Option<&Value>,
    outcome: ListOutcome,
) -> Result<Vec<Schema>, ReadFault>
    requires { list_docs outcome ≡ all_docs (part (elements false) (found member)) }
    ensures { (d : Data) → found member.entry ≡ get (codes "prefixItems") d
        → Fits (field (row (codes "prefixItems") defaulted (list_of schema)) d) (list_of_docs schema_doc) result
        (count_of_list (list_docs outcome)) }
{
    match member {
        Some(member) => schemas_in_list(alloc, member, outcome),
        None => Ok(Vec::new(alloc)),
    }
}

/// The schemas of the properties: the member `properties`. Fails where it is not of its kind.
pub(crate) fn properties_from(
    alloc: Global,
    member: Option<&Value>,
    outcome: MapOutcome,
) -> Result<BTreeMap<String, RefOr<Schema>>, ReadFault>
    requires { map_docs outcome ≡ all_entries (part (entries true) (found member)) }
    ensures { (d : Data) → found member.entry ≡ get (codes "properties") d
        → Fits (field (row (codes "properties") defaulted (map_of (ref_or schema))) d)
        (map_of_docs (ref_or_doc schema schema_doc)) result (count_of_map (map_docs outcome)) }
{
    match member {
        Some(member) => places_by_name(member, outcome),
        None => Ok(BTreeMap::new(alloc)),
    }
}

/// What the other properties are: the member `additionalProperties`. Fails where it is not of its kind.
pub(crate) fn additional_properties_from(
    alloc: Global,
    member: Option<&Value>,
    outcome: Outcome,
) -> Result<Option<Box<AdditionalProperties<Schema>>>, ReadFault>
    requires { outcome_doc outcome ≡ last (part (alone true) (found member)) }
    ensures { (d : Data) → found member.entry ≡ get (codes "additionalProperties") d
        → Fits (field (row (codes "additionalProperties") optional additional_kind) d)
        (option_of (boxed (additional_properties_doc schema_doc))) result (count_of (outcome_doc outcome)) }
{
    match member {
        Some(member) => {
            if member.is_null() {
                return Ok(None);
            }
            let value = additional_from(member, outcome)?;
            Ok(Some(Box::new(alloc, value)?))
        }
        None => Ok(None),
    }
}

/// What the names of properties are: the member `propertyNames`. Fails where it is not of its kind.
pub(crate) fn property_names_from(
    alloc: Global,
    member: Option<&Value>,
    outcome: Outcome,
) -> Result<Option<Box<Schema>>, ReadFault>
    requires { outcome_doc outcome ≡ last (part (alone false) (found member)) }
    ensures { (d : Data) → found member.entry ≡ get (codes "propertyNames") d
        → Fits (field (row (codes "propertyNames") optional schema) d) (option_of (boxed schema_doc)) result
        (count_of (outcome_doc outcome)) }
{
    match member {
        Some(member) => {
            if member.is_null() {
                return Ok(None);
            }
            let value = only_schema(outcome)?;
            Ok(Some(Box::new(alloc, value)?))
        }
        None => Ok(None),
    }
}

/// The schema of a text's content: the member `contentSchema`. Fails where it is not of its kind.
pub(crate) fn content_schema_from(
    member: Option<&Value>,
    outcome: Outcome,
) -> Result<Option<Box<RefOr<Schema>>>, ReadFault>
    requires { outcome_doc outcome ≡ last (part (alone true) (found member)) }
    ensures { (d : Data) → found member.entry ≡ get (codes "contentSchema") d
        → Fits (field (row (codes "contentSchema") optional (ref_or schema)) d) content_schema_doc result
        (count_of (outcome_doc outcome)) }
{
    match member {
        Some(member) => {
            if member.is_null() {
                return Ok(None);
            }
            Ok(Some(only_place(outcome)?))
        }
        None => Ok(None),
    }
}
