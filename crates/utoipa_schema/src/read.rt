//! Reading schemas.
//!
//! Each reader below puts the places of its tree on a stack, as the roots of a walk. The walk finds the places inside, and all are
//! read from the innermost outwards ([`read_places`]), each counted once. What the roots were read as is put together by a
//! function whose name ends in `_from`, which reads the other members. No reader calls itself.
//!
//! Each fails where its tree is not what it reads, and where memory runs out, also for the stack and for the table.
ghost use Rattle.std.specs.Prelude.{◌≡◌, ◌++◌, codes};
ghost use Rattle.serde_json.specs.View.{view};
ghost use Rattle.utoipa_base.specs.Kinds.{schema, array_items, additional_properties as additional_kind, ref_or, list_of, map_of, named, one_of_schema, all_of_schema, any_of_schema, array_schema, object_schema};
ghost use Rattle.utoipa_base.specs.Reading.{read};
ghost use Rattle.utoipa_base.specs.Reads.{Reads};
ghost use Rattle.utoipa_base.specs.Refs.{ref_or_doc};
ghost use Rattle.utoipa_base.specs.Values.{values, values_at};
ghost use Rattle.utoipa_base.specs.Views.{map_of_docs};
ghost use Rattle.utoipa_schema.specs.Docs.{places_doc, additional_properties_doc, schema_doc, array_items_doc, one_of_doc, all_of_doc, any_of_doc, array_doc, object_doc};
ghost use Rattle.utoipa_schema.specs.Outcomes.{all_outcomes, grouped, counts, Fits};
ghost use Rattle.utoipa_schema.specs.Places.{data_of, members_of, of_array, of_object, of_content};

use crate::alternatives::{all_of_from, any_of_from, array_from, object_from, one_of_from};
use crate::assemble::{array_with_content_schema, object_with_content_schema};
use crate::fill::read_places;
use crate::inner_members::{InnerMembers, find_members};
use crate::members::{
    additional_from, content_schema_from, items_from, only_place, only_schema, places_by_name,
    places_in_list,
};
use crate::outcomes::{
    Group, take_alone, take_elements, take_entries, take_last, take_list, take_of_array,
    take_of_object, take_one,
};
use crate::places::{
    SchemaPlace, Standing, push_alone, push_elements, push_entries, push_list, push_of_array,
    push_of_object, push_one,
};
use crate::types::{AdditionalProperties, AllOf, AnyOf, Array, ArrayItems, Object, OneOf, Schema};
use serde_json::Value;
use std::alloc::Global;
use std::collections::BTreeMap;
use utoipa_base::{ReadFault, Readings, RefOr};

/// A schema, where no reference may stand: the first alternative that fits. A tree that fits none is refused as
/// `Alternative`, whatever failed inside.
pub(crate) fn read_schema(
    alloc: Global,
    tree: &Value,
    readings: &mut Readings,
) -> Result<Schema, ReadFault>
    ensures { Reads (read schema (view tree.now)) schema_doc result readings.old readings.new
        (values (view tree.now)) }
{
    let mut roots = Vec::new(alloc);
    roots.push(SchemaPlace {
        tree,
        may_be_reference: false,
        standing: Standing::Alone,
    })?;
    let mut filled = read_places(alloc, roots, readings)?;
    only_schema(take_last(&mut filled))
}

/// A reference, or else a schema. A place is counted once, a reference too.
pub(crate) fn read_ref_or_schema(
    alloc: Global,
    tree: &Value,
    readings: &mut Readings,
) -> Result<RefOr<Schema>, ReadFault>
    ensures { Reads (read (ref_or schema) (view tree.now)) (ref_or_doc schema schema_doc) result
        readings.old readings.new (values (view tree.now)) }
{
    let mut roots = Vec::new(alloc);
    roots.push(SchemaPlace {
        tree,
        may_be_reference: true,
        standing: Standing::Alone,
    })?;
    let mut filled = read_places(alloc, roots, readings)?;
    let place = only_place(take_last(&mut filled))?;
    Ok(Box::into_inner(place))
}

/// A schema with `oneOf`.
pub(crate) fn read_one_of(
    alloc: Global,
    tree: &Value,
    readings: &mut Readings,
) -> Result<OneOf, ReadFault>
    ensures { Reads (read (named one_of_schema) (view tree.now)) one_of_doc result
        readings.old readings.new (values_at (codes "oneOf") (view tree.now)) }
{
    let member = tree.get("oneOf");
    let mut roots = Vec::new(alloc);
    push_list(&mut roots, member, true)?;
    let mut filled = read_places(alloc, roots, readings)?;
    let outcome = take_list(alloc, member, &mut filled);
    one_of_from(alloc, tree, member, outcome)
}

/// A schema with `allOf`.
pub(crate) fn read_all_of(
    alloc: Global,
    tree: &Value,
    readings: &mut Readings,
) -> Result<AllOf, ReadFault>
    ensures { Reads (read (named all_of_schema) (view tree.now)) all_of_doc result
        readings.old readings.new (values_at (codes "allOf") (view tree.now)) }
{
    let member = tree.get("allOf");
    let mut roots = Vec::new(alloc);
    push_list(&mut roots, member, true)?;
    let mut filled = read_places(alloc, roots, readings)?;
    let outcome = take_list(alloc, member, &mut filled);
    all_of_from(alloc, tree, member, outcome)
}

/// A schema with `anyOf`.
pub(crate) fn read_any_of(
    alloc: Global,
    tree: &Value,
    readings: &mut Readings,
) -> Result<AnyOf, ReadFault>
    ensures { Reads (read (named any_of_schema) (view tree.now)) any_of_doc result
        readings.old readings.new (values_at (codes "anyOf") (view tree.now)) }
{
    let member = tree.get("anyOf");
    let mut roots = Vec::new(alloc);
    push_list(&mut roots, member, true)?;
    let mut filled = read_places(alloc, roots, readings)?;
    let outcome = take_list(alloc, member, &mut filled);
    any_of_from(alloc, tree, member, outcome)
}

/// An array, by its whole table.
pub(crate) fn read_array(
    alloc: Global,
    tree: &Value,
    readings: &mut Readings,
) -> Result<Array, ReadFault>
    ensures { Reads (read (named array_schema) (view tree.now)) array_doc result readings.old readings.new
        (values (view tree.now)) }
{
    let members = find_members(tree);
    let mut roots = Vec::new(alloc);
    push_of_array(&mut roots, &members)?;
    push_one(&mut roots, members.content_schema, true)?;
    let filled = read_places(alloc, roots, readings)?;
    whole_array_from(alloc, tree, &members, filled)
}

/// An array with the content schema that it has. Fails where the tree is none.
fn whole_array_from(
    alloc: Global,
    tree: &Value,
    members: &InnerMembers<'_>,
    mut filled: Vec<Group>,
) -> Result<Array, ReadFault>
    requires found { data_of members.now ≡ members_of (view tree.now) }
    requires filled { all_outcomes filled.items
        ≡ grouped (of_array (data_of members.now) ++ of_content (data_of members.now)) }
    ensures { Fits (read (named array_schema) (view tree.now)) array_doc result (counts (all_outcomes filled.items)) }
{
    let in_content = take_one(members.content_schema, &mut filled);
    let in_array = take_of_array(alloc, members, &mut filled);
    let array = array_from(alloc, tree, members, in_array)?;
    let content_schema = content_schema_from(members.content_schema, in_content)?;
    Ok(array_with_content_schema(array, content_schema))
}

/// An object, by its whole table.
pub(crate) fn read_object(
    alloc: Global,
    tree: &Value,
    readings: &mut Readings,
) -> Result<Object, ReadFault>
    ensures { Reads (read (named object_schema) (view tree.now)) object_doc result readings.old readings.new
        (values (view tree.now)) }
{
    let members = find_members(tree);
    let mut roots = Vec::new(alloc);
    push_of_object(&mut roots, &members)?;
    push_one(&mut roots, members.content_schema, true)?;
    let filled = read_places(alloc, roots, readings)?;
    whole_object_from(alloc, tree, &members, filled)
}

/// An object with the content schema that it has. Fails where the tree is none.
fn whole_object_from(
    alloc: Global,
    tree: &Value,
    members: &InnerMembers<'_>,
    mut filled: Vec<Group>,
) -> Result<Object, ReadFault>
    requires found { data_of members.now ≡ members_of (view tree.now) }
    requires filled { all_outcomes filled.items
        ≡ grouped (of_object (data_of members.now) ++ of_content (data_of members.now)) }
    ensures { Fits (read (named object_schema) (view tree.now)) object_doc result
        (counts (all_outcomes filled.items)) }
{
    let in_content = take_one(members.content_schema, &mut filled);
    let in_object = take_of_object(alloc, members, &mut filled);
    let object = object_from(alloc, tree, members, in_object)?;
    let content_schema = content_schema_from(members.content_schema, in_content)?;
    Ok(object_with_content_schema(object, content_schema))
}

/// What the items of an array are: `false`, a reference, or a schema.
pub(crate) fn read_items(
    alloc: Global,
    tree: &Value,
    readings: &mut Readings,
) -> Result<ArrayItems, ReadFault>
    ensures { Reads (read array_items (view tree.now)) array_items_doc result readings.old readings.new
        (values (view tree.now)) }
{
    let mut roots = Vec::new(alloc);
    push_alone(&mut roots, tree, true)?;
    let mut filled = read_places(alloc, roots, readings)?;
    items_from(tree, take_alone(tree, &mut filled))
}

/// What the properties are that an object does not list: true, false, a reference, or a schema.
pub(crate) fn read_additional(
    alloc: Global,
    tree: &Value,
    readings: &mut Readings,
) -> Result<AdditionalProperties<Schema>, ReadFault>
    ensures { Reads (read additional_kind (view tree.now)) (additional_properties_doc schema_doc) result
        readings.old readings.new (values (view tree.now)) }
{
    let mut roots = Vec::new(alloc);
    push_alone(&mut roots, tree, true)?;
    let mut filled = read_places(alloc, roots, readings)?;
    additional_from(tree, take_alone(tree, &mut filled))
}

/// A list of references and schemas.
pub(crate) fn read_ref_or_schema_list(
    alloc: Global,
    tree: &Value,
    readings: &mut Readings,
) -> Result<Vec<RefOr<Schema>>, ReadFault>
    ensures { Reads (read (list_of (ref_or schema)) (view tree.now)) (places_doc schema_doc) result
        readings.old readings.new (values (view tree.now)) }
{
    let mut roots = Vec::new(alloc);
    push_elements(&mut roots, tree, true)?;
    let mut filled = read_places(alloc, roots, readings)?;
    places_in_list(tree, take_elements(alloc, tree, &mut filled))
}

/// References and schemas by their names.
pub(crate) fn read_ref_or_schema_map(
    alloc: Global,
    tree: &Value,
    readings: &mut Readings,
) -> Result<BTreeMap<String, RefOr<Schema>>, ReadFault>
    ensures { Reads (read (map_of (ref_or schema)) (view tree.now)) (map_of_docs (ref_or_doc schema schema_doc)) result
        readings.old readings.new (values (view tree.now)) }
{
    let mut roots = Vec::new(alloc);
    push_entries(&mut roots, tree, true)?;
    let mut filled = read_places(alloc, roots, readings)?;
    places_by_name(tree, take_entries(alloc, tree, &mut filled))
}
