//! The members of each alternative of a schema beside those that hold schemas, which have been read before.
ghost use Rattle.std.specs.Prelude.{◌≡◌, None, Some, IfOk, IfErr, codes, is_some};
ghost use Rattle.std.specs.List.{list_any};
ghost use Rattle.serde_json.specs.Find.{get};
ghost use Rattle.utoipa_base.specs.Choices.{schema_keywords};
ghost use Rattle.serde_json.specs.View.{view};
ghost use Rattle.utoipa_base.specs.Faults.{Refuses};
ghost use Rattle.utoipa_base.specs.Fields.{field};
ghost use Rattle.utoipa_base.specs.Kinds.{schema, array_items, additional_properties as additional_kind, ref_or, list_of, map_of, named, one_of_schema, all_of_schema, any_of_schema, array_schema, object_schema, required, optional, defaulted};
ghost use Rattle.utoipa_base.specs.Reading.{read};
ghost use Rattle.utoipa_base.specs.Refs.{ref_or_doc};
ghost use Rattle.utoipa_base.specs.Tables.{row};
ghost use Rattle.utoipa_base.specs.Views.{boxed, option_of, list_of_docs, map_of_docs};
ghost use Rattle.utoipa_schema.specs.Choice.{ContentSchema, HasContent, may_be_object};
ghost use Rattle.utoipa_schema.specs.Docs.{places_doc, additional_properties_doc, schema_doc, array_items_doc, one_of_doc, all_of_doc, any_of_doc, array_doc, object_doc};

use crate::types::{AdditionalProperties, AllOf, AnyOf, Array, ArrayItems, Object, OneOf, Schema};
use crate::without_schemas::array::{
    array_annotation_rows, array_end_rows, item_limit_rows, read_array_annotations, read_array_end,
    read_item_limits,
};
use crate::without_schemas::combination::{combination_rows, read_combination};
use crate::without_schemas::content::{read_text_content, text_content_rows};
use crate::without_schemas::from_parts;
use crate::without_schemas::object::{
    greatest_limit_rows, least_limit_rows, object_annotation_rows, object_end_rows,
    read_greatest_limits, read_least_limits, read_object_annotations, read_object_end,
};
use serde_json::Value;
use std::alloc::Global;
use std::collections::BTreeMap;
use std::mem;
use utoipa_base::{ReadFault, Readings, RefOr, read_extensions, row_option, row_or_empty};

/// Whether a tree that is no combination and no array may be an object: it names `type`, or none of the schema keywords.
pub(crate) fn may_be_object(tree: &Value) -> bool
    ensures { result ≡ may_be_object (view tree.now) }
{
    tree.get("type").is_some() || !names_keyword(tree)
}

/// Whether the tree has a member by which schemas are told apart.
fn names_keyword(tree: &Value) -> bool
    ensures { result ≡ list_any (λ name. is_some (get name (view tree.now))) schema_keywords }
{
    tree.get("$ref").is_some()
        || tree.get("type").is_some()
        || tree.get("items").is_some()
        || tree.get("oneOf").is_some()
        || tree.get("allOf").is_some()
        || tree.get("anyOf").is_some()
}

/// A schema with `oneOf`, whose schemas have been read.
pub(crate) fn assemble_one_of(
    alloc: Global,
    tree: &Value,
    items: Vec<RefOr<Schema>>,
) -> Result<OneOf, ReadFault>
    ensures ok { IfOk result (λ o. field (row (codes "oneOf") required (list_of (ref_or schema))) (view tree.now)
        ≡ Some (places_doc schema_doc items)
        → read (named one_of_schema) (view tree.now) ≡ Some (one_of_doc o)) }
    ensures err { IfErr result (Refuses (read (named one_of_schema) (view tree.now))) }
    ensures kept { IfOk result (λ o. o.items ≡ items) }
{
    let mut uncounted = Readings::new();
    let combination = read_combination(alloc, tree)?;
    let read_only = row_option(alloc, tree, "readOnly", &mut uncounted)?;
    let title = row_option(alloc, tree, "title", &mut uncounted)?;
    let schema_type = row_or_empty(alloc, tree, "type", &mut uncounted)?;
    let write_only = row_option(alloc, tree, "writeOnly", &mut uncounted)?;
    let extensions = read_extensions(alloc, tree)?;
    Ok(combination_rows!(from_parts!(
        OneOf { items, schema_type, title, read_only, write_only, extensions, } [] combination
    )))
}

/// A schema with `allOf`, whose schemas have been read.
pub(crate) fn assemble_all_of(
    alloc: Global,
    tree: &Value,
    items: Vec<RefOr<Schema>>,
) -> Result<AllOf, ReadFault>
    ensures ok { IfOk result (λ o. field (row (codes "allOf") required (list_of (ref_or schema))) (view tree.now)
        ≡ Some (places_doc schema_doc items)
        → read (named all_of_schema) (view tree.now) ≡ Some (all_of_doc o)) }
    ensures err { IfErr result (Refuses (read (named all_of_schema) (view tree.now))) }
    ensures kept { IfOk result (λ o. o.items ≡ items) }
{
    let mut uncounted = Readings::new();
    let combination = read_combination(alloc, tree)?;
    let title = row_option(alloc, tree, "title", &mut uncounted)?;
    let schema_type = row_or_empty(alloc, tree, "type", &mut uncounted)?;
    let extensions = read_extensions(alloc, tree)?;
    Ok(combination_rows!(from_parts!(
        AllOf { items, schema_type, title, extensions, } [] combination
    )))
}

/// A schema with `anyOf`, whose schemas have been read.
pub(crate) fn assemble_any_of(
    alloc: Global,
    tree: &Value,
    items: Vec<RefOr<Schema>>,
) -> Result<AnyOf, ReadFault>
    ensures ok { IfOk result (λ o. field (row (codes "anyOf") required (list_of (ref_or schema))) (view tree.now)
        ≡ Some (places_doc schema_doc items)
        → read (named any_of_schema) (view tree.now) ≡ Some (any_of_doc o)) }
    ensures err { IfErr result (Refuses (read (named any_of_schema) (view tree.now))) }
    ensures kept { IfOk result (λ o. o.items ≡ items) }
{
    let mut uncounted = Readings::new();
    let combination = read_combination(alloc, tree)?;
    let schema_type = row_or_empty(alloc, tree, "type", &mut uncounted)?;
    let extensions = read_extensions(alloc, tree)?;
    Ok(combination_rows!(from_parts!(
        AnyOf { items, schema_type, extensions, } [] combination
    )))
}

/// An array whose items have been read, with no content schema. With any that the tree has it is the array that the tree is.
// Not inlined: no room is made for an array where a tree has no items, as most have not.
#[inline(never)]
pub(crate) fn assemble_array(
    alloc: Global,
    tree: &Value,
    items: ArrayItems,
    prefix_items: Vec<Schema>,
) -> Result<Array, ReadFault>
    ensures ok { IfOk result (λ a. (content : ContentSchema) → HasContent (view tree.now) content
        → field (row (codes "items") required array_items) (view tree.now) ≡ Some (array_items_doc items)
        → field (row (codes "prefixItems") defaulted (list_of schema)) (view tree.now)
        ≡ Some (list_of_docs schema_doc prefix_items)
        → read (named array_schema) (view tree.now) ≡ Some (array_doc (record a { content_schema = content }))) }
    ensures err { IfErr result (Refuses (read (named array_schema) (view tree.now))) }
    ensures kept { IfOk result (λ a. (a.items ≡ items) × (a.prefix_items ≡ prefix_items) × (a.content_schema ≡ None)) }
{
    let content = read_text_content(alloc, tree)?;
    let annotations = read_array_annotations(alloc, tree)?;
    let limits = read_item_limits(alloc, tree)?;
    let last = read_array_end(alloc, tree)?;
    let extensions = read_extensions(alloc, tree)?;
    Ok(array_end_rows!(from_parts!(
        Array { items, prefix_items, content_schema: None, extensions, }
        [limits item_limit_rows, annotations array_annotation_rows, content text_content_rows,] last
    )))
}

/// An object whose properties have been read, with no content schema. With any that the tree has it is the object that the
/// tree is.
pub(crate) fn assemble_object(
    alloc: Global,
    tree: &Value,
    properties: BTreeMap<String, RefOr<Schema>>,
    additional_properties: Option<Box<AdditionalProperties<Schema>>>,
    property_names: Option<Box<Schema>>,
) -> Result<Object, ReadFault>
    ensures ok { IfOk result (λ o. (content : ContentSchema) → HasContent (view tree.now) content
        → field (row (codes "properties") defaulted (map_of (ref_or schema))) (view tree.now)
        ≡ Some (map_of_docs (ref_or_doc schema schema_doc) properties)
        → field (row (codes "additionalProperties") optional additional_kind) (view tree.now)
        ≡ Some (option_of (boxed (additional_properties_doc schema_doc)) additional_properties)
        → field (row (codes "propertyNames") optional schema) (view tree.now)
        ≡ Some (option_of (boxed schema_doc) property_names)
        → read (named object_schema) (view tree.now) ≡ Some (object_doc (record o { content_schema = content }))) }
    ensures err { IfErr result (Refuses (read (named object_schema) (view tree.now))) }
    ensures kept { IfOk result (λ o. (o.properties ≡ properties) × (o.additional_properties ≡ additional_properties)
        × (o.property_names ≡ property_names) × (o.content_schema ≡ None)) }
{
    if !tree.is_object() {
        return Err(ReadFault::Kind("Object"));
    }
    let content = read_text_content(alloc, tree)?;
    let annotations = read_object_annotations(alloc, tree)?;
    let greatest = read_greatest_limits(alloc, tree)?;
    let least = read_least_limits(alloc, tree)?;
    let last = read_object_end(alloc, tree)?;
    let extensions = read_extensions(alloc, tree)?;
    Ok(object_end_rows!(from_parts!(
        Object { properties, additional_properties, property_names, content_schema: None, extensions, }
        [
            least least_limit_rows, greatest greatest_limit_rows, annotations object_annotation_rows,
            content text_content_rows,
        ] last
    )))
}

/// An array with another content schema.
#[inline(always)]
pub(crate) fn array_with_content_schema(
    mut array: Array,
    content_schema: Option<Box<RefOr<Schema>>>,
) -> Array
    ensures { result ≡ record array { content_schema = content_schema } }
{
    drop(mem::replace(&mut array.content_schema, content_schema));
    array
}

/// An object with another content schema.
#[inline(always)]
pub(crate) fn object_with_content_schema(
    mut object: Object,
    content_schema: Option<Box<RefOr<Schema>>>,
) -> Object
    ensures { result ≡ record object { content_schema = content_schema } }
{
    drop(mem::replace(&mut object.content_schema, content_schema));
    object
}
