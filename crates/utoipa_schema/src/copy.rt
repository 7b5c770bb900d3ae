//! Copying schemas, which hold each other.
//!
//! The functions of the cycle copy what holds schemas; each alternative of a schema is put together, with the members that
//! hold none, outside of it.
ghost use Rattle.std.specs.Prelude.{◌≡◌, IfOk};
ghost use Rattle.utoipa_base.specs.Kinds.{schema};
ghost use Rattle.utoipa_base.specs.Refs.{ref_or_doc};
ghost use Rattle.utoipa_base.specs.Views.{boxed, option_of, list_of_docs, map_of_docs};
ghost use Rattle.utoipa_schema.specs.Choice.{content_schema_doc};
ghost use Rattle.utoipa_schema.specs.Docs.{places_doc, additional_properties_doc, schema_doc, array_items_doc, one_of_doc, all_of_doc, any_of_doc, array_doc, object_doc};

use crate::types::{AdditionalProperties, AllOf, AnyOf, Array, ArrayItems, Object, OneOf, Schema};
use crate::without_schemas::array::{clone_array_annotations, clone_array_end, clone_item_limits};
use crate::without_schemas::combination::clone_combination;
use crate::without_schemas::content::clone_text_content;
use crate::without_schemas::object::{ObjectParts, clone_object_parts};
use std::alloc::{AllocError, Global};
use std::collections::BTreeMap;
use utoipa_base::{RefOr, Tree, beside, clone_extensions, clone_option};

/// Copies a schema. Fails where memory runs out.
#[cycle(copy)]
pub(crate) fn clone_schema(alloc: Global, schema: &Schema) -> Result<Schema, AllocError>
    ensures { IfOk result (λ copy. schema_doc copy ≡ schema_doc schema.now) }
{
    match schema {
        Schema::Array(array) => Ok(Schema::Array(clone_array(alloc, array)?)),
        Schema::Object(object) => Ok(Schema::Object(clone_object(alloc, object)?)),
        Schema::OneOf(one_of) => Ok(Schema::OneOf(clone_one_of(alloc, one_of)?)),
        Schema::AllOf(all_of) => Ok(Schema::AllOf(clone_all_of(alloc, all_of)?)),
        Schema::AnyOf(any_of) => Ok(Schema::AnyOf(clone_any_of(alloc, any_of)?)),
    }
}

/// Copies a reference, or a schema in its place. Fails where memory runs out.
#[cycle(copy)]
pub(crate) fn clone_ref_or_schema(
    alloc: Global,
    place: &RefOr<Schema>,
) -> Result<RefOr<Schema>, AllocError>
    ensures { IfOk result (λ copy. ref_or_doc schema schema_doc copy ≡ ref_or_doc schema schema_doc place.now) }
{
    match place {
        RefOr::Ref(reference) => Ok(RefOr::Ref(reference.try_clone(alloc)?)),
        RefOr::T(value) => Ok(RefOr::T(clone_schema(alloc, value)?)),
    }
}

/// Copies what the items of an array are. Fails where memory runs out.
#[cycle(copy)]
pub(crate) fn clone_items(alloc: Global, items: &ArrayItems) -> Result<ArrayItems, AllocError>
    ensures { IfOk result (λ copy. array_items_doc copy ≡ array_items_doc items.now) }
{
    match items {
        ArrayItems::RefOrSchema(place) => {
            let copied = clone_ref_or_schema(alloc, place)?;
            Ok(ArrayItems::RefOrSchema(Box::new(alloc, copied)?))
        }
        ArrayItems::False => Ok(ArrayItems::False),
    }
}

/// Copies what the properties are that an object does not list. Fails where memory runs out.
#[cycle(copy)]
pub(crate) fn clone_additional(
    alloc: Global,
    additional: &AdditionalProperties<Schema>,
) -> Result<AdditionalProperties<Schema>, AllocError>
    ensures { IfOk result (λ copy. additional_properties_doc schema_doc copy
        ≡ additional_properties_doc schema_doc additional.now) }
{
    match additional {
        AdditionalProperties::RefOr(place) => {
            Ok(AdditionalProperties::RefOr(clone_ref_or_schema(alloc, place)?))
        }
        AdditionalProperties::FreeForm(free) => Ok(AdditionalProperties::FreeForm(*free)),
    }
}

/// Copies a list of schemas.
#[cycle(copy)]
fn clone_schemas(alloc: Global, schemas: &Vec<Schema>) -> Result<Vec<Schema>, AllocError>
    ensures { IfOk result (λ copy. list_of_docs schema_doc copy ≡ list_of_docs schema_doc schemas.now) }
{
    let mut list = Vec::new(alloc);
    for item in schemas {
        list.push(clone_schema(alloc, item)?)?;
    }
    Ok(list)
}

/// Copies a list of references and schemas.
#[cycle(copy)]
fn clone_ref_or_schema_list(
    alloc: Global,
    places: &Vec<RefOr<Schema>>,
) -> Result<Vec<RefOr<Schema>>, AllocError>
    ensures { IfOk result (λ copy. places_doc schema_doc copy ≡ places_doc schema_doc places.now) }
{
    let mut list = Vec::new(alloc);
    for item in places {
        list.push(clone_ref_or_schema(alloc, item)?)?;
    }
    Ok(list)
}

/// Copies references and schemas with their names.
#[cycle(copy)]
fn clone_ref_or_schema_map(
    alloc: Global,
    properties: &BTreeMap<String, RefOr<Schema>>,
) -> Result<BTreeMap<String, RefOr<Schema>>, AllocError>
    ensures { IfOk result (λ copy. map_of_docs (ref_or_doc schema schema_doc) copy
        ≡ map_of_docs (ref_or_doc schema schema_doc) properties.now) }
{
    let mut map = BTreeMap::new(alloc);
    for (key, member) in properties.iter() {
        let name = key.clone()?;
        let value = clone_ref_or_schema(alloc, member)?;
        drop(map.insert(name, value)?);
    }
    Ok(map)
}

/// Copies the schema of a text's content.
#[cycle(copy)]
fn clone_content_schema(
    alloc: Global,
    content: &Option<Box<RefOr<Schema>>>,
) -> Result<Option<Box<RefOr<Schema>>>, AllocError>
    ensures { IfOk result (λ copy. content_schema_doc copy ≡ content_schema_doc content.now) }
{
    match content {
        Some(place) => {
            let copied = clone_ref_or_schema(alloc, place)?;
            Ok(Some(Box::new(alloc, copied)?))
        }
        None => Ok(None),
    }
}

/// Copies what the other properties are, if it is said.
#[cycle(copy)]
fn clone_additional_properties(
    alloc: Global,
    member: &Option<Box<AdditionalProperties<Schema>>>,
) -> Result<Option<Box<AdditionalProperties<Schema>>>, AllocError>
    ensures { IfOk result (λ copy. option_of (boxed (additional_properties_doc schema_doc)) copy
        ≡ option_of (boxed (additional_properties_doc schema_doc)) member.now) }
{
    match member {
        Some(additional) => {
            let copied = clone_additional(alloc, additional)?;
            Ok(Some(Box::new(alloc, copied)?))
        }
        None => Ok(None),
    }
}

/// Copies what the names of properties are, if it is said.
#[cycle(copy)]
fn clone_property_names(
    alloc: Global,
    member: &Option<Box<Schema>>,
) -> Result<Option<Box<Schema>>, AllocError>
    ensures { IfOk result (λ copy. option_of (boxed schema_doc) copy ≡ option_of (boxed schema_doc) member.now) }
{
    match member {
        Some(value) => {
            let copied = clone_schema(alloc, value)?;
            Ok(Some(Box::new(alloc, copied)?))
        }
        None => Ok(None),
    }
}

/// Copies a schema with `oneOf`. Fails where memory runs out.
#[cycle(copy)]
pub(crate) fn clone_one_of(alloc: Global, one_of: &OneOf) -> Result<OneOf, AllocError>
    ensures { IfOk result (λ copy. one_of_doc copy ≡ one_of_doc one_of.now) }
{
    let items = clone_ref_or_schema_list(alloc, &one_of.items)?;
    clone_one_of_with(alloc, one_of, items)
}

/// Copies a schema with `allOf`. Fails where memory runs out.
#[cycle(copy)]
pub(crate) fn clone_all_of(alloc: Global, all_of: &AllOf) -> Result<AllOf, AllocError>
    ensures { IfOk result (λ copy. all_of_doc copy ≡ all_of_doc all_of.now) }
{
    let items = clone_ref_or_schema_list(alloc, &all_of.items)?;
    clone_all_of_with(alloc, all_of, items)
}

/// Copies a schema with `anyOf`. Fails where memory runs out.
#[cycle(copy)]
pub(crate) fn clone_any_of(alloc: Global, any_of: &AnyOf) -> Result<AnyOf, AllocError>
    ensures { IfOk result (λ copy. any_of_doc copy ≡ any_of_doc any_of.now) }
{
    let items = clone_ref_or_schema_list(alloc, &any_of.items)?;
    clone_any_of_with(alloc, any_of, items)
}

/// Copies an array. Fails where memory runs out.
#[cycle(copy)]
pub(crate) fn clone_array(alloc: Global, array: &Array) -> Result<Array, AllocError>
    ensures { IfOk result (λ copy. array_doc copy ≡ array_doc array.now) }
{
    let items = clone_items(alloc, &array.items)?;
    let prefix_items = clone_schemas(alloc, &array.prefix_items)?;
    let content_schema = clone_content_schema(alloc, &array.content_schema)?;
    clone_array_with(alloc, array, items, prefix_items, content_schema)
}

/// Copies an object. Fails where memory runs out.
#[cycle(copy)]
pub(crate) fn clone_object(alloc: Global, object: &Object) -> Result<Object, AllocError>
    ensures { IfOk result (λ copy. object_doc copy ≡ object_doc object.now) }
{
    let properties = clone_ref_or_schema_map(alloc, &object.properties)?;
    let additional_properties = clone_additional_properties(alloc, &object.additional_properties)?;
    let property_names = clone_property_names(alloc, &object.property_names)?;
    let content_schema = clone_content_schema(alloc, &object.content_schema)?;
    clone_object_with(
        alloc,
        object,
        properties,
        additional_properties,
        property_names,
        content_schema,
    )
}

/// Copies a schema with `oneOf`, whose schemas have been copied.
fn clone_one_of_with(
    alloc: Global,
    one_of: &OneOf,
    items: Vec<RefOr<Schema>>,
) -> Result<OneOf, AllocError>
    ensures { IfOk result (λ copy. places_doc schema_doc items ≡ places_doc schema_doc one_of.now.items
        → one_of_doc copy ≡ one_of_doc one_of.now) }
{
    let schema_type = one_of.schema_type.try_clone(alloc)?;
    let title = clone_option(alloc, &one_of.title)?;
    let combination = clone_combination(
        alloc,
        &one_of.description,
        &one_of.default,
        &one_of.example,
        &one_of.examples,
        &one_of.discriminator,
    )?;
    let read_only = clone_option(alloc, &one_of.read_only)?;
    let write_only = clone_option(alloc, &one_of.write_only)?;
    let extensions = clone_extensions(alloc, &one_of.extensions)?;
    Ok(OneOf {
        items,
        schema_type,
        title,
        description: combination.description,
        default: combination.default,
        example: combination.example,
        examples: combination.examples,
        discriminator: combination.discriminator,
        read_only,
        write_only,
        extensions,
    })
}

/// Copies a schema with `allOf`, whose schemas have been copied.
fn clone_all_of_with(
    alloc: Global,
    all_of: &AllOf,
    items: Vec<RefOr<Schema>>,
) -> Result<AllOf, AllocError>
    ensures { IfOk result (λ copy. places_doc schema_doc items ≡ places_doc schema_doc all_of.now.items
        → all_of_doc copy ≡ all_of_doc all_of.now) }
{
    let schema_type = all_of.schema_type.try_clone(alloc)?;
    let title = clone_option(alloc, &all_of.title)?;
    let combination = clone_combination(
        alloc,
        &all_of.description,
        &all_of.default,
        &all_of.example,
        &all_of.examples,
        &all_of.discriminator,
    )?;
    let extensions = clone_extensions(alloc, &all_of.extensions)?;
    Ok(AllOf {
        items,
        schema_type,
        title,
        description: combination.description,
        default: combination.default,
        example: combination.example,
        examples: combination.examples,
        discriminator: combination.discriminator,
        extensions,
    })
}

/// Copies a schema with `anyOf`, whose schemas have been copied.
fn clone_any_of_with(
    alloc: Global,
    any_of: &AnyOf,
    items: Vec<RefOr<Schema>>,
) -> Result<AnyOf, AllocError>
    ensures { IfOk result (λ copy. places_doc schema_doc items ≡ places_doc schema_doc any_of.now.items
        → any_of_doc copy ≡ any_of_doc any_of.now) }
{
    let schema_type = any_of.schema_type.try_clone(alloc)?;
    let combination = clone_combination(
        alloc,
        &any_of.description,
        &any_of.default,
        &any_of.example,
        &any_of.examples,
        &any_of.discriminator,
    )?;
    let extensions = clone_extensions(alloc, &any_of.extensions)?;
    Ok(AnyOf {
        items,
        schema_type,
        description: combination.description,
        default: combination.default,
        example: combination.example,
        examples: combination.examples,
        discriminator: combination.discriminator,
        extensions,
    })
}

/// Copies an array, whose members that hold schemas have been copied.
fn clone_array_with(
    alloc: Global,
    array: &Array,
    items: ArrayItems,
    prefix_items: Vec<Schema>,
    content_schema: Option<Box<RefOr<Schema>>>,
) -> Result<Array, AllocError>
    ensures { IfOk result (λ copy. array_items_doc items ≡ array_items_doc array.now.items
        → list_of_docs schema_doc prefix_items ≡ list_of_docs schema_doc array.now.prefix_items
        → content_schema_doc content_schema ≡ content_schema_doc array.now.content_schema
        → array_doc copy ≡ array_doc array.now) }
{
    let content = clone_text_content(alloc, &array.content_encoding, &array.content_media_type)?;
    let annotations = clone_array_annotations(alloc, array)?;
    let limits = clone_item_limits(alloc, array)?;
    let last = clone_array_end(alloc, array)?;
    let extensions = clone_extensions(alloc, &array.extensions)?;
    Ok(Array {
        schema_type: last.schema_type,
        title: last.title,
        items,
        prefix_items,
        description: annotations.description,
        deprecated: annotations.deprecated,
        example: annotations.example,
        examples: annotations.examples,
        default: annotations.default,
        max_items: limits.max_items,
        min_items: limits.min_items,
        unique_items: last.unique_items,
        xml: last.xml,
        content_encoding: content.content_encoding,
        content_media_type: content.content_media_type,
        content_schema,
        extensions,
    })
}

/// Copies an object, whose members that hold schemas have been copied.
fn clone_object_with(
    alloc: Global,
    object: &Object,
    properties: BTreeMap<String, RefOr<Schema>>,
    additional_properties: Option<Box<AdditionalProperties<Schema>>>,
    property_names: Option<Box<Schema>>,
    content_schema: Option<Box<RefOr<Schema>>>,
) -> Result<Object, AllocError>
    ensures { IfOk result (λ copy. map_of_docs (ref_or_doc schema schema_doc) properties
        ≡ map_of_docs (ref_or_doc schema schema_doc) object.now.properties
        → option_of (boxed (additional_properties_doc schema_doc)) additional_properties
        ≡ option_of (boxed (additional_properties_doc schema_doc)) object.now.additional_properties
        → option_of (boxed schema_doc) property_names ≡ option_of (boxed schema_doc) object.now.property_names
        → content_schema_doc content_schema ≡ content_schema_doc object.now.content_schema
        → object_doc copy ≡ object_doc object.now) }
{
    let schemas = (
        properties,
        additional_properties,
        property_names,
        content_schema,
    );
    let (schemas, parts) = beside(schemas, clone_object_parts(alloc, object))?;
    let (properties, additional_properties, property_names, content_schema) = schemas;
    let ObjectParts {
        content,
        annotations,
        greatest,
        least,
        last,
        extensions,
    } = parts;
    Ok(Object {
        schema_type: last.schema_type,
        title: last.title,
        format: greatest.format,
        description: annotations.description,
        default: annotations.default,
        enum_values: annotations.enum_values,
        required: last.required,
        properties,
        additional_properties,
        property_names,
        deprecated: annotations.deprecated,
        example: annotations.example,
        examples: annotations.examples,
        write_only: last.write_only,
        read_only: last.read_only,
        xml: last.xml,
        multiple_of: least.multiple_of,
        maximum: greatest.maximum,
        minimum: least.minimum,
        exclusive_maximum: greatest.exclusive_maximum,
        exclusive_minimum: greatest.exclusive_minimum,
        max_length: greatest.max_length,
        min_length: least.min_length,
        pattern: least.pattern,
        max_properties: greatest.max_properties,
        min_properties: least.min_properties,
        content_encoding: content.content_encoding,
        content_media_type: content.content_media_type,
        content_schema,
        extensions,
    })
}
