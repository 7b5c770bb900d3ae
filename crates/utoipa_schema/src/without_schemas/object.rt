//! The members of an [`Object`] that hold no schema.
ghost use Rattle.std.specs.Prelude.{◌≡◌, Some, IfOk, IfErr};
ghost use Rattle.serde_json.specs.View.{view};
ghost use Rattle.utoipa_base.specs.Docs.{list_doc};
ghost use Rattle.utoipa_base.specs.Faults.{Refuses};
ghost use Rattle.utoipa_base.specs.Rows.{part};
ghost use Rattle.utoipa_schema.specs.Parts.{annotations_of_object, greatest_limits_of_object, least_limits_of_object, end_of_object, object_annotation_rows, object_annotation_docs, greatest_limit_rows, greatest_limit_docs, least_limit_rows, least_limit_docs, object_end_rows, object_end_docs, IsCopyOfParts};

use crate::types::Object;
use crate::without_schemas::content::{TextContent, clone_text_content};
use crate::without_schemas::read_part;
use serde_json::Value;
use std::alloc::{AllocError, Global};
use utoipa_base::{
    Deprecated, Extensions, Number, ReadFault, Tree, clone_extensions, clone_table_alone,
    from_fields_alone, row_names,
};
use utoipa_schema_parts::{SchemaFormat, SchemaType, Xml};

// The rows of the members of an object from `default` to `examples`: mark, member, field.
macro_rules! object_annotation_rows {
    ($lines:ident!($($arguments:tt)*)) => {
        $lines! {
            $($arguments)*;
            optional "default" default,
            optional "deprecated" deprecated,
            optional "description" description,
            optional "enum" enum_values,
            optional "example" example,
            defaulted "examples" examples,
        }
    };
}

pub(crate) use object_annotation_rows;

/// The members of an [`Object`](crate::Object) from `default` to `examples`.
#[derive(Drop)]
pub(crate) struct ObjectAnnotations {
    /// The value that is taken where there is none.
    pub(crate) default: Option<Value>,
    /// Whether the value should no longer be used.
    pub(crate) deprecated: Option<Deprecated>,
    /// A description of the schema.
    pub(crate) description: Option<String>,
    /// The values that are allowed.
    pub(crate) enum_values: Option<Vec<Value>>,
    /// An example of the value.
    pub(crate) example: Option<Value>,
    /// Examples of the value.
    pub(crate) examples: Vec<Value>,
}

/// Reads an [`ObjectAnnotations`] from a tree. The tree is refused where one of the members is not of its kind.
pub(crate) fn read_object_annotations(
    alloc: Global,
    tree: &Value,
) -> Result<ObjectAnnotations, ReadFault>
    ensures ok { IfOk result (λ o. part object_annotation_rows (view tree.now)
        ≡ Some (list_doc (object_annotation_docs o))) }
    ensures err { IfErr result (Refuses (part object_annotation_rows (view tree.now))) }
{
    let fields = read_part(alloc, tree, object_annotation_rows!(row_names!()))?;
    Ok(object_annotation_rows!(from_fields_alone!(ObjectAnnotations, fields)))
}

/// Copies the members of an [`ObjectAnnotations`]. Fails where memory runs out.
pub(crate) fn clone_object_annotations(
    alloc: Global,
    object: &Object,
) -> Result<ObjectAnnotations, AllocError>
    ensures { IfOk result (λ copy. object_annotation_docs copy
        ≡ object_annotation_docs (annotations_of_object object.now)) }
{
    object_annotation_rows!(clone_table_alone!(ObjectAnnotations, object, alloc))
}

// The rows of the members of an object from `exclusiveMaximum` to `maximum`: mark, member, field.
macro_rules! greatest_limit_rows {
    ($lines:ident!($($arguments:tt)*)) => {
        $lines! {
            $($arguments)*;
            optional "exclusiveMaximum" exclusive_maximum,
            optional "exclusiveMinimum" exclusive_minimum,
            optional "format" format,
            optional "maxLength" max_length,
            optional "maxProperties" max_properties,
            optional "maximum" maximum,
        }
    };
}

pub(crate) use greatest_limit_rows;

/// The members of an [`Object`](crate::Object) from `exclusiveMaximum` to `maximum`.
#[derive(Drop)]
pub(crate) struct GreatestLimits {
    /// The number that the value has to be less than.
    pub(crate) exclusive_maximum: Option<Number>,
    /// The number that the value has to be greater than.
    pub(crate) exclusive_minimum: Option<Number>,
    /// The format of the value.
    pub(crate) format: Option<SchemaFormat>,
    /// The greatest length of a text.
    pub(crate) max_length: Option<usize>,
    /// The greatest number of properties.
    pub(crate) max_properties: Option<usize>,
    /// The greatest number that is allowed.
    pub(crate) maximum: Option<Number>,
}

/// Reads a [`GreatestLimits`] from a tree. The tree is refused where one of the members is not of its kind.
pub(crate) fn read_greatest_limits(alloc: Global, tree: &Value) -> Result<GreatestLimits, ReadFault>
    ensures ok { IfOk result (λ g. part greatest_limit_rows (view tree.now)
        ≡ Some (list_doc (greatest_limit_docs g))) }
    ensures err { IfErr result (Refuses (part greatest_limit_rows (view tree.now))) }
{
    let fields = read_part(alloc, tree, greatest_limit_rows!(row_names!()))?;
    Ok(greatest_limit_rows!(from_fields_alone!(GreatestLimits, fields)))
}

/// Copies the members of a [`GreatestLimits`]. Fails where memory runs out.
pub(crate) fn clone_greatest_limits(
    alloc: Global,
    object: &Object,
) -> Result<GreatestLimits, AllocError>
    ensures { IfOk result (λ copy. greatest_limit_docs copy
        ≡ greatest_limit_docs (greatest_limits_of_object object.now)) }
{
    greatest_limit_rows!(clone_table_alone!(GreatestLimits, object, alloc))
}

// The rows of the members of an object from `minLength` to `pattern`: mark, member, field.
macro_rules! least_limit_rows {
    ($lines:ident!($($arguments:tt)*)) => {
        $lines! {
            $($arguments)*;
            optional "minLength" min_length,
            optional "minProperties" min_properties,
            optional "minimum" minimum,
            optional "multipleOf" multiple_of,
            optional "pattern" pattern,
        }
    };
}

pub(crate) use least_limit_rows;

/// The members of an [`Object`](crate::Object) from `minLength` to `pattern`.
#[derive(Drop)]
pub(crate) struct LeastLimits {
    /// The least length of a text.
    pub(crate) min_length: Option<usize>,
    /// The least number of properties.
    pub(crate) min_properties: Option<usize>,
    /// The least number that is allowed.
    pub(crate) minimum: Option<Number>,
    /// The number that the value has to be a multiple of.
    pub(crate) multiple_of: Option<Number>,
    /// The regular expression that a text has to match somewhere.
    pub(crate) pattern: Option<String>,
}

/// Reads a [`LeastLimits`] from a tree. The tree is refused where one of the members is not of its kind.
pub(crate) fn read_least_limits(alloc: Global, tree: &Value) -> Result<LeastLimits, ReadFault>
    ensures ok { IfOk result (λ l. part least_limit_rows (view tree.now) ≡ Some (list_doc (least_limit_docs l))) }
    ensures err { IfErr result (Refuses (part least_limit_rows (view tree.now))) }
{
    let fields = read_part(alloc, tree, least_limit_rows!(row_names!()))?;
    Ok(least_limit_rows!(from_fields_alone!(LeastLimits, fields)))
}

/// Copies the members of a [`LeastLimits`]. Fails where memory runs out.
pub(crate) fn clone_least_limits(alloc: Global, object: &Object) -> Result<LeastLimits, AllocError>
    ensures { IfOk result (λ copy. least_limit_docs copy ≡ least_limit_docs (least_limits_of_object object.now)) }
{
    least_limit_rows!(clone_table_alone!(LeastLimits, object, alloc))
}

// The rows of the members of an object from `readOnly` on: mark, member, field.
macro_rules! object_end_rows {
    ($lines:ident!($($arguments:tt)*)) => {
        $lines! {
            $($arguments)*;
            optional "readOnly" read_only,
            defaulted "required" required,
            optional "title" title,
            defaulted "type" schema_type,
            optional "writeOnly" write_only,
            optional "xml" xml,
        }
    };
}

pub(crate) use object_end_rows;

/// The members of an [`Object`](crate::Object) from `readOnly` on.
#[derive(Drop)]
pub(crate) struct ObjectEnd {
    /// Whether the value is only sent by the server.
    pub(crate) read_only: Option<bool>,
    /// The names of the properties that have to be there.
    pub(crate) required: Vec<String>,
    /// A title of the schema.
    pub(crate) title: Option<String>,
    /// The types of the value.
    pub(crate) schema_type: SchemaType,
    /// Whether the value is only sent to the server.
    pub(crate) write_only: Option<bool>,
    /// How the value is written in XML.
    pub(crate) xml: Option<Xml>,
}

/// Reads an [`ObjectEnd`] from a tree. The tree is refused where one of the members is not of its kind.
pub(crate) fn read_object_end(alloc: Global, tree: &Value) -> Result<ObjectEnd, ReadFault>
    ensures ok { IfOk result (λ o. part object_end_rows (view tree.now) ≡ Some (list_doc (object_end_docs o))) }
    ensures err { IfErr result (Refuses (part object_end_rows (view tree.now))) }
{
    let fields = read_part(alloc, tree, object_end_rows!(row_names!()))?;
    Ok(object_end_rows!(from_fields_alone!(ObjectEnd, fields)))
}

/// Copies the members of an [`ObjectEnd`]. Fails where memory runs out.
pub(crate) fn clone_object_end(alloc: Global, object: &Object) -> Result<ObjectEnd, AllocError>
    ensures { IfOk result (λ copy. object_end_docs copy ≡ object_end_docs (end_of_object object.now)) }
{
    object_end_rows!(clone_table_alone!(ObjectEnd, object, alloc))
}

/// The members of an [`Object`](crate::Object) that hold no schema, in parts, and its extensions, as they are
/// copied.
#[derive(Drop)]
pub(crate) struct ObjectParts {
    /// What a text holds, but for `contentSchema`.
    pub(crate) content: TextContent,
    /// The members from `default` to `examples`.
    pub(crate) annotations: ObjectAnnotations,
    /// The members from `exclusiveMaximum` to `maximum`.
    pub(crate) greatest: GreatestLimits,
    /// The members from `minLength` to `pattern`.
    pub(crate) least: LeastLimits,
    /// The members from `readOnly` on.
    pub(crate) last: ObjectEnd,
    /// Specification extensions.
    pub(crate) extensions: Option<Extensions>,
}

/// Copies the members of an [`ObjectParts`]. Fails where memory runs out.
pub(crate) fn clone_object_parts(alloc: Global, object: &Object) -> Result<ObjectParts, AllocError>
    ensures { IfOk result (IsCopyOfParts object.now) }
{
    // In an order in which little is let go where a later part fails.
    let greatest = clone_greatest_limits(alloc, object)?;
    let least = clone_least_limits(alloc, object)?;
    let content = clone_text_content(alloc, &object.content_encoding, &object.content_media_type)?;
    let annotations = clone_object_annotations(alloc, object)?;
    let extensions = clone_extensions(alloc, &object.extensions)?;
    let last = clone_object_end(alloc, object)?;
    Ok(ObjectParts {
        content,
        annotations,
        greatest,
        least,
        last,
        extensions,
    })
}
