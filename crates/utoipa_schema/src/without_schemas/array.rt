//! The members of an [`Array`] that hold no schema.
ghost use Rattle.std.specs.Prelude.{◌≡◌, Some, IfOk, IfErr};
ghost use Rattle.serde_json.specs.View.{view};
ghost use Rattle.utoipa_base.specs.Docs.{list_doc};
ghost use Rattle.utoipa_base.specs.Faults.{Refuses};
ghost use Rattle.utoipa_base.specs.Rows.{part};
ghost use Rattle.utoipa_schema.specs.Parts.{annotations_of_array, item_limits_of_array, end_of_array, array_annotation_rows, array_annotation_docs, item_limit_rows, item_limit_docs, array_end_rows, array_end_docs};

use crate::types::Array;
use crate::without_schemas::read_part;
use serde_json::Value;
use std::alloc::{AllocError, Global};
use utoipa_base::{Deprecated, ReadFault, Tree, clone_table_alone, from_fields_alone, row_names};
use utoipa_schema_parts::{SchemaType, Xml};

// The rows of the members of an array from `default` to `examples`: mark, member, field.
macro_rules! array_annotation_rows {
    ($lines:ident!($($arguments:tt)*)) => {
        $lines! {
            $($arguments)*;
            optional "default" default,
            optional "deprecated" deprecated,
            optional "description" description,
            optional "example" example,
            defaulted "examples" examples,
        }
    };
}

pub(crate) use array_annotation_rows;

/// The members of an [`Array`](crate::Array) from `default` to `examples`.
#[derive(Drop)]
pub(crate) struct ArrayAnnotations {
    /// The value that is taken where there is none.
    pub(crate) default: Option<Value>,
    /// Whether the value should no longer be used.
    pub(crate) deprecated: Option<Deprecated>,
    /// A description of the schema.
    pub(crate) description: Option<String>,
    /// An example of the value.
    pub(crate) example: Option<Value>,
    /// Examples of the value.
    pub(crate) examples: Vec<Value>,
}

/// Reads an [`ArrayAnnotations`] from a tree. The tree is refused where one of the members is not of its kind.
pub(crate) fn read_array_annotations(
    alloc: Global,
    tree: &Value,
) -> Result<ArrayAnnotations, ReadFault>
    ensures ok { IfOk result (λ a. part array_annotation_rows (view tree.now)
        ≡ Some (list_doc (array_annotation_docs a))) }
    ensures err { IfErr result (Refuses (part array_annotation_rows (view tree.now))) }
{
    let fields = read_part(alloc, tree, array_annotation_rows!(row_names!()))?;
    Ok(array_annotation_rows!(from_fields_alone!(ArrayAnnotations, fields)))
}

/// Copies the members of an [`ArrayAnnotations`]. Fails where memory runs out.
pub(crate) fn clone_array_annotations(
    alloc: Global,
    array: &Array,
) -> Result<ArrayAnnotations, AllocError>
    ensures { IfOk result (λ copy. array_annotation_docs copy
        ≡ array_annotation_docs (annotations_of_array array.now)) }
{
    array_annotation_rows!(clone_table_alone!(ArrayAnnotations, array, alloc))
}

// The rows of the members of an array that limit its items: mark, member, field.
macro_rules! item_limit_rows {
    ($lines:ident!($($arguments:tt)*)) => {
        $lines! {
            $($arguments)*;
            optional "maxItems" max_items,
            optional "minItems" min_items,
        }
    };
}

pub(crate) use item_limit_rows;

/// The members of an [`Array`](crate::Array) that limit its items.
#[derive(Drop)]
pub(crate) struct ItemLimits {
    /// The greatest number of items.
    pub(crate) max_items: Option<usize>,
    /// The least number of items.
    pub(crate) min_items: Option<usize>,
}

/// Reads an [`ItemLimits`] from a tree. The tree is refused where one of the members is not of its kind.
pub(crate) fn read_item_limits(alloc: Global, tree: &Value) -> Result<ItemLimits, ReadFault>
    ensures ok { IfOk result (λ i. part item_limit_rows (view tree.now) ≡ Some (list_doc (item_limit_docs i))) }
    ensures err { IfErr result (Refuses (part item_limit_rows (view tree.now))) }
{
    let fields = read_part(alloc, tree, item_limit_rows!(row_names!()))?;
    Ok(item_limit_rows!(from_fields_alone!(ItemLimits, fields)))
}

/// Copies the members of an [`ItemLimits`]. Fails where memory runs out.
pub(crate) fn clone_item_limits(alloc: Global, array: &Array) -> Result<ItemLimits, AllocError>
    ensures { IfOk result (λ copy. item_limit_docs copy ≡ item_limit_docs (item_limits_of_array array.now)) }
{
    item_limit_rows!(clone_table_alone!(ItemLimits, array, alloc))
}

// The rows of the members of an array from `title` on: mark, member, field.
macro_rules! array_end_rows {
    ($lines:ident!($($arguments:tt)*)) => {
        $lines! {
            $($arguments)*;
            optional "title" title,
            required "type" schema_type,
            defaulted "uniqueItems" unique_items,
            optional "xml" xml,
        }
    };
}

pub(crate) use array_end_rows;

/// The members of an [`Array`](crate::Array) from `title` on.
#[derive(Drop)]
pub(crate) struct ArrayEnd {
    /// A title of the schema.
    pub(crate) title: Option<String>,
    /// The types of the value.
    pub(crate) schema_type: SchemaType,
    /// Whether no two items may be equal.
    pub(crate) unique_items: bool,
    /// How the value is written in XML.
    pub(crate) xml: Option<Xml>,
}

/// Reads an [`ArrayEnd`] from a tree. The tree is refused where `type` is absent or one of the members is not of its kind.
pub(crate) fn read_array_end(alloc: Global, tree: &Value) -> Result<ArrayEnd, ReadFault>
    ensures ok { IfOk result (λ a. part array_end_rows (view tree.now) ≡ Some (list_doc (array_end_docs a))) }
    ensures err { IfErr result (Refuses (part array_end_rows (view tree.now))) }
{
    let fields = read_part(alloc, tree, array_end_rows!(row_names!()))?;
    Ok(array_end_rows!(from_fields_alone!(ArrayEnd, fields)))
}

/// Copies the members of an [`ArrayEnd`]. Fails where memory runs out.
pub(crate) fn clone_array_end(alloc: Global, array: &Array) -> Result<ArrayEnd, AllocError>
    ensures { IfOk result (λ copy. array_end_docs copy ≡ array_end_docs (end_of_array array.now)) }
{
    array_end_rows!(clone_table_alone!(ArrayEnd, array, alloc))
}
