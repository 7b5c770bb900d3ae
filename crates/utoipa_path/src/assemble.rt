//! The members of operations and path items beside those that hold these themselves, which have been read before.
//!
//! No `assemble_` function is inlined: its room is not to stand on the stack while the values inside are read. Each goes on
//! from the reading of those members, before which the counter stood at `start`.
ghost use Rattle.std.specs.Prelude.{ℕ, codes, Ok};
ghost use Rattle.serde_json.specs.View.{view};
ghost use Rattle.utoipa_base.specs.Docs.{list_doc};
ghost use Rattle.utoipa_base.specs.Fields.{field};
ghost use Rattle.utoipa_base.specs.Kinds.{ref_or, map_of, named, operation_object, path_item_object, defaulted};
ghost use Rattle.utoipa_base.specs.Reading.{read};
ghost use Rattle.utoipa_base.specs.Reads.{Reads};
ghost use Rattle.utoipa_base.specs.Rows.{part, rows_values};
ghost use Rattle.utoipa_base.specs.Tables.{row, callback};
ghost use Rattle.utoipa_base.specs.Values.{values, values_at};
ghost use Rattle.utoipa_path.specs.Docs.{CallbacksOf, operations_of, operation_doc, path_item_doc, callbacks_doc};
ghost use Rattle.utoipa_path.specs.Parts.{operations_rows};
ghost use Rattle.utoipa_path.specs.declared.types.PathItem.{PathItem, out-PathItem};

use crate::rows::{
    base_rows, from_rows, operation_rows_after_callbacks, operation_rows_last, over_rows,
};
use crate::types::{Callback, Operation, PathItem};
use serde_json::Value;
use std::alloc::Global;
use std::collections::BTreeMap;
use utoipa_base::{
    ReadFault, Readings, RefOr, read_rows_beside, read_table_beside, row_fields, row_names,
};

/// An operation whose callbacks have been read.
#[inline(never)]
pub(crate) fn assemble_operation(
    alloc: Global,
    tree: &Value,
    callbacks: BTreeMap<String, RefOr<Callback>>,
    readings: &mut Readings,
) -> Result<Operation, ReadFault>
    ensures { (start : ℕ)
        → Reads {A = CallbacksOf PathItem}
        (field (row (codes "callbacks") defaulted (map_of (ref_or callback))) (view tree.now))
        callbacks_doc (Ok callbacks) start readings.old (values_at (codes "callbacks") (view tree.now))
        → Reads (read (named operation_object) (view tree.now)) operation_doc result
        start readings.new (values (view tree.now)) }
{
    let names = operation_rows_last!(row_names!());
    let later = read_rows_beside(alloc, tree, names, callbacks, readings)?;
    let names = operation_rows_after_callbacks!(row_names!());
    let (rows, extensions, (last, callbacks)) = read_table_beside(
        alloc,
        tree,
        "Operation",
        names,
        later,
        readings,
    )?;
    Ok(operation_rows_last!(from_rows!(
        Operation { callbacks, extensions, }
        [rows operation_rows_after_callbacks] last
    )))
}

/// A path item whose operations have been read: they stand in `item`, whose other fields are set.
#[inline(never)]
pub(crate) fn assemble_path_item(
    alloc: Global,
    tree: &Value,
    item: PathItem,
    readings: &mut Readings,
) -> Result<PathItem, ReadFault>
    ensures { (start : ℕ)
        → Reads {A = PathItem} (part operations_rows (view tree.now))
        (λ i. list_doc (operations_of operation_doc (out-PathItem i)))
        (Ok item) start readings.old (rows_values operations_rows (view tree.now))
        → Reads (read (named path_item_object) (view tree.now)) path_item_doc result
        start readings.new (values (view tree.now)) }
{
    let names = base_rows!(row_names!());
    let (base, extensions, operations) = read_table_beside(
        alloc, tree, "PathItem", names, item, readings,
    )?;
    Ok(base_rows!(over_rows!(PathItem { extensions, } operations base)))
}
