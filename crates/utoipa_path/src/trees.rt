//! Operations and path items are read from trees and written as trees.
ghost use Rattle.std.specs.Prelude.{false};
ghost use Rattle.serde_json.specs.View.{view};
ghost use Rattle.utoipa_base.specs.Reading.{read as read_as};
ghost use Rattle.utoipa_base.specs.Reads.{Reads};
ghost use Rattle.utoipa_base.specs.Values.{values};
ghost use Rattle.utoipa_path.specs.OfKind.{operation_of_kind, path_item_of_kind};

use crate::types::{Callback, Operation, PathItem};
use crate::{copy, read};
use serde_json::Value;
use std::alloc::{AllocError, Global};
use std::collections::BTreeMap;
use utoipa_base::{Documented, Place, ReadFault, Readings, RefOr, Tree};

/// An operation, by its member table.
impl Tree for Operation {
    ghost is_of_kind = { operation_of_kind };

    fn read_plain(
        alloc: Global,
        tree: &Value,
        readings: &mut Readings,
    ) -> Result<Operation, ReadFault> {
        read::read_operation(alloc, tree, readings)
    }

    fn try_clone(&self, alloc: Global) -> Result<Operation, AllocError> {
        copy::clone_operation(alloc, self)
    }
}

/// An operation is no schema.
impl Place for Operation {
    fn is_schema() -> bool {
        false
    }
}

/// A path item, by its member table.
impl Tree for PathItem {
    ghost is_of_kind = { path_item_of_kind };

    fn read_plain(
        alloc: Global,
        tree: &Value,
        readings: &mut Readings,
    ) -> Result<PathItem, ReadFault> {
        read::read_path_item(alloc, tree, readings)
    }

    fn try_clone(&self, alloc: Global) -> Result<PathItem, AllocError> {
        copy::clone_path_item(alloc, self)
    }
}

/// A path item is no schema.
impl Place for PathItem {
    fn is_schema() -> bool {
        false
    }
}

/// Reads a callback: what `BTreeMap<String, RefOr<PathItem>>` reads.
///
/// Fails where the tree is no object, where a member is neither a reference nor a path item, and where memory runs out.
pub fn read_callback(
    alloc: Global,
    tree: &Value,
    readings: &mut Readings,
) -> Result<Callback, ReadFault>
    ensures { Reads (read_as ⟦<BTreeMap<String, RefOr<PathItem>> as Documented>⟧.kind (view tree.now))
        ⟦<BTreeMap<String, RefOr<PathItem>> as Documented>⟧.doc result
        readings.old readings.new (values (view tree.now)) }
{
    read::read_callback(alloc, tree, readings)
}

/// Reads a reference, or else a callback: what `RefOr<BTreeMap<String, RefOr<PathItem>>>` reads.
///
/// Fails where the tree is neither, with the fault of the callback, and where memory runs out.
pub fn read_ref_or_callback(
    alloc: Global,
    tree: &Value,
    readings: &mut Readings,
) -> Result<RefOr<Callback>, ReadFault>
    ensures { Reads (read_as ⟦<RefOr<BTreeMap<String, RefOr<PathItem>>> as Documented>⟧.kind (view tree.now))
        ⟦<RefOr<BTreeMap<String, RefOr<PathItem>>> as Documented>⟧.doc result
        readings.old readings.new (values (view tree.now)) }
{
    read::read_ref_or_callback(alloc, tree, readings)
}

/// Reads operations by the names of their methods: what `BTreeMap<String, Operation>` reads.
///
/// Fails where the tree is no object, where a member is no operation, and where memory runs out.
pub fn read_operation_map(
    alloc: Global,
    tree: &Value,
    readings: &mut Readings,
) -> Result<BTreeMap<String, Operation>, ReadFault>
    ensures { Reads (read_as ⟦<BTreeMap<String, Operation> as Documented>⟧.kind (view tree.now))
        ⟦<BTreeMap<String, Operation> as Documented>⟧.doc result
        readings.old readings.new (values (view tree.now)) }
{
    read::read_operation_map(alloc, tree, readings)
}
