//! Schemas are read from trees and written as trees.
//!
//! A tree that fits no alternative of a schema is refused as `Alternative`, whatever failed inside.
ghost use Rattle.serde_json.specs.View.{view};
ghost use Rattle.utoipa_base.specs.Reading.{read as read_as};
ghost use Rattle.utoipa_base.specs.Reads.{Reads};
ghost use Rattle.utoipa_base.specs.Values.{values};
ghost use Rattle.utoipa_schema.specs.OfKind.{schema_of_kind, additional_properties_of_kind, array_items_of_kind, one_of_of_kind, all_of_of_kind, any_of_of_kind, array_of_kind, object_of_kind};

use crate::types::{AdditionalProperties, AllOf, AnyOf, Array, ArrayItems, Object, OneOf, Schema};
use crate::{copy, read};
use serde_json::Value;
use std::alloc::{AllocError, Global};
use std::collections::BTreeMap;
use utoipa_base::{Documented, Place, ReadFault, Readings, RefOr, Tree};

/// A schema, by the first alternative that fits (OpenAPI 3.1, section 4.8.24).
impl Tree for Schema {
    ghost is_of_kind = { schema_of_kind };

    fn read_plain(
        alloc: Global,
        tree: &Value,
        readings: &mut Readings,
    ) -> Result<Schema, ReadFault> {
        read::read_schema(alloc, tree, readings)
    }

    fn try_clone(&self, alloc: Global) -> Result<Schema, AllocError> {
        copy::clone_schema(alloc, self)
    }
}

/// A schema may stand where a reference could.
impl Place for Schema {
    fn is_schema() -> bool {
        true
    }

    // A place is counted once, a reference too.
    fn read_ref_or(
        alloc: Global,
        tree: &Value,
        readings: &mut Readings,
    ) -> Result<RefOr<Schema>, ReadFault> {
        read::read_ref_or_schema(alloc, tree, readings)
    }
}

/// A schema that is no combination and no array, by its member table alone.
impl Tree for Object {
    ghost is_of_kind = { object_of_kind };

    fn read_plain(
        alloc: Global,
        tree: &Value,
        readings: &mut Readings,
    ) -> Result<Object, ReadFault> {
        read::read_object(alloc, tree, readings)
    }

    fn try_clone(&self, alloc: Global) -> Result<Object, AllocError> {
        copy::clone_object(alloc, self)
    }
}

impl Place for Object {
    fn is_schema() -> bool {
        false
    }
}

/// A schema with `items`, by its member table alone.
impl Tree for Array {
    ghost is_of_kind = { array_of_kind };

    fn read_plain(
        alloc: Global,
        tree: &Value,
        readings: &mut Readings,
    ) -> Result<Array, ReadFault> {
        read::read_array(alloc, tree, readings)
    }

    fn try_clone(&self, alloc: Global) -> Result<Array, AllocError> {
        copy::clone_array(alloc, self)
    }
}

impl Place for Array {
    fn is_schema() -> bool {
        false
    }
}

/// A schema with `oneOf`, by its member table alone.
impl Tree for OneOf {
    ghost is_of_kind = { one_of_of_kind };

    fn read_plain(
        alloc: Global,
        tree: &Value,
        readings: &mut Readings,
    ) -> Result<OneOf, ReadFault> {
        read::read_one_of(alloc, tree, readings)
    }

    fn try_clone(&self, alloc: Global) -> Result<OneOf, AllocError> {
        copy::clone_one_of(alloc, self)
    }
}

impl Place for OneOf {
    fn is_schema() -> bool {
        false
    }
}

/// A schema with `allOf`, by its member table alone.
impl Tree for AllOf {
    ghost is_of_kind = { all_of_of_kind };

    fn read_plain(
        alloc: Global,
        tree: &Value,
        readings: &mut Readings,
    ) -> Result<AllOf, ReadFault> {
        read::read_all_of(alloc, tree, readings)
    }

    fn try_clone(&self, alloc: Global) -> Result<AllOf, AllocError> {
        copy::clone_all_of(alloc, self)
    }
}

impl Place for AllOf {
    fn is_schema() -> bool {
        false
    }
}

/// A schema with `anyOf`, by its member table alone.
impl Tree for AnyOf {
    ghost is_of_kind = { any_of_of_kind };

    fn read_plain(
        alloc: Global,
        tree: &Value,
        readings: &mut Readings,
    ) -> Result<AnyOf, ReadFault> {
        read::read_any_of(alloc, tree, readings)
    }

    fn try_clone(&self, alloc: Global) -> Result<AnyOf, AllocError> {
        copy::clone_any_of(alloc, self)
    }
}

impl Place for AnyOf {
    fn is_schema() -> bool {
        false
    }
}

/// The items of an array: a reference, a schema, or `false`.
impl Tree for ArrayItems {
    ghost is_of_kind = { array_items_of_kind };

    fn read_plain(
        alloc: Global,
        tree: &Value,
        readings: &mut Readings,
    ) -> Result<ArrayItems, ReadFault> {
        read::read_items(alloc, tree, readings)
    }

    fn try_clone(&self, alloc: Global) -> Result<ArrayItems, AllocError> {
        copy::clone_items(alloc, self)
    }
}

impl Place for ArrayItems {
    fn is_schema() -> bool {
        false
    }
}

/// What the properties are that an object does not list: a reference, a schema, true or false.
impl Tree for AdditionalProperties<Schema> {
    ghost is_of_kind = { additional_properties_of_kind };

    fn read_plain(
        alloc: Global,
        tree: &Value,
        readings: &mut Readings,
    ) -> Result<AdditionalProperties<Schema>, ReadFault> {
        read::read_additional(alloc, tree, readings)
    }

    fn try_clone(&self, alloc: Global) -> Result<AdditionalProperties<Schema>, AllocError> {
        copy::clone_additional(alloc, self)
    }
}

impl Place for AdditionalProperties<Schema> {
    fn is_schema() -> bool {
        false
    }
}

/// Reads a reference, or else a schema: what `RefOr<Schema>` reads.
///
/// Fails with `Alternative` where the tree is neither, and where memory runs out.
pub fn read_ref_or_schema(
    alloc: Global,
    tree: &Value,
    readings: &mut Readings,
) -> Result<RefOr<Schema>, ReadFault>
    ensures { Reads (read_as ⟦<RefOr<Schema> as Documented>⟧.kind (view tree.now))
        ⟦<RefOr<Schema> as Documented>⟧.doc result
        readings.old readings.new (values (view tree.now)) }
{
    read::read_ref_or_schema(alloc, tree, readings)
}

/// Reads a list of references and schemas: what `Vec<RefOr<Schema>>` reads.
///
/// Fails where the tree is no list, where an item is neither a reference nor a schema, and where memory runs out.
pub fn read_schema_list(
    alloc: Global,
    tree: &Value,
    readings: &mut Readings,
) -> Result<Vec<RefOr<Schema>>, ReadFault>
    ensures { Reads (read_as ⟦<Vec<RefOr<Schema>> as Documented>⟧.kind (view tree.now))
        ⟦<Vec<RefOr<Schema>> as Documented>⟧.doc result
        readings.old readings.new (values (view tree.now)) }
{
    read::read_ref_or_schema_list(alloc, tree, readings)
}

/// Reads references and schemas by their names: what `BTreeMap<String, RefOr<Schema>>` reads.
///
/// Fails where the tree is no object, where a member is neither a reference nor a schema, and where memory runs out.
pub fn read_schema_map(
    alloc: Global,
    tree: &Value,
    readings: &mut Readings,
) -> Result<BTreeMap<String, RefOr<Schema>>, ReadFault>
    ensures { Reads (read_as ⟦<BTreeMap<String, RefOr<Schema>> as Documented>⟧.kind (view tree.now))
        ⟦<BTreeMap<String, RefOr<Schema>> as Documented>⟧.doc result
        readings.old readings.new (values (view tree.now)) }
{
    read::read_ref_or_schema_map(alloc, tree, readings)
}
