//! Reading operations and path items, which hold each other through callbacks.
//!
//! A place that may hold a reference is read by [`read_ref_or_path_item`] or [`read_ref_or_callback`]; a reference in it counts
//! nothing, since it stands for no schema. The functions below call each other on the way from an object to its members
//! that hold operations or path items; the other members are read where the value is made (`assemble.rt`).
ghost use Rattle.std.specs.Prelude.{◌≡◌, [], Option, Ok, Err, IfErr, OnOk, codes};
ghost use Rattle.serde_json.specs.View.{view};
ghost use Rattle.utoipa_base.specs.Docs.{list_doc};
ghost use Rattle.utoipa_base.specs.Fields.{field};
ghost use Rattle.utoipa_base.specs.Kinds.{ref_or, map_of, named, operation_object, path_item_object, optional, defaulted};
ghost use Rattle.utoipa_base.specs.Reading.{read};
ghost use Rattle.utoipa_base.specs.Reads.{Reads};
ghost use Rattle.utoipa_base.specs.Refs.{ref_or_doc};
ghost use Rattle.utoipa_base.specs.Rows.{part, rows_values};
ghost use Rattle.utoipa_base.specs.Tables.{row, callback};
ghost use Rattle.utoipa_base.specs.Values.{values, values_at};
ghost use Rattle.utoipa_base.specs.Views.{option_of, map_of_docs};
ghost use Rattle.utoipa_path.specs.Builders.{Operations};
ghost use Rattle.utoipa_path.specs.Docs.{operations_of, operation_doc, path_item_doc, callback_doc, callbacks_doc};
ghost use Rattle.utoipa_path.specs.Methods.{with_method};
ghost use Rattle.utoipa_path.specs.Parts.{operations_rows};
ghost use Rattle.utoipa_path.specs.declared.types.Operation.{Operation};
ghost use Rattle.utoipa_path.specs.declared.types.PathItem.{out-PathItem};

use crate::assemble::{assemble_operation, assemble_path_item};
use crate::methods::replace_operation;
use crate::path_item::empty_path_item;
use crate::types::{Callback, Operation, PathItem};
use serde_json::Value;
use std::alloc::Global;
use std::collections::BTreeMap;
use std::mem;
use utoipa_base::{ReadFault, Readings, Ref, RefOr, Tree, fitting, put};
use utoipa_leaf::path::HttpMethod;

/// An operation. A tree that is no object is refused as `Kind("Operation")`.
#[cycle(read)]
pub(crate) fn read_operation(
    alloc: Global,
    tree: &Value,
    readings: &mut Readings,
) -> Result<Operation, ReadFault>
    ensures { Reads (read (named operation_object) (view tree.now)) operation_doc result
        readings.old readings.new (values (view tree.now)) }
{
    let callbacks = read_callbacks(alloc, tree, readings)?;
    assemble_operation(alloc, tree, callbacks, readings)
}

/// A path item, where no reference may stand. A tree that is no object is refused as `Kind("PathItem")`.
#[cycle(read)]
pub(crate) fn read_path_item(
    alloc: Global,
    tree: &Value,
    readings: &mut Readings,
) -> Result<PathItem, ReadFault>
    ensures { Reads (read (named path_item_object) (view tree.now)) path_item_doc result
        readings.old readings.new (values (view tree.now)) }
{
    let item = read_operations(alloc, tree, readings)?;
    assemble_path_item(alloc, tree, item, readings)
}

/// A reference, or else a path item, whose fault is answered where the tree is neither.
#[cycle(read)]
pub(crate) fn read_ref_or_path_item(
    alloc: Global,
    tree: &Value,
    readings: &mut Readings,
) -> Result<RefOr<PathItem>, ReadFault>
    ensures { Reads (read (ref_or (named path_item_object)) (view tree.now))
        (ref_or_doc (named path_item_object) path_item_doc) result
        readings.old readings.new (values (view tree.now)) }
{
    let mut uncounted = Readings::new();
    if let Some(reference) = fitting(Ref::read_plain(alloc, tree, &mut uncounted))? {
        return Ok(RefOr::Ref(reference));
    }
    Ok(RefOr::T(read_path_item(alloc, tree, readings)?))
}

/// A reference, or else a callback, whose fault is answered where the tree is neither. A tree whose `$ref` is no text is read
/// as a callback.
#[cycle(read)]
pub(crate) fn read_ref_or_callback(
    alloc: Global,
    tree: &Value,
    readings: &mut Readings,
) -> Result<RefOr<Callback>, ReadFault>
    ensures { Reads (read (ref_or callback) (view tree.now)) (ref_or_doc callback callback_doc) result
        readings.old readings.new (values (view tree.now)) }
{
    let mut uncounted = Readings::new();
    if let Some(reference) = fitting(Ref::read_plain(alloc, tree, &mut uncounted))? {
        return Ok(RefOr::Ref(reference));
    }
    Ok(RefOr::T(read_callback(alloc, tree, readings)?))
}

/// The callbacks of an operation, by their names: the member `callbacks`.
#[cycle(read)]
fn read_callbacks(
    alloc: Global,
    tree: &Value,
    readings: &mut Readings,
) -> Result<BTreeMap<String, RefOr<Callback>>, ReadFault>
    ensures { Reads (field (row (codes "callbacks") defaulted (map_of (ref_or callback))) (view tree.now))
        callbacks_doc result
        readings.old readings.new (values_at (codes "callbacks") (view tree.now)) }
{
    match tree.get("callbacks") {
        Some(member) => read_callback_map(alloc, member, readings),
        None => Ok(BTreeMap::new(alloc)),
    }
}

/// The operations of a path item, in one that says nothing else.
#[cycle(read)]
fn read_operations(
    alloc: Global,
    tree: &Value,
    readings: &mut Readings,
) -> Result<PathItem, ReadFault>
    ensures { Reads (part operations_rows (view tree.now))
        (λ i. list_doc (operations_of operation_doc (out-PathItem i))) result
        readings.old readings.new (rows_values operations_rows (view tree.now)) }
{
    let mut item = empty_path_item(alloc);
    fill_operations(&mut item, alloc, tree, readings).and(Ok(item))
}

/// Sets the operations of a path item to those in a tree. Fails at the first member that does not fit, and then those before it are
/// set.
#[cycle(read)]
fn fill_operations(
    item: &mut PathItem,
    alloc: Global,
    tree: &Value,
    readings: &mut Readings,
) -> Result<(), ReadFault>
    ensures { Reads (part operations_rows (view tree.now))
        (λ _. list_doc (operations_of operation_doc (out-PathItem item.new))) result
        readings.old readings.new (rows_values operations_rows (view tree.now)) }
{
    fill_additional_operations(item, alloc, tree, readings)?;
    fill_method(item, alloc, tree, HttpMethod::Delete, "delete", readings)?;
    fill_method(item, alloc, tree, HttpMethod::Get, "get", readings)?;
    fill_method(item, alloc, tree, HttpMethod::Head, "head", readings)?;
    fill_method(item, alloc, tree, HttpMethod::Options, "options", readings)?;
    fill_method(item, alloc, tree, HttpMethod::Patch, "patch", readings)?;
    fill_method(item, alloc, tree, HttpMethod::Post, "post", readings)?;
    fill_method(item, alloc, tree, HttpMethod::Put, "put", readings)?;
    fill_query(item, alloc, tree, readings)?;
    fill_method(item, alloc, tree, HttpMethod::Trace, "trace", readings)?;
    Ok(())
}

/// Sets the operation of a method to the one in a tree, under the name given, or that there is none. Fails where it does not fit, and
/// then nothing has changed.
#[cycle(read)]
fn fill_method(
    item: &mut PathItem,
    alloc: Global,
    tree: &Value,
    method: HttpMethod,
    name: &'static str,
    readings: &mut Readings,
) -> Result<(), ReadFault>
    ensures ok { OnOk result ((operation : Option Operation)
        × Reads {A = Option Operation} (field (row name.now optional (named operation_object)) (view tree.now))
        (option_of operation_doc) (Ok operation) readings.old readings.new (values_at name.now (view tree.now))
        × (out-PathItem item.new ≡ with_method method operation (out-PathItem item.old))) }
    ensures err { IfErr result
        (λ e. Reads {A = Option Operation} (field (row name.now optional (named operation_object)) (view tree.now))
        (option_of operation_doc) (Err e) readings.old readings.new (values_at name.now (view tree.now))) }
{
    let operation = read_method(alloc, tree, name, readings)?;
    drop(replace_operation(item, method, operation));
    Ok(())
}

/// Sets the operation of QUERY to the one in a tree, or that there is none. Fails where it does not fit, and then nothing has changed.
#[cycle(read)]
fn fill_query(
    item: &mut PathItem,
    alloc: Global,
    tree: &Value,
    readings: &mut Readings,
) -> Result<(), ReadFault>
    ensures ok { OnOk result ((operation : Option Operation)
        × Reads {A = Option Operation} (field (row (codes "query") optional (named operation_object)) (view tree.now))
        (option_of operation_doc) (Ok operation) readings.old readings.new (values_at (codes "query") (view tree.now))
        × (out-PathItem item.new ≡ record (out-PathItem item.old) { query = operation })) }
    ensures err { IfErr result
        (λ e. Reads {A = Option Operation}
        (field (row (codes "query") optional (named operation_object)) (view tree.now))
        (option_of operation_doc) (Err e) readings.old readings.new (values_at (codes "query") (view tree.now))) }
{
    let operation = read_method(alloc, tree, "query", readings)?;
    drop(mem::replace(&mut item.query, operation));
    Ok(())
}

/// Sets the operations of other methods to those in a tree. Fails where they do not fit, and then nothing has changed.
#[cycle(read)]
fn fill_additional_operations(
    item: &mut PathItem,
    alloc: Global,
    tree: &Value,
    readings: &mut Readings,
) -> Result<(), ReadFault>
    ensures ok { OnOk result ((operations : Operations)
        × Reads {A = Operations}
        (field (row (codes "additionalOperations") defaulted (map_of (named operation_object))) (view tree.now))
        (map_of_docs operation_doc) (Ok operations) readings.old readings.new
        (values_at (codes "additionalOperations") (view tree.now))
        × (out-PathItem item.new ≡ record (out-PathItem item.old) { additional_operations = operations })) }
    ensures err { IfErr result (λ e. Reads {A = Operations}
        (field (row (codes "additionalOperations") defaulted (map_of (named operation_object))) (view tree.now))
        (map_of_docs operation_doc) (Err e) readings.old readings.new
        (values_at (codes "additionalOperations") (view tree.now))) }
{
    let operations = read_additional_operations(alloc, tree, readings)?;
    drop(mem::replace(&mut item.additional_operations, operations));
    Ok(())
}

/// The operation of one method: the member of the name. There is none, too, where the member is null.
#[cycle(read)]
fn read_method(
    alloc: Global,
    tree: &Value,
    name: &'static str,
    readings: &mut Readings,
) -> Result<Option<Operation>, ReadFault>
    ensures { Reads (field (row name.now optional (named operation_object)) (view tree.now))
        (option_of operation_doc) result
        readings.old readings.new (values_at name.now (view tree.now)) }
{
    match tree.get(name) {
        Some(member) => {
            if member.is_null() {
                return Ok(None);
            }
            Ok(Some(read_operation(alloc, member, readings)?))
        }
        None => Ok(None),
    }
}

/// The operations of other methods, by the methods' names: the member `additionalOperations`.
#[cycle(read)]
fn read_additional_operations(
    alloc: Global,
    tree: &Value,
    readings: &mut Readings,
) -> Result<BTreeMap<String, Operation>, ReadFault>
    ensures { Reads
        (field (row (codes "additionalOperations") defaulted (map_of (named operation_object))) (view tree.now))
        (map_of_docs operation_doc) result
        readings.old readings.new (values_at (codes "additionalOperations") (view tree.now)) }
{
    match tree.get("additionalOperations") {
        Some(member) => read_operation_map(alloc, member, readings),
        None => Ok(BTreeMap::new(alloc)),
    }
}

/// References and path items by the expressions that give their URLs.
#[cycle(read)]
pub(crate) fn read_callback(
    alloc: Global,
    tree: &Value,
    readings: &mut Readings,
) -> Result<Callback, ReadFault>
    ensures { Reads (read callback (view tree.now)) callback_doc result
        readings.old readings.new (values (view tree.now)) }
{
    let mut map = BTreeMap::new(alloc);
    fill_callback(&mut map, alloc, tree, readings).and(Ok(map))
}

/// Puts the references and path items of a callback into a map that is empty. Fails where the tree is no object, and at the first
/// member that does not fit, and then those before it were put.
// Not inlined: the room of the insertion is not to stand on the stack while a value beside the map is read.
#[cycle(read)]
#[inline(never)]
fn fill_callback(
    map: &mut Callback,
    alloc: Global,
    tree: &Value,
    readings: &mut Readings,
) -> Result<(), ReadFault>
    requires { map.old.entries ≡ [] }
    ensures { Reads (read callback (view tree.now)) (λ _. callback_doc map.new) result
        readings.old readings.new (values (view tree.now)) }
{
    let Some(members) = tree.as_object() else {
        return Err(ReadFault::Kind("map"));
    };
    for (key, member) in members.iter() {
        let name = key.clone()?;
        let value = read_ref_or_path_item(alloc, member, readings)?;
        put(map, name, value)?;
    }
    Ok(())
}

/// References and callbacks by their names.
#[cycle(read)]
pub(crate) fn read_callback_map(
    alloc: Global,
    tree: &Value,
    readings: &mut Readings,
) -> Result<BTreeMap<String, RefOr<Callback>>, ReadFault>
    ensures { Reads (read (map_of (ref_or callback)) (view tree.now)) callbacks_doc result
        readings.old readings.new (values (view tree.now)) }
{
    let mut map = BTreeMap::new(alloc);
    fill_callback_map(&mut map, alloc, tree, readings).and(Ok(map))
}

/// Puts references and callbacks by their names into a map that is empty. Fails where the tree is no object, and at the first member
/// that does not fit, and then those before it were put.
// Not inlined: the room of the insertion is not to stand on the stack while a value beside the map is read.
#[cycle(read)]
#[inline(never)]
fn fill_callback_map(
    map: &mut BTreeMap<String, RefOr<Callback>>,
    alloc: Global,
    tree: &Value,
    readings: &mut Readings,
) -> Result<(), ReadFault>
    requires { map.old.entries ≡ [] }
    ensures { Reads (read (map_of (ref_or callback)) (view tree.now)) (λ _. callbacks_doc map.new) result
        readings.old readings.new (values (view tree.now)) }
{
    let Some(members) = tree.as_object() else {
        return Err(ReadFault::Kind("map"));
    };
    for (key, member) in members.iter() {
        let name = key.clone()?;
        let value = read_ref_or_callback(alloc, member, readings)?;
        put(map, name, value)?;
    }
    Ok(())
}

/// Operations by the names of their methods.
#[cycle(read)]
pub(crate) fn read_operation_map(
    alloc: Global,
    tree: &Value,
    readings: &mut Readings,
) -> Result<BTreeMap<String, Operation>, ReadFault>
    ensures { Reads (read (map_of (named operation_object)) (view tree.now)) (map_of_docs operation_doc) result
        readings.old readings.new (values (view tree.now)) }
{
    let mut map = BTreeMap::new(alloc);
    fill_operation_map(&mut map, alloc, tree, readings).and(Ok(map))
}

/// Puts operations by the names of their methods into a map that is empty. Fails where the tree is no object, and at the first member
/// that is no operation, and then those before it were put.
// Not inlined: the room of the insertion is not to stand on the stack while a value beside the map is read.
#[cycle(read)]
#[inline(never)]
fn fill_operation_map(
    map: &mut BTreeMap<String, Operation>,
    alloc: Global,
    tree: &Value,
    readings: &mut Readings,
) -> Result<(), ReadFault>
    requires { map.old.entries ≡ [] }
    ensures { Reads (read (map_of (named operation_object)) (view tree.now))
        (λ _. map_of_docs operation_doc map.new) result
        readings.old readings.new (values (view tree.now)) }
{
    let Some(members) = tree.as_object() else {
        return Err(ReadFault::Kind("map"));
    };
    for (key, member) in members.iter() {
        let name = key.clone()?;
        let value = read_operation(alloc, member, readings)?;
        put(map, name, value)?;
    }
    Ok(())
}
