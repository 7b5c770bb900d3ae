//! Copying operations, path items and callbacks, which hold each other.
//!
//! The functions of the cycle copy what holds operations or path items; the members that hold none are copied outside of it. A path
//! item is large, so it is copied in place, and on the heap while operations inside of it are copied: a level of path items takes
//! no room for one on the stack.
ghost use Rattle.std.specs.Prelude.{◌≡◌, [], Option, IfOk, OnOk, option_map, string_cmp};
ghost use Rattle.std.specs.BTreeMap.{insert_entry};
ghost use Rattle.utoipa_base.specs.Extensions.{extensions_view};
ghost use Rattle.utoipa_base.specs.Kinds.{path_item_object, named};
ghost use Rattle.utoipa_base.specs.Refs.{ref_or_doc};
ghost use Rattle.utoipa_base.specs.Tables.{callback as callback_kind};
ghost use Rattle.utoipa_base.specs.Views.{option_of, map_of_docs};
ghost use Rattle.utoipa_base.specs.declared.refs.RefOr.{RefOr};
ghost use Rattle.utoipa_base.specs.declared.refs.RefOr.TheVariants as places;
ghost use Rattle.utoipa_path.specs.Docs.{operation_doc, path_item_doc, callback_doc, callbacks_doc, operations_of};
ghost use Rattle.utoipa_path.specs.Builders.{Operations};
ghost use Rattle.utoipa_path.specs.Methods.{operation_at, with_method, IsEmptyPathItem};
ghost use Rattle.utoipa_path.specs.declared.types.Operation.{Operation, out-Operation};
ghost use Rattle.utoipa_path.specs.declared.types.PathItem.{PathItem, out-PathItem};

use crate::methods::replace_operation;
use crate::path_item::empty_path_item;
use crate::rows::{
    base_rows, from_rows, operation_rows_after_callbacks, operation_rows_last, over_rows,
};
use crate::types::{Callback, Operation, PathItem};
use std::alloc::{AllocError, Global};
use std::collections::BTreeMap;
use std::mem;
use utoipa_base::table::CloneRows;
use utoipa_base::{
    Extensions, Ref, RefOr, Tree, clone_extensions, clone_rows_beside, row_fields, row_values,
};
use utoipa_leaf::path::HttpMethod;

/// Copies an operation. Fails where memory runs out.
#[cycle(copy)]
pub(crate) fn clone_operation(alloc: Global, operation: &Operation) -> Result<Operation, AllocError>
    ensures { IfOk result (λ copy. operation_doc copy ≡ operation_doc operation.now) }
{
    let callbacks = clone_callback_map(alloc, &operation.callbacks)?;
    clone_operation_with(alloc, operation, callbacks)
}

/// Copies a path item. Fails where memory runs out.
pub(crate) fn clone_path_item(alloc: Global, item: &PathItem) -> Result<PathItem, AllocError>
    ensures { IfOk result (λ copy. path_item_doc copy ≡ path_item_doc item.now) }
{
    let mut copy = empty_path_item(alloc);
    copy_path_item(&mut copy, alloc, item).and(Ok(copy))
}

/// Makes a path item a copy of another. Fails where memory runs out, and then some of it was copied.
#[cycle(copy)]
fn copy_path_item(copy: &mut PathItem, alloc: Global, item: &PathItem) -> Result<(), AllocError>
    ensures { OnOk result (path_item_doc copy.new ≡ path_item_doc item.now) }
{
    copy_operations(copy, alloc, item)?;
    copy_beside_operations(copy, alloc, item)
}

/// Copies a path item to the heap. Fails where memory runs out.
#[cycle(copy)]
fn clone_boxed_path_item(alloc: Global, item: &PathItem) -> Result<Box<PathItem>, AllocError>
    ensures { IfOk result (λ copy. path_item_doc copy.value ≡ path_item_doc item.now) }
{
    let mut copy = boxed_empty_path_item(alloc)?;
    copy_path_item(&mut *copy, alloc, item).and(Ok(copy))
}

/// Puts a copy of a reference, or of a path item in its place, into a callback under an expression. Fails where memory runs out.
#[cycle(copy)]
fn put_ref_or_path_item(
    callback: &mut Callback,
    alloc: Global,
    expression: String,
    place: &RefOr<PathItem>,
) -> Result<(), AllocError>
    ensures { OnOk result ((copy : RefOr PathItem)
        × (ref_or_doc (named path_item_object) path_item_doc copy
        ≡ ref_or_doc (named path_item_object) path_item_doc place.now)
        × (callback.new.entries ≡ insert_entry string_cmp callback.old.entries expression copy)) }
{
    match place {
        RefOr::Ref(reference) => put_reference(callback, expression, reference.try_clone(alloc)?),
        RefOr::T(item) => put_boxed(callback, expression, clone_boxed_path_item(alloc, item)?),
    }
}

/// Copies a callback: its references and path items with their expressions. Fails where memory runs out.
#[cycle(copy)]
pub(crate) fn clone_callback(alloc: Global, callback: &Callback) -> Result<Callback, AllocError>
    ensures { IfOk result (λ copy. callback_doc copy ≡ callback_doc callback.now) }
{
    let mut copy = BTreeMap::new(alloc);
    copy_callback(&mut copy, alloc, callback).and(Ok(copy))
}

/// Puts copies of the references and path items of a callback into one that is empty. Fails where memory runs out, and then some were
/// put.
#[cycle(copy)]
fn copy_callback(copy: &mut Callback, alloc: Global, callback: &Callback) -> Result<(), AllocError>
    requires { copy.old.entries ≡ [] }
    ensures { OnOk result (callback_doc copy.new ≡ callback_doc callback.now) }
{
    for (key, member) in callback.iter() {
        let name = key.clone()?;
        put_ref_or_path_item(copy, alloc, name, member)?;
    }
    Ok(())
}

/// Copies a reference, or a callback in its place. Fails where memory runs out.
#[cycle(copy)]
fn clone_ref_or_callback(
    alloc: Global,
    place: &RefOr<Callback>,
) -> Result<RefOr<Callback>, AllocError>
    ensures { IfOk result (λ copy. ref_or_doc callback_kind callback_doc copy
        ≡ ref_or_doc callback_kind callback_doc place.now) }
{
    match place {
        RefOr::Ref(reference) => Ok(RefOr::Ref(reference.try_clone(alloc)?)),
        RefOr::T(value) => Ok(RefOr::T(clone_callback(alloc, value)?)),
    }
}

/// Copies references and callbacks with their names. Fails where memory runs out.
#[cycle(copy)]
fn clone_callback_map(
    alloc: Global,
    callbacks: &BTreeMap<String, RefOr<Callback>>,
) -> Result<BTreeMap<String, RefOr<Callback>>, AllocError>
    ensures { IfOk result (λ copy. callbacks_doc copy ≡ callbacks_doc callbacks.now) }
{
    let mut copy = BTreeMap::new(alloc);
    copy_callback_map(&mut copy, alloc, callbacks).and(Ok(copy))
}

/// Puts copies of references and callbacks, with their names, into a map that is empty. Fails where memory runs out, and then some
/// were put.
#[cycle(copy)]
fn copy_callback_map(
    copy: &mut BTreeMap<String, RefOr<Callback>>,
    alloc: Global,
    callbacks: &BTreeMap<String, RefOr<Callback>>,
) -> Result<(), AllocError>
    requires { copy.old.entries ≡ [] }
    ensures { OnOk result (callbacks_doc copy.new ≡ callbacks_doc callbacks.now) }
{
    for (key, member) in callbacks.iter() {
        let name = key.clone()?;
        let value = clone_ref_or_callback(alloc, member)?;
        put(copy, name, value)?;
    }
    Ok(())
}

/// Copies operations with the names of their methods. Fails where memory runs out.
#[cycle(copy)]
fn clone_operation_map(
    alloc: Global,
    operations: &BTreeMap<String, Operation>,
) -> Result<BTreeMap<String, Operation>, AllocError>
    ensures { IfOk result (λ copy. map_of_docs operation_doc copy ≡ map_of_docs operation_doc operations.now) }
{
    let mut copy = BTreeMap::new(alloc);
    copy_operation_map(&mut copy, alloc, operations).and(Ok(copy))
}

/// Puts copies of operations, with the names of their methods, into a map that is empty. Fails where memory runs out, and then some
/// were put.
#[cycle(copy)]
fn copy_operation_map(
    copy: &mut BTreeMap<String, Operation>,
    alloc: Global,
    operations: &BTreeMap<String, Operation>,
) -> Result<(), AllocError>
    requires { copy.old.entries ≡ [] }
    ensures { OnOk result (map_of_docs operation_doc copy.new ≡ map_of_docs operation_doc operations.now) }
{
    for (key, member) in operations.iter() {
        let name = key.clone()?;
        let value = clone_operation(alloc, member)?;
        put(copy, name, value)?;
    }
    Ok(())
}

/// Copies an operation, if there is one. Fails where memory runs out.
#[cycle(copy)]
fn clone_method(alloc: Global, method: Option<&Operation>) -> Result<Option<Operation>, AllocError>
    ensures { IfOk result (λ copy. option_of operation_doc copy
        ≡ option_of operation_doc (option_map (λ o. o.now) method.entry)) }
{
    match method {
        Some(operation) => Ok(Some(clone_operation(alloc, operation)?)),
        None => Ok(None),
    }
}

/// Makes the operation of a method a copy of that of another path item, which may have none. Fails where memory runs out.
#[cycle(copy)]
fn copy_method(
    copy: &mut PathItem,
    alloc: Global,
    item: &PathItem,
    method: HttpMethod,
) -> Result<(), AllocError>
    ensures { OnOk result ((operation : Option Operation)
        × (option_of operation_doc operation ≡ option_of operation_doc (operation_at method (out-PathItem item.now)))
        × (out-PathItem copy.new ≡ with_method method operation (out-PathItem copy.old))) }
{
    let operation = clone_method(alloc, item.operation(method))?;
    drop(replace_operation(copy, method, operation));
    Ok(())
}

/// Makes the operations of GET, PUT, POST and DELETE copies of those of another path item. Fails where memory runs out, and then some
/// may be.
#[cycle(copy)]
fn copy_main_methods(copy: &mut PathItem, alloc: Global, item: &PathItem) -> Result<(), AllocError>
    ensures { OnOk result ((get put post delete : Option Operation)
        × (option_of operation_doc get ≡ option_of operation_doc (out-PathItem item.now).get)
        × (option_of operation_doc put ≡ option_of operation_doc (out-PathItem item.now).put)
        × (option_of operation_doc post ≡ option_of operation_doc (out-PathItem item.now).post)
        × (option_of operation_doc delete ≡ option_of operation_doc (out-PathItem item.now).delete)
        × (out-PathItem copy.new
        ≡ record (out-PathItem copy.old) { get = get; put = put; post = post; delete = delete })) }
{
    copy_method(copy, alloc, item, HttpMethod::Get)?;
    copy_method(copy, alloc, item, HttpMethod::Put)?;
    copy_method(copy, alloc, item, HttpMethod::Post)?;
    copy_method(copy, alloc, item, HttpMethod::Delete)?;
    Ok(())
}

/// The same of OPTIONS, HEAD, PATCH and TRACE.
#[cycle(copy)]
fn copy_other_methods(copy: &mut PathItem, alloc: Global, item: &PathItem) -> Result<(), AllocError>
    ensures { OnOk result ((options head patch trace : Option Operation)
        × (option_of operation_doc options ≡ option_of operation_doc (out-PathItem item.now).options)
        × (option_of operation_doc head ≡ option_of operation_doc (out-PathItem item.now).head)
        × (option_of operation_doc patch ≡ option_of operation_doc (out-PathItem item.now).patch)
        × (option_of operation_doc trace ≡ option_of operation_doc (out-PathItem item.now).trace)
        × (out-PathItem copy.new
        ≡ record (out-PathItem copy.old) { options = options; head = head; patch = patch; trace = trace })) }
{
    copy_method(copy, alloc, item, HttpMethod::Options)?;
    copy_method(copy, alloc, item, HttpMethod::Head)?;
    copy_method(copy, alloc, item, HttpMethod::Patch)?;
    copy_method(copy, alloc, item, HttpMethod::Trace)?;
    Ok(())
}

/// The same of QUERY and of the additional operations.
#[cycle(copy)]
fn copy_further_methods(
    copy: &mut PathItem,
    alloc: Global,
    item: &PathItem,
) -> Result<(), AllocError>
    ensures { OnOk result ((query : Option Operation) × (additional : Operations)
        × (option_of operation_doc query ≡ option_of operation_doc (out-PathItem item.now).query)
        × (map_of_docs operation_doc additional
        ≡ map_of_docs operation_doc (out-PathItem item.now).additional_operations)
        × (out-PathItem copy.new
        ≡ record (out-PathItem copy.old) { query = query; additional_operations = additional })) }
{
    let query = clone_method(alloc, item.query.as_ref())?;
    drop(mem::replace(&mut copy.query, query));
    let additional = clone_operation_map(alloc, &item.additional_operations)?;
    drop(mem::replace(&mut copy.additional_operations, additional));
    Ok(())
}

/// Makes the operations of a path item copies of those of another. Fails where memory runs out, and then some may be.
#[cycle(copy)]
fn copy_operations(copy: &mut PathItem, alloc: Global, item: &PathItem) -> Result<(), AllocError>
    ensures { OnOk result (operations_of operation_doc (out-PathItem copy.new)
        ≡ operations_of operation_doc (out-PathItem item.now)) }
{
    copy_main_methods(copy, alloc, item)?;
    copy_other_methods(copy, alloc, item)?;
    copy_further_methods(copy, alloc, item)?;
    Ok(())
}

/// A path item on the heap, of which nothing is said. Fails where memory runs out.
#[inline(never)]
fn boxed_empty_path_item(alloc: Global) -> Result<Box<PathItem>, AllocError>
    ensures { IfOk result (λ item. IsEmptyPathItem (out-PathItem item.value)) }
{
    Ok(Box::new(alloc, empty_path_item(alloc))?)
}

/// Puts a path item from the heap into a callback under an expression. Fails where memory runs out.
#[inline(never)]
fn put_boxed(
    callback: &mut Callback,
    expression: String,
    item: Box<PathItem>,
) -> Result<(), AllocError>
    ensures { OnOk result (callback.new.entries
        ≡ insert_entry string_cmp callback.old.entries expression (places.T item.value)) }
{
    put(callback, expression, RefOr::T(Box::into_inner(item)))
}

/// Puts a reference into a callback under an expression. Fails where memory runs out.
// Not inlined: a place has room for a path item too.
#[inline(never)]
fn put_reference(
    callback: &mut Callback,
    expression: String,
    reference: Ref,
) -> Result<(), AllocError>
    ensures { OnOk result (callback.new.entries
        ≡ insert_entry string_cmp callback.old.entries expression (places.Ref reference)) }
{
    put(callback, expression, RefOr::Ref(reference))
}

/// Puts a value into a map under its name. Fails where memory runs out.
// Not inlined: a node of the map has room for eleven values, which is not to stand on the stack while a value inside is copied.
#[inline(never)]
fn put<T: Drop>(map: &mut BTreeMap<String, T>, name: String, value: T) -> Result<(), AllocError>
    ensures { OnOk result (map.new.entries ≡ insert_entry string_cmp map.old.entries name value) }
{
    drop(map.insert(name, value)?);
    Ok(())
}

/// Copies an operation, whose callbacks have been copied. Fails where memory runs out.
#[inline(never)]
fn clone_operation_with(
    alloc: Global,
    operation: &Operation,
    callbacks: BTreeMap<String, RefOr<Callback>>,
) -> Result<Operation, AllocError>
    ensures { IfOk result (λ copy. callbacks_doc callbacks ≡ callbacks_doc (out-Operation operation.now).callbacks
        → operation_doc copy ≡ operation_doc operation.now) }
{
    let (rows, callbacks, last, extensions) = clone_around(
        alloc,
        &operation_rows_after_callbacks!(row_values!(operation)),
        callbacks,
        &operation_rows_last!(row_values!(operation)),
        &operation.extensions,
    )?;
    Ok(operation_rows_last!(from_rows!(
        Operation { callbacks, extensions, }
        [rows operation_rows_after_callbacks] last
    )))
}

/// Copies of the fields of some rows, in two parts, and of the extensions beside them; what is kept is handed back between the parts.
/// Fails where memory runs out, and then gives up what was kept.
///
/// What is kept is of any type here, so that to give it up is one call at each part that may not be copied.
fn clone_around<F: CloneRows, K: Drop, L: CloneRows>(
    alloc: Global,
    first: &F,
    kept: K,
    last: &L,
    extensions: &Option<Extensions>,
) -> Result<(F::Fields, K, L::Fields, Option<Extensions>), AllocError>
    ensures { IfOk result (λ copy. (F.Fields.docs copy.0 ≡ F.docs first.now)
        × (copy.1 ≡ kept)
        × (L.Fields.docs copy.2 ≡ L.docs last.now)
        × (option_map extensions_view copy.3 ≡ option_map extensions_view extensions.now)) }
{
    let before = first.clone_fields(alloc)?;
    let after = last.clone_fields(alloc)?;
    let copy = clone_extensions(alloc, extensions)?;
    Ok((before, kept, after, copy))
}

/// Makes a path item that has copies of the operations of another a copy of it. Fails where memory runs out, and then gives up the
/// copies.
#[inline(never)]
fn copy_beside_operations(
    copy: &mut PathItem,
    alloc: Global,
    item: &PathItem,
) -> Result<(), AllocError>
    ensures { OnOk result (operations_of operation_doc (out-PathItem copy.old)
        ≡ operations_of operation_doc (out-PathItem item.now)
        → path_item_doc copy.new ≡ path_item_doc item.now) }
{
    let operations = mem::replace(copy, empty_path_item(alloc));
    let whole = clone_path_item_with(alloc, item, operations)?;
    drop(mem::replace(copy, whole));
    Ok(())
}

/// Copies a path item, whose operations have been copied. Fails where memory runs out.
fn clone_path_item_with(
    alloc: Global,
    item: &PathItem,
    operations: PathItem,
) -> Result<PathItem, AllocError>
    ensures { IfOk result (λ copy. operations_of operation_doc (out-PathItem operations)
        ≡ operations_of operation_doc (out-PathItem item.now)
        → path_item_doc copy ≡ path_item_doc item.now) }
{
    let (base, extensions, operations) = clone_rows_beside(
        alloc,
        &base_rows!(row_values!(item)),
        &item.extensions,
        operations,
    )?;
    Ok(base_rows!(over_rows!(PathItem { extensions, } operations base)))
}
