//! The operations of a path item, each with the key under which it stands there.
ghost use Rattle.std.specs.Prelude.{◌≡◌, ◌++◌, IfOk, OnOk, map, option_map};
ghost use Rattle.std.specs.List.{flat_map};
ghost use Rattle.utoipa_path.specs.Operations.{key_of, key_text, keyed, all_keyed, operation_under, member_operation, operation_members, additional_entry, operations_in, has_id, first_with_id};
ghost use Rattle.utoipa_path.specs.declared.types.PathItem.{out-PathItem};

use crate::types::{Operation, PathItem};
use std::alloc::{AllocError, Global};
use std::collections::BTreeMap;
use utoipa_base::Word;
use utoipa_leaf::path::HttpMethod;

/// The key under which an operation stands in a Path Item Object (OpenAPI 3.1, section 4.8.9): the method of the operation.
#[derive(Clone, Copy, Debug, Drop, PartialEq, Eq)]
pub enum OperationMethod<'a> {
    /// A member of the item for a method that [`HttpMethod`] names, as `get`.
    Standard(HttpMethod),
    /// The member `query`, from OpenAPI 3.2 on.
    Query,
    /// The name of another method, under which an entry of the member `additionalOperations` stands, from OpenAPI 3.2 on.
    Additional(&'a str),
}

impl<'a> OperationMethod<'a> {
    /// The name of the member, as `get` or `query`, or of the entry of `additionalOperations`.
    pub fn as_text(&self) -> &'a str
        ensures { result.now ≡ key_text (key_of self.now) }
    {
        match self {
            OperationMethod::Standard(method) => method.as_text(),
            OperationMethod::Query => "query",
            OperationMethod::Additional(name) => name,
        }
    }
}

/// An operation of a path item.
#[derive(Clone, Copy, Debug, Drop)]
pub struct ItemOperation<'a> {
    /// The key under which the operation stands.
    pub method: OperationMethod<'a>,
    /// The operation.
    pub operation: &'a Operation,
}

// The members of a path item that are operations, in the order of their names.
const OPERATION_MEMBERS: [OperationMethod<'static>; 9] = [
    OperationMethod::Standard(HttpMethod::Delete),
    OperationMethod::Standard(HttpMethod::Get),
    OperationMethod::Standard(HttpMethod::Head),
    OperationMethod::Standard(HttpMethod::Options),
    OperationMethod::Standard(HttpMethod::Patch),
    OperationMethod::Standard(HttpMethod::Post),
    OperationMethod::Standard(HttpMethod::Put),
    OperationMethod::Query,
    OperationMethod::Standard(HttpMethod::Trace),
];

impl PathItem {
    /// The operation under a key, where the item has one.
    pub fn operation_under(&self, method: OperationMethod<'_>) -> Option<&Operation>
        ensures { option_map (λ o. o.now) result ≡ operation_under (key_of method.entry) (out-PathItem self.now) }
    {
        match method {
            OperationMethod::Standard(method) => self.operation(method),
            OperationMethod::Query => self.query.as_ref(),
            OperationMethod::Additional(name) => self.additional_operations.get(name),
        }
    }

    /// All operations of the item, in the order of its members' names: first those of `additionalOperations`, in the order of the map,
    /// then `delete`, `get`, `head`, `options`, `patch`, `post`, `put`, `query` and `trace`, as far as they are there. A `$ref` of the
    /// item is not followed, and the operations of callbacks are not among them.
    ///
    /// Fails where memory runs out.
    pub fn operations(&self, alloc: Global) -> Result<Vec<ItemOperation<'_>>, AllocError>
        ensures { IfOk result (λ v. all_keyed v.items ≡ operations_in (out-PathItem self.now)) }
    {
        let mut found = Vec::new(alloc);
        push_additional(&mut found, &self.additional_operations)?;
        push_members(&mut found, self)?;
        Ok(found)
    }

    /// The operation whose `operationId` is this text, the first in the order of [`PathItem::operations`], where the item has one. Takes
    /// no memory.
    pub fn operation_by_id(&self, operation_id: &str) -> Option<ItemOperation<'_>>
        ensures { option_map keyed result ≡ first_with_id operation_id.now (operations_in (out-PathItem self.now)) }
    {
        match additional_by_id(&self.additional_operations, operation_id) {
            Some(found) => Some(found),
            None => member_by_id(self, operation_id),
        }
    }
}

/// Adds the entries of `additionalOperations`. Fails where memory runs out.
fn push_additional<'a>(
    found: &mut Vec<ItemOperation<'a>>,
    operations: &'a BTreeMap<String, Operation>,
) -> Result<(), AllocError>
    ensures { OnOk result (all_keyed found.new.items
        ≡ all_keyed found.old.items ++ map additional_entry operations.now.entries) }
{
    for (name, operation) in operations {
        let method = OperationMethod::Additional(name.as_str());
        found.push(ItemOperation { method, operation })?;
    }
    Ok(())
}

/// Adds the operation that a member of a path item is, if it is there. Fails where memory runs out.
fn push_member<'a>(
    found: &mut Vec<ItemOperation<'a>>,
    item: &'a PathItem,
    method: OperationMethod<'a>,
) -> Result<(), AllocError>
    ensures { OnOk result (all_keyed found.new.items
        ≡ all_keyed found.old.items ++ member_operation (out-PathItem item.now) (key_of method.entry)) }
{
    if let Some(operation) = item.operation_under(method) {
        found.push(ItemOperation { method, operation })?;
    }
    Ok(())
}

/// Adds the operations that members of a path item are. Fails where memory runs out.
fn push_members<'a>(
    found: &mut Vec<ItemOperation<'a>>,
    item: &'a PathItem,
) -> Result<(), AllocError>
    ensures { OnOk result (all_keyed found.new.items
        ≡ all_keyed found.old.items ++ flat_map (member_operation (out-PathItem item.now)) operation_members) }
{
    for method in OPERATION_MEMBERS {
        push_member(found, item, method)?;
    }
    Ok(())
}

/// Whether the `operationId` of an operation is this text.
fn has_id(operation: &Operation, operation_id: &str) -> bool
    ensures { result ≡ has_id operation_id.now operation.now }
{
    match &operation.operation_id {
        Some(own) => own.as_str() == operation_id,
        None => false,
    }
}

/// The first entry of `additionalOperations` whose `operationId` is this text.
fn additional_by_id<'a>(
    operations: &'a BTreeMap<String, Operation>,
    operation_id: &str,
) -> Option<ItemOperation<'a>>
    ensures { option_map keyed result ≡ first_with_id operation_id.now (map additional_entry operations.now.entries) }
{
    for (name, operation) in operations {
        if has_id(operation, operation_id) {
            let method = OperationMethod::Additional(name.as_str());
            return Some(ItemOperation { method, operation });
        }
    }
    None
}

/// The operation that a member of a path item is, if it is there and its `operationId` is this text.
fn member_with_id<'a>(
    item: &'a PathItem,
    method: OperationMethod<'a>,
    operation_id: &str,
) -> Option<ItemOperation<'a>>
    ensures { option_map keyed result
        ≡ first_with_id operation_id.now (member_operation (out-PathItem item.now) (key_of method.entry)) }
{
    match item.operation_under(method) {
        Some(operation) if has_id(operation, operation_id) => {
            Some(ItemOperation { method, operation })
        }
        _ => None,
    }
}

/// The first of the operations that members of a path item are whose `operationId` is this text.
fn member_by_id<'a>(item: &'a PathItem, operation_id: &str) -> Option<ItemOperation<'a>>
    ensures { option_map keyed result
        ≡ first_with_id operation_id.now (flat_map (member_operation (out-PathItem item.now)) operation_members) }
{
    for method in OPERATION_MEMBERS {
        let found = member_with_id(item, method, operation_id);
        if found.is_some() {
            return found;
        }
    }
    None
}
