//! What merging changes of what operations mean.
ghost use Rattle.std.specs.Prelude.{◌≡◌, ◌++◌, IfOk, OnOk, option_map};
ghost use Rattle.std.specs.List.{flat_map};
ghost use Rattle.serde_json.specs.View.{view};
ghost use Rattle.utoipa_meaning.specs.Changes as specs;
ghost use Rattle.utoipa_meaning.specs.Meaning.{default_servers as servers_by_default, no_security as nothing_demanded};
ghost use Rattle.utoipa_meaning.specs.Operations.{standing_at as standing_at_place};
ghost use Rattle.utoipa_meaning.specs.Views.{AreCompared, all_changes, all_operations, difference_of, noted, operation_of, place_of, standing_of, trees_of};

use crate::compared::{
    Compared, Standing, compare, security_difference, servers_difference, standing_at,
};
use crate::difference::Difference;
use crate::operation::{Operation, OperationPlace, operations};
use crate::origin::{comes_from, origins};
use crate::parameters::parameters_difference;
use serde_json::{Map, Value};
use std::alloc::{AllocError, Global};
use std::collections::BTreeMap;
use utoipa_check::Pointer;

/// A change of what an operation means.
#[derive(Drop)]
pub struct Change<'a> {
    /// The place of the operation, in its own document and in the merged one.
    pub pointer: Pointer<'a>,
    /// The number of the document that the operation comes from.
    pub document: usize,
    /// What differs.
    pub difference: Difference,
}

/// Adds what differs of an operation, if something does. Fails where memory runs out.
fn put<'a>(
    alloc: Global,
    place: OperationPlace<'a>,
    document: usize,
    difference: Option<Difference>,
    found: &mut Vec<Change<'a>>,
) -> Result<(), AllocError>
    ensures { OnOk result (all_changes found.new.items ≡ all_changes found.old.items
        ++ specs.told (place_of place.entry) document (option_map difference_of difference)) }
{
    if let Some(difference) = difference {
        let pointer = place.pointer(alloc)?;
        found.push(Change {
            pointer,
            document,
            difference,
        })?;
    }
    Ok(())
}

/// Adds all that differs of an operation where it stands in its own document and in the merged one. Fails where memory runs out.
fn put_differences<'a, 'd>(
    alloc: Global,
    documents: Compared<'d>,
    number: usize,
    place: OperationPlace<'a>,
    own: Standing<'d>,
    merged: Standing<'d>,
    found: &mut Vec<Change<'a>>,
) -> Result<(), AllocError>
    requires compared { AreCompared documents }
    requires own { view own.document.now ≡ view documents.own.now }
    requires merged { view merged.document.now ≡ view documents.merged.now }
    ensures { OnOk result (all_changes found.new.items ≡ all_changes found.old.items
        ++ specs.changes_between (place_of place.entry) number (standing_of own.entry) (standing_of merged.entry)) }
{
    put(
        alloc,
        place,
        number,
        security_difference(documents, own, merged),
        found,
    )?;
    put(
        alloc,
        place,
        number,
        servers_difference(documents, own, merged),
        found,
    )?;
    put(
        alloc,
        place,
        number,
        parameters_difference(alloc, own, merged)?,
        found,
    )
}

/// Adds what differs of an operation, if it comes from the document of the number and stands in the merged one. Fails where memory runs out.
fn put_operation<'a, 'd>(
    alloc: Global,
    origins: &BTreeMap<OperationPlace<'a>, usize>,
    documents: Compared<'d>,
    number: usize,
    operation: Operation<'a>,
    found: &mut Vec<Change<'a>>,
) -> Result<(), AllocError>
where
    'a: 'd,
    requires { AreCompared documents }
    ensures { OnOk result (all_changes found.new.items ≡ all_changes found.old.items
        ++ specs.operation_changes (noted origins.now) number (view documents.entry.own.now) (view documents.entry.merged.now)
        (operation_of operation.entry)) }
{
    if !comes_from(origins, operation.place, number) {
        return Ok(());
    }
    let Some(merged) = standing_at(operation.place, documents.merged) else {
        return Ok(());
    };
    let own = Standing {
        document: documents.own,
        path_item: operation.path_item,
        operation: operation.value,
    };
    put_differences(
        alloc,
        documents,
        number,
        operation.place,
        own,
        merged,
        found,
    )
}

/// Adds what differs of some operations of the document of the number. Fails where memory runs out.
fn put_operations<'a, 'd>(
    alloc: Global,
    origins: &BTreeMap<OperationPlace<'a>, usize>,
    documents: Compared<'d>,
    number: usize,
    operations: &Vec<Operation<'a>>,
    found: &mut Vec<Change<'a>>,
) -> Result<(), AllocError>
where
    'a: 'd,
    requires { AreCompared documents }
    ensures { OnOk result (all_changes found.new.items ≡ all_changes found.old.items
        ++ flat_map (specs.operation_changes (noted origins.now) number (view documents.entry.own.now) (view documents.entry.merged.now))
        (all_operations operations.now.items)) }
{
    for operation in operations {
        put_operation(alloc, origins, documents, number, *operation, found)?;
    }
    Ok(())
}

/// The servers where nothing is said of servers: one, whose `url` is `/`. Fails where memory runs out.
fn default_servers(alloc: Global) -> Result<Value, AllocError>
    ensures { IfOk result (λ v. view v ≡ servers_by_default) }
{
    let mut server = Map::new(alloc);
    let url = String::from_str(alloc, "/")?;
    drop(server.insert(String::from_str(alloc, "url")?, Value::String(url))?);
    Ok(Value::Array(vec![in alloc; Value::Object(server)]?))
}

/// What differs of the operations of some documents. Fails where memory runs out.
fn changes_of<'a, 'd>(
    alloc: Global,
    origins: &BTreeMap<OperationPlace<'a>, usize>,
    documents: &'a [Value],
    merged: &'d Value,
    no_security: &'d Value,
    default_servers: &'d Value,
) -> Result<Vec<Change<'a>>, AllocError>
where
    'a: 'd,
    requires security { view no_security.now ≡ nothing_demanded }
    requires servers { view default_servers.now ≡ servers_by_default }
    ensures { IfOk result (λ v. all_changes v.items
        ≡ specs.changes_from (noted origins.now) 0 (trees_of documents.now) (view merged.now)) }
{
    let mut found = Vec::new(alloc);
    for (number, document) in documents.iter().enumerate() {
        let compared = compare(document, merged, no_security, default_servers);
        let listed = operations(alloc, document)?;
        put_operations(alloc, origins, compared, number, &listed, &mut found)?;
    }
    Ok(found)
}

/// What is changed of the meaning of operations where OpenAPI documents are merged, given as trees, by the tree that they were merged into: the
/// security that is in effect for an operation, its servers and its parameters, with what it has of them from its path item and from its
/// document. They come document by document, and in each in the order of its paths and of the members of their items. Fails where memory runs
/// out.
///
/// An operation comes from the first document that has one of its path and method, and is compared where it stands in the merged tree. Each
/// difference is told, and nothing else is. Trees are the same as [`is_same`](utoipa_conflicts::is_same) has it: alternatives of security or
/// servers in another order differ.
///
/// What documents say for all their operations is compared once. What path items say is compared for each of their operations.
pub fn changed_meanings<'a>(
    alloc: Global,
    documents: &'a [Value],
    merged: &'a Value,
) -> Result<Vec<Change<'a>>, AllocError>
    ensures { IfOk result (λ v. all_changes v.items ≡ specs.changed_meanings (trees_of documents.now) (view merged.now)) }
{
    let origins = origins(alloc, documents)?;
    let no_security = Value::Array(Vec::new(alloc));
    let default_servers = default_servers(alloc)?;
    let found = changes_of(
        alloc,
        &origins,
        documents,
        merged,
        &no_security,
        &default_servers,
    )?;
    Ok(found)
}
