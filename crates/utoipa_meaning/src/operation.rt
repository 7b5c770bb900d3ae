//! The operations under the paths of a document, each with the path item that it stands in.
ghost use Rattle.std.specs.Prelude.{◌≡◌, ◌++◌, [], IfOk, OnOk, option_map};
ghost use Rattle.serde_json.specs.View.{view, members_view};
ghost use Rattle.utoipa_base.specs.EachMember.{each_member};
ghost use Rattle.utoipa_check.specs.Views.{outwards};
ghost use Rattle.utoipa_conflicts.specs.Conflicts.{is_method as names_method};
ghost use Rattle.utoipa_meaning.specs.Operations as specs;
ghost use Rattle.utoipa_meaning.specs.Views.{place_of, all_operations};

use serde_json::{Map, Value};
use std::alloc::{AllocError, Global};
use utoipa_base::is_extension_name;
use utoipa_check::{Pointer, Step};

/// Where an operation stands under the paths of a document.
#[derive(Clone, Copy, PartialEq, Eq, PartialOrd, Ord, Drop)]
pub enum OperationPlace<'a> {
    /// The member of this name, a method, of the item at a path (Path Item Object: OpenAPI 3.1, section 4.8.9).
    Method(&'a str, &'a str),
    /// The operation of this method in `additionalOperations` of the item at a path (from 3.2).
    Additional(&'a str, &'a str),
}

/// An operation of a document.
#[derive(Clone, Copy, Drop)]
pub struct Operation<'a> {
    /// Where it stands.
    pub place: OperationPlace<'a>,
    /// The path item that it stands in.
    pub path_item: &'a Value,
    /// The Operation Object (OpenAPI 3.1, section 4.8.10).
    pub value: &'a Value,
}

impl<'a> OperationPlace<'a> {
    /// The JSON Pointer (RFC 6901) of the operation. Fails where memory runs out.
    pub fn pointer(self, alloc: Global) -> Result<Pointer<'a>, AllocError>
        ensures { IfOk result (λ p. outwards p.steps.items [] ≡ specs.steps_to (place_of self.entry)) }
    {
        let paths = Step::Name("paths");
        let steps = match self {
            OperationPlace::Method(path, method) => {
                vec![in alloc; Step::Name(method), Step::Name(path), paths]?
            }
            OperationPlace::Additional(path, method) => {
                let more = Step::Name("additionalOperations");
                vec![in alloc; Step::Name(method), more, Step::Name(path), paths]?
            }
        };
        Ok(Pointer { steps })
    }
}

/// Whether a member of a path item is an operation.
fn is_method(name: &str) -> bool
    ensures { result ≡ names_method name.now }
{
    match name {
        "get" | "put" | "post" | "delete" | "options" | "head" | "patch" | "trace" | "query" =>
            true,
        _ => false,
    }
}

/// Adds an operation. Fails where memory runs out.
fn push_operation<'a>(
    found: &mut Vec<Operation<'a>>,
    place: OperationPlace<'a>,
    path_item: &'a Value,
    value: &'a Value,
) -> Result<(), AllocError>
    ensures { OnOk result (all_operations found.new.items
        ≡ all_operations found.old.items ++ specs.one_operation (place_of place.entry) (view path_item.now) (view value.now)) }
{
    found.push(Operation {
        place,
        path_item,
        value,
    })?;
    Ok(())
}

/// Adds the entries of `additionalOperations` of the item at a path. Fails where memory runs out.
fn push_additional<'a>(
    found: &mut Vec<Operation<'a>>,
    path: &'a str,
    path_item: &'a Value,
    entries: &'a Map<String, Value>,
) -> Result<(), AllocError>
    ensures { OnOk result (all_operations found.new.items ≡ all_operations found.old.items
        ++ each_member (λ method e. specs.one_operation (specs.additional_at path.now method) (view path_item.now) e)
        (members_view entries.now.entries)) }
{
    for (method, value) in entries.iter() {
        let place = OperationPlace::Additional(path, method.as_str());
        push_operation(found, place, path_item, value)?;
    }
    Ok(())
}

/// Adds the operations of a member of the item at a path. Fails where memory runs out.
fn push_member<'a>(
    found: &mut Vec<Operation<'a>>,
    path: &'a str,
    path_item: &'a Value,
    name: &'a str,
    member: &'a Value,
) -> Result<(), AllocError>
    ensures { OnOk result (all_operations found.new.items ≡ all_operations found.old.items
        ++ specs.member_operations path.now (view path_item.now) name.now (view member.now)) }
{
    if is_method(name) {
        return push_operation(found, OperationPlace::Method(path, name), path_item, member);
    }
    match member {
        Value::Object(entries) if name == "additionalOperations" => {
            push_additional(found, path, path_item, entries)
        }
        _ => Ok(()),
    }
}

/// Adds the operations of the item at a path. Fails where memory runs out.
fn push_item<'a>(
    found: &mut Vec<Operation<'a>>,
    path: &'a str,
    path_item: &'a Value,
    members: &'a Map<String, Value>,
) -> Result<(), AllocError>
    ensures { OnOk result (all_operations found.new.items ≡ all_operations found.old.items
        ++ each_member (specs.member_operations path.now (view path_item.now)) (members_view members.now.entries)) }
{
    for (name, member) in members.iter() {
        push_member(found, path, path_item, name.as_str(), member)?;
    }
    Ok(())
}

/// Adds the operations of an entry of `paths`. Fails where memory runs out.
fn push_entry<'a>(
    found: &mut Vec<Operation<'a>>,
    path: &'a str,
    entry: &'a Value,
) -> Result<(), AllocError>
    ensures { OnOk result (all_operations found.new.items
        ≡ all_operations found.old.items ++ specs.entry_operations path.now (view entry.now)) }
{
    if is_extension_name(path) {
        return Ok(());
    }
    match entry {
        Value::Object(members) => push_item(found, path, entry, members),
        _ => Ok(()),
    }
}

/// Adds the operations of `paths`. Fails where memory runs out.
fn push_entries<'a>(
    found: &mut Vec<Operation<'a>>,
    paths: &'a Map<String, Value>,
) -> Result<(), AllocError>
    ensures { OnOk result (all_operations found.new.items ≡ all_operations found.old.items
        ++ each_member specs.entry_operations (members_view paths.now.entries)) }
{
    for (path, entry) in paths.iter() {
        push_entry(found, path.as_str(), entry)?;
    }
    Ok(())
}

/// Adds the operations of the member `paths` of a document. Fails where memory runs out.
fn push_paths<'a>(
    found: &mut Vec<Operation<'a>>,
    paths: Option<&'a Value>,
) -> Result<(), AllocError>
    ensures { OnOk result (all_operations found.new.items
        ≡ all_operations found.old.items ++ specs.operations_in (option_map (λ v. view v.now) paths.entry)) }
{
    match paths {
        Some(Value::Object(entries)) => push_entries(found, entries),
        _ => Ok(()),
    }
}

/// The operations under the paths of a document, in the order of the members. Fails where memory runs out.
pub fn operations<'a>(alloc: Global, document: &'a Value) -> Result<Vec<Operation<'a>>, AllocError>
    ensures { IfOk result (λ v. all_operations v.items ≡ specs.operations (view document.now)) }
{
    let mut found = Vec::new(alloc);
    push_paths(&mut found, document.get("paths"))?;
    Ok(found)
}
