//! The operations of a document.
ghost use Rattle.std.specs.Prelude.{◌≡◌, ◌++◌, ◌∷◌, [], IfOk, OnOk, codes, option_map};
ghost use Rattle.serde_json.specs.Find.{get};
ghost use Rattle.serde_json.specs.View.{view, members_view};
ghost use Rattle.utoipa_base.specs.EachMember.{each_member};
ghost use Rattle.utoipa_outline.specs.Operations as specs;
ghost use Rattle.utoipa_outline.specs.Views.{all_operations};

use serde_json::{Map, Value};
use std::alloc::{AllocError, Global};
use utoipa_base::is_extension_name;

/// An operation of a document.
#[derive(Clone, Copy, Drop)]
pub struct Operation<'a> {
    /// The method as HTTP has it.
    pub method: &'a str,
    /// The path, or the name of the webhook.
    pub path: &'a str,
    /// The Operation Object (OpenAPI 3.1, section 4.8.10).
    pub value: &'a Value,
}

/// The method of a member of a path item, as HTTP has it, where the member is an operation.
fn method_of(name: &str) -> Option<&'static str>
    ensures { option_map (λ v. v.now) result ≡ specs.method_of name.now }
{
    match name {
        "get" => Some("GET"),
        "put" => Some("PUT"),
        "post" => Some("POST"),
        "delete" => Some("DELETE"),
        "options" => Some("OPTIONS"),
        "head" => Some("HEAD"),
        "patch" => Some("PATCH"),
        "trace" => Some("TRACE"),
        "query" => Some("QUERY"),
        _ => None,
    }
}

/// Adds an operation. Fails where memory runs out.
fn push_operation<'a>(
    found: &mut Vec<Operation<'a>>,
    method: &'a str,
    path: &'a str,
    value: &'a Value,
) -> Result<(), AllocError>
    ensures { OnOk result (all_operations found.new.items
        ≡ all_operations found.old.items ++ specs.operation method.entry.now path.entry.now (view value.now)) }
{
    found.push(Operation {
        method,
        path,
        value,
    })?;
    Ok(())
}

/// Adds the entries of `additionalOperations` of the item at a path. Fails where memory runs out.
fn push_additional<'a>(
    found: &mut Vec<Operation<'a>>,
    path: &'a str,
    entries: &'a Map<String, Value>,
) -> Result<(), AllocError>
    ensures { OnOk result (all_operations found.new.items ≡ all_operations found.old.items
        ++ each_member (λ method d. specs.operation method path.now d) (members_view entries.now.entries)) }
{
    for (method, value) in entries.iter() {
        push_operation(found, method.as_str(), path, value)?;
    }
    Ok(())
}

/// Adds the operations of a member of the item at a path. Fails where memory runs out.
fn push_member<'a>(
    found: &mut Vec<Operation<'a>>,
    path: &'a str,
    name: &'a str,
    member: &'a Value,
) -> Result<(), AllocError>
    ensures { OnOk result (all_operations found.new.items
        ≡ all_operations found.old.items ++ specs.member_operations path.now name.now (view member.now)) }
{
    if let Some(method) = method_of(name) {
        return push_operation(found, method, path, member);
    }
    match member {
        Value::Object(entries) if name == "additionalOperations" => {
            push_additional(found, path, entries)
        }
        _ => Ok(()),
    }
}

/// Adds the operations of the item at a path. Fails where memory runs out.
fn push_item<'a>(
    found: &mut Vec<Operation<'a>>,
    path: &'a str,
    item: &'a Map<String, Value>,
) -> Result<(), AllocError>
    ensures { OnOk result (all_operations found.new.items ≡ all_operations found.old.items
        ++ each_member (specs.member_operations path.now) (members_view item.now.entries)) }
{
    for (name, member) in item.iter() {
        push_member(found, path, name.as_str(), member)?;
    }
    Ok(())
}

/// Adds the operations of an entry of `paths`. Fails where memory runs out.
fn push_entry<'a>(
    found: &mut Vec<Operation<'a>>,
    path: &'a str,
    entry: &'a Value,
) -> Result<(), AllocError>
    ensures { OnOk result (all_operations found.new.items
        ≡ all_operations found.old.items ++ specs.entry_operations path.now (view entry.now)) }
{
    if is_extension_name(path) {
        return Ok(());
    }
    match entry {
        Value::Object(item) => push_item(found, path, item),
        _ => Ok(()),
    }
}

/// Adds the operations of `paths`, or of `webhooks`. Fails where memory runs out.
fn push_entries<'a>(
    found: &mut Vec<Operation<'a>>,
    paths: &'a Map<String, Value>,
) -> Result<(), AllocError>
    ensures { OnOk result (all_operations found.new.items ≡ all_operations found.old.items
        ++ each_member specs.entry_operations (members_view paths.now.entries)) }
{
    for (path, entry) in paths.iter() {
        push_entry(found, path.as_str(), entry)?;
    }
    Ok(())
}

/// Adds the operations of a member of a document: of `paths`, or of `webhooks`. Fails where memory runs out.
fn push_paths<'a>(
    found: &mut Vec<Operation<'a>>,
    paths: Option<&'a Value>,
) -> Result<(), AllocError>
    ensures { OnOk result (all_operations found.new.items ≡ all_operations found.old.items
        ++ specs.operations_in (option_map (λ v. view v.now) paths.entry)) }
{
    match paths {
        Some(Value::Object(entries)) => push_entries(found, entries),
        _ => Ok(()),
    }
}

/// The operations of a document's paths, and then those of its webhooks, each in the order of the members. Fails where memory runs out.
pub fn operations<'a>(alloc: Global, document: &'a Value) -> Result<Vec<Operation<'a>>, AllocError>
    ensures { IfOk result (λ v. all_operations v.items ≡ specs.operations (view document.now)) }
{
    let mut found = Vec::new(alloc);
    push_paths(&mut found, document.get("paths"))?;
    push_paths(&mut found, document.get("webhooks"))?;
    Ok(found)
}
