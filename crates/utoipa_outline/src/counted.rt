//! What is counted of a document.
ghost use Rattle.std.specs.Prelude.{◌≡◌, ◌++◌, ◌&&◌, not, IfOk, OnOk, map, option_map};
ghost use Rattle.std.specs.List.{flat_map};
ghost use Rattle.std.specs.BTreeSet.{contains_text};
ghost use Rattle.serde_json.specs.View.{view, members_view};
ghost use Rattle.utoipa_base.specs.EachMember.{each_member};
ghost use Rattle.utoipa_check.specs.Pointers.{escaped};
ghost use Rattle.utoipa_check.specs.References.{references};
ghost use Rattle.utoipa_outline.specs.Counted as specs;
ghost use Rattle.utoipa_outline.specs.Used.{is_used};
ghost use Rattle.utoipa_outline.specs.Views.{texts_of};
ghost use Rattle.utoipa_tables.specs.Tables.{kind_of};

use crate::used::used_tokens;
use serde_json::{Map, Value};
use std::alloc::{AllocError, Global};
use std::collections::BTreeSet;
use utoipa_base::is_extension_name;
use utoipa_check::Step;
use utoipa_tables::Kind;

/// Adds the names of the members that are no extensions. Fails where memory runs out.
fn push_names<'a>(
    names: &mut Vec<&'a str>,
    members: &'a Map<String, Value>,
) -> Result<(), AllocError>
    ensures { OnOk result (texts_of names.new.items
        ≡ texts_of names.old.items ++ each_member specs.path_name (members_view members.now.entries)) }
{
    for (name, _) in members.iter() {
        if !is_extension_name(name) {
            names.push(name.as_str())?;
        }
    }
    Ok(())
}

/// The paths of `paths`, or the names of `webhooks`. Fails where memory runs out.
pub fn path_names<'a>(alloc: Global, paths: Option<&'a Value>) -> Result<Vec<&'a str>, AllocError>
    ensures { IfOk result (λ v. texts_of v.items ≡ specs.path_names (option_map (λ t. view t.now) paths.entry)) }
{
    let mut names = Vec::new(alloc);
    if let Some(Value::Object(members)) = paths {
        push_names(&mut names, members)?;
    }
    Ok(names)
}

/// Adds the names of all members. Fails where memory runs out.
fn push_all_names<'a>(
    names: &mut Vec<&'a str>,
    members: &'a Map<String, Value>,
) -> Result<(), AllocError>
    ensures { OnOk result (texts_of names.new.items
        ≡ texts_of names.old.items ++ each_member specs.any_name (members_view members.now.entries)) }
{
    for (name, _) in members.iter() {
        names.push(name.as_str())?;
    }
    Ok(())
}

/// The map of the schemas of a document's components, where it has one.
fn schemas_of(document: &Value) -> Option<&Value>
    ensures { option_map (λ t. view t.now) result ≡ specs.schemas_of (view document.now) }
{
    match document.get("components") {
        Some(components) => components.get("schemas"),
        None => None,
    }
}

/// The names of the schemas of such a map. Fails where memory runs out.
fn names_of<'a>(alloc: Global, schemas: Option<&'a Value>) -> Result<Vec<&'a str>, AllocError>
    ensures { IfOk result (λ v. texts_of v.items ≡ specs.all_names (option_map (λ t. view t.now) schemas.entry)) }
{
    let mut names = Vec::new(alloc);
    if let Some(Value::Object(members)) = schemas {
        push_all_names(&mut names, members)?;
    }
    Ok(names)
}

/// The names of the schemas of a document's components. Fails where memory runs out.
pub fn schema_names<'a>(alloc: Global, document: &'a Value) -> Result<Vec<&'a str>, AllocError>
    ensures { IfOk result (λ v. texts_of v.items ≡ specs.schema_names (view document.now)) }
{
    let schemas = schemas_of(document);
    names_of(alloc, schemas)
}

/// Whether a name is among those that are used, which are as a JSON Pointer has them. Fails where memory runs out.
fn is_among(alloc: Global, name: &str, used: &BTreeSet<String>) -> Result<bool, AllocError>
    ensures { IfOk result (λ found. found ≡ contains_text used.now (escaped name.now)) }
{
    let step = Step::Name(name);
    let token = format!(in alloc; "{step}")?;
    Ok(used.contains(token.as_str()))
}

/// The schemas of a document's components, by their names, each list in the order of the members.
#[derive(Drop)]
pub struct NamesByUse<'a> {
    /// Those that a reference of the document leads to, or into.
    pub used: Vec<&'a str>,
    /// The others.
    pub unused: Vec<&'a str>,
}

/// Puts a name to those that are used, or to the others. Fails where memory runs out.
fn put_name<'a>(
    alloc: Global,
    name: &'a str,
    used: &BTreeSet<String>,
    found: &mut NamesByUse<'a>,
) -> Result<(), AllocError>
    ensures used { OnOk result (texts_of found.new.used.items
        ≡ texts_of found.old.used.items ++ specs.if_so (contains_text used.now (escaped name.entry.now)) name.entry.now) }
    ensures unused { OnOk result (texts_of found.new.unused.items
        ≡ texts_of found.old.unused.items ++ specs.if_so (not (contains_text used.now (escaped name.entry.now))) name.entry.now) }
{
    if is_among(alloc, name, used)? {
        found.used.push(name)?;
    } else {
        found.unused.push(name)?;
    }
    Ok(())
}

/// Some names, by whether they are used. Fails where memory runs out.
fn by_use<'a>(
    alloc: Global,
    names: &[&'a str],
    used: &BTreeSet<String>,
) -> Result<NamesByUse<'a>, AllocError>
    ensures used { IfOk result (λ v. texts_of v.used.items ≡ flat_map
        (λ name. specs.if_so (contains_text used.now (escaped name)) name) (texts_of names.now)) }
    ensures unused { IfOk result (λ v. texts_of v.unused.items
        ≡ flat_map (λ name. specs.if_so (not (contains_text used.now (escaped name))) name) (texts_of names.now)) }
{
    let mut found = NamesByUse {
        used: Vec::new(alloc),
        unused: Vec::new(alloc),
    };
    for name in names {
        put_name(alloc, name, used, &mut found)?;
    }
    Ok(found)
}

/// The schemas of the components of a document of a kind, by whether the document refers to them, or into them. Fails where memory runs out.
pub fn schemas<'a>(
    alloc: Global,
    kind: Kind,
    document: &'a Value,
) -> Result<NamesByUse<'a>, AllocError>
    ensures used { IfOk result (λ v. texts_of v.used.items ≡ specs.used_schemas (kind_of kind) (view document.now)) }
    ensures unused { IfOk result (λ v. texts_of v.unused.items
        ≡ specs.unused_schemas (kind_of kind) (view document.now)) }
{
    let names = schema_names(alloc, document)?;
    let used = used_tokens(alloc, kind, document)?;
    by_use(alloc, &names, &used)
}
