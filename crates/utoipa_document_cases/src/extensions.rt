//! Values printed with extensions of any names.

use crate::extended::Extended;
use serde_json::Value;
use std::alloc::{AllocError, Global};
use utoipa::openapi::OpenApi;
use utoipa_base::Extensions;
use utoipa_case_kit::{printed, refused, two_trees};
use utoipa_components::Components;
use utoipa_path::{Operation, PathItem};
use utoipa_paths::Paths;

/// What a value of the type of that name prints, of two texts with a tab between them: that of the value, and that of an
/// object whose members are its extensions.
pub fn printed_with_extensions(
    alloc: Global,
    name: &str,
    texts: &str,
) -> Result<String, AllocError> {
    match two_trees(alloc, texts) {
        Ok((tree, extensions)) => with_members(alloc, name, &tree, extensions),
        Err(lacking) => String::from_str(alloc, lacking),
    }
}

// The same of a tree, and of the object whose members are the extensions.
fn with_members(
    alloc: Global,
    name: &str,
    tree: &Value,
    extensions: Value,
) -> Result<String, AllocError> {
    match extensions {
        Value::Object(members) => {
            let extensions = Extensions::from_pairs(alloc, members.into_iter())?;
            of_tree(alloc, name, tree, extensions)
        }
        _ => String::from_str(alloc, "no object"),
    }
}

fn of_tree(
    alloc: Global,
    name: &str,
    tree: &Value,
    extensions: Extensions,
) -> Result<String, AllocError> {
    match name {
        "Operation" => with_extensions::<Operation>(alloc, tree, extensions),
        "PathItem" => with_extensions::<PathItem>(alloc, tree, extensions),
        "Paths" => with_extensions::<Paths>(alloc, tree, extensions),
        "OpenApi" => with_extensions::<OpenApi>(alloc, tree, extensions),
        "Components" => with_extensions::<Components>(alloc, tree, extensions),
        _ => String::from_str(alloc, "no such type"),
    }
}

fn with_extensions<T: Extended>(
    alloc: Global,
    tree: &Value,
    extensions: Extensions,
) -> Result<String, AllocError> {
    match T::from_value(alloc, tree) {
        Ok(value) => {
            let mut value = value;
            value.set_extensions(extensions);
            printed(alloc, &value)
        }
        Err(fault) => refused(alloc, &fault),
    }
}
