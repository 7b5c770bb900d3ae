//! The calls that tell what of a tree is not in what it is written as.

use crate::told::told;
use serde_json::Value;
use std::alloc::{AllocError, Global};
use utoipa_base::Tree;
use utoipa_case_kit::{refused, two_trees};
use utoipa_check::{dropped_between, dropped_by};
use utoipa_leaf::external_docs::ExternalDocs;
use utoipa_leaf::info::{Contact, Info, License};
use utoipa_leaf::server::Server;
use utoipa_leaf::tag::Tag;

/// What the second of two trees lacks of the first.
pub(crate) fn between(alloc: Global, texts: &str) -> Result<String, AllocError> {
    match two_trees(alloc, texts) {
        Ok((tree, written)) => {
            let places = dropped_between(alloc, &tree, &written)?;
            told(alloc, &places)
        }
        Err(fault) => String::from_str(alloc, fault),
    }
}

/// What a text loses as a document of a type.
pub(crate) fn dropped_of_text(alloc: Global, name: &str, text: &str) -> Result<String, AllocError> {
    match Value::from_str(alloc, text) {
        Ok(tree) => dropped_of_type(alloc, name, &tree),
        Err(_) => String::from_str(alloc, "no tree"),
    }
}

fn dropped_of_type(alloc: Global, name: &str, tree: &Value) -> Result<String, AllocError> {
    match name {
        "Contact" => dropped_of::<Contact>(alloc, tree),
        "ExternalDocs" => dropped_of::<ExternalDocs>(alloc, tree),
        "Info" => dropped_of::<Info>(alloc, tree),
        "License" => dropped_of::<License>(alloc, tree),
        "Server" => dropped_of::<Server>(alloc, tree),
        "Tag" => dropped_of::<Tag>(alloc, tree),
        _ => String::from_str(alloc, "no such type"),
    }
}

fn dropped_of<T: Tree>(alloc: Global, tree: &Value) -> Result<String, AllocError> {
    match dropped_by::<T>(alloc, tree) {
        Ok(places) => told(alloc, &places),
        Err(fault) => refused(alloc, &fault),
    }
}
