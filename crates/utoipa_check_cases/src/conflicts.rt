//! The calls that tell what is dropped where documents are merged, and where one is nested into another.

use crate::told::told;
use serde_json::Value;
use std::alloc::{AllocError, Global};
use utoipa_conflicts::{tree_conflicts, tree_nested_conflicts, tree_nested_paths};

/// What is dropped where the documents of a list are merged.
pub(crate) fn conflicts_of_text(alloc: Global, text: &str) -> Result<String, AllocError> {
    match Value::from_str(alloc, text) {
        Ok(Value::Array(trees)) => told(alloc, &tree_conflicts(alloc, &trees)?),
        _ => String::from_str(alloc, "no list"),
    }
}

/// What is dropped where the second document of a list is nested into the first, and its third item has the answers to the nested paths.
pub(crate) fn nested_conflicts_of_text(alloc: Global, text: &str) -> Result<String, AllocError> {
    let Ok(call) = Value::from_str(alloc, text) else {
        return String::from_str(alloc, "no JSON");
    };
    match (call.get(0), call.get(1), call.get(2)) {
        (Some(own), Some(nested), Some(Value::Array(answers))) => {
            let answers = texts(alloc, answers)?;
            if answers.len() != tree_nested_paths(alloc, nested)?.len() {
                return String::from_str(alloc, "not one answer to each path");
            }
            told(alloc, &tree_nested_conflicts(alloc, own, nested, &answers)?)
        }
        _ => String::from_str(alloc, "no list of two documents and answers"),
    }
}

// The texts among some trees.
fn texts(alloc: Global, trees: &[Value]) -> Result<Vec<String>, AllocError> {
    let mut texts = Vec::new(alloc);
    for tree in trees {
        if let Some(text) = tree.as_str() {
            texts.push(String::from_str(alloc, text)?)?;
        }
    }
    Ok(texts)
}
