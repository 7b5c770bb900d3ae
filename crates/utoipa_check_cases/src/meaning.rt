//! The call that tells what merging changes of the meaning of operations.

use crate::told::told;
use serde_json::Value;
use std::alloc::{AllocError, Global};
use utoipa_meaning::changed_meanings;

/// What is changed of the meaning of operations, where the documents of the first item of a list were merged into the second.
pub(crate) fn changed_meanings_of_text(alloc: Global, text: &str) -> Result<String, AllocError> {
    let Ok(call) = Value::from_str(alloc, text) else {
        return String::from_str(alloc, "no JSON");
    };
    match (call.get(0), call.get(1)) {
        (Some(Value::Array(documents)), Some(merged)) => {
            told(alloc, &changed_meanings(alloc, documents, merged)?)
        }
        _ => String::from_str(alloc, "no list of documents and a merged one"),
    }
}
