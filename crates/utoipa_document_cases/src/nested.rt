//! Operations that nest deeper than a text can nest them: each holds a callback, which holds a path item, which holds the next.

use std::alloc::{AllocError, Global};
use std::collections::BTreeMap;
use utoipa_base::{RefOr, Tree, beside};
use utoipa_case_kit::printed;
use utoipa_leaf::path::HttpMethod;
use utoipa_path::{Callback, Operation, PathItem};

/// `true`, where an operation inside so many callbacks, as the text tells, is copied, written and printed as what it is.
pub fn callbacks_kept(alloc: Global, depth: &str) -> Result<String, AllocError> {
    match depth.parse::<u64>() {
        Ok(depth) => {
            let text = text_of(alloc, depth)?;
            let kept = is_kept(alloc, nested(alloc, depth)?, text.as_str())?;
            String::from_str(alloc, if kept { "true" } else { "false" })
        }
        Err(_) => String::from_str(alloc, "no number"),
    }
}

// Whether a copy of the value, which is let go before, is written and printed as the text.
fn is_kept<T: Tree>(alloc: Global, value: T, text: &str) -> Result<bool, AllocError> {
    let copy = value.try_clone(alloc)?;
    drop(value);
    Ok(printed(alloc, &copy)?.as_str() == text)
}

// An operation with no response inside so many others, each around a callback of its own.
fn nested(alloc: Global, depth: u64) -> Result<Operation, AllocError> {
    let mut operation = Operation::new(alloc);
    for _ in 0..depth {
        operation = around(alloc, operation)?;
    }
    Ok(operation)
}

// An operation with one callback `c`, of one expression `e`, which is got by another operation.
fn around(alloc: Global, operation: Operation) -> Result<Operation, AllocError> {
    let (operation, expression) = beside(operation, String::from_str(alloc, "e"))?;
    let (operation, name) = beside(operation, String::from_str(alloc, "c"))?;
    let item = PathItem::new(alloc, HttpMethod::Get, operation);
    let callback = one_entry(alloc, expression, RefOr::T(item))?;
    with_callback(alloc, name, callback)
}

fn one_entry<T: Drop>(
    alloc: Global,
    name: String,
    value: T,
) -> Result<BTreeMap<String, T>, AllocError> {
    let mut map = BTreeMap::new(alloc);
    drop(map.insert(name, value)?);
    Ok(map)
}

fn with_callback(alloc: Global, name: String, callback: Callback) -> Result<Operation, AllocError> {
    match Operation::builder(alloc).callback(name, RefOr::T(callback)) {
        Ok(builder) => Ok(builder.build()),
        Err(refused) => Err(refused),
    }
}

// What the operation is written as.
fn text_of(alloc: Global, depth: u64) -> Result<String, AllocError> {
    let mut text = String::new(alloc);
    for _ in 0..depth {
        text.push_str(r#"{"callbacks":{"c":{"e":{"get":"#)?;
    }
    text.push_str(r#"{"responses":{}}"#)?;
    for _ in 0..depth {
        text.push_str(r#"}}},"responses":{}}"#)?;
    }
    Ok(text)
}
