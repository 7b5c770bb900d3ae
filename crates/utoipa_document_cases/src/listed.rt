//! The operations of a document's paths, and the one of an id.

use crate::merged::read_text;
use std::alloc::{AllocError, Global};
use utoipa::openapi::OpenApi;
use utoipa::openapi::path::PathOperation;
use utoipa_case_kit::refused;

/// The operations of the paths of a document: of each the method, the path and the id, if it has one, with `; ` behind it; `none` where there is none.
pub fn operations_of(alloc: Global, text: &str) -> Result<String, AllocError> {
    match read_text::<OpenApi>(alloc, text) {
        Ok(document) => listed(alloc, &document),
        Err(fault) => refused(alloc, &fault),
    }
}

fn listed(alloc: Global, document: &OpenApi) -> Result<String, AllocError> {
    let mut list = String::new(alloc);
    for operation in &document.operations(alloc)? {
        put(&mut list, operation)?;
    }
    if list.is_empty() {
        list.push_str("none")?;
    }
    Ok(list)
}

fn put(list: &mut String, operation: &PathOperation<'_>) -> Result<(), AllocError> {
    let method = operation.method.as_text();
    let path = operation.path;
    match &operation.operation.operation_id {
        Some(id) => write!(list, "{method} {path} {id}; "),
        None => write!(list, "{method} {path}; "),
    }
}

/// The method and the path of the operation of an id; `none` where the document has none.
pub fn operation_of_id(alloc: Global, id: &str, text: &str) -> Result<String, AllocError> {
    match read_text::<OpenApi>(alloc, text) {
        Ok(document) => found(alloc, &document, id),
        Err(fault) => refused(alloc, &fault),
    }
}

fn found(alloc: Global, document: &OpenApi, id: &str) -> Result<String, AllocError> {
    let mut answer = String::new(alloc);
    match document.operation_by_id(id) {
        Some(operation) => put(&mut answer, &operation)?,
        None => answer.push_str("none")?,
    }
    Ok(answer)
}
