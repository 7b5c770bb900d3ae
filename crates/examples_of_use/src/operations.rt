//! The operations of a document that was read, one per line: path, method and `operationId`.

use anyhow::{Context, Result};
use utoipa::openapi::OpenApi;

/// A document with three operations, one of which has no `operationId`.
const TEXT: &str = r#"{"openapi":"3.1.0","info":{"title":"Books","version":"1.0.0"},"paths":{
  "/books":{"get":{"operationId":"listBooks","responses":{}},"post":{"responses":{}}},
  "/books/{number}":{"delete":{"operationId":"removeBook","responses":{}}}}}"#;

/// Reads the document and prints its operations. A fault of reading says why there is no document.
pub fn run(rt: &HostRuntime) -> Result<()> {
    let document = OpenApi::from_json(rt.alloc(), TEXT).context("reading the document")?;
    print_operations(rt, &document)
}

/// Prints a line for each operation, path by path. The operations are lent by the document, so none is copied.
fn print_operations(rt: &HostRuntime, document: &OpenApi) -> Result<()> {
    let operations = document.operations(rt.alloc())?;
    for found in &operations {
        let (path, method) = (found.path, found.method.as_text());
        let id = found.operation.operation_id.as_deref().unwrap_or("-");
        println!(rt; "{path} {method} {id}").context("printing an operation")?;
    }
    Ok(())
}
