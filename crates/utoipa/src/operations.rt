//! The operations of a document's paths.
ghost use Rattle.std.specs.Prelude.{◌≡◌, ◌++◌, IfOk, OnOk, option_map};
ghost use Rattle.utoipa_path.specs.Operations.{keyed};
ghost use Rattle.utoipa.specs.Operations.{located, located_of, all_located, operations_at, document_operations, first_located};

use crate::document::OpenApi;
use std::alloc::{AllocError, Global};
use utoipa_path::{ItemOperation, Operation, OperationMethod, PathItem};

/// An operation of a path of a document.
#[derive(Clone, Copy, Debug, Drop)]
pub struct PathOperation<'a> {
    /// The path.
    pub path: &'a str,
    /// The key under which the operation stands in the item of the path: its method.
    pub method: OperationMethod<'a>,
    /// The operation.
    pub operation: &'a Operation,
}

impl OpenApi {
    /// The operations of all paths (OpenAPI 3.1, section 4.8.8), in the order of the map of the paths, and those of a path as
    /// [`PathItem::operations`] lists them. The operations of webhooks and of callbacks are not among them, and a `$ref` of a path's item
    /// is not followed.
    ///
    /// Fails where memory runs out.
    pub fn operations(&self, alloc: Global) -> Result<Vec<PathOperation<'_>>, AllocError>
        ensures { IfOk result (λ v. all_located v.items ≡ document_operations self.now) }
    {
        let mut found = Vec::new(alloc);
        for (path, item) in &self.paths.paths {
            push_operations(&mut found, alloc, path.as_str(), item)?;
        }
        Ok(found)
    }

    /// The operation whose `operationId` (OpenAPI 3.1, section 4.8.10) is this text, the first in the order of [`OpenApi::operations`],
    /// where the document has one. Takes no memory.
    pub fn operation_by_id(&self, operation_id: &str) -> Option<PathOperation<'_>>
        ensures { option_map located_of result ≡ first_located operation_id.now (document_operations self.now) }
    {
        for (path, item) in &self.paths.paths {
            if let Some(found) = item.operation_by_id(operation_id) {
                return Some(at_path(path.as_str(), found));
            }
        }
        None
    }
}

/// An operation of the item at a path.
fn at_path<'a>(path: &'a str, operation: ItemOperation<'a>) -> PathOperation<'a>
    ensures { located_of result ≡ located path.entry.now (keyed operation.entry) }
{
    let ItemOperation { method, operation } = operation;
    PathOperation {
        path,
        method,
        operation,
    }
}

/// Adds the operations of the item at a path. Fails where memory runs out.
fn push_operations<'a>(
    found: &mut Vec<PathOperation<'a>>,
    alloc: Global,
    path: &'a str,
    item: &'a PathItem,
) -> Result<(), AllocError>
    ensures { OnOk result (all_located found.new.items
        ≡ all_located found.old.items ++ operations_at path.entry.now item.now) }
{
    let operations = item.operations(alloc)?;
    for operation in &operations {
        found.push(at_path(path, *operation))?;
    }
    Ok(())
}
