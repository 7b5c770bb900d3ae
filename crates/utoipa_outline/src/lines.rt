//! The lines of a document's operations.
ghost use Rattle.std.specs.Prelude.{◌≡◌, ◌++◌, IfOk, OnOk, string_bytes};
ghost use Rattle.serde_json.specs.View.{view};
ghost use Rattle.utoipa_outline.specs.Lines as specs;
ghost use Rattle.utoipa_outline.specs.Views.{operation_of};

use crate::operation::{Operation, operations};
use serde_json::Value;
use std::alloc::{AllocError, Global};
use utoipa_check::Shown;

/// The text that a member is, or the empty text where it is none.
fn text_at<'a>(name: &str, tree: &'a Value) -> &'a str
    ensures { result.now ≡ specs.text_at name.now (view tree.now) }
{
    match tree.get(name) {
        Some(Value::String(text)) => text.as_str(),
        _ => "",
    }
}

/// Adds the line of an operation. Fails where memory runs out.
fn put_line(operation: Operation<'_>, lines: &mut String) -> Result<(), AllocError>
    ensures { OnOk result (string_bytes lines.new
        ≡ string_bytes lines.old ++ specs.operation_line (operation_of operation.entry)) }
{
    let method = Shown(operation.method);
    let path = Shown(operation.path);
    let id = Shown(text_at("operationId", operation.value));
    let summary = Shown(text_at("summary", operation.value));
    write!(lines, "{method}\t{path}\t{id}\t{summary}\n")
}

/// A line for each operation of a document: its method, its path, its `operationId` and its `summary`, each as it is shown on a line, with a tab
/// between two of them. Fails where memory runs out.
pub fn operation_lines(alloc: Global, document: &Value) -> Result<String, AllocError>
    ensures { IfOk result (λ lines. string_bytes lines ≡ specs.operation_lines (view document.now)) }
{
    let mut lines = String::new(alloc);
    let found = operations(alloc, document)?;
    for operation in &found {
        put_line(*operation, &mut lines)?;
    }
    Ok(lines)
}
