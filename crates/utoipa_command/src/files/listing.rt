//! The answers of `operations` and `stats`.
ghost use Rattle.std.specs.Prelude.{IfOk, IfErr, string_bytes};
ghost use Rattle.utoipa_command.specs.Files.{AreOperations, AreStats, document_kind};
ghost use Rattle.utoipa_findings.specs.Sources.{file_of};
ghost use Rattle.utoipa_findings.specs.Told.{Tells, IsRefused};

use std::alloc::Global;
use utoipa_findings::{Refusal, Source, tree_of_document};
use utoipa_outline::{operation_lines, stats_lines};
use utoipa_tables::{Kind, ObjectType};

/// A line for each operation of the document that a file is: its method, its path, its `operationId` and its `summary`, with a tab between two
/// of them. Fails where the file is no document, with lines that tell why, and where memory runs out.
pub fn operations(alloc: Global, source: Source<'_>) -> Result<String, Refusal>
    ensures ok { IfOk result (λ lines. AreOperations (file_of source.entry) (string_bytes lines)) }
    ensures err { IfErr result (Tells (IsRefused document_kind (file_of source.entry))) }
{
    let tree = tree_of_document(alloc, Kind::Named(ObjectType::OpenApiObject), source)?;
    Ok(operation_lines(alloc, &tree)?)
}

/// A line for each thing that is counted of the document that a file is: its paths, its webhooks, their operations, the schemas of its components,
/// those that it refers to and those that it does not, how deep its values stand in each other, and the bytes of the file. Fails where the file
/// is no document, with lines that tell why, and where memory runs out.
pub fn stats(alloc: Global, source: Source<'_>) -> Result<String, Refusal>
    ensures ok { IfOk result (λ lines. AreStats (file_of source.entry) (string_bytes lines)) }
    ensures err { IfErr result (Tells (IsRefused document_kind (file_of source.entry))) }
{
    let kind = Kind::Named(ObjectType::OpenApiObject);
    let size = source.bytes.len();
    let tree = tree_of_document(alloc, kind, source)?;
    Ok(stats_lines(alloc, kind, &tree, size)?)
}
