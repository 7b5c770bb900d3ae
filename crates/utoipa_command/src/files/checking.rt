//! The answer of `check`.
ghost use Rattle.std.specs.Prelude.{◌≡◌, ◌++◌, IfOk, IfErr, OnOk, string_bytes};
ghost use Rattle.utoipa_command.specs.Files.{document_kind, file_losses};
ghost use Rattle.utoipa_findings.specs.Sources.{IsFileOf, file_of};
ghost use Rattle.utoipa_findings.specs.Told.{Tells, IsChecked, IsRefused};
ghost use Rattle.utoipa.specs.OpenApi.{openapi_doc};

use std::alloc::{AllocError, Global};
use utoipa::openapi::OpenApi;
use utoipa_findings::{Refusal, Source, document_with_losses};
use utoipa_tables::{Kind, ObjectType};

/// The document that a file is. Adds to `lost` a line for each thing that the file loses when the document is written. Fails where the file is no
/// document, with lines that tell why, and where memory runs out.
pub(crate) fn document(
    alloc: Global,
    source: Source<'_>,
    lost: &mut String,
) -> Result<OpenApi, Refusal>
    ensures ok { IfOk result (λ document. IsFileOf document_kind (openapi_doc document) (file_of source.entry)) }
    ensures told { OnOk result (string_bytes lost.new ≡ string_bytes lost.old ++ file_losses (file_of source.entry)) }
    ensures err { IfErr result (Tells (IsRefused document_kind (file_of source.entry))) }
{
    document_with_losses::<OpenApi>(alloc, Kind::Named(ObjectType::OpenApiObject), source, lost)
}

/// The lines of what is found in a file: each name that stands again in its object, each place that does not fit an OpenAPI document, or is read
/// otherwise than it was meant, each that the document lacks once it is written again, and each reference that leads to nothing; or the line that
/// tells that the file is no JSON. None where nothing is found. Fails where memory runs out.
pub fn check(alloc: Global, source: Source<'_>) -> Result<String, AllocError>
    ensures { IfOk result
        (λ lines. IsChecked document_kind (file_of source.entry) (string_bytes lines)) }
{
    utoipa_findings::check::<OpenApi>(alloc, Kind::Named(ObjectType::OpenApiObject), source)
}
