//! The answer of `nest`.
ghost use Rattle.std.specs.Prelude.{◌≡◌, ◌⊎◌, ◌∷◌, ◌++◌, [], true, Ok, IfOk, IfErr, OnOk, string_bytes};
ghost use Rattle.utoipa_command.specs.Files.{AreLossyNested, AreRefused, IsNest, document_kind, dropped_by_nesting, file_losses};
ghost use Rattle.utoipa_findings.specs.Sources.{File, IsFileOf, file_of};
ghost use Rattle.utoipa_findings.specs.Told.{Tells, IsRefused};
ghost use Rattle.utoipa_findings.specs.Views.{names_of};
ghost use Rattle.utoipa.specs.OpenApi.{openapi_doc};

use crate::files::checking::document;
use crate::files::layout::{Layout, json_line};
use crate::files::written::{Written, with_dropped, with_losses};
use std::alloc::{AllocError, Global};
use utoipa::Tree;
use utoipa::openapi::{MergeFault, OpenApi};
use utoipa_base::beside;
use utoipa_findings::{Refusal, Source, nested_conflict_lines, tree_of_document};
use utoipa_tables::{Kind, ObjectType};

/// What was made of documents, or the refusal of memory: no document that was read holds a fraction, and no path is refused.
pub(crate) fn or_memory<T: Drop>(made: Result<T, MergeFault>) -> Result<T, Refusal>
    ensures ok { IfOk result (λ value. made ≡ Ok value) }
    ensures err { IfErr result (λ refusal. refusal ≡ Refusal.Memory) }
{
    match made {
        Ok(value) => Ok(value),
        Err(_) => Err(Refusal::Memory),
    }
}

/// The refusal of the first of two files, which is told in these lines, with what is to be told of the second.
fn refused_with(alloc: Global, lines: String, nested: Source<'_>) -> Refusal
    ensures { (own : File) → IsRefused document_kind own (string_bytes lines)
        → Tells (AreRefused (own ∷ file_of nested.entry ∷ [])) result }
{
    let mut lines = lines;
    match tree_of_document(alloc, Kind::Named(ObjectType::OpenApiObject), nested) {
        Ok(_tree) => Refusal::Told(lines),
        Err(Refusal::Told(more)) => match lines.push_str(more.as_str()) {
            Ok(()) => Refusal::Told(lines),
            Err(_) => Refusal::Memory,
        },
        Err(Refusal::Memory) => Refusal::Memory,
    }
}

/// The documents that two files are. Adds to `lost` a line for each thing that a file loses when its document is written. Fails where one of them is
/// none, with lines that tell of each of these why, and where memory runs out.
fn both_documents(
    alloc: Global,
    own: Source<'_>,
    nested: Source<'_>,
    lost: &mut String,
) -> Result<(OpenApi, OpenApi), Refusal>
    ensures own { IfOk result (λ both. IsFileOf document_kind (openapi_doc both.0) (file_of own.entry)) }
    ensures nested { IfOk result (λ both. IsFileOf document_kind (openapi_doc both.1) (file_of nested.entry)) }
    ensures told { OnOk result (string_bytes lost.new
        ≡ (string_bytes lost.old ++ file_losses (file_of own.entry)) ++ file_losses (file_of nested.entry)) }
    ensures err { IfErr result (Tells (AreRefused (file_of own.entry ∷ file_of nested.entry ∷ []))) }
{
    match document(alloc, own, lost) {
        Ok(own_document) => beside(own_document, document(alloc, nested, lost)),
        Err(Refusal::Told(lines)) => Err(refused_with(alloc, lines, nested)),
        Err(Refusal::Memory) => Err(Refusal::Memory),
    }
}

/// The lines of what nesting the document of the second of two files into that of the first drops. Fails where memory runs out.
fn dropped_by(
    alloc: Global,
    base: &str,
    sources: &[Source<'_>],
    own: &OpenApi,
    nested: &OpenApi,
) -> Result<String, AllocError>
    ensures { IfOk result
        (λ lines. string_bytes lines
        ≡ dropped_by_nesting base.now (names_of sources.now) (openapi_doc own.now) (openapi_doc nested.now)) }
{
    let own = own.to_value(alloc)?;
    let nested = nested.to_value(alloc)?;
    nested_conflict_lines(alloc, sources, base, &own, &nested)
}

/// The document of a file with that of another nested into it: each path of the other, behind the base, has the other's item whole, and the rest
/// is merged. With it come a line for each thing that a file loses when its document is written, and then one for each value that nesting drops.
///
/// Fails where one of them is no document, with lines that tell of each of these why; where nothing may be lost and something would be, with the lines of that; and
/// where memory runs out.
pub fn nest(
    alloc: Global,
    layout: Layout,
    strict: bool,
    base: &str,
    own: Source<'_>,
    nested: Source<'_>,
) -> Result<Written, Refusal>
    ensures ok { IfOk result
        (λ written. IsNest layout base.now (file_of own.entry) (file_of nested.entry) (string_bytes written.text) (string_bytes written.lost)) }
    ensures kept { IfOk result (λ written. strict ≡ true → string_bytes written.lost ≡ []) }
    ensures err { IfErr result (Tells (λ told. AreRefused (file_of own.entry ∷ file_of nested.entry ∷ []) told
        ⊎ ((strict ≡ true) × AreLossyNested base.now (file_of own.entry) (file_of nested.entry) told))) }
{
    let mut lost = String::new(alloc);
    let documents = both_documents(alloc, own, nested, &mut lost)?;
    let dropped = dropped_by(alloc, base, &[own, nested], &documents.0, &documents.1);
    let (documents, dropped) = beside(documents, dropped)?;
    let (documents, lost) = beside(documents, with_dropped(strict, lost, dropped.as_str()))?;
    let document = or_memory(documents.0.nest(alloc, base, documents.1))?;
    with_losses(json_line(alloc, layout, &document), lost)
}
