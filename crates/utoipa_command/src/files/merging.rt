//! The answer of `merge`.
ghost use Rattle.std.specs.Prelude.{◌≡◌, ◌⊎◌, ◌++◌, ◌<◌, [], true, length, map, Some, IfOk, IfErr, OnOk, string_bytes};
ghost use Rattle.utoipa_command.specs.Files.{AreSourcesOf, AreLossy, AreRefused, IsMerge, dropped_lines, losses_of};
ghost use Rattle.utoipa_findings.specs.Sources.{file_of};
ghost use Rattle.utoipa_findings.specs.Told.{Tells};
ghost use Rattle.utoipa_findings.specs.Views.{names_of};
ghost use Rattle.utoipa.specs.OpenApi.{openapi_doc};

use crate::files::checking::document;
use crate::files::layout::{Layout, json_line};
use crate::files::nesting::or_memory;
use crate::files::written::{Written, with_dropped, with_losses};
use std::alloc::{AllocError, Global};
use utoipa::openapi::{OpenApi, merge_all};
use utoipa_base::beside;
use utoipa_conflicts::trees_of_documents;
use utoipa_findings::{Refusal, Source, conflict_lines};

/// The documents that files are. Adds to `lost` a line for each thing that a file loses when its document is written. Fails where one of them is
/// none, with lines that tell of each of these why, and where memory runs out.
fn documents_of(
    alloc: Global,
    sources: &[Source<'_>],
    lost: &mut String,
) -> Result<Vec<OpenApi>, Refusal>
    ensures ok { IfOk result (λ v. AreSourcesOf (map openapi_doc v.items) (map file_of sources.now)) }
    ensures told { OnOk result (string_bytes lost.new ≡ string_bytes lost.old ++ losses_of (map file_of sources.now)) }
    ensures err { IfErr result (Tells (AreRefused (map file_of sources.now))) }
{
    let mut documents = Vec::new(alloc);
    let mut refused = String::new(alloc);
    for source in sources {
        match document(alloc, *source, lost) {
            Ok(document) => documents.push(document)?,
            Err(Refusal::Told(lines)) => refused.push_str(lines.as_str())?,
            Err(Refusal::Memory) => return Err(Refusal::Memory),
        }
    }
    if refused.is_empty() {
        return Ok(documents);
    }
    Err(Refusal::Told(refused))
}

/// The lines of what merging the documents of some files drops. Fails where memory runs out.
fn dropped_by(
    alloc: Global,
    sources: &[Source<'_>],
    documents: &[OpenApi],
) -> Result<String, AllocError>
    ensures { IfOk result
        (λ lines. string_bytes lines ≡ dropped_lines (names_of sources.now) (map openapi_doc documents.now)) }
{
    let trees = trees_of_documents(alloc, documents)?;
    conflict_lines(alloc, sources, &trees)
}

/// What the documents of files, of which there is one at least, are merged into, from the first to the last, with a line for each thing that a
/// file loses when its document is written, and then one for each value that merging drops.
///
/// Fails where one of them is no document, with lines that tell of each of these why; where nothing may be lost and something would be, with the lines of
/// that; and where memory runs out.
pub fn merge(
    alloc: Global,
    layout: Layout,
    strict: bool,
    sources: &[Source<'_>],
) -> Result<Written, Refusal>
    requires { 0 < length sources.now }
    ensures ok { IfOk result
        (λ written. IsMerge layout (map file_of sources.now) (string_bytes written.text) (string_bytes written.lost)) }
    ensures kept { IfOk result (λ written. strict ≡ true → string_bytes written.lost ≡ []) }
    ensures err { IfErr result (Tells (λ told. AreRefused (map file_of sources.now) told
        ⊎ ((strict ≡ true) × AreLossy (map file_of sources.now) told))) }
{
    let mut lost = String::new(alloc);
    let documents = documents_of(alloc, sources, &mut lost)?;
    let dropped = dropped_by(alloc, sources, &documents);
    let (documents, dropped) = beside(documents, dropped)?;
    let (documents, lost) = beside(documents, with_dropped(strict, lost, dropped.as_str()))?;
    match or_memory(merge_all(alloc, documents))? {
        Some(document) => with_losses(json_line(alloc, layout, &document), lost),
        // There is a document.
        None => Err(Refusal::Memory),
    }
}
