//! The answer of `format`.
ghost use Rattle.std.specs.Prelude.{◌≡◌, ◌⊎◌, [], true, IfOk, IfErr, string_bytes};
ghost use Rattle.utoipa_command.specs.Files.{IsFormatted, IsLossy, document_kind};
ghost use Rattle.utoipa_findings.specs.Sources.{file_of};
ghost use Rattle.utoipa_findings.specs.Told.{Tells, IsRefused};

use crate::files::checking::document;
use crate::files::layout::{Layout, json_line};
use crate::files::written::{Written, unless_refused, with_losses};
use std::alloc::Global;
use utoipa_base::beside;
use utoipa_findings::{Refusal, Source};

/// The document of a file in normal form: the members of each object in the order of their names, without what a document does not keep, of which
/// each value is told.
///
/// Fails where the file is no document, with lines that tell why; where nothing may be lost and something would be, with the lines of that; and
/// where memory runs out.
pub fn format(
    alloc: Global,
    layout: Layout,
    strict: bool,
    source: Source<'_>,
) -> Result<Written, Refusal>
    ensures ok { IfOk result
        (λ written. IsFormatted layout (file_of source.entry) (string_bytes written.text) (string_bytes written.lost)) }
    ensures kept { IfOk result (λ written. strict ≡ true → string_bytes written.lost ≡ []) }
    ensures err { IfErr result (Tells (λ told. IsRefused document_kind (file_of source.entry) told
        ⊎ ((strict ≡ true) × IsLossy (file_of source.entry) told))) }
{
    let mut lost = String::new(alloc);
    let document = document(alloc, source, &mut lost)?;
    let (document, lost) = beside(document, unless_refused(strict, lost))?;
    with_losses(json_line(alloc, layout, &document), lost)
}
