//! The document that a file is, or why it is none.
ghost use Rattle.std.specs.Prelude.{◌≡◌, false, Some, IfOk, IfErr, OnOk, string_bytes};
ghost use Rattle.std.specs.Str.{IsUtf8};
ghost use Rattle.serde_json.specs.View.{view};
ghost use Rattle.utoipa_base.specs.Docs.{Doc};
ghost use Rattle.serde_json.specs.Written.{has_float};
ghost use Rattle.utoipa_base.specs.Reading.{read};
ghost use Rattle.utoipa_base.specs.WellFormed.{ReadsAs};
ghost use Rattle.utoipa_findings.specs.Findings as specs;
ghost use Rattle.utoipa_findings.specs.Lines.{lines_of as lines_text};
ghost use Rattle.utoipa_findings.specs.Sources as sources;
ghost use Rattle.utoipa_findings.specs.Told.{Tells, IsTold, IsRefused, IsUnfit};
ghost use Rattle.utoipa_tables.specs.Tables.{kind_of};

use crate::lines::lines_of;
use crate::refusal::Refusal;
use crate::report::put_refusals;
use crate::source::Source;
use crate::text::{text_of, tree_of, tree_of_text};
use serde_json::Value;
use std::alloc::{AllocError, Global};
use utoipa_base::{ReadFault, Tree};
use utoipa_check::misfits;
use utoipa_tables::Kind;

/// The lines of all that does not fit in a tree. Fails where memory runs out.
fn refusal_lines(alloc: Global, kind: Kind, name: &str, tree: &Value) -> Result<String, AllocError>
    ensures { IfOk result
        (λ lines. string_bytes lines ≡ lines_text name.now (specs.refusals (kind_of kind) (view tree.now))) }
{
    let mut found = Vec::new(alloc);
    put_refusals(alloc, kind, tree, &mut found)?;
    lines_of(alloc, name, &found)
}

/// The document of a type that a tree is. The kind is that of the type. Fails where it is none, with a line for each place that does not fit, and
/// where memory runs out.
pub(crate) fn document_of_tree<T: Tree>(
    alloc: Global,
    kind: Kind,
    name: &str,
    tree: &Value,
) -> Result<T, Refusal>
    requires { kind_of kind ≡ T.kind }
    ensures plain { OnOk result (has_float (view tree.now) ≡ false) }
    ensures ok { IfOk result (λ document. read T.kind (view tree.now) ≡ Some (T.doc document)) }
    ensures err { IfErr result (Tells (IsUnfit (kind_of kind) name.now (view tree.now))) }
{
    match T::from_value(alloc, tree) {
        Ok(document) => Ok(document),
        Err(ReadFault::Memory) => Err(Refusal::Memory),
        Err(_) => Err(Refusal::Told(refusal_lines(alloc, kind, name, tree)?)),
    }
}

/// Fails where a tree is no document of a kind, with a line for each place that does not fit, and where memory runs out.
fn refuse_misfits(alloc: Global, kind: Kind, name: &str, tree: &Value) -> Result<(), Refusal>
    ensures ok { OnOk result ((d : Doc) × ReadsAs (kind_of kind) (view tree.now) d) }
    ensures err { IfErr result (Tells (IsUnfit (kind_of kind) name.now (view tree.now))) }
{
    let report = misfits(alloc, kind, tree)?;
    if report.misfits.is_empty() {
        return Ok(());
    }
    let lines = refusal_lines(alloc, kind, name, tree)?;
    Err(Refusal::Told(lines))
}

/// The document of a type that a file is. The kind is that of the type.
///
/// Fails where the file is none, with a line for each place that does not fit, or for the text that is no JSON; and where memory runs out.
pub fn document_of<T: Tree>(alloc: Global, kind: Kind, source: Source<'_>) -> Result<T, Refusal>
    requires { kind_of kind ≡ T.kind }
    ensures ok { IfOk result
        (λ document. sources.IsFileOf T.kind (T.doc document) (sources.file_of source.entry)) }
    ensures err { IfErr result (Tells (IsRefused (kind_of kind) (sources.file_of source.entry))) }
{
    let tree = tree_of(alloc, kind, source)?;
    document_of_tree(alloc, kind, source.name, &tree)
}

/// The tree of a file that is a document of a kind, as the file is looked at.
///
/// Fails where the file is none, with a line for each place that does not fit, or for the text that is no JSON; and where memory runs out.
pub fn tree_of_document(alloc: Global, kind: Kind, source: Source<'_>) -> Result<Value, Refusal>
    ensures ok { IfOk result
        (λ tree. sources.IsTreeOf (kind_of kind) (view tree) (sources.file_of source.entry)) }
    ensures err { IfErr result (Tells (IsRefused (kind_of kind) (sources.file_of source.entry))) }
{
    let tree = tree_of(alloc, kind, source)?;
    refuse_misfits(alloc, kind, source.name, &tree)?;
    Ok(tree)
}
