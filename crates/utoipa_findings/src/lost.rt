//! What is lost of a file when its document is written again.
ghost use Rattle.std.specs.Prelude.{◌≡◌, ◌++◌, false, Some, IfOk, IfErr, OnOk, map, string_bytes};
ghost use Rattle.serde_json.specs.Data.{Data};
ghost use Rattle.serde_json.specs.View.{view};
ghost use Rattle.serde_json.specs.Written.{has_float};
ghost use Rattle.utoipa_base.specs.Reading.{read};
ghost use Rattle.utoipa_base.specs.Writing.{write};
ghost use Rattle.utoipa_check.specs.Dropped.{dropped};
ghost use Rattle.utoipa_findings.specs.Findings as specs;
ghost use Rattle.utoipa_findings.specs.Lines.{lines_of as lines_text};
ghost use Rattle.utoipa_findings.specs.Sources.{IsFileOf, IsTreeOf, file_of};
ghost use Rattle.utoipa_findings.specs.Told.{Tells, IsRefused, loss_lines};
ghost use Rattle.utoipa_findings.specs.Views.{all_findings};
ghost use Rattle.utoipa_tables.specs.Tables.{kind_of};

use crate::finding::Finding;
use crate::lines::put_lines;
use crate::reading::document_of_tree;
use crate::refusal::Refusal;
use crate::repeated::repeated_lines;
use crate::report::{put_doubts, put_dropped, put_places};
use crate::source::Source;
use crate::text::{text_of, tree_of_text};
use serde_json::Value;
use std::alloc::{AllocError, Global};
use utoipa_base::Tree;
use utoipa_check::dropped_between;
use utoipa_tables::Kind;

/// What a document of a type loses of its tree when it is written again: what is read otherwise than it was meant, and what is dropped. The kind
/// is that of the type. Fails where memory runs out.
pub fn losses<'a, T: Tree>(
    alloc: Global,
    kind: Kind,
    tree: &'a Value,
) -> Result<Vec<Finding<'a>>, AllocError>
    requires { kind_of kind ≡ T.kind }
    ensures { IfOk result (λ v. all_findings v.items ≡ specs.losses (kind_of kind) (view tree.now)) }
{
    let mut found = Vec::new(alloc);
    put_doubts(alloc, kind, tree, &mut found)?;
    put_dropped::<T>(alloc, tree, &mut found)?;
    Ok(found)
}

/// Adds what a document loses of a tree when it is written again. Fails where memory runs out.
fn put_lost<'a, T: Tree>(
    alloc: Global,
    tree: &'a Value,
    document: &T,
    found: &mut Vec<Finding<'a>>,
) -> Result<(), AllocError>
    ensures { OnOk result (all_findings found.new.items ≡ all_findings found.old.items
        ++ map specs.lost_at (dropped (view tree.now) (write (T.doc document.now)))) }
{
    let written = document.to_value(alloc)?;
    let places = dropped_between(alloc, tree, &written)?;
    put_places(places, found)
}

/// The lines of what is lost of a file's text, which has this tree, as it is looked at, when the document that was read of it is written again. Fails where memory
/// runs out.
fn document_loss_lines<T: Tree>(
    alloc: Global,
    kind: Kind,
    source: Source<'_>,
    text: &str,
    tree: &Value,
    document: &T,
) -> Result<String, AllocError>
    requires kind { kind_of kind ≡ T.kind }
    requires plain { has_float (view tree.now) ≡ false }
    requires read { read T.kind (view tree.now) ≡ Some (T.doc document.now) }
    ensures { IfOk result
        (λ lines. string_bytes lines
        ≡ lines_text source.entry.name.now (specs.text_losses (kind_of kind) text.now (view tree.now))) }
{
    let mut lines = repeated_lines(alloc, source.name, text)?;
    let mut losses = Vec::new(alloc);
    put_doubts(alloc, kind, tree, &mut losses)?;
    put_lost(alloc, tree, document, &mut losses)?;
    put_lines(source.name, &losses, &mut lines)?;
    Ok(lines)
}

/// The document of a type that a file is. Adds to `lost` a line for each thing that the file loses when the document is written again: each name
/// that stands again in its object, each place that is read otherwise than it was meant, and each value that is dropped. The kind is that of the
/// type.
///
/// Fails where the file is no document, with a line for each place that does not fit, or for the text that is no JSON; and where memory runs out.
pub fn document_with_losses<T: Tree>(
    alloc: Global,
    kind: Kind,
    source: Source<'_>,
    lost: &mut String,
) -> Result<T, Refusal>
    requires { kind_of kind ≡ T.kind }
    ensures ok { IfOk result (λ document. IsFileOf T.kind (T.doc document) (file_of source.entry)) }
    ensures told { OnOk result (string_bytes lost.new
        ≡ string_bytes lost.old ++ loss_lines (kind_of kind) (file_of source.entry)) }
    ensures err { IfErr result (Tells (IsRefused (kind_of kind) (file_of source.entry))) }
{
    let text = text_of(alloc, source)?;
    let tree = tree_of_text(alloc, kind, source, text)?;
    let document = document_of_tree::<T>(alloc, kind, source.name, &tree)?;
    let lines = document_loss_lines(alloc, kind, source, text, &tree, &document)?;
    lost.push_str(lines.as_str())?;
    Ok(document)
}

/// The lines of what a file loses when the document of a type that it is is written again, as [`document_with_losses`] tells them. None where
/// nothing is lost. The kind is that of the type.
///
/// Fails where the file is no document, with a line for each place that does not fit, or for the text that is no JSON; and where memory runs out.
pub fn lost_of<T: Tree>(alloc: Global, kind: Kind, source: Source<'_>) -> Result<String, Refusal>
    requires { kind_of kind ≡ T.kind }
    ensures ok { IfOk result
        (λ lines. string_bytes lines ≡ loss_lines (kind_of kind) (file_of source.entry)) }
    ensures document { OnOk result ((t : Data) × IsTreeOf (kind_of kind) t (file_of source.entry)) }
    ensures err { IfErr result (Tells (IsRefused (kind_of kind) (file_of source.entry))) }
{
    let mut lines = String::new(alloc);
    let _document = document_with_losses::<T>(alloc, kind, source, &mut lines)?;
    Ok(lines)
}
