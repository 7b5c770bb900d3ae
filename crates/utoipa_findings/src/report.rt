//! All that is found in a file.
ghost use Rattle.std.specs.Prelude.{◌≡◌, ◌++◌, IfOk, IfErr, OnOk, map, string_bytes};
ghost use Rattle.std.specs.List.{flat_map};
ghost use Rattle.serde_json.specs.View.{view};
ghost use Rattle.utoipa_check.specs.DroppedViews.{all_dropped};
ghost use Rattle.utoipa_check.specs.References.{references};
ghost use Rattle.utoipa_findings.specs.Findings as specs;
ghost use Rattle.utoipa_findings.specs.Lines.{lines_of as lines_text};
ghost use Rattle.utoipa_findings.specs.Sources.{file_of};
ghost use Rattle.utoipa_findings.specs.Told.{IsChecked, IsTreeless, Tells};
ghost use Rattle.utoipa_findings.specs.Views.{all_findings};
ghost use Rattle.utoipa_tables.specs.Tables.{kind_of};

use crate::finding::{Finding, What};
use crate::lines::put_lines;
use crate::refusal::Refusal;
use crate::repeated::repeated_lines;
use crate::source::Source;
use crate::text::{text_of, tree_of_text};
use serde_json::Value;
use std::alloc::{AllocError, Global};
use utoipa_base::{ReadFault, Tree};
use utoipa_check::references::references;
use utoipa_check::{Dropped, State, doubts, dropped_by, misfits, without_fractions};
use utoipa_tables::Kind;

/// Adds what does not fit, and the fractions. Fails where memory runs out.
pub(crate) fn put_refusals<'a>(
    alloc: Global,
    kind: Kind,
    tree: &'a Value,
    found: &mut Vec<Finding<'a>>,
) -> Result<(), AllocError>
    ensures { OnOk result (all_findings found.new.items
        ≡ all_findings found.old.items ++ specs.refusals (kind_of kind) (view tree.now)) }
{
    for misfit in misfits(alloc, kind, tree)?.misfits {
        found.push(Finding {
            pointer: misfit.pointer,
            what: What::Unfit(misfit.cause),
        })?;
    }
    Ok(())
}

/// Adds what is read otherwise than it was meant, but for fractions, which are told already. Fails where memory runs out.
pub(crate) fn put_doubts<'a>(
    alloc: Global,
    kind: Kind,
    tree: &'a Value,
    found: &mut Vec<Finding<'a>>,
) -> Result<(), AllocError>
    ensures { OnOk result (all_findings found.new.items
        ≡ all_findings found.old.items ++ specs.meant_otherwise (kind_of kind) (view tree.now)) }
{
    let doubted = doubts(alloc, kind, tree)?;
    for misfit in without_fractions(alloc, doubted)? {
        found.push(Finding {
            pointer: misfit.pointer,
            what: What::Doubtful(misfit.cause),
        })?;
    }
    Ok(())
}

/// What is dropped of a tree that is read and written again, and nothing of a tree that is not read. Fails where memory runs out.
fn dropped_where_read<'t, T: Tree>(
    alloc: Global,
    tree: &'t Value,
) -> Result<Vec<Dropped<'t>>, AllocError>
    ensures { IfOk result (λ v. all_dropped v.items ≡ specs.dropped_where_read T.kind (view tree.now)) }
{
    match dropped_by::<T>(alloc, tree) {
        Ok(dropped) => Ok(dropped),
        Err(ReadFault::Memory) => Err(AllocError),
        Err(_) => Ok(Vec::new(alloc)),
    }
}

/// Adds places whose trees are dropped. Fails where memory runs out.
pub(crate) fn put_places<'a>(
    places: Vec<Dropped<'a>>,
    found: &mut Vec<Finding<'a>>,
) -> Result<(), AllocError>
    ensures { OnOk result (all_findings found.new.items
        ≡ all_findings found.old.items ++ map specs.lost_at (all_dropped places.entry.items)) }
{
    for dropped in places {
        found.push(Finding {
            pointer: dropped.pointer,
            what: What::Lost(dropped.loss),
        })?;
    }
    Ok(())
}

/// Adds what is dropped. Fails where memory runs out.
pub(crate) fn put_dropped<'a, T: Tree>(
    alloc: Global,
    tree: &'a Value,
    found: &mut Vec<Finding<'a>>,
) -> Result<(), AllocError>
    ensures { OnOk result (all_findings found.new.items
        ≡ all_findings found.old.items ++ map specs.lost_at (specs.dropped_where_read T.kind (view tree.now))) }
{
    put_places(dropped_where_read::<T>(alloc, tree)?, found)
}

/// Adds the references that lead to nothing. Fails where memory runs out.
fn put_dangling<'a>(
    alloc: Global,
    kind: Kind,
    tree: &'a Value,
    found: &mut Vec<Finding<'a>>,
) -> Result<(), AllocError>
    ensures { OnOk result (all_findings found.new.items
        ≡ all_findings found.old.items ++ flat_map specs.dangles_at (references (kind_of kind) (view tree.now))) }
{
    for reference in references(alloc, kind, tree)? {
        if let State::Dangling = reference.state {
            found.push(Finding {
                pointer: reference.pointer,
                what: What::Dangles(reference.text),
            })?;
        }
    }
    Ok(())
}

/// What is found in a tree that is to be a document of a type: what does not fit, what is read otherwise than it was meant, what is dropped
/// where it is read and written again, and the references that lead to nothing. The kind is that of the type. Fails where memory runs
/// out.
pub fn findings<'a, T: Tree>(
    alloc: Global,
    kind: Kind,
    tree: &'a Value,
) -> Result<Vec<Finding<'a>>, AllocError>
    requires { kind_of kind ≡ T.kind }
    ensures { IfOk result (λ v. all_findings v.items ≡ specs.findings (kind_of kind) (view tree.now)) }
{
    let mut found = Vec::new(alloc);
    put_refusals(alloc, kind, tree, &mut found)?;
    put_doubts(alloc, kind, tree, &mut found)?;
    put_dropped::<T>(alloc, tree, &mut found)?;
    put_dangling(alloc, kind, tree, &mut found)?;
    Ok(found)
}

/// The lines of what is found in a text, which has this tree, as it is looked at. Fails where memory runs out.
fn text_lines<T: Tree>(
    alloc: Global,
    kind: Kind,
    name: &str,
    text: &str,
    tree: &Value,
) -> Result<String, AllocError>
    requires { kind_of kind ≡ T.kind }
    ensures { IfOk result
        (λ lines. string_bytes lines
        ≡ lines_text name.now (specs.text_findings (kind_of kind) text.now (view tree.now))) }
{
    let mut lines = repeated_lines(alloc, name, text)?;
    let found = findings::<T>(alloc, kind, tree)?;
    put_lines(name, &found, &mut lines)?;
    Ok(lines)
}

/// The lines of what is found in a file. Fails where it has no tree, with the line that tells so, and where memory runs out.
fn file_lines<T: Tree>(alloc: Global, kind: Kind, source: Source<'_>) -> Result<String, Refusal>
    requires { kind_of kind ≡ T.kind }
    ensures ok { IfOk result
        (λ lines. IsChecked (kind_of kind) (file_of source.entry) (string_bytes lines)) }
    ensures err { IfErr result (Tells (IsTreeless (file_of source.entry))) }
{
    let text = text_of(alloc, source)?;
    let tree = tree_of_text(alloc, kind, source, text)?;
    Ok(text_lines::<T>(alloc, kind, source.name, text, &tree)?)
}

/// The lines of what is found in a file that is to be a document of a type, the names first that stand again in their objects; or the line that
/// tells that it is no JSON. The kind is that of the type. Fails where memory runs out.
pub fn check<T: Tree>(alloc: Global, kind: Kind, source: Source<'_>) -> Result<String, AllocError>
    requires { kind_of kind ≡ T.kind }
    ensures { IfOk result
        (λ lines. IsChecked (kind_of kind) (file_of source.entry) (string_bytes lines)) }
{
    match file_lines::<T>(alloc, kind, source) {
        Ok(lines) => Ok(lines),
        Err(Refusal::Told(line)) => Ok(line),
        Err(Refusal::Memory) => Err(AllocError),
    }
}
