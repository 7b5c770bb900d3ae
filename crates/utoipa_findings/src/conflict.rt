//! The lines of what merging files drops, and nesting one into another.
ghost use Rattle.std.specs.Prelude.{◌≡◌, ◌++◌, [], IfOk, OnOk, map, string_bytes};
ghost use Rattle.std.specs.List.{flat_map};
ghost use Rattle.serde_json.specs.View.{view};
ghost use Rattle.utoipa_check.specs.Views.{outwards};
ghost use Rattle.utoipa_conflicts.specs.Conflicts.{conflicts};
ghost use Rattle.utoipa_conflicts.specs.Deciders.{trees_of};
ghost use Rattle.utoipa_conflicts.specs.Nested.{behind, nested_conflicts};
ghost use Rattle.utoipa_conflicts.specs.Views.{all_conflicts, conflict_of};
ghost use Rattle.utoipa_findings.specs.Lines as specs;
ghost use Rattle.utoipa_findings.specs.Views.{names_of};

use crate::source::Source;
use serde_json::Value;
use std::alloc::{AllocError, Global};
use utoipa_check::{Pointer, Shown, ShownPointer};
use utoipa_conflicts::{Conflict, tree_conflicts, tree_nested_conflicts, tree_nested_paths};

/// The name of a file by its number, counted from 0.
fn name_at<'a>(sources: &[Source<'a>], number: usize) -> &'a str
    ensures { result.now ≡ specs.name_at (names_of sources.now) number }
{
    match sources.get(number) {
        Some(source) => source.name,
        None => "",
    }
}

/// Adds the line of a value that is dropped, by the names of the file that has it and of the file that decides. Fails where memory runs out.
fn put_drop(
    doing: &str,
    dropped: &str,
    pointer: &Pointer<'_>,
    kept: &str,
    lines: &mut String,
) -> Result<(), AllocError>
    ensures { OnOk result (string_bytes lines.new ≡ string_bytes lines.old
        ++ specs.drop_line doing.now dropped.now (outwards pointer.now.steps.items []) kept.now) }
{
    let dropped = Shown(dropped);
    let pointer = ShownPointer(pointer);
    let kept = Shown(kept);
    write!(
        lines,
        "{dropped}: {pointer}: {doing} drops this, since {kept} decides here\n"
    )
}

/// Adds the line of a value that is dropped. Fails where memory runs out.
fn put_conflict(
    doing: &str,
    sources: &[Source<'_>],
    conflict: &Conflict<'_>,
    lines: &mut String,
) -> Result<(), AllocError>
    ensures { OnOk result (string_bytes lines.new ≡ string_bytes lines.old
        ++ specs.dropped_line doing.now (names_of sources.now) (conflict_of conflict.now)) }
{
    let dropped = name_at(sources, conflict.dropped);
    let kept = name_at(sources, conflict.kept);
    put_drop(doing, dropped, &conflict.pointer, kept, lines)
}

/// The lines of some values that are dropped. Fails where memory runs out.
fn lines_of_conflicts(
    alloc: Global,
    doing: &str,
    sources: &[Source<'_>],
    conflicts: &[Conflict<'_>],
) -> Result<String, AllocError>
    ensures { IfOk result
        (λ lines. string_bytes lines
        ≡ flat_map (specs.dropped_line doing.now (names_of sources.now)) (all_conflicts conflicts.now)) }
{
    let mut lines = String::new(alloc);
    for conflict in conflicts {
        put_conflict(doing, sources, conflict, &mut lines)?;
    }
    Ok(lines)
}

/// The lines of what merging the documents of some files drops, given as the trees that they are written as: of each value the file and the
/// place, and the file that decides there. Fails where memory runs out.
pub fn conflict_lines(
    alloc: Global,
    sources: &[Source<'_>],
    trees: &[Value],
) -> Result<String, AllocError>
    ensures { IfOk result
        (λ lines. string_bytes lines
        ≡ flat_map (specs.conflict_line (names_of sources.now)) (conflicts (trees_of trees.now))) }
{
    let found = tree_conflicts(alloc, trees)?;
    lines_of_conflicts(alloc, "merging", sources, &found)
}

/// A path behind a base. Fails where memory runs out.
fn behind_base(alloc: Global, base: &str, path: &str) -> Result<String, AllocError>
    ensures { IfOk result (λ s. string_bytes s ≡ base.now ++ path.now) }
{
    format!(in alloc; "{base}{path}")
}

/// Some paths, each behind a base. Fails where memory runs out.
fn paths_behind(alloc: Global, base: &str, paths: &[&str]) -> Result<Vec<String>, AllocError>
    ensures { IfOk result (λ v. map string_bytes v.items ≡ map (λ p. base.now ++ p.now) paths.now) }
{
    let mut behind = Vec::new(alloc);
    for path in paths {
        behind.push(behind_base(alloc, base, path)?)?;
    }
    Ok(behind)
}

/// The lines of what nesting the document of the second file into that of the first drops, each path of it behind a base, given as the trees that
/// they are written as: of each value the file and the place in what comes of nesting, and the file that decides there. Fails where memory runs
/// out.
pub fn nested_conflict_lines(
    alloc: Global,
    sources: &[Source<'_>],
    base: &str,
    own: &Value,
    nested: &Value,
) -> Result<String, AllocError>
    ensures { IfOk result
        (λ lines. string_bytes lines
        ≡ flat_map (specs.nested_line (names_of sources.now))
        (nested_conflicts (behind base.now (view nested.now)) (view own.now) (view nested.now))) }
{
    let paths = tree_nested_paths(alloc, nested)?;
    let answers = paths_behind(alloc, base, &paths)?;
    let found = tree_nested_conflicts(alloc, own, nested, &answers)?;
    lines_of_conflicts(alloc, "nesting", sources, &found)
}
