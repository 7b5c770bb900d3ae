//! How much a document has of each thing, in lines.
ghost use Rattle.std.specs.Prelude.{◌≡◌, ◌++◌, IfOk, OnOk, length, string_bytes};
ghost use Rattle.serde_json.specs.Find.{get};
ghost use Rattle.serde_json.specs.View.{view};
ghost use Rattle.utoipa_outline.specs.Counted.{path_names as path_names_of, schema_names as schema_names_of, used_schemas, unused_schemas};
ghost use Rattle.utoipa_outline.specs.Operations.{operations as operations_of};
ghost use Rattle.utoipa_outline.specs.Stats.{path_lines, schema_lines, stats_lines as stats_lines_of, stats_text, tree_lines};
ghost use Rattle.utoipa_tables.specs.Tables.{kind_of};

use crate::counted::{path_names, schema_names, schemas};
use crate::depth::depth;
use crate::operation::operations;
use serde_json::Value;
use std::alloc::{AllocError, Global};
use utoipa_tables::Kind;

/// How many paths the member of this name has. Fails where memory runs out.
fn path_count(alloc: Global, document: &Value, name: &str) -> Result<usize, AllocError>
    ensures { IfOk result (λ n. n ≡ length (path_names_of (get name.now (view document.now)))) }
{
    Ok(path_names(alloc, document.get(name))?.len())
}

/// How many operations a document has. Fails where memory runs out.
fn operation_count(alloc: Global, document: &Value) -> Result<usize, AllocError>
    ensures { IfOk result (λ n. n ≡ length (operations_of (view document.now))) }
{
    Ok(operations(alloc, document)?.len())
}

/// How many schemas the components of a document have. Fails where memory runs out.
fn schema_count(alloc: Global, document: &Value) -> Result<usize, AllocError>
    ensures { IfOk result (λ n. n ≡ length (schema_names_of (view document.now))) }
{
    Ok(schema_names(alloc, document)?.len())
}

/// How many of the schemas the document refers to, or into, and how many it does not. Fails where memory runs out.
fn use_counts(alloc: Global, kind: Kind, document: &Value) -> Result<(usize, usize), AllocError>
    ensures used { IfOk result (λ v. v.0 ≡ length (used_schemas (kind_of kind) (view document.now))) }
    ensures unused { IfOk result (λ v. v.1 ≡ length (unused_schemas (kind_of kind) (view document.now))) }
{
    let schemas = schemas(alloc, kind, document)?;
    Ok((schemas.used.len(), schemas.unused.len()))
}

/// How much there is of each thing.
#[derive(Clone, Copy, Drop)]
struct Counts {
    paths: usize,
    webhooks: usize,
    operations: usize,
    schemas: usize,
    used: usize,
    unused: usize,
    depth: usize,
    size: usize,
}

/// Adds the lines of the paths, the webhooks and the operations. Fails where memory runs out.
fn put_paths(counts: Counts, lines: &mut String) -> Result<(), AllocError>
    ensures { OnOk result (string_bytes lines.new
        ≡ string_bytes lines.old ++ path_lines counts.paths counts.webhooks counts.operations) }
{
    let paths = counts.paths;
    let webhooks = counts.webhooks;
    let operations = counts.operations;
    write!(
        lines,
        "paths       {paths}\nwebhooks    {webhooks}\noperations  {operations}\n"
    )
}

/// Adds the lines of the schemas. Fails where memory runs out.
fn put_schemas(counts: Counts, lines: &mut String) -> Result<(), AllocError>
    ensures { OnOk result (string_bytes lines.new
        ≡ string_bytes lines.old ++ schema_lines counts.schemas counts.used counts.unused) }
{
    let schemas = counts.schemas;
    let used = counts.used;
    let unused = counts.unused;
    write!(
        lines,
        "schemas     {schemas}\n  used      {used}\n  unused    {unused}\n"
    )
}

/// Adds the lines of the depth and the size. Fails where memory runs out.
fn put_tree(counts: Counts, lines: &mut String) -> Result<(), AllocError>
    ensures { OnOk result (string_bytes lines.new
        ≡ string_bytes lines.old ++ tree_lines counts.depth counts.size) }
{
    let depth = counts.depth;
    let size = counts.size;
    write!(lines, "depth       {depth}\nsize        {size}\n")
}

/// The lines of all. Fails where memory runs out.
fn lines_of(alloc: Global, counts: Counts) -> Result<String, AllocError>
    ensures { IfOk result (λ lines. string_bytes lines ≡ stats_text counts.paths counts.webhooks counts.operations
        counts.schemas counts.used counts.unused counts.depth counts.size) }
{
    let mut lines = String::new(alloc);
    put_paths(counts, &mut lines)?;
    put_schemas(counts, &mut lines)?;
    put_tree(counts, &mut lines)?;
    Ok(lines)
}

/// How much a document of a kind has of each thing, a line for each: its paths, its webhooks, the operations of both, the schemas of its
/// components, those that it refers to and those that it does not, how deep its arrays and objects stand in each other, and the size that is
/// given. Fails where memory runs out.
pub fn stats_lines(
    alloc: Global,
    kind: Kind,
    document: &Value,
    size: usize,
) -> Result<String, AllocError>
    ensures { IfOk result (λ lines. string_bytes lines ≡ stats_lines_of (kind_of kind) (view document.now) size) }
{
    let paths = path_count(alloc, document, "paths")?;
    let webhooks = path_count(alloc, document, "webhooks")?;
    let operations = operation_count(alloc, document)?;
    let schemas = schema_count(alloc, document)?;
    let (used, unused) = use_counts(alloc, kind, document)?;
    let depth = depth(document);
    let counts = Counts {
        paths,
        webhooks,
        operations,
        schemas,
        used,
        unused,
        depth,
        size,
    };
    lines_of(alloc, counts)
}
