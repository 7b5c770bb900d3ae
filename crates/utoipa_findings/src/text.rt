//! The text of a file, and its tree.
ghost use Rattle.std.specs.Prelude.{◌≡◌, Option, None, Some, IfOk, IfErr, string_bytes};
ghost use Rattle.std.specs.Str.{IsUtf8};
ghost use Rattle.serde_json.specs.Read.{read as read_text};
ghost use Rattle.serde_json.specs.View.{view};
ghost use Rattle.utoipa_findings.specs.Sources as specs;
ghost use Rattle.utoipa_findings.specs.Told.{Tells, IsTreeless};
ghost use Rattle.utoipa_tables.specs.Tables.{kind_of};

use crate::refusal::Refusal;
use crate::source::{Form, Source};
use serde_json::Value;
use simdutf8::compat::from_utf8;
use std::alloc::{AllocError, Global};
use utoipa_adapt::{Rule, adapt, adaptations, upgrade};
use utoipa_check::Shown;
use utoipa_tables::Kind;

/// Whether a byte is white space of JSON.
fn is_blank(byte: u8) -> bool
    ensures { result ≡ specs.is_blank byte }
{
    byte == b' ' || byte == b'\t' || byte == b'\n' || byte == b'\r'
}

/// The first byte of a text that is no white space.
fn first_byte(text: &[u8]) -> Option<u8>
    ensures { result ≡ specs.first_byte text.now }
{
    for byte in text {
        if !is_blank(*byte) {
            return Some(*byte);
        }
    }
    None
}

/// What is said of a text that is no JSON, by its first byte that is no white space.
fn looks(first: Option<u8>) -> &'static str
    ensures { result.now ≡ specs.looks first }
{
    match first {
        None => "this is no JSON: there is nothing in it",
        Some(b'{' | b'[') => "this is no JSON",
        Some(b'<') => "this is no JSON, and looks like HTML or XML",
        Some(b'/') => "this is no JSON, which has no comments",
        Some(_) => {
            "this is no JSON, and looks like YAML, which is not read: `yq -o json` of mikefarah/yq makes JSON of it"
        }
    }
}

/// The line and the column of a byte of a text, each counted from 1.
fn position(text: &[u8], at: usize) -> (usize, usize) {
    let mut line = 1usize;
    let mut column = 1usize;
    for byte in text.iter().take(at) {
        if *byte == b'\n' {
            line = line.saturating_add(1);
            column = 1;
        } else {
            column = column.saturating_add(1);
        }
    }
    (line, column)
}

/// The line that tells of a text that it is no JSON, broken at a line and a column. Fails where memory runs out.
fn no_json_line(
    alloc: Global,
    name: &str,
    text: &str,
    line: usize,
    column: usize,
) -> Result<String, AllocError>
    ensures { IfOk result
        (λ told. string_bytes told ≡ specs.text_line name.now line column (specs.no_json text.now)) }
{
    let name = Shown(name);
    let said = looks(first_byte(text.as_bytes()));
    format!(in alloc; "{name}:{line}:{column}: {said}\n")
}

/// The line that tells of bytes that they are no UTF-8 from a place on. Fails where memory runs out.
fn no_utf8_line(alloc: Global, source: Source<'_>, at: usize) -> Result<String, AllocError>
    requires { ¬ IsUtf8 source.bytes.now }
    ensures { IfOk result
        (λ told. specs.IsTreelessLine source.entry.name.now source.entry.bytes.now (string_bytes told)) }
{
    let (line, column) = position(source.bytes, at);
    let name = Shown(source.name);
    format!(in alloc; "{name}:{line}:{column}: this is no UTF-8\n")
}

/// The bytes of a file as a text. Fails where they are no UTF-8, and where memory runs out.
pub(crate) fn text_of(alloc: Global, source: Source<'_>) -> Result<&str, Refusal>
    ensures ok { IfOk result (λ text. (text.now ≡ source.entry.bytes.now) × IsUtf8 source.entry.bytes.now) }
    ensures err { IfErr result (Tells (IsTreeless (specs.file_of source.entry))) }
{
    match from_utf8(source.bytes) {
        Ok(text) => Ok(text),
        Err(error) => {
            let line = no_utf8_line(alloc, source, error.valid_up_to())?;
            Err(Refusal::Told(line))
        }
    }
}

/// The tree of a file's text, as it stands there. Fails where it is no JSON, and where memory runs out.
fn parsed(alloc: Global, source: Source<'_>, text: &str) -> Result<Value, Refusal>
    requires utf8 { IsUtf8 text.now }
    requires same { text.now ≡ source.bytes.now }
    ensures ok { IfOk result (λ tree. read_text text.now ≡ Some (view tree)) }
    ensures err { IfErr result (Tells (IsTreeless (specs.file_of source.entry))) }
{
    match Value::from_str(alloc, text) {
        Ok(tree) => Ok(tree),
        Err(error) if error.is_memory() => Err(Refusal::Memory),
        Err(error) => {
            let line = no_json_line(alloc, source.name, text, error.line(), error.column())?;
            Err(Refusal::Told(line))
        }
    }
}

/// A tree, adapted to be read as a document of a kind. It stays where it is, if nothing of it has to be. Fails where memory runs out.
fn adapted(alloc: Global, kind: Kind, tree: Value) -> Result<Value, AllocError>
    ensures { IfOk result (λ v. view v ≡ specs.seen Form.Adapted (kind_of kind) (view tree)) }
{
    let is_plain = adaptations(alloc, kind, &tree)?.is_empty();
    if is_plain {
        return Ok(tree);
    }
    adapt(alloc, kind, tree)
}

/// Whether a tree is that of an OpenAPI 3.0 document, by its version.
fn is_of_3_0(tree: &Value) -> bool
    ensures { result ≡ specs.is_of_3_0 (view tree.now) }
{
    match tree.get("openapi") {
        Some(version) => Rule::VersionOf30.applies(version),
        None => false,
    }
}

/// A tree that is to be a document of a kind, upgraded to one of 3.1 if it is of 3.0. Fails where memory runs out.
fn upgraded(alloc: Global, kind: Kind, tree: Value) -> Result<Value, AllocError>
    ensures { IfOk result (λ v. view v ≡ specs.upgraded_from_3_0 (kind_of kind) (view tree)) }
{
    if is_of_3_0(&tree) {
        upgrade(alloc, kind, tree)
    } else {
        Ok(tree)
    }
}

/// A tree that is to be a document of a kind, as it is looked at. Fails where memory runs out.
fn seen(alloc: Global, form: Form, kind: Kind, tree: Value) -> Result<Value, AllocError>
    ensures { IfOk result (λ v. view v ≡ specs.seen form (kind_of kind) (view tree)) }
{
    match form {
        Form::AsIs => Ok(tree),
        Form::Adapted => adapted(alloc, kind, tree),
        Form::Upgraded => adapted(alloc, kind, upgraded(alloc, kind, tree)?),
    }
}

/// The tree of a file's text that is to be a document of a kind, as it is looked at. Fails where it is no JSON, and where memory runs out.
pub(crate) fn tree_of_text(
    alloc: Global,
    kind: Kind,
    source: Source<'_>,
    text: &str,
) -> Result<Value, Refusal>
    requires utf8 { IsUtf8 text.now }
    requires same { text.now ≡ source.bytes.now }
    ensures ok { IfOk result
        (λ tree. specs.file_tree (kind_of kind) (specs.file_of source.entry) ≡ Some (view tree)) }
    ensures err { IfErr result (Tells (IsTreeless (specs.file_of source.entry))) }
{
    let tree = parsed(alloc, source, text)?;
    Ok(seen(alloc, source.form, kind, tree)?)
}

/// The tree of a file that is to be a document of a kind, as it is looked at. Fails where the bytes are no UTF-8 or no JSON, and where memory runs
/// out.
pub(crate) fn tree_of(alloc: Global, kind: Kind, source: Source<'_>) -> Result<Value, Refusal>
    ensures ok { IfOk result
        (λ tree. specs.file_tree (kind_of kind) (specs.file_of source.entry) ≡ Some (view tree)) }
    ensures err { IfErr result (Tells (IsTreeless (specs.file_of source.entry))) }
{
    let text = text_of(alloc, source)?;
    tree_of_text(alloc, kind, source, text)
}
