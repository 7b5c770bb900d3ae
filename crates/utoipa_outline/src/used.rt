//! The schemas of the components that a document refers to.
ghost use Rattle.std.specs.Prelude.{◌≡◌, ◌||◌, ℕ, List, IfOk, OnOk, option_map};
ghost use Rattle.std.specs.BTreeSet.{contains_text};
ghost use Rattle.std.specs.Str.{bytes_eq};
ghost use Rattle.percent_encoding.specs.Percent.{percent_decode as decoded};
ghost use Rattle.serde_json.specs.View.{view};
ghost use Rattle.utoipa_check.specs.ReferenceViews.{way_of};
ghost use Rattle.utoipa_check.specs.References.{references};
ghost use Rattle.utoipa_outline.specs.Used as specs;
ghost use Rattle.utoipa_tables.specs.Tables.{kind_of};

use percent_encoding::{DecodeError, percent_decode};
use serde_json::Value;
use std::alloc::{AllocError, Global};
use std::collections::BTreeSet;
use utoipa_check::Way;
use utoipa_check::references::references;
use utoipa_tables::Kind;

/// The first token of what stands behind a `/` of a JSON Pointer.
fn token(rest: &str) -> &str
    ensures { result.now ≡ specs.token rest.now }
{
    match rest.split_once('/') {
        Some((token, _)) => token,
        None => rest,
    }
}

/// The name, as the pointer has it, of the schema that a JSON Pointer leads to or into.
fn schema_token(pointer: &str) -> Option<&str>
    ensures { option_map (λ v. v.now) result ≡ specs.schema_token pointer.now }
{
    match pointer.strip_prefix("/components/schemas/") {
        Some(rest) => Some(token(rest)),
        None => None,
    }
}

/// Notes a schema by its name, as a pointer has it. Fails where memory runs out.
fn note(alloc: Global, token: &str, used: &mut BTreeSet<String>) -> Result<(), AllocError>
    ensures { OnOk result ((t : List ℕ) → contains_text used.new t
        ≡ (bytes_eq token.now t || contains_text used.old t)) }
{
    let name = String::from_str(alloc, token)?;
    drop(used.insert(name)?);
    Ok(())
}

/// Notes the schema that a JSON Pointer leads to or into. Fails where memory runs out.
fn note_pointer(alloc: Global, pointer: &str, used: &mut BTreeSet<String>) -> Result<(), AllocError>
    ensures { OnOk result ((t : List ℕ) → contains_text used.new t
        ≡ (specs.is_token t (specs.schema_token pointer.now) || contains_text used.old t)) }
{
    match schema_token(pointer) {
        Some(token) => note(alloc, token, used),
        None => Ok(()),
    }
}

/// Notes the schema that a fragment leads to or into, of which the escapes are read here. Fails where memory runs out.
fn note_fragment(
    alloc: Global,
    fragment: &str,
    used: &mut BTreeSet<String>,
) -> Result<(), AllocError>
    ensures { OnOk result ((t : List ℕ) → contains_text used.new t
        ≡ (specs.is_token t (specs.fragment_token (decoded fragment.now)) || contains_text used.old t)) }
{
    match percent_decode(fragment.as_bytes()).decode_utf8(alloc) {
        Ok(pointer) => note_pointer(alloc, &pointer, used),
        Err(DecodeError::Utf8(_)) => Ok(()),
        Err(DecodeError::OutOfMemory) => Err(AllocError),
    }
}

/// Notes the schema that a reference leads to or into. Fails where memory runs out.
fn note_reference(alloc: Global, text: &str, used: &mut BTreeSet<String>) -> Result<(), AllocError>
    ensures { OnOk result ((t : List ℕ) → contains_text used.new t
        ≡ (specs.is_token t (specs.reference_token text.now) || contains_text used.old t)) }
{
    match text.strip_prefix('#') {
        Some(fragment) => note_fragment(alloc, fragment, used),
        None => Ok(()),
    }
}

/// Notes the schema that a text of a discriminator's mapping names, or leads to or into. Fails where memory runs out.
fn note_mapping(alloc: Global, text: &str, used: &mut BTreeSet<String>) -> Result<(), AllocError>
    ensures { OnOk result ((t : List ℕ) → contains_text used.new t
        ≡ (specs.is_token t (specs.mapping_token text.now) || contains_text used.old t)) }
{
    match text.strip_prefix('#') {
        Some(fragment) => note_fragment(alloc, fragment, used),
        None => note(alloc, text, used),
    }
}

/// Notes the schema that a text refers to, or into. Fails where memory runs out.
fn note_mention(
    alloc: Global,
    way: Way,
    text: &str,
    used: &mut BTreeSet<String>,
) -> Result<(), AllocError>
    ensures { OnOk result ((t : List ℕ) → contains_text used.new t
        ≡ (specs.is_token t (specs.mention_token (way_of way) text.now) || contains_text used.old t)) }
{
    match way {
        Way::Reference => note_reference(alloc, text, used),
        Way::Mapping => note_mapping(alloc, text, used),
        Way::Requirement => Ok(()),
    }
}

/// The names, as a JSON Pointer has them, of the schemas that a document of a kind refers to or into. Fails where memory runs out.
pub(crate) fn used_tokens(
    alloc: Global,
    kind: Kind,
    tree: &Value,
) -> Result<BTreeSet<String>, AllocError>
    ensures { IfOk result (λ used. (t : List ℕ) → contains_text used t
        ≡ specs.is_mentioned (references (kind_of kind) (view tree.now)) t) }
{
    let mut used = BTreeSet::new(alloc);
    for reference in references(alloc, kind, tree)? {
        note_mention(alloc, reference.way, reference.text, &mut used)?;
    }
    Ok(used)
}
