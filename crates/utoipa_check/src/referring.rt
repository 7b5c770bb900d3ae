//! Where a reference leads, by its text and by the tree of the document that it stands in.
ghost use Rattle.std.specs.Prelude.{◌≡◌, Some, IfOk, codes, option_map};
ghost use Rattle.serde_json.specs.View.{view};
ghost use Rattle.utoipa_check.specs.ReferenceViews.{state_of, way_of};
ghost use Rattle.percent_encoding.specs.Percent.{percent_decode as decoded};
ghost use Rattle.utoipa_base.specs.References.{component as entry, target_of_fragment, target_of_text};
ghost use Rattle.utoipa_check.specs.Referring as specs;
ghost use Rattle.utoipa_check.specs.Said.{state_text};

use percent_encoding::{DecodeError, percent_decode};
use serde_json::Value;
use std::alloc::{AllocError, Global};
use std::fmt;

/// What has become of a reference.
#[derive(Clone, Copy, Debug, Drop)]
pub enum State {
    /// It is local, and leads to nothing in the tree.
    Dangling,
    /// It is local, and leads to a place in the tree.
    Resolved,
    /// It leads out of the tree, or names a place of it by no path, as `#name` does.
    External,
}

/// How a text refers.
#[derive(Clone, Copy, Debug, Drop)]
pub enum Way {
    /// As a reference: a Reference Object (OpenAPI 3.1, section 4.8.23) or the `$ref` of a Path Item Object (section 4.8.9).
    Reference,
    /// As a text of the mapping of a Discriminator Object (section 4.8.25): the name of a schema, or else a reference.
    Mapping,
    /// As a name of a Security Requirement Object (section 4.8.30).
    Requirement,
}

/// What has become of a local reference, by what it leads to.
fn leads(found: Option<&Value>) -> State
    ensures { state_of result ≡ specs.leads (option_map (λ v. view v.now) found.entry) }
{
    match found {
        Some(_) => State::Resolved,
        None => State::Dangling,
    }
}

/// What has become of a reference whose fragment has no escapes (RFC 6901, section 6).
fn pointer_state(pointer: &str, tree: &Value) -> State
    ensures { state_of result ≡ specs.target_state (target_of_text pointer.now) (view tree.now) }
{
    if pointer.is_empty() || pointer.starts_with('/') {
        return leads(tree.pointer(pointer));
    }
    State::External
}

/// What has become of a reference, by the fragment, of which the escapes are read here (RFC 6901, section 6). Fails where memory runs out.
fn fragment_state(alloc: Global, fragment: &str, tree: &Value) -> Result<State, AllocError>
    ensures { IfOk result (λ s. state_of s
        ≡ specs.target_state (target_of_fragment (decoded fragment.now)) (view tree.now)) }
{
    match percent_decode(fragment.as_bytes()).decode_utf8(alloc) {
        Ok(pointer) => Ok(pointer_state(&pointer, tree)),
        Err(DecodeError::Utf8(_)) => Ok(State::Dangling),
        Err(DecodeError::OutOfMemory) => Err(AllocError),
    }
}

/// What has become of a reference. Fails where memory runs out.
///
/// It is local where it is `#` and a JSON Pointer, percent-decoded (RFC 6901, section 6).
pub fn reference_state(alloc: Global, text: &str, tree: &Value) -> Result<State, AllocError>
    ensures { IfOk result (λ s. state_of s ≡ specs.reference_state text.now (view tree.now)) }
{
    match text.strip_prefix('#') {
        Some(fragment) => fragment_state(alloc, fragment, tree),
        None => Ok(State::External),
    }
}

/// An entry of a map of the components (Components Object: OpenAPI 3.1, section 4.8.7).
fn component<'t>(map_name: &str, name: &str, tree: &'t Value) -> Option<&'t Value>
    ensures { option_map (λ v. view v.now) result ≡ entry map_name.now name.now (view tree.now) }
{
    let Some(components) = tree.get("components") else {
        return None;
    };
    match components.get(map_name) {
        Some(entries) => entries.get(name),
        None => None,
    }
}

/// Whether a byte is a letter of a component's name.
fn is_name_letter(letter: u8) -> bool
    ensures { result ≡ specs.is_name_letter letter }
{
    (letter > 96 && letter < 123)
        || (letter > 64 && letter < 91)
        || (letter > 47 && letter < 58)
        || letter == 45
        || letter == 46
        || letter == 95
}

/// Whether a text is a name that a component may have (Components Object: section 4.8.7).
fn is_plain_name(text: &str) -> bool
    ensures { result ≡ specs.is_plain_name text.now }
{
    if text.is_empty() {
        return false;
    }
    for letter in text.as_bytes() {
        if !is_name_letter(*letter) {
            return false;
        }
    }
    true
}

/// What has become of a text of a discriminator's mapping. Fails where memory runs out.
fn mapping_state(alloc: Global, text: &str, tree: &Value) -> Result<State, AllocError>
    ensures { IfOk result (λ s. state_of s ≡ specs.mapping_state text.now (view tree.now)) }
{
    if is_plain_name(text) {
        return Ok(leads(component("schemas", text, tree)));
    }
    reference_state(alloc, text, tree)
}

/// What has become of a text that refers, by the tree of the document that it stands in. Fails where memory runs out.
pub fn resolve(alloc: Global, way: Way, text: &str, tree: &Value) -> Result<State, AllocError>
    ensures { IfOk result (λ s. state_of s ≡ specs.state (way_of way) text.now (view tree.now)) }
{
    match way {
        Way::Reference => reference_state(alloc, text, tree),
        Way::Mapping => mapping_state(alloc, text, tree),
        Way::Requirement => Ok(leads(component("securitySchemes", text, tree))),
    }
}

impl fmt::Display for State {
    ghost output = { λ x. Some (state_text (state_of x)) };

    fn fmt<W: fmt::Write>(&self, f: &mut fmt::Formatter<W>) -> fmt::Result {
        match self {
            State::Dangling => write!(f, "leads to nothing"),
            State::Resolved => write!(f, "leads to a place of the document"),
            State::External => write!(f, "leads out of the document"),
        }
    }
}
