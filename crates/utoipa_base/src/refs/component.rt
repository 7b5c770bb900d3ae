//! Which component a reference leads to.
ghost use Rattle.std.specs.Prelude.{◌≡◌, ◌≢◌, ◌≤◌, ◌++◌, ◌∷◌, All, length, IfOk, IsOkAnd, option_map, string_bytes};
ghost use Rattle.std.specs.Cow.{cow_str_bytes};
ghost use Rattle.percent_encoding.specs.Cow.{IsBorrowedStr};
ghost use Rattle.serde_json.specs.Find.{unescape};
ghost use Rattle.utoipa_base.specs.References.{component_map_text, every_component_map, component_of, component_at, path_of, key_of};
ghost use Rattle.utoipa_base.specs.Vocabularies.{with_text};

use percent_encoding::{DecodeError, percent_decode};
use std::alloc::{AllocError, Global};
use std::borrow::CowStr;

/// A map of the Components Object, by its field (OpenAPI 3.1, section 4.8.7; `mediaTypes` from 3.2).
#[derive(Clone, Copy, Debug, Drop, PartialEq, Eq)]
pub enum ComponentMap {
    /// Callbacks: `callbacks`.
    Callbacks,
    /// Examples: `examples`.
    Examples,
    /// Headers: `headers`.
    Headers,
    /// Links: `links`.
    Links,
    /// Contents: `mediaTypes`.
    MediaTypes,
    /// Parameters: `parameters`.
    Parameters,
    /// Path items: `pathItems`.
    PathItems,
    /// Request bodies: `requestBodies`.
    RequestBodies,
    /// Responses: `responses`.
    Responses,
    /// Schemas: `schemas`.
    Schemas,
    /// Security schemes: `securitySchemes`.
    SecuritySchemes,
}

impl ComponentMap {
    /// The field of the Components Object.
    pub fn as_text(self) -> &'static str
        ensures { result.now ≡ component_map_text self }
    {
        match self {
            ComponentMap::Callbacks => "callbacks",
            ComponentMap::Examples => "examples",
            ComponentMap::Headers => "headers",
            ComponentMap::Links => "links",
            ComponentMap::MediaTypes => "mediaTypes",
            ComponentMap::Parameters => "parameters",
            ComponentMap::PathItems => "pathItems",
            ComponentMap::RequestBodies => "requestBodies",
            ComponentMap::Responses => "responses",
            ComponentMap::Schemas => "schemas",
            ComponentMap::SecuritySchemes => "securitySchemes",
        }
    }

    /// The map of a field of the Components Object; none exactly where the text is no field that is a map.
    pub fn from_text(text: &str) -> Option<ComponentMap>
        ensures { result ≡ with_text component_map_text every_component_map text.now }
    {
        match text {
            "callbacks" => Some(ComponentMap::Callbacks),
            "examples" => Some(ComponentMap::Examples),
            "headers" => Some(ComponentMap::Headers),
            "links" => Some(ComponentMap::Links),
            "mediaTypes" => Some(ComponentMap::MediaTypes),
            "parameters" => Some(ComponentMap::Parameters),
            "pathItems" => Some(ComponentMap::PathItems),
            "requestBodies" => Some(ComponentMap::RequestBodies),
            "responses" => Some(ComponentMap::Responses),
            "schemas" => Some(ComponentMap::Schemas),
            "securitySchemes" => Some(ComponentMap::SecuritySchemes),
            _ => None,
        }
    }
}

/// Where a component stands: its map and its name there.
#[derive(Debug, Drop)]
pub struct ComponentKey<'a> {
    /// The map of the Components Object.
    pub map: ComponentMap,
    /// The name. It is borrowed from the reference, unless the reference writes a letter of it in another way.
    pub name: CowStr<'a, Global>,
}

/// What a `~` stands for before a text, and the text behind it (RFC 6901, section 4).
fn tilde_of(after: &str) -> (&'static str, &str)
    ensures letter { unescape (126 ∷ after.now) ≡ result.0.now ++ unescape result.1.now }
    ensures shorter { length result.1.now ≤ length after.now }
{
    if let Some(rest) = after.strip_prefix('1') {
        return ("/", rest);
    }
    match after.strip_prefix('0') {
        Some(rest) => ("~", rest),
        None => ("~", after),
    }
}

/// The name that a token of a JSON Pointer stands for (RFC 6901, section 4). Fails where memory runs out.
fn unescaped(alloc: Global, token: &str) -> Result<String, AllocError>
    ensures { IfOk result (λ name. string_bytes name ≡ unescape token.now) }
{
    let mut name = String::new(alloc);
    let mut rest = token;
    while let Some((front, after)) = rest.split_once('~') {
        name.push_str(front)?;
        let (letter, more) = tilde_of(after);
        name.push_str(letter)?;
        rest = more;
    }
    name.push_str(rest)?;
    Ok(name)
}

/// The name that a token stands for; the token itself where it has no `~`. Fails where memory runs out.
fn name_of(alloc: Global, token: &str) -> Result<CowStr<'_, Global>, AllocError>
    ensures value { IfOk result (λ name. cow_str_bytes name ≡ unescape token.now) }
    ensures borrows { All (λ letter. letter ≢ 126) token.now → IsOkAnd result IsBorrowedStr }
{
    if token.contains('~') {
        return Ok(CowStr::Owned(unescaped(alloc, token)?));
    }
    Ok(CowStr::Borrowed(token))
}

/// The map and the token of the name, where a JSON Pointer leads to a component.
fn component_token(pointer: &str) -> Option<(ComponentMap, &str)>
    ensures { option_map (λ found. (found.0, unescape found.1.now)) result ≡ component_at (path_of pointer.now) }
{
    let Some(path) = pointer.strip_prefix("/components/") else {
        return None;
    };
    let Some((field, token)) = path.split_once('/') else {
        return None;
    };
    if token.contains('/') {
        return None;
    }
    match ComponentMap::from_text(field) {
        Some(map) => Some((map, token)),
        None => None,
    }
}

/// The component at a JSON Pointer. Fails where memory runs out.
fn key_at(alloc: Global, pointer: &str) -> Result<Option<ComponentKey<'_>>, AllocError>
    ensures { IfOk result (λ found. option_map key_of found ≡ component_at (path_of pointer.now)) }
{
    match component_token(pointer) {
        Some((map, token)) => {
            let name = name_of(alloc, token)?;
            Ok(Some(ComponentKey { map, name }))
        }
        None => Ok(None),
    }
}

/// The same of a JSON Pointer that is let go. Fails where memory runs out.
fn owned_key_at<'a>(alloc: Global, pointer: String) -> Result<Option<ComponentKey<'a>>, AllocError>
    ensures { IfOk result (λ found. option_map key_of found ≡ component_at (path_of (string_bytes pointer))) }
{
    match component_token(&pointer) {
        Some((map, token)) => {
            let name = unescaped(alloc, token)?;
            Ok(Some(ComponentKey {
                map,
                name: CowStr::Owned(name),
            }))
        }
        None => Ok(None),
    }
}

/// The component that a location leads to. Fails where memory runs out.
pub(crate) fn component_at_location(
    alloc: Global,
    location: &str,
) -> Result<Option<ComponentKey<'_>>, AllocError>
    ensures { IfOk result (λ found. option_map key_of found ≡ component_of location.now) }
{
    let Some(fragment) = location.strip_prefix('#') else {
        return Ok(None);
    };
    match percent_decode(fragment.as_bytes()).decode_utf8(alloc) {
        Ok(CowStr::Borrowed(pointer)) => key_at(alloc, pointer),
        Ok(CowStr::Owned(pointer)) => owned_key_at(alloc, pointer),
        Err(DecodeError::Utf8(_)) => Ok(None),
        Err(DecodeError::OutOfMemory) => Err(AllocError),
    }
}
