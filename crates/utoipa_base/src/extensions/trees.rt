// Extensions as members of an object's tree.
ghost use Rattle.std.specs.Prelude.{◌≡◌, true, option_map, IfOk, string_bytes};
ghost use Rattle.serde_json.specs.View.{view, members_view};
ghost use Rattle.utoipa_base.specs.Extensions.{extensions_view, is_extension, extension_name, extensions_at, some_if_any};

use crate::extensions::Extensions;
use serde_json::Value;
use std::alloc::{AllocError, Global};
use std::collections::BTreeMap;

/// Whether a member of this name is an extension: it begins `x-`, in lower case.
pub fn is_extension_name(name: &str) -> bool
    ensures { result ≡ is_extension name.now }
{
    name.as_bytes().starts_with(b"x-")
}

/// The name of an extension: the given one, with `x-` before it where it does not begin so.
/// Fails where memory runs out.
pub(crate) fn prefixed(alloc: Global, name: String) -> Result<String, AllocError>
    ensures { IfOk result (λ s. string_bytes s ≡ extension_name (string_bytes name)) }
{
    if is_extension_name(name.as_str()) {
        return Ok(name);
    }
    let mut whole = String::from_str(alloc, "x-")?;
    whole.push_str(name.as_str())?;
    Ok(whole)
}

/// The extensions that a tree has: None for a tree that is no object, or an object without any.
/// Fails where memory runs out.
pub fn read_extensions(alloc: Global, tree: &Value) -> Result<Option<Extensions>, AllocError>
    ensures { IfOk result
        (λ o. option_map extensions_view o ≡ extensions_at true (view tree.now)) }
{
    let Some(members) = tree.as_object() else {
        return Ok(None);
    };
    let mut entries = BTreeMap::new(alloc);
    for (key, member) in members.iter() {
        if is_extension_name(key.as_str()) {
            let name = key.clone()?;
            let value = member.clone()?;
            drop(entries.insert(name, value)?);
        }
    }
    if entries.is_empty() {
        return Ok(None);
    }
    Ok(Some(Extensions { entries }))
}

/// The extensions of these members, which are all that an object has: None where there are none. Takes no memory.
pub(crate) fn extensions_if_any(entries: BTreeMap<String, Value>) -> Option<Extensions>
    ensures { option_map extensions_view result ≡ some_if_any (members_view entries.entries) }
{
    if entries.is_empty() {
        return None;
    }
    Some(Extensions { entries })
}

/// Equal extensions, where there are any. Fails where memory runs out.
pub fn clone_extensions(
    alloc: Global,
    extensions: &Option<Extensions>,
) -> Result<Option<Extensions>, AllocError>
    ensures { IfOk result (λ copy. option_map extensions_view copy ≡ option_map extensions_view extensions.now) }
{
    match extensions {
        Some(extensions) => Ok(Some(extensions.try_clone(alloc)?)),
        None => Ok(None),
    }
}
