//! A value as JSON text, by its tree and without one.

use std::alloc::{AllocError, Global};
use utoipa_base::Tree;

/// The text of the tree that a value is written as, where the value prints itself as that text; else what it prints.
pub fn printed<T: Tree>(alloc: Global, value: &T) -> Result<String, AllocError> {
    let written = value.to_value(alloc)?;
    let text = written.to_string(alloc)?;
    let json = value.to_json(alloc)?;
    if json.as_slice() == text.as_bytes() {
        return Ok(text);
    }
    let otherwise = String::from_utf8_lossy(alloc, json.as_slice())?;
    format!(in alloc; "printed otherwise: {otherwise}")
}
