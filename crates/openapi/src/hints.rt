//! What helps with a file that is refused.

use anyhow::Result;
use serde_json::Value;
use std::str;
use utoipa_check::Shown;
use utoipa_command::files::Source;

// What the lines of a file of another version say, one of both.
const OTHER_VERSION: &str = "/openapi: ";

const NO_VERSION: &str = "`openapi` is required";

/// Tells of a file, of which these lines were told, that it is of a version that is not read, if it is.
pub fn tell_version(rt: &HostRuntime, source: &Source<'_>, lines: &str) -> Result<()> {
    if !lines.contains(OTHER_VERSION) && !lines.contains(NO_VERSION) {
        return Ok(());
    }
    let name = Shown(source.name);
    match version_of(rt, source.bytes) {
        Some(hint) => Ok(eprintln!(rt; "openapi: {name} is of {hint}")?),
        None => Ok(()),
    }
}

// Of a file that is of a version that is not read: the version, and what helps.
fn version_of(rt: &HostRuntime, bytes: &[u8]) -> Option<&'static str> {
    let text = str::from_utf8(bytes).ok()?;
    let tree = Value::from_str(rt.alloc(), text).ok()?;
    if begins(&tree, "swagger", "2.") {
        Some("Swagger 2.0, which is not read")
    } else if begins(&tree, "openapi", "3.0") {
        Some("OpenAPI 3.0: `openapi upgrade` writes 3.1, and --upgrade reads it so")
    } else {
        None
    }
}

// Whether the text at a member begins so.
fn begins(tree: &Value, name: &str, front: &str) -> bool {
    match tree.get(name) {
        Some(Value::String(text)) => text.as_str().starts_with(front),
        _ => false,
    }
}
