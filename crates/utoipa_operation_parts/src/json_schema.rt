//! Contents in JSON that are of a schema of the components.
ghost use Rattle.std.specs.Prelude.{◌≡◌, IfOk, codes, string_bytes};
ghost use Rattle.utoipa_media.specs.declared.types.Content.{out-Content};
ghost use Rattle.utoipa_operation_parts.specs.JsonSchema.{IsOfNamedSchema};

use std::alloc::{AllocError, Global};
use utoipa_base::{Ref, RefOr};
use utoipa_media::content::Content;

/// The media type of JSON: `application/json` (RFC 8259, section 11). Fails where memory runs out.
pub(crate) fn json_media_type(alloc: Global) -> Result<String, AllocError>
    ensures { IfOk result (λ name. string_bytes name ≡ codes "application/json") }
{
    String::from_str(alloc, "application/json")
}

/// A content of the schema of that name in the components, by a reference. Fails where memory runs out.
pub(crate) fn json_schema_content(alloc: Global, schema_name: &str) -> Result<Content, AllocError>
    ensures { IfOk result (λ content. IsOfNamedSchema schema_name.now (out-Content content)) }
{
    let reference = Ref::from_schema_name(alloc, schema_name)?;
    Ok(Content::new(alloc, Some(RefOr::Ref(reference))))
}
