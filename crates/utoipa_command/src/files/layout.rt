//! How a document is laid out.
ghost use Rattle.std.specs.Prelude.{◌≡◌, false, IfOk, IfErr, string_bytes};
ghost use Rattle.serde_json.specs.Written.{has_float};
ghost use Rattle.utoipa_base.specs.Writing.{write};
ghost use Rattle.utoipa.specs.OpenApi.{openapi_doc};
ghost use Rattle.utoipa_command.specs.Layouts.{json_text, laid_out};

use std::alloc::{AllocError, Global};
use utoipa::openapi::OpenApi;
use utoipa_findings::Refusal;

/// How a document is laid out.
#[derive(Clone, Copy, Debug, Drop, PartialEq, Eq)]
pub enum Layout {
    /// A line for each item and member.
    Lines,
    /// All on one line.
    Compact,
}

/// A document as JSON. Fails where memory runs out.
fn json_of(alloc: Global, layout: Layout, document: &OpenApi) -> Result<String, AllocError>
    ensures { IfOk result (λ text. has_float (write (openapi_doc document.now)) ≡ false
        → string_bytes text ≡ json_text layout (write (openapi_doc document.now))) }
{
    match layout {
        Layout::Lines => document.to_pretty_json(alloc),
        Layout::Compact => document.to_json(alloc),
    }
}

/// A document as JSON, and a newline. Fails where memory runs out.
fn text_of(alloc: Global, layout: Layout, document: &OpenApi) -> Result<String, AllocError>
    ensures { IfOk result (λ text. has_float (write (openapi_doc document.now)) ≡ false
        → string_bytes text ≡ laid_out layout (write (openapi_doc document.now))) }
{
    let mut text = json_of(alloc, layout, document)?;
    text.push('\n')?;
    Ok(text)
}

/// A document as JSON, and a newline. Fails where memory runs out.
pub(crate) fn json_line(
    alloc: Global,
    layout: Layout,
    document: &OpenApi,
) -> Result<String, Refusal>
    ensures ok { IfOk result (λ text. has_float (write (openapi_doc document.now)) ≡ false
        → string_bytes text ≡ laid_out layout (write (openapi_doc document.now))) }
    ensures err { IfErr result (λ refusal. refusal ≡ Refusal.Memory) }
{
    Ok(text_of(alloc, layout, document)?)
}
