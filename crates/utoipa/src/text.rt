//! Documents as JSON texts.
ghost use Rattle.std.specs.Prelude.{◌≡◌, ◌≤◌, Some, false, IfOk, IfErr, string_bytes};
ghost use Rattle.serde_json.specs.Data.{depth};
ghost use Rattle.serde_json.specs.Read.{read as read_text, max_depth};
ghost use Rattle.serde_json.specs.Written.{has_float, compact_text};
ghost use Rattle.utoipa_base.specs.Kinds.{named, open_api_object};
ghost use Rattle.utoipa_base.specs.Printed.{IsJsonOf};
ghost use Rattle.utoipa_base.specs.Texts.{RefusesText};
ghost use Rattle.utoipa_base.specs.Writing.{write};
ghost use Rattle.utoipa_merging.specs.Texts.{IsTextOf};
ghost use Rattle.utoipa.specs.OpenApi.{openapi_doc};
ghost use Rattle.utoipa.specs.Texts.{pretty_text};

use crate::document::OpenApi;
use crate::json_text::{from_json, to_json, to_pretty_json};
use std::alloc::{AllocError, Global};
use utoipa_base::ReadFault;

impl OpenApi {
    /// The document of a JSON text.
    ///
    /// It is read from the text's tokens, and where these are not enough from the text's tree: a text that is refused is read twice.
    /// Fails with `Text` exactly where the text is no JSON, with `Fraction` exactly where a number of it is neither an `i64` nor a
    /// `u64`, and else as [`Tree::from_value`] does of the text's tree; with `Memory`, which says nothing of the text, where memory
    /// runs out.
    pub fn from_json(alloc: Global, text: &str) -> Result<OpenApi, ReadFault>
        ensures ok { IfOk result (λ document. IsTextOf (openapi_doc document) text.now) }
        ensures err { IfErr result (RefusesText (named open_api_object) text.now) }
    {
        from_json::<OpenApi>(alloc, text)
    }

    /// The document as JSON in compact form, the members of each object in the order of their names.
    ///
    /// The text is read as the tree that the document is written as, with its fractions, where this nests no deeper than a text may.
    /// A whole number has its digits there. Which text a fraction has is not defined. Fails where memory runs out.
    pub fn to_json(&self, alloc: Global) -> Result<String, AllocError>
        ensures text { IfOk result (λ text. has_float (write (openapi_doc self.now)) ≡ false
            → string_bytes text ≡ compact_text (write (openapi_doc self.now))) }
        ensures json { IfOk result (λ text. IsJsonOf (write (openapi_doc self.now)) (string_bytes text)) }
    {
        to_json(alloc, self)
    }

    /// The document as JSON with a line for each item and member, two spaces deeper for each bracket round them, and the members of
    /// each object in the order of their names.
    ///
    /// The text is read as the tree that the document is written as, with its fractions, where this nests no deeper than a text may.
    /// Which text a fraction has is not defined. Fails where memory runs out.
    pub fn to_pretty_json(&self, alloc: Global) -> Result<String, AllocError>
        ensures text { IfOk result (λ text. has_float (write (openapi_doc self.now)) ≡ false
            → string_bytes text ≡ pretty_text (write (openapi_doc self.now))) }
        ensures reads_back { IfOk result (λ text. depth (write (openapi_doc self.now)) ≤ max_depth
            → read_text (string_bytes text) ≡ Some (write (openapi_doc self.now))) }
    {
        to_pretty_json(alloc, self)
    }
}
