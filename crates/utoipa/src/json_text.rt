//! Values of the model as JSON texts, whatever their type.
ghost use Rattle.std.specs.Prelude.{◌≡◌, ◌≤◌, Some, false, IfOk, IfErr, IsErrOf, string_bytes};
ghost use Rattle.std.specs.Str.{IsUtf8};
ghost use Rattle.serde_json.specs.Data.{depth};
ghost use Rattle.serde_json.specs.Read.{read as read_text, max_depth};
ghost use Rattle.serde_json.specs.Written.{has_float, compact_text};
ghost use Rattle.utoipa_base.specs.Printed.{IsJsonOf};
ghost use Rattle.utoipa_base.specs.Texts.{IsTextOf, RefusesText};
ghost use Rattle.utoipa_base.specs.Writing.{write};
ghost use Rattle.utoipa.specs.Texts.{pretty_text};

use json::Writer;
use simdutf8::basic::from_utf8;
use std::alloc::{AllocError, Global};
use utoipa_base::{ReadFault, Tree};

/// The value of a JSON text.
///
/// It is read from the text's tokens, and where these are not enough from the text's tree: a text that is refused is read twice.
/// Fails with `Text` exactly where the text is no JSON, with `Fraction` exactly where a number of it is neither an `i64` nor a
/// `u64`, and else as [`Tree::from_value`] does of the text's tree; with `Memory`, which says nothing of the text, where memory
/// runs out.
pub fn from_json<T: Tree>(alloc: Global, text: &str) -> Result<T, ReadFault>
    ensures ok { IfOk result (λ value. IsTextOf T.kind (T.doc value) text.now) }
    ensures err { IfErr result (RefusesText T.kind text.now) }
{
    T::from_json_text(alloc, text)
}

/// The value of the bytes of a JSON text.
///
/// Fails with `Text` where the bytes are no UTF-8, and else as [`from_json`] does of their text.
pub fn from_slice<T: Tree>(alloc: Global, bytes: &[u8]) -> Result<T, ReadFault>
    ensures ok { IfOk result (λ value. IsUtf8 bytes.now × IsTextOf T.kind (T.doc value) bytes.now) }
    ensures err { IfErr result (λ fault. IsUtf8 bytes.now → RefusesText T.kind bytes.now fault) }
    ensures no_utf8 { ¬ (IsUtf8 bytes.now) → IsErrOf result ReadFault.Text }
{
    match from_utf8(bytes) {
        Ok(text) => from_json::<T>(alloc, text),
        Err(_) => Err(ReadFault::Text),
    }
}

/// The value as JSON in compact form, the members of each object in the order of their names.
///
/// The text is read as the tree that the value is written as, with its fractions, where this nests no deeper than a text may. A whole
/// number has its digits there. Which text a fraction has is not defined. Fails where memory runs out.
pub fn to_json<T: Tree>(alloc: Global, value: &T) -> Result<String, AllocError>
    ensures text { IfOk result (λ text. has_float (write (T.doc value.now)) ≡ false
        → string_bytes text ≡ compact_text (write (T.doc value.now))) }
    ensures json { IfOk result (λ text. IsJsonOf (write (T.doc value.now)) (string_bytes text)) }
{
    let mut out = Writer::new(Vec::with_capacity(alloc, 128)?);
    value.emit(&mut out)?;
    // What a writer of JSON has is UTF-8.
    Ok(String::from_utf8(out.into_inner()).unwrap())
}

/// The value as JSON with a line for each item and member, two spaces deeper for each bracket round them, and the members of each
/// object in the order of their names.
///
/// The text is read as the tree that the value is written as, with its fractions, where this nests no deeper than a text may. Which
/// text a fraction has is not defined. Fails where memory runs out.
pub fn to_pretty_json<T: Tree>(alloc: Global, value: &T) -> Result<String, AllocError>
    ensures text { IfOk result (λ text. has_float (write (T.doc value.now)) ≡ false
        → string_bytes text ≡ pretty_text (write (T.doc value.now))) }
    ensures reads_back { IfOk result (λ text. depth (write (T.doc value.now)) ≤ max_depth
        → read_text (string_bytes text) ≡ Some (write (T.doc value.now))) }
{
    value.to_value(alloc)?.to_string_pretty(alloc)
}
