//! Kinds, and trees that are neither arrays nor objects.
ghost use Rattle.std.specs.Prelude.{◌≡◌, IfOk, Some, true, false};
ghost use Rattle.std.specs.Str.{bytes_eq};
ghost use Rattle.std.specs.List.{list_any};
ghost use Rattle.serde_json.specs.View.{view, number_view};
ghost use Rattle.utoipa_base.specs.Rows.{texts};
ghost use Rattle.utoipa_check.specs.Misfits as specs;
ghost use Rattle.utoipa_check.specs.Views.{cause_of, misfits_of, is_reference, own_kind, is_plain_kind};
ghost use Rattle.utoipa_tables.specs.Tables.{kind_of};

use crate::misfit::{Cause, Misfit, here};
use crate::version::is_version;
use serde_json::{Number, Value};
use std::alloc::{AllocError, Global};
use utoipa_tables::{Kind, Vocabulary, words};

/// The kind without references.
pub(crate) fn own_kind(kind: Kind) -> Kind
    ensures own { kind_of result ≡ own_kind (kind_of kind) }
    ensures not_reference { is_reference (kind_of result) ≡ false }
{
    match kind {
        Kind::RefOr(inner) => own_kind(*inner),
        other => other,
    }
}

/// Whether a reference may stand there.
pub(crate) fn may_be_reference(kind: Kind) -> bool
    ensures { result ≡ is_reference (kind_of kind) }
{
    matches!(kind, Kind::RefOr(_))
}

/// Whether null is of the kind.
pub(crate) fn null_fits(kind: Kind) -> bool
    ensures { result ≡ specs.null_fits (kind_of kind) }
{
    matches!(kind, Kind::Any | Kind::SchemaType)
}

/// Whether true or false is of the kind.
pub(crate) fn boolean_fits(flag: bool, kind: Kind) -> bool
    ensures { result ≡ specs.boolean_fits flag (kind_of kind) }
{
    match kind {
        Kind::Flag | Kind::Any | Kind::AdditionalProperties => true,
        Kind::ArrayItems => !flag,
        _ => false,
    }
}

/// Whether a number is of the kind.
pub(crate) fn number_fits(number: &Number, kind: Kind) -> bool
    ensures { result ≡ specs.number_fits (number_view number.now) (kind_of kind) }
{
    match kind {
        Kind::Whole => number.is_u64(),
        Kind::Numeral => number.as_i128().is_some(),
        Kind::Any => true,
        _ => false,
    }
}

/// No misfit where a tree fits, else that it is of another sort. Fails where memory runs out.
pub(crate) fn expect<'a>(
    alloc: Global,
    fits: bool,
    kind: Kind,
) -> Result<Vec<Misfit<'a>>, AllocError>
    ensures { IfOk result (λ v. misfits_of v.items ≡ specs.expect fits (kind_of kind)) }
{
    if fits {
        return Ok(Vec::new(alloc));
    }
    here(alloc, Cause::Expected(kind))
}

/// Whether a text is one of some words.
pub(crate) fn is_one_of(text: &str, words: &[&str]) -> bool
    ensures { result ≡ list_any (bytes_eq text.now) (texts words.now) }
{
    for word in words {
        if text == *word {
            return true;
        }
    }
    false
}

/// Why a tree of another sort does not fit: a fraction is told as one, and of any other tree the kind that is expected.
pub(crate) fn mismatch(kind: Kind, tree: &Value) -> Cause
    ensures { cause_of result ≡ specs.mismatch (kind_of kind) (view tree.now) }
{
    if tree.is_f64() {
        Cause::Fraction
    } else {
        Cause::Expected(kind)
    }
}

/// No misfit where a tree fits, else why it does not. Fails where memory runs out.
pub(crate) fn expect_of<'a>(
    alloc: Global,
    fits: bool,
    kind: Kind,
    tree: &Value,
) -> Result<Vec<Misfit<'a>>, AllocError>
    ensures { IfOk result (λ v. misfits_of v.items ≡ specs.expect_of fits (kind_of kind) (view tree.now)) }
{
    if fits {
        return Ok(Vec::new(alloc));
    }
    here(alloc, mismatch(kind, tree))
}

/// No misfit where a text is one of some words. Fails where memory runs out.
pub(crate) fn expect_word<'a>(
    alloc: Global,
    text: &str,
    words: &'static [&'static str],
) -> Result<Vec<Misfit<'a>>, AllocError>
    ensures { IfOk result (λ v. misfits_of v.items ≡ specs.expect_word (texts words.now) text.now) }
{
    if is_one_of(text, words) {
        return Ok(Vec::new(alloc));
    }
    here(alloc, Cause::UnknownWord(words))
}

/// The misfits of a text. Fails where memory runs out.
pub(crate) fn text_misfits<'a>(
    alloc: Global,
    kind: Kind,
    text: &str,
) -> Result<Vec<Misfit<'a>>, AllocError>
    requires { is_reference (kind_of kind) ≡ false }
    ensures { IfOk result (λ v. misfits_of v.items ≡ specs.string_misfits text.now (kind_of kind)) }
{
    match kind {
        Kind::Text | Kind::Any | Kind::SchemaFormat => Ok(Vec::new(alloc)),
        Kind::WordOf(vocabulary) => expect_word(alloc, text, words(vocabulary)),
        Kind::SchemaType => expect_word(alloc, text, words(Vocabulary::TypeWord)),
        Kind::Version => expect(alloc, is_version(text), kind),
        _ => here(alloc, Cause::Expected(kind)),
    }
}

/// The misfits of a tree of which it is a text, a flag or anything that is expected. Fails where memory runs out.
pub(crate) fn plain_misfits<'a>(
    alloc: Global,
    kind: Kind,
    tree: &Value,
) -> Result<Vec<Misfit<'a>>, AllocError>
    requires { is_plain_kind (kind_of kind) ≡ true }
    ensures { IfOk result (λ v. misfits_of v.items ≡ specs.misfits (kind_of kind) (view tree.now)) }
{
    expect_of(alloc, fits_plain(kind, tree), kind, tree)
}

/// Whether a tree is a text, a flag or anything, whichever is expected.
fn fits_plain(kind: Kind, tree: &Value) -> bool
    requires { is_plain_kind (kind_of kind) ≡ true }
    ensures { specs.misfits (kind_of kind) (view tree.now) ≡ specs.expect_of result (kind_of kind) (view tree.now) }
{
    match kind {
        Kind::Text => tree.is_string(),
        Kind::Flag => tree.is_boolean(),
        _ => true,
    }
}
