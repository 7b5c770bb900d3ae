//! Which values come back from the tree that they are written as: the unambiguous ones.
//!
//! A value can be built, and some can be read, that is written as something which reads otherwise. There are four sorts: an extension whose
//! name does not begin with `x-`; an entry beside extensions, as a path, whose name does; an OAuth flow under the key of another type; and
//! a path item in a callback with a text at `$ref`, which reads as a reference there. [`Unambiguous::is_unambiguous`] finds them all.
ghost use Rattle.std.specs.Prelude.{◌≡◌, true, None, option_map};
ghost use Rattle.serde_json.specs.Find.{as_str};
ghost use Rattle.utoipa_base.specs.Docs.{entries_of_list};
ghost use Rattle.utoipa_base.specs.Extensions.{extensions_view, all_extensions};
ghost use Rattle.utoipa_base.specs.OfKind.{text_of_kind, flag_of_kind, whole_of_kind, tree_of_kind, number_of_kind, deprecated_of_kind, required_of_kind, reference_of_kind, ref_or_of_kind, list_of_kind, map_of_kind, ordered_map_of_kind};
ghost use Rattle.utoipa_base.specs.Shape.{value_of, IsOf};
ghost use Rattle.utoipa_base.specs.Views.{option_of, boxed, pairs_of};
ghost use Rattle.utoipa_base.specs.WellFormed.{names_no_extension};
ghost use Rattle.utoipa_base.specs.Writing.{write};
ghost use Rattle.utoipa_base.specs.Unambiguous.{is_unambiguous, is_no_reference, are_extensions};

use crate::deprecated::Deprecated;
use crate::emit::Documented;
use crate::extensions::{Extensions, is_extension_name};
use crate::number::Number;
use crate::ordered_map::OrderedMap;
use crate::refs::{Ref, RefOr};
use crate::required::Required;
use serde_json::Value;
use std::collections::BTreeMap;

/// A type whose values can be asked whether they come back from the tree that they are written as. Every type of the model has it.
pub trait Unambiguous: Documented {
    /// Whether the value is unambiguous: each extension's name begins with `x-`, and no name of an entry beside extensions does; each OAuth
    /// flow stands under the key of its own type; and what stands in the place of a reference has no text at `$ref`. Takes no memory.
    ///
    /// Then each place of the tree that the value is written as reads as what it was written from, by [`crate::laws::comes_back`].
    /// That the test holds of no other value is the law [`crate::laws::unambiguous_exactly`].
    fn is_unambiguous(&self) -> bool
        ensures { result ≡ is_unambiguous (Self.doc self.now) };

    // Each value is a document of the type's kind.
    ghost of_kind: { (x : Self) → IsOf (Self.doc x) (value_of Self.kind) };
}

/// A type whose values stand where references may, and so have to be told from them.
pub trait NoReference: Documented {
    /// Whether the value has no text at `$ref`, so that it reads as no reference (Reference Object: section 4.8.23).
    fn is_no_reference(&self) -> bool
        requires { is_unambiguous (Self.doc self.now) ≡ true }
        ensures { result ≡ is_no_reference (write (Self.doc self.now)) };
}

/// A type whose values are written as no text, as objects are.
pub trait NeverText: Documented {
    // No value is written as a text.
    ghost is_no_text: { (x : Self) → as_str (write (Self.doc x)) ≡ None };
}

/// Whether a value that may be absent is unambiguous, or absent.
#[tactic(auto, using(crate::proofs::UnambiguousParts::by_parts))]
pub fn option_is_unambiguous<T: Unambiguous>(value: &Option<T>) -> bool
    ensures { result ≡ is_unambiguous (option_of T.doc value.now) }
{
    match value {
        Some(value) => value.is_unambiguous(),
        None => true,
    }
}

/// Whether a value in a box that may be absent is unambiguous, or absent.
#[tactic(auto, using(crate::proofs::UnambiguousParts::by_parts))]
pub fn boxed_is_unambiguous<T: Unambiguous>(value: &Option<Box<T>>) -> bool
    ensures { result ≡ is_unambiguous (option_of (boxed T.doc) value.now) }
{
    match value {
        Some(value) => value.is_unambiguous(),
        None => true,
    }
}

/// Whether each extension's name begins with `x-`, as the builder of extensions has it.
pub fn extensions_are_unambiguous(extensions: &Option<Extensions>) -> bool
    ensures { result ≡ are_extensions (option_map extensions_view extensions.now) }
{
    match extensions {
        Some(extensions) => all_are_extensions(extensions),
        None => true,
    }
}

// Whether the name of each extension begins with `x-`.
fn all_are_extensions(extensions: &Extensions) -> bool
    ensures { result ≡ all_extensions (extensions_view extensions.now) }
{
    for (name, _) in extensions.as_map().iter() {
        if !is_extension_name(name.as_str()) {
            return false;
        }
    }
    true
}

/// Whether no entry's name begins with `x-`, so that none reads as an extension of the object that they stand in.
pub fn names_are_no_extensions<T: Documented>(entries: &BTreeMap<String, T>) -> bool
    ensures { result ≡ names_no_extension (entries_of_list (pairs_of T.doc entries.now.entries)) }
{
    for (name, _) in entries.iter() {
        if is_extension_name(name.as_str()) {
            return false;
        }
    }
    true
}

/// A list, by its items.
#[tactic(auto, using(crate::proofs::UnambiguousParts::by_parts))]
impl<T: Unambiguous> Unambiguous for Vec<T> {
    ghost of_kind = { list_of_kind T.doc T.kind T.of_kind };

    fn is_unambiguous(&self) -> bool {
        for item in self {
            if !item.is_unambiguous() {
                return false;
            }
        }
        true
    }
}

/// A map, by its entries.
#[tactic(auto, using(crate::proofs::UnambiguousParts::by_parts))]
impl<T: Unambiguous> Unambiguous for BTreeMap<String, T> {
    ghost of_kind = { map_of_kind T.doc T.kind T.of_kind };

    fn is_unambiguous(&self) -> bool {
        for (_, member) in self.iter() {
            if !member.is_unambiguous() {
                return false;
            }
        }
        true
    }
}

/// A map that keeps its order, by its entries.
#[tactic(auto, using(crate::proofs::UnambiguousParts::by_parts))]
impl<T: Unambiguous> Unambiguous for OrderedMap<T> {
    ghost of_kind = { ordered_map_of_kind T.doc T.kind T.of_kind };

    fn is_unambiguous(&self) -> bool {
        for (_, member) in self.iter() {
            if !member.is_unambiguous() {
                return false;
            }
        }
        true
    }
}

/// A reference always is, since it has no extensions.
#[tactic(auto, using(crate::proofs::UnambiguousParts::by_parts))]
impl Unambiguous for Ref {
    ghost of_kind = { reference_of_kind };

    fn is_unambiguous(&self) -> bool {
        let _reference = self;
        true
    }
}

/// A reference, or a value that is unambiguous and does not read as a reference.
#[tactic(auto, using(crate::proofs::UnambiguousParts::by_parts))]
impl<T: Unambiguous + NoReference> Unambiguous for RefOr<T> {
    ghost of_kind = { ref_or_of_kind T.doc T.kind T.of_kind };

    fn is_unambiguous(&self) -> bool {
        match self {
            RefOr::Ref(reference) => reference.is_unambiguous(),
            RefOr::T(value) => value.is_unambiguous() && value.is_no_reference(),
        }
    }
}

/// A map is no reference where no value is written as a text: what stands at `$ref` is a value or a reference, and both are objects.
impl<T: NeverText> NoReference for BTreeMap<String, RefOr<T>> {
    fn is_no_reference(&self) -> bool {
        let _map = self;
        true
    }
}

/// A text always is.
#[tactic(auto, using(crate::proofs::UnambiguousParts::by_parts))]
impl Unambiguous for String {
    ghost of_kind = { text_of_kind };

    fn is_unambiguous(&self) -> bool {
        true
    }
}

/// True and false always are.
#[tactic(auto, using(crate::proofs::UnambiguousParts::by_parts))]
impl Unambiguous for bool {
    ghost of_kind = { flag_of_kind };

    fn is_unambiguous(&self) -> bool {
        true
    }
}

/// A whole number always is.
#[tactic(auto, using(crate::proofs::UnambiguousParts::by_parts))]
impl Unambiguous for usize {
    ghost of_kind = { whole_of_kind };

    fn is_unambiguous(&self) -> bool {
        true
    }
}

/// A tree always is: it is read as it stands.
#[tactic(auto, using(crate::proofs::UnambiguousParts::by_parts))]
impl Unambiguous for Value {
    ghost of_kind = { tree_of_kind };

    fn is_unambiguous(&self) -> bool {
        true
    }
}

/// A number always is.
#[tactic(auto, using(crate::proofs::UnambiguousParts::by_parts))]
impl Unambiguous for Number {
    ghost of_kind = { number_of_kind };

    fn is_unambiguous(&self) -> bool {
        true
    }
}

/// Whether something is deprecated always is.
#[tactic(auto, using(crate::proofs::UnambiguousParts::by_parts))]
impl Unambiguous for Deprecated {
    ghost of_kind = { deprecated_of_kind };

    fn is_unambiguous(&self) -> bool {
        true
    }
}

/// Whether something is required always is.
#[tactic(auto, using(crate::proofs::UnambiguousParts::by_parts))]
impl Unambiguous for Required {
    ghost of_kind = { required_of_kind };

    fn is_unambiguous(&self) -> bool {
        true
    }
}
