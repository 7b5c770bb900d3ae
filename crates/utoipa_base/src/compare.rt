//! Comparing values by their documents, as merging does.
ghost use Rattle.std.specs.Prelude.{◌≡◌, ◌↔◌, false, option_map, IsTrue};
ghost use Rattle.serde_json.specs.Written.{members_have_float};
ghost use Rattle.utoipa_base.specs.Extensions.{extensions_view, members_or_none};
ghost use Rattle.utoipa_base.specs.Views.{option_of};
ghost use Rattle.utoipa_base.specs.WellFormed.{has_fraction};

use crate::extensions::Extensions;
use crate::tree::Tree;
use std::collections::BTreeMap;

/// A type whose values are compared where documents are merged.
///
/// Two values are the same where their documents are equal, extensions and all. Whether two fractions are equal is
/// not decided, so neither value may hold one.
pub trait Same: Tree {
    /// Whether the value holds a fraction, at any depth.
    fn has_fraction(&self) -> bool
        ensures { result ≡ has_fraction (Self.doc self.now) };

    /// Whether both are the same. Neither may hold a fraction.
    fn same(&self, other: &Self) -> bool
        requires whole { has_fraction (Self.doc self.now) ≡ false }
        requires other_whole { has_fraction (Self.doc other.now) ≡ false }
        ensures { IsTrue result ↔ (Self.doc self.now ≡ Self.doc other.now) };
}

/// Texts are compared byte by byte.
#[tactic(auto, using(crate::proofs::SameDocs::by_docs))]
impl Same for String {
    fn has_fraction(&self) -> bool {
        false
    }

    fn same(&self, other: &String) -> bool {
        self.as_str() == other.as_str()
    }
}

/// Lists are compared item by item, in order.
#[tactic(auto, using(crate::proofs::SameDocs::by_docs))]
impl<T: Same> Same for Vec<T> {
    fn has_fraction(&self) -> bool {
        for item in self {
            if item.has_fraction() {
                return true;
            }
        }
        false
    }

    fn same(&self, other: &Vec<T>) -> bool {
        let mut others = other.iter();
        for item in self {
            let Some(other) = others.next() else {
                return false;
            };
            if !item.same(other) {
                return false;
            }
        }
        others.next().is_none()
    }
}

/// Maps are compared entry by entry: they have the same names, with the same values.
#[tactic(auto, using(crate::proofs::SameDocs::by_docs))]
impl<T: Same> Same for BTreeMap<String, T> {
    fn has_fraction(&self) -> bool {
        for (_, member) in self.iter() {
            if member.has_fraction() {
                return true;
            }
        }
        false
    }

    fn same(&self, other: &BTreeMap<String, T>) -> bool {
        let mut others = other.iter();
        for (name, member) in self.iter() {
            let Some((other_name, other)) = others.next() else {
                return false;
            };
            if name.as_str() != other_name.as_str() || !member.same(other) {
                return false;
            }
        }
        others.next().is_none()
    }
}

/// Whether there is a value that holds a fraction.
#[tactic(auto, using(crate::proofs::SameDocs::by_docs))]
pub fn option_has_fraction<T: Same>(value: &Option<T>) -> bool
    ensures { result ≡ has_fraction (option_of T.doc value.now) }
{
    match value {
        Some(value) => value.has_fraction(),
        None => false,
    }
}

/// Whether there are two values that are the same, or neither. Neither may hold a fraction.
#[tactic(auto, using(crate::proofs::SameDocs::by_docs))]
pub fn same_option<T: Same>(left: &Option<T>, right: &Option<T>) -> bool
    requires left_whole { has_fraction (option_of T.doc left.now) ≡ false }
    requires right_whole { has_fraction (option_of T.doc right.now) ≡ false }
    ensures { IsTrue result ↔ (option_of T.doc left.now ≡ option_of T.doc right.now) }
{
    match left {
        Some(value) => match right {
            Some(other) => value.same(other),
            None => false,
        },
        None => right.is_none(),
    }
}

/// Whether there are extensions of which one holds a fraction.
pub fn extensions_have_fraction(extensions: &Option<Extensions>) -> bool
    ensures { result ≡ members_have_float (members_or_none (option_map extensions_view extensions.now)) }
{
    match extensions {
        Some(extensions) => extensions.has_fraction(),
        None => false,
    }
}

/// Whether there are extensions on both sides, with the same names and equal values, or on neither. Neither may hold a
/// fraction.
pub fn same_extensions(left: &Option<Extensions>, right: &Option<Extensions>) -> bool
    requires left_whole { members_have_float (members_or_none (option_map extensions_view left.now)) ≡ false }
    requires right_whole { members_have_float (members_or_none (option_map extensions_view right.now)) ≡ false }
    ensures { IsTrue result
        ↔ (option_map extensions_view left.now ≡ option_map extensions_view right.now) }
{
    match left {
        Some(extensions) => match right {
            Some(others) => extensions.same(others),
            None => false,
        },
        None => right.is_none(),
    }
}
