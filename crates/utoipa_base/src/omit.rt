//! Values that a defaulted member leaves out where they are sent.
ghost use Rattle.std.specs.Prelude.{◌≡◌};
ghost use Rattle.utoipa_base.specs.Writing.{is_empty};

use crate::emit::Documented;
use indexmap::IndexMap;
use std::collections::BTreeMap;
use std::hash::BuildHasher;

/// A type with an empty value, which a defaulted member leaves out.
pub trait Omit: Documented {
    /// Whether the value is the empty one.
    fn is_omitted(&self) -> bool
        ensures { result ≡ is_empty (Self.doc self.now) };
}

/// The empty text.
#[tactic(auto, using(crate::proofs::Empties::empties))]
impl Omit for String {
    fn is_omitted(&self) -> bool {
        self.is_empty()
    }
}

/// False.
#[tactic(auto, using(crate::proofs::Empties::empties))]
impl Omit for bool {
    fn is_omitted(&self) -> bool {
        !*self
    }
}

/// The list of no items.
#[tactic(auto, using(crate::proofs::Empties::empties))]
impl<T: Documented> Omit for Vec<T> {
    fn is_omitted(&self) -> bool {
        self.as_slice().is_empty()
    }
}

/// The map of no entries.
#[tactic(auto, using(crate::proofs::Empties::empties))]
impl<T: Documented> Omit for BTreeMap<String, T> {
    fn is_omitted(&self) -> bool {
        self.is_empty()
    }
}

/// The map of no entries.
#[tactic(auto, using(crate::proofs::Empties::empties))]
impl<T: Documented, H: BuildHasher + Drop> Omit for IndexMap<String, T, H> {
    fn is_omitted(&self) -> bool {
        self.is_empty()
    }
}
