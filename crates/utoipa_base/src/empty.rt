//! Values that a defaulted member leaves out.
ghost use Rattle.std.specs.Prelude.{◌≡◌};
ghost use Rattle.serde_json.specs.Find.{get};
ghost use Rattle.serde_json.specs.View.{view};
ghost use Rattle.utoipa_base.specs.Kinds.{defaulted};
ghost use Rattle.utoipa_base.specs.Fields.{field};
ghost use Rattle.utoipa_base.specs.Reading.{empty_doc};
ghost use Rattle.utoipa_base.specs.Reads.{Reads};
ghost use Rattle.utoipa_base.specs.Tables.{row};
ghost use Rattle.utoipa_base.specs.Values.{values_of};

use crate::fault::ReadFault;
use crate::omit::Omit;
use crate::readings::Readings;
use crate::tree::Tree;
use serde_json::Value;
use std::alloc::Global;
use std::collections::BTreeMap;

/// A type with an empty value, for which an absent member stands.
pub trait Empty: Tree + Omit {
    /// The empty value.
    fn empty(alloc: Global) -> Self
        ensures { Self.doc result ≡ empty_doc Self.kind };
}

/// The empty text.
#[tactic(auto, using(crate::proofs::Empties::empties))]
impl Empty for String {
    fn empty(alloc: Global) -> String {
        String::new(alloc)
    }
}

/// False.
#[tactic(auto, using(crate::proofs::Empties::empties))]
impl Empty for bool {
    fn empty(_alloc: Global) -> bool {
        false
    }
}

/// The list of no items.
#[tactic(auto, using(crate::proofs::Empties::empties))]
impl<T: Tree> Empty for Vec<T> {
    fn empty(alloc: Global) -> Vec<T> {
        Vec::new(alloc)
    }
}

/// The map of no entries.
#[tactic(auto, using(crate::proofs::Empties::empties))]
impl<T: Tree> Empty for BTreeMap<String, T> {
    fn empty(alloc: Global) -> BTreeMap<String, T> {
        BTreeMap::new(alloc)
    }
}

/// The value of a defaulted member, empty where it is absent. Null is a value like any other. Fails as the member's own
/// reading fails.
#[tactic(auto, using(crate::proofs::ByRows::by_row, crate::proofs::Values::counts, crate::proofs::Places::places))]
pub fn row_or_empty<T: Empty>(
    alloc: Global,
    tree: &Value,
    name: &'static str,
    readings: &mut Readings,
) -> Result<T, ReadFault>
    ensures { Reads (field (row name.now defaulted T.kind) (view tree.now)) T.doc result
        readings.old readings.new (values_of (get name.now (view tree.now))) }
{
    match tree.get(name) {
        Some(member) => T::read_plain(alloc, member, readings),
        None => Ok(T::empty(alloc)),
    }
}
