//! A row of a member table, read by its mark.
ghost use Rattle.std.specs.Prelude.{◌≡◌, IfOk};
ghost use Rattle.serde_json.specs.Find.{get};
ghost use Rattle.serde_json.specs.View.{view};
ghost use Rattle.utoipa_base.specs.Kinds.{required, optional, or_null};
ghost use Rattle.utoipa_base.specs.Fields.{field, present};
ghost use Rattle.utoipa_base.specs.Reads.{Reads};
ghost use Rattle.utoipa_base.specs.Tables.{row};
ghost use Rattle.utoipa_base.specs.Values.{values_of};
ghost use Rattle.utoipa_base.specs.Views.{option_of};

use crate::fault::ReadFault;
use crate::readings::Readings;
use crate::tree::Tree;
use serde_json::Value;
use std::alloc::{AllocError, Global};

/// The value of a required member.
///
/// Fails with `Missing` where the member is absent, and as the member's own reading fails.
#[tactic(auto, using(crate::proofs::ByRows::by_row, crate::proofs::Values::counts, crate::proofs::Places::places))]
pub fn row_required<T: Tree>(
    alloc: Global,
    tree: &Value,
    name: &'static str,
    readings: &mut Readings,
) -> Result<T, ReadFault>
    ensures { Reads (field (row name.now required T.kind) (view tree.now)) T.doc result
        readings.old readings.new (values_of (get name.now (view tree.now))) }
{
    match tree.get(name) {
        Some(member) => T::read_plain(alloc, member, readings),
        None => Err(ReadFault::Missing(name)),
    }
}

/// The value of an optional member, or none where it is absent or null. Fails as the member's own reading fails.
#[tactic(auto, using(crate::proofs::ByRows::by_row, crate::proofs::Values::counts, crate::proofs::Places::places))]
pub fn row_option<T: Tree>(
    alloc: Global,
    tree: &Value,
    name: &'static str,
    readings: &mut Readings,
) -> Result<Option<T>, ReadFault>
    ensures { Reads (field (row name.now optional T.kind) (view tree.now)) (option_of T.doc) result
        readings.old readings.new (values_of (get name.now (view tree.now))) }
{
    match tree.get(name) {
        Some(member) => {
            if member.is_null() {
                return Ok(None);
            }
            Ok(Some(T::read_plain(alloc, member, readings)?))
        }
        None => Ok(None),
    }
}

/// The value of a member that is written as null where there is none, or none where it is absent or null. Fails as the
/// member's own reading fails.
#[tactic(auto, using(crate::proofs::ByRows::by_row, crate::proofs::Values::counts, crate::proofs::Places::places))]
pub fn row_or_null<T: Tree>(
    alloc: Global,
    tree: &Value,
    name: &'static str,
    readings: &mut Readings,
) -> Result<Option<T>, ReadFault>
    ensures { Reads (field (row name.now or_null T.kind) (view tree.now)) (option_of T.doc) result
        readings.old readings.new (values_of (get name.now (view tree.now))) }
{
    row_option(alloc, tree, name, readings)
}

/// The value of a defaulted member, or none where it is absent. Null is a value like any other. Fails as the member's own
/// reading fails.
#[tactic(auto, using(crate::proofs::ByRows::by_row, crate::proofs::Values::counts, crate::proofs::Places::places))]
pub fn row_default<T: Tree>(
    alloc: Global,
    tree: &Value,
    name: &'static str,
    readings: &mut Readings,
) -> Result<Option<T>, ReadFault>
    ensures { Reads (present name.now T.kind (view tree.now)) (option_of T.doc) result
        readings.old readings.new (values_of (get name.now (view tree.now))) }
{
    match tree.get(name) {
        Some(member) => Ok(Some(T::read_plain(alloc, member, readings)?)),
        None => Ok(None),
    }
}

/// An equal value, where there is one. Fails where memory runs out.
pub fn clone_option<T: Tree>(alloc: Global, value: &Option<T>) -> Result<Option<T>, AllocError>
    ensures { IfOk result (λ copy. option_of T.doc copy ≡ option_of T.doc value.now) }
{
    match value {
        Some(value) => Ok(Some(value.try_clone(alloc)?)),
        None => Ok(None),
    }
}
