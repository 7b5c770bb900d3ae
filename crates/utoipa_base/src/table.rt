//! A member table read and copied as a whole, from the rows that a type lists once.
//!
//! The rows of a type stand in a macro beside it, in the order of the members' names, as in its member table. The macros of this
//! crate make of that list the names of the rows ([`row_names!`](crate::row_names)), the value from its fields once they are read
//! ([`from_fields!`](crate::from_fields)), the fields to be sent ([`row_values!`](crate::row_values)), a copy
//! ([`clone_table!`](crate::clone_table)) and, for the types that merging compares, the bodies of `has_fraction` and `same`.
ghost use Rattle.std.specs.Prelude.{◌≡◌, ◌+◌, [], List, ℕ, length, true, false, None, option_map, IfOk};
ghost use Rattle.serde_json.specs.Find.{get};
ghost use Rattle.serde_json.specs.View.{view};
ghost use Rattle.utoipa_base.specs.Docs.{Doc, Docs, no_docs, doc, table_doc, list_doc};
ghost use Rattle.utoipa_base.specs.Extensions.{extensions_view};
ghost use Rattle.utoipa_base.specs.Fields.{field};
ghost use Rattle.utoipa_base.specs.Kinds.{ObjectType, Row, named, required, optional, or_null, defaulted};
ghost use Rattle.utoipa_base.specs.Reading.{read};
ghost use Rattle.utoipa_base.specs.Reads.{Reads};
ghost use Rattle.utoipa_base.specs.Rows.{part, rows_values, texts, rows_from};
ghost use Rattle.utoipa_base.specs.Tables.{row, table, has_extensions};
ghost use Rattle.utoipa_base.specs.Values.{values, values_of};
ghost use Rattle.utoipa_base.specs.Views.{option_of};

use crate::emit_rows::{EmitRow, EmitRows};
use crate::empty::{Empty, row_or_empty};
use crate::extensions::{Extensions, clone_extensions, read_extensions};
use crate::fault::ReadFault;
use crate::readings::Readings;
use crate::rows::{clone_option, row_option, row_or_null, row_required};
use crate::tree::Tree;
use serde_json::Value;
use std::alloc::{AllocError, Global};

/// What is read at one row of a member table. The type tells the row's mark and kind; the name is given.
pub trait RowField: Drop {
    ghost line: { List ℕ → Row };

    ghost doc: { Self → Doc };

    /// The row's field in the tree. Fails as the reader of its mark does.
    fn read(
        alloc: Global,
        tree: &Value,
        name: &'static str,
        readings: &mut Readings,
    ) -> Result<Self, ReadFault>
        ensures { Reads (field (line name.now) (view tree.now)) doc result
            readings.old readings.new (values_of (get ((line name.now).name) (view tree.now))) };
}

/// The value of a required member.
#[derive(Drop)]
pub struct RequiredField<T>(pub T);

/// The value of an optional member.
#[derive(Drop)]
pub struct OptionalField<T>(pub Option<T>);

/// The value of a member that is written as null where there is none.
#[derive(Drop)]
pub struct OrNullField<T>(pub Option<T>);

/// The value of a defaulted member.
#[derive(Drop)]
pub struct DefaultedField<T>(pub T);

impl<T: Tree> RowField for RequiredField<T> {
    ghost line = { λ name. row name required T.kind };

    ghost doc = { λ v. T.doc v.0 };

    fn read(
        alloc: Global,
        tree: &Value,
        name: &'static str,
        readings: &mut Readings,
    ) -> Result<RequiredField<T>, ReadFault> {
        Ok(RequiredField(row_required(alloc, tree, name, readings)?))
    }
}

impl<T: Tree> RowField for OptionalField<T> {
    ghost line = { λ name. row name optional T.kind };

    ghost doc = { λ v. option_of T.doc v.0 };

    fn read(
        alloc: Global,
        tree: &Value,
        name: &'static str,
        readings: &mut Readings,
    ) -> Result<OptionalField<T>, ReadFault> {
        Ok(OptionalField(row_option(alloc, tree, name, readings)?))
    }
}

impl<T: Tree> RowField for OrNullField<T> {
    ghost line = { λ name. row name or_null T.kind };

    ghost doc = { λ v. option_of T.doc v.0 };

    fn read(
        alloc: Global,
        tree: &Value,
        name: &'static str,
        readings: &mut Readings,
    ) -> Result<OrNullField<T>, ReadFault> {
        Ok(OrNullField(row_or_null(alloc, tree, name, readings)?))
    }
}

impl<T: Empty> RowField for DefaultedField<T> {
    ghost line = { λ name. row name defaulted T.kind };

    ghost doc = { λ v. T.doc v.0 };

    fn read(
        alloc: Global,
        tree: &Value,
        name: &'static str,
        readings: &mut Readings,
    ) -> Result<DefaultedField<T>, ReadFault> {
        Ok(DefaultedField(row_or_empty(alloc, tree, name, readings)?))
    }
}

/// What is read at the rows of a member table, one after the other: nested pairs of [`RowField`]s that end in `()`.
pub trait RowFields: Drop {
    ghost count: { ℕ };

    ghost rows: { List (List ℕ) → List Row };

    ghost docs: { Self → Docs };

    /// The rows' fields in the tree, by the rows' names. Fails at the first row that does not fit.
    fn read(
        alloc: Global,
        tree: &Value,
        names: &[&'static str],
        readings: &mut Readings,
    ) -> Result<Self, ReadFault>
        requires { length names.now ≡ count }
        ensures { Reads (part (rows (texts names.now)) (view tree.now)) (λ v. list_doc (docs v)) result
            readings.old readings.new (rows_values (rows (texts names.now)) (view tree.now)) };
}

#[tactic(auto, using(crate::proofs::RowLists::by_row_list))]
impl RowFields for () {
    ghost count = { 0 };

    ghost rows = { λ _. [] };

    ghost docs = { λ _. no_docs };

    fn read(
        _alloc: Global,
        _tree: &Value,
        _names: &[&'static str],
        _readings: &mut Readings,
    ) -> Result<(), ReadFault> {
        Ok(())
    }
}

#[tactic(auto, using(crate::proofs::RowLists::by_row_list))]
impl<H: RowField, R: RowFields> RowFields for (H, R) {
    ghost count = { R.count + 1 };

    ghost rows = { rows_from H.line R.rows };

    ghost docs = { λ v. doc (H.doc v.0) (R.docs v.1) };

    fn read(
        alloc: Global,
        tree: &Value,
        names: &[&'static str],
        readings: &mut Readings,
    ) -> Result<(H, R), ReadFault> {
        let first = H::read(alloc, tree, names[0], readings)?;
        let rest = R::read(alloc, tree, &names[1..], readings)?;
        Ok((first, rest))
    }
}

/// An object by the names of its table's rows, and its extensions. Fails with `Kind` and `object`, the type's name, where
/// the tree is no object, and at the first row that does not fit.
pub fn read_table<R: RowFields>(
    alloc: Global,
    tree: &Value,
    object: &'static str,
    names: &[&'static str],
    readings: &mut Readings,
) -> Result<(R, Option<Extensions>), ReadFault>
    requires { length names.now ≡ R.count }
    ensures { (n : ObjectType) → R.rows (texts names.now) ≡ table n → has_extensions n ≡ true
        → Reads (read (named n) (view tree.now))
        (λ v. table_doc n (R.docs v.0) (option_map extensions_view v.1)) result
        readings.old readings.new (values (view tree.now)) }
{
    if !tree.is_object() {
        return Err(ReadFault::Kind(object));
    }
    let fields = R::read(alloc, tree, names, readings)?;
    let extensions = read_extensions(alloc, tree)?;
    Ok((fields, extensions))
}

/// An object of a type that keeps no extensions, by the names of its table's rows. Fails as [`read_table`] does.
pub fn read_table_alone<R: RowFields>(
    alloc: Global,
    tree: &Value,
    object: &'static str,
    names: &[&'static str],
    readings: &mut Readings,
) -> Result<R, ReadFault>
    requires { length names.now ≡ R.count }
    ensures { (n : ObjectType) → R.rows (texts names.now) ≡ table n → has_extensions n ≡ false
        → Reads (read (named n) (view tree.now)) (λ v. table_doc n (R.docs v) None) result
        readings.old readings.new (values (view tree.now)) }
{
    if !tree.is_object() {
        return Err(ReadFault::Kind(object));
    }
    R::read(alloc, tree, names, readings)
}

/// A row that can be copied. A trait of its own: a row that is sent tells nothing of what is read at it.
pub trait CloneRow: EmitRow {
    /// What is read at such a row.
    type Field: RowField;

    /// A copy of the row's field. Fails where memory runs out.
    fn clone_field(&self, alloc: Global) -> Result<Self::Field, AllocError>
        ensures { IfOk result (λ copy. Self.Field.doc copy ≡ Self.doc self.now) };
}

/// The value of a required member, to be sent or copied.
#[derive(Clone, Copy)]
pub struct RequiredValue<'a, T>(pub &'a T);

/// The value of an optional member, to be sent or copied.
#[derive(Clone, Copy)]
pub struct OptionalValue<'a, T>(pub &'a Option<T>);

/// The value of a member that is written as null where there is none, to be sent or copied.
#[derive(Clone, Copy)]
pub struct OrNullValue<'a, T>(pub &'a Option<T>);

/// The value of a defaulted member, to be sent or copied.
#[derive(Clone, Copy)]
pub struct DefaultedValue<'a, T>(pub &'a T);

impl<'a, T: Tree> CloneRow for RequiredValue<'a, T> {
    type Field = RequiredField<T>;

    fn clone_field(&self, alloc: Global) -> Result<RequiredField<T>, AllocError> {
        Ok(RequiredField(self.0.try_clone(alloc)?))
    }
}

impl<'a, T: Tree> CloneRow for OptionalValue<'a, T> {
    type Field = OptionalField<T>;

    fn clone_field(&self, alloc: Global) -> Result<OptionalField<T>, AllocError> {
        Ok(OptionalField(clone_option(alloc, self.0)?))
    }
}

impl<'a, T: Tree> CloneRow for OrNullValue<'a, T> {
    type Field = OrNullField<T>;

    fn clone_field(&self, alloc: Global) -> Result<OrNullField<T>, AllocError> {
        Ok(OrNullField(clone_option(alloc, self.0)?))
    }
}

impl<'a, T: Empty> CloneRow for DefaultedValue<'a, T> {
    type Field = DefaultedField<T>;

    fn clone_field(&self, alloc: Global) -> Result<DefaultedField<T>, AllocError> {
        Ok(DefaultedField(self.0.try_clone(alloc)?))
    }
}

/// Rows that can be copied.
pub trait CloneRows: EmitRows {
    /// What is read at such rows.
    type Fields: RowFields;

    /// Copies of the rows' fields. Fails where memory runs out.
    fn clone_fields(&self, alloc: Global) -> Result<Self::Fields, AllocError>
        ensures { IfOk result (λ copy. Self.Fields.docs copy ≡ Self.docs self.now) };
}

impl CloneRows for () {
    type Fields = ();

    fn clone_fields(&self, _alloc: Global) -> Result<(), AllocError> {
        Ok(())
    }
}

impl<H: CloneRow, R: CloneRows> CloneRows for (H, R) {
    type Fields = (H::Field, R::Fields);

    fn clone_fields(&self, alloc: Global) -> Result<(H::Field, R::Fields), AllocError> {
        let first = self.0.clone_field(alloc)?;
        let rest = self.1.clone_fields(alloc)?;
        Ok((first, rest))
    }
}

/// Copies of the fields of some rows, and of the extensions beside them. Fails where memory runs out.
pub fn clone_rows<R: CloneRows>(
    alloc: Global,
    values: &R,
    extensions: &Option<Extensions>,
) -> Result<(R::Fields, Option<Extensions>), AllocError>
    ensures { IfOk result (λ copy. (R.Fields.docs copy.0 ≡ R.docs values.now)
        × (option_map extensions_view copy.1 ≡ option_map extensions_view extensions.now)) }
{
    let fields = values.clone_fields(alloc)?;
    let copy = clone_extensions(alloc, extensions)?;
    Ok((fields, copy))
}
