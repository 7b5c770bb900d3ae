//! What is made while a value is kept beside it.
//!
//! A function that holds a large value where it answers a fault owes for each such place that all the fields of that value are let go.
//! Here what is kept is of any type, and letting it go is one call.
ghost use Rattle.std.specs.Prelude.{◌≡◌, ℕ, List, length, Bool, true, Ok, Err, IfOk, IfErr, option_map};
ghost use Rattle.serde_json.specs.View.{view};
ghost use Rattle.utoipa_base.specs.Docs.{Docs, docs_woven, list_doc, table_doc};
ghost use Rattle.utoipa_base.specs.Extensions.{extensions_view};
ghost use Rattle.utoipa_base.specs.Kinds.{ObjectType, Row, named};
ghost use Rattle.utoipa_base.specs.Reading.{read};
ghost use Rattle.utoipa_base.specs.Reads.{Reads};
ghost use Rattle.utoipa_base.specs.Rows.{part, rows_values, rows_woven, texts};
ghost use Rattle.utoipa_base.specs.Tables.{table, has_extensions};
ghost use Rattle.utoipa_base.specs.Values.{values};

use crate::extensions::{Extensions, read_extensions};
use crate::fault::ReadFault;
use crate::readings::Readings;
use crate::table::{CloneRows, RowFields, clone_rows};
use serde_json::Value;
use std::alloc::{AllocError, Global};

/// A value that was made, with one that is kept beside it. Fails with what making it failed with, and then gives up what was kept.
pub fn beside<K: Drop, T: Drop, E: Drop>(kept: K, made: Result<T, E>) -> Result<(K, T), E>
    ensures ok { IfOk result (λ both. (both.0 ≡ kept) × (made ≡ Ok both.1)) }
    ensures err { IfErr result (λ e. made ≡ Err e) }
{
    match made {
        Ok(value) => Ok((kept, value)),
        Err(fault) => Err(fault),
    }
}

/// The fields of some rows, by the rows' names, and a value that is kept beside them. Fails at the first row that does not fit, and
/// then gives up what was kept.
pub fn read_rows_beside<R: RowFields, K: Drop>(
    alloc: Global,
    tree: &Value,
    names: &[&'static str],
    kept: K,
    readings: &mut Readings,
) -> Result<(R, K), ReadFault>
    requires { length names.now ≡ R.count }
    ensures same { IfOk result (λ both. both.1 ≡ kept) }
    ensures reads { Reads (part (R.rows (texts names.now)) (view tree.now)) (λ both. list_doc (R.docs both.0)) result
        readings.old readings.new (rows_values (R.rows (texts names.now)) (view tree.now)) }
{
    let fields = R::read(alloc, tree, names, readings)?;
    Ok((fields, kept))
}

/// An object by the names of some rows of its table, its extensions, and a value that is kept beside them. Fails as
/// [`read_table`](crate::read_table) does, and then gives up what was kept.
///
/// What is kept stands for the other rows, which were read before, from where the counter stood at `start`. Which rows of the table are
/// the others' is told by `order`.
pub fn read_table_beside<R: RowFields, K: Drop>(
    alloc: Global,
    tree: &Value,
    object: &'static str,
    names: &[&'static str],
    kept: K,
    readings: &mut Readings,
) -> Result<(R, Option<Extensions>, K), ReadFault>
    requires { length names.now ≡ R.count }
    ensures { (n : ObjectType) (order : List Bool) (others : List Row) (docs : K → Docs) (start : ℕ)
        → rows_woven order (R.rows (texts names.now)) others ≡ table n → has_extensions n ≡ true
        → Reads {A = Docs} (part others (view tree.now)) list_doc (Ok (docs kept)) start readings.old
        (rows_values others (view tree.now))
        → Reads (read (named n) (view tree.now))
        (λ all. table_doc n (docs_woven order (R.docs all.0) (docs all.2)) (option_map extensions_view all.1)) result
        start readings.new (values (view tree.now)) }
{
    if !tree.is_object() {
        return Err(ReadFault::Kind(object));
    }
    let fields = R::read(alloc, tree, names, readings)?;
    let extensions = read_extensions(alloc, tree)?;
    Ok((fields, extensions, kept))
}

/// Copies of the fields of some rows and of the extensions beside them, and a value that is kept. Fails where memory runs out, and then
/// gives up what was kept.
pub fn clone_rows_beside<R: CloneRows, K: Drop>(
    alloc: Global,
    rows: &R,
    extensions: &Option<Extensions>,
    kept: K,
) -> Result<(R::Fields, Option<Extensions>, K), AllocError>
    ensures { IfOk result (λ copy. (R.Fields.docs copy.0 ≡ R.docs rows.now)
        × (option_map extensions_view copy.1 ≡ option_map extensions_view extensions.now)
        × (copy.2 ≡ kept)) }
{
    let (fields, extensions) = clone_rows(alloc, rows, extensions)?;
    Ok((fields, extensions, kept))
}
