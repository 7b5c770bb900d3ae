//! What does not fit in an object with a member table.
ghost use Rattle.std.specs.Prelude.{◌≡◌, ◌≤◌, ◌++◌, List, length, take, IfOk, OnOk, MatchOption, false, true};
ghost use Rattle.serde_json.specs.Find.{get};
ghost use Rattle.serde_json.specs.View.{view};
ghost use Rattle.utoipa_check.specs.Misfits.{is_fit, rows_misfits, checks};
ghost use Rattle.utoipa_check.specs.Places as places;
ghost use Rattle.utoipa_check.specs.Places.{outcomes, field_places, fields_places, members_at};
ghost use Rattle.utoipa_check.specs.Rows.{row_misfits_at};
ghost use Rattle.utoipa_check.specs.Views.{misfits_of, stacked, has_to_fit, is_required, is_kept};
ghost use Rattle.utoipa_tables.specs.Tables.{kind_of, rows_of, members_of};

use crate::misfit::{Cause, Misfit, Outcome, is_fit, put_here, put_under};
use serde_json::Value;
use std::alloc::{AllocError, Global};
use utoipa_tables::{Mark, Row};

/// Whether a member is kept, by the mark of its row.
pub(crate) fn is_kept(mark: Mark) -> bool
    ensures { result ≡ is_kept mark }
{
    !matches!(mark, Mark::NotKept)
}

/// Whether what a member holds has to fit, by the mark of its row and by whether it is null.
pub(crate) fn has_to_fit(mark: Mark, is_null: bool) -> bool
    ensures { result ≡ has_to_fit mark is_null }
{
    match mark {
        Mark::Required | Mark::Defaulted => true,
        Mark::Optional | Mark::OrNull => !is_null,
        Mark::NotKept => false,
    }
}

/// Whether a member has to be there, by the mark of its row.
pub(crate) fn is_required(mark: Mark) -> bool
    ensures { result ≡ is_required mark }
{
    matches!(mark, Mark::Required)
}

/// Adds what does not fit by one row, and takes off what was found in its member, if that is there. Fails where memory runs out.
fn put_row<'a>(
    alloc: Global,
    row: &Row,
    tree: &'a Value,
    inner: &mut Vec<Outcome<'a>>,
    found: &mut Vec<Misfit<'a>>,
) -> Result<(), AllocError>
    ensures { OnOk result ((rest : List places.Outcome)
        → stacked inner.old.items
        ≡ outcomes (field_places row.now.name.now (kind_of row.now.kind) (get row.now.name.now (view tree.now))) ++ rest
        → (stacked inner.new.items ≡ rest) × (misfits_of found.new.items
        ≡ misfits_of found.old.items ++ row_misfits_at row.now (view tree.now))) }
{
    match tree.get(row.name) {
        None => {
            if is_required(row.mark) {
                put_here(alloc, Cause::Absent(row.name), found)?;
            }
        }
        Some(member) => {
            if let Some(outcome) = inner.pop() {
                if has_to_fit(row.mark, member.is_null()) {
                    put_under(outcome.step, outcome.misfits, found)?;
                }
            }
        }
    }
    Ok(())
}

/// What does not fit by some rows, of what was found in the members that they name. Fails where memory runs out.
pub(crate) fn misfits_by_rows<'a>(
    alloc: Global,
    rows: &'static [Row],
    tree: &'a Value,
    inner: Vec<Outcome<'a>>,
) -> Result<Vec<Misfit<'a>>, AllocError>
    requires { stacked inner.items ≡ outcomes (fields_places (members_of rows.now) (view tree.now)) }
    ensures { IfOk result
        (λ v. misfits_of v.items ≡ rows_misfits (rows_of rows.now) (checks (members_at (view tree.now)))) }
{
    let mut found = Vec::new(alloc);
    let mut left = inner;
    for row in rows {
        put_row(alloc, row, tree, &mut left, &mut found)?;
    }
    Ok(found)
}

/// How many outcomes are left for later rows, of those that are left for this row and later ones, where the row fits.
fn after_row(row: &Row, tree: &Value, inner: &[Outcome<'_>], left: usize) -> Option<usize>
    requires { left ≤ length inner.now }
    ensures { (rest : List places.Outcome)
        → stacked (take left inner.now)
        ≡ outcomes (field_places row.now.name.now (kind_of row.now.kind) (get row.now.name.now (view tree.now))) ++ rest
        → MatchOption result (is_fit (row_misfits_at row.now (view tree.now)) ≡ false)
        (λ later. (stacked (take later inner.now) ≡ rest) × (later ≤ left)
        × (is_fit (row_misfits_at row.now (view tree.now)) ≡ true)) }
{
    let Some(member) = tree.get(row.name) else {
        return if is_required(row.mark) {
            None
        } else {
            Some(left)
        };
    };
    if left == 0 {
        return None;
    }
    let fits = is_fit(&inner[left - 1].misfits);
    if has_to_fit(row.mark, member.is_null()) && !fits {
        return None;
    }
    Some(left - 1)
}

/// Whether all fits by some rows, of what was found in the members that they name.
pub(crate) fn fits_rows(rows: &'static [Row], tree: &Value, inner: &[Outcome<'_>]) -> bool
    requires { stacked inner.now ≡ outcomes (fields_places (members_of rows.now) (view tree.now)) }
    ensures { result ≡ is_fit (rows_misfits (rows_of rows.now) (checks (members_at (view tree.now)))) }
{
    let mut left = inner.len();
    for row in rows {
        match after_row(row, tree, inner, left) {
            Some(later) => left = later,
            None => return false,
        }
    }
    true
}
