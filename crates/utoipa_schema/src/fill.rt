//! The table of places, filled from the last row to the first.
//!
//! The walk puts each place into the table after the one that it stands in. So where a row is the last that is left, its inner
//! places have been read, and their outcomes are the last: they are taken off, and the row's own outcome is put to those of its member.
ghost use Rattle.std.specs.Prelude.{◌≡◌, ◌≤◌, ◌<◌, ◌+◌, IfOk, List, [], length, if◌then◌else◌, nat_lt};
ghost use Rattle.serde_json.specs.View.{view};
ghost use Rattle.utoipa_base.specs.Kinds.{schema, ref_or};
ghost use Rattle.utoipa_base.specs.Reading.{read};
ghost use Rattle.utoipa_schema.specs.Outcomes.{all_outcomes, outcome_doc, grouped, counts, count_of, AreInner, counts_of_inner};
ghost use Rattle.utoipa_schema.specs.Places.{Place, places, data_of, members_of, read_by, total, Walked};

use crate::alternatives::{if_fitting, schema_from};
use crate::inner_members::{InnerMembers, find_members};
use crate::outcomes::{Group, InnerOutcomes, Outcome, put, take_inner};
use crate::places::{SchemaPlace, walk};
use serde_json::Value;
use std::alloc::{AllocError, Global};
use utoipa_base::{Readings, Ref, RefOr, Tree};

/// What some places were read as, in their order, with all that stands inside. Fails where memory runs out.
pub(crate) fn read_places(
    alloc: Global,
    roots: Vec<SchemaPlace<'_>>,
    readings: &mut Readings,
) -> Result<Vec<Group>, AllocError>
    ensures read { IfOk result (λ filled. all_outcomes filled.items ≡ grouped (places roots.entry.items)) }
    ensures grows { readings.old ≤ readings.new }
    ensures at_most { readings.new ≤ readings.old + total (places roots.entry.items) }
    ensures at_least { IfOk result (λ filled. readings.new < u64.MAX
        → readings.old + counts (all_outcomes filled.items) ≤ readings.new) }
{
    let table = walk(alloc, roots)?;
    fill(alloc, table, readings)
}

/// Reads the places of a table, from the last row to the first: the outcomes of the roots of the walk that made it. Fails
/// where memory runs out.
fn fill(
    alloc: Global,
    mut table: Vec<SchemaPlace<'_>>,
    readings: &mut Readings,
) -> Result<Vec<Group>, AllocError>
    requires walked { (roots : List Place) × Walked roots (places table.items) [] }
    ensures read { IfOk result (λ filled. (roots : List Place) → Walked roots (places table.entry.items) []
        → all_outcomes filled.items ≡ grouped roots) }
    ensures grows { readings.old ≤ readings.new }
    ensures at_most { readings.new ≤ readings.old + length table.entry.items }
    ensures at_least { IfOk result (λ filled. readings.new < u64.MAX
        → readings.old + counts (all_outcomes filled.items) ≤ readings.new) }
{
    let mut filled = Vec::new(alloc);
    'fill: while let Some(place) = table.pop() {
        let members = find_members(place.tree);
        let inner = take_inner(alloc, &members, &mut filled);
        let outcome = read_place(
            alloc,
            place.tree,
            place.may_be_reference,
            &members,
            inner,
            readings,
        )?;
        put(alloc, &mut filled, place.standing, outcome)?;
    }
    Ok(filled)
}

/// Reads one place, whose inner places have been read: none where it fits nothing. Fails where memory runs out.
///
/// It counts the place at entry, and calls itself for no place inside.
fn read_place(
    alloc: Global,
    tree: &Value,
    may_be_reference: bool,
    members: &InnerMembers<'_>,
    inner: InnerOutcomes,
    readings: &mut Readings,
) -> Result<Outcome, AllocError>
    requires found { data_of members.now ≡ members_of (view tree.now) }
    requires inside { AreInner (data_of members.now) inner }
    ensures read { IfOk result (λ o. outcome_doc o ≡ read_by may_be_reference (view tree.now)) }
    ensures ticked { readings.new ≡ (if nat_lt readings.old u64.MAX then readings.old + 1 else readings.old) }
    ensures counted { IfOk result (λ o. count_of (outcome_doc o) ≤ 1 + counts_of_inner inner) }
{
    readings.tick();
    if may_be_reference {
        reference_or_schema_from(alloc, tree, members, inner)
    } else {
        schema_from(alloc, tree, members, inner)
    }
}

/// A reference, or else a schema, or none. Fails where memory runs out.
fn reference_or_schema_from(
    alloc: Global,
    tree: &Value,
    members: &InnerMembers<'_>,
    inner: InnerOutcomes,
) -> Result<Outcome, AllocError>
    requires found { data_of members.now ≡ members_of (view tree.now) }
    requires inside { AreInner (data_of members.now) inner }
    ensures read { IfOk result (λ o. outcome_doc o ≡ read (ref_or schema) (view tree.now)) }
    ensures counted { IfOk result (λ o. count_of (outcome_doc o) ≤ 1 + counts_of_inner inner) }
{
    let mut uncounted = Readings::new();
    match if_fitting(Ref::read_plain(alloc, tree, &mut uncounted))? {
        Some(reference) => Ok(Some(Box::new(alloc, RefOr::Ref(reference))?)),
        None => schema_from(alloc, tree, members, inner),
    }
}
