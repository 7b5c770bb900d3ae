//! The alternatives of a schema, whose inner places have been read before.
//!
//! An alternative that fits takes the outcomes in its members into the schema, and one that does not fit drops them. No other
//! alternative has any of these members but `contentSchema`, which is taken only where an array or an object fits.
ghost use Rattle.std.specs.Prelude.{◌≡◌, ◌≤◌, ◌+◌, None, Some, Ok, IfOk, IfErr, MatchOption, option_map, true, codes};
ghost use Rattle.serde_json.specs.Find.{get};
ghost use Rattle.serde_json.specs.View.{view};
ghost use Rattle.utoipa_base.specs.Docs.{own_doc};
ghost use Rattle.utoipa_base.specs.Faults.{Refuses, fitting as fitting_of};
ghost use Rattle.utoipa_base.specs.Kinds.{schema, named, one_of_schema, all_of_schema, any_of_schema, array_schema, object_schema};
ghost use Rattle.utoipa_base.specs.Reading.{read};
ghost use Rattle.utoipa_base.specs.Values.{schema_count};
ghost use Rattle.utoipa_schema.specs.Choice.{IsNoCombination, ContentSchema, content_schema_doc, HasContent};
ghost use Rattle.utoipa_schema.specs.Docs.{one_of_doc, all_of_doc, any_of_doc, array_doc, object_doc};
ghost use Rattle.utoipa_schema.specs.Outcomes.{outcome_doc, list_docs, all_docs, count_of, count_of_list, Fits, AreCombinations, AreOfArray, AreOfObject, AreInner, counts_of_combinations, counts_of_array, counts_of_object, counts_of_inner};
ghost use Rattle.utoipa_schema.specs.Places.{elements, part, found, data_of, members_of};

use crate::assemble::{
    array_with_content_schema, assemble_all_of, assemble_any_of, assemble_array, assemble_object,
    assemble_one_of, may_be_object, object_with_content_schema,
};
use crate::inner_members::InnerMembers;
use crate::members::{
    additional_properties_from, array_items_from, combined_from, content_schema_from,
    prefix_items_from, properties_from, property_names_from,
};
use crate::outcomes::{
    ArrayOutcomes, CombinationOutcomes, InnerOutcomes, ListOutcome, ObjectOutcomes, Outcome,
};
use crate::types::{AllOf, AnyOf, Array, Object, OneOf, Schema};
use serde_json::Value;
use std::alloc::{AllocError, Global};
use utoipa_base::{ReadFault, RefOr};

/// What a reading says of an alternative: its value where it fits, none where it does not. Fails exactly where the reading
/// ran out of memory.
pub(crate) fn if_fitting<T>(outcome: Result<T, ReadFault>) -> Result<Option<T>, AllocError>
    ensures { IfOk result (λ fits. fitting_of outcome ≡ Ok fits) }
{
    match outcome {
        Ok(value) => Ok(Some(value)),
        Err(ReadFault::Memory) => Err(AllocError),
        Err(_) => Ok(None),
    }
}

/// A schema with `oneOf`. Fails where the tree is none.
pub(crate) fn one_of_from(
    alloc: Global,
    tree: &Value,
    member: Option<&Value>,
    outcome: ListOutcome,
) -> Result<OneOf, ReadFault>
    requires found { found member ≡ get (codes "oneOf") (view tree.now) }
    requires inside { list_docs outcome ≡ all_docs (part (elements true) (found member)) }
    ensures { Fits (read (named one_of_schema) (view tree.now)) one_of_doc result (count_of_list (list_docs outcome)) }
{
    if !tree.is_object() {
        return Err(ReadFault::Kind("OneOf"));
    }
    let items = combined_from(member, "oneOf", outcome)?;
    assemble_one_of(alloc, tree, items)
}

/// A schema with `allOf`. Fails where the tree is none.
pub(crate) fn all_of_from(
    alloc: Global,
    tree: &Value,
    member: Option<&Value>,
    outcome: ListOutcome,
) -> Result<AllOf, ReadFault>
    requires found { found member ≡ get (codes "allOf") (view tree.now) }
    requires inside { list_docs outcome ≡ all_docs (part (elements true) (found member)) }
    ensures { Fits (read (named all_of_schema) (view tree.now)) all_of_doc result (count_of_list (list_docs outcome)) }
{
    if !tree.is_object() {
        return Err(ReadFault::Kind("AllOf"));
    }
    let items = combined_from(member, "allOf", outcome)?;
    assemble_all_of(alloc, tree, items)
}

/// A schema with `anyOf`. Fails where the tree is none.
pub(crate) fn any_of_from(
    alloc: Global,
    tree: &Value,
    member: Option<&Value>,
    outcome: ListOutcome,
) -> Result<AnyOf, ReadFault>
    requires found { found member ≡ get (codes "anyOf") (view tree.now) }
    requires inside { list_docs outcome ≡ all_docs (part (elements true) (found member)) }
    ensures { Fits (read (named any_of_schema) (view tree.now)) any_of_doc result (count_of_list (list_docs outcome)) }
{
    if !tree.is_object() {
        return Err(ReadFault::Kind("AnyOf"));
    }
    let items = combined_from(member, "anyOf", outcome)?;
    assemble_any_of(alloc, tree, items)
}

/// An array with no content schema. With any that the tree has it is the array that the tree is. Fails where the tree is none.
pub(crate) fn array_from(
    alloc: Global,
    tree: &Value,
    members: &InnerMembers<'_>,
    outcomes: ArrayOutcomes,
) -> Result<Array, ReadFault>
    requires found { data_of members.now ≡ members_of (view tree.now) }
    requires inside { AreOfArray (data_of members.now) outcomes }
    ensures ok { IfOk result (λ s. (content : ContentSchema) → HasContent (view tree.now) content
        → read (named array_schema) (view tree.now) ≡ Some (array_doc (record s { content_schema = content }))) }
    ensures err { IfErr result (Refuses (read (named array_schema) (view tree.now))) }
    ensures without { IfOk result (λ s. s.content_schema ≡ None) }
    ensures counted { IfOk result (λ s. schema_count (array_doc s) ≤ counts_of_array outcomes) }
{
    if !tree.is_object() {
        return Err(ReadFault::Kind("Array"));
    }
    let ArrayOutcomes {
        items,
        prefix_items,
    } = outcomes;
    let items = array_items_from(members.items, items)?;
    let prefix_items = prefix_items_from(alloc, members.prefix_items, prefix_items)?;
    assemble_array(alloc, tree, items, prefix_items)
}

/// An object with no content schema. With any that the tree has it is the object that the tree is. Fails where the tree is
/// none.
pub(crate) fn object_from(
    alloc: Global,
    tree: &Value,
    members: &InnerMembers<'_>,
    outcomes: ObjectOutcomes,
) -> Result<Object, ReadFault>
    requires found { data_of members.now ≡ members_of (view tree.now) }
    requires inside { AreOfObject (data_of members.now) outcomes }
    ensures ok { IfOk result (λ s. (content : ContentSchema) → HasContent (view tree.now) content
        → read (named object_schema) (view tree.now) ≡ Some (object_doc (record s { content_schema = content }))) }
    ensures err { IfErr result (Refuses (read (named object_schema) (view tree.now))) }
    ensures without { IfOk result (λ s. s.content_schema ≡ None) }
    ensures counted { IfOk result (λ s. schema_count (object_doc s) ≤ counts_of_object outcomes) }
{
    let ObjectOutcomes {
        properties,
        additional_properties,
        property_names,
    } = outcomes;
    let properties = properties_from(alloc, members.properties, properties)?;
    let additional_properties = additional_properties_from(
        alloc,
        members.additional_properties,
        additional_properties,
    )?;
    let property_names = property_names_from(alloc, members.property_names, property_names)?;
    assemble_object(
        alloc,
        tree,
        properties,
        additional_properties,
        property_names,
    )
}

/// The first combination that a tree is, or none. Fails where memory runs out.
fn combination_from(
    alloc: Global,
    tree: &Value,
    members: &InnerMembers<'_>,
    outcomes: CombinationOutcomes,
) -> Result<Outcome, AllocError>
    requires found { data_of members.now ≡ members_of (view tree.now) }
    requires inside { AreCombinations (data_of members.now) outcomes }
    ensures read { IfOk result (λ o. MatchOption o (IsNoCombination (view tree.now))
        (λ place. outcome_doc (Some place) ≡ option_map own_doc (read schema (view tree.now)))) }
    ensures counted { IfOk result (λ o. count_of (outcome_doc o) ≤ 1 + counts_of_combinations outcomes) }
{
    if !members.has_combination() {
        return Ok(None);
    }
    first_combination_from(alloc, tree, members, outcomes)
}

/// As `combination_from`, with each combination tried whether or not a tree has a member of one.
// Not inlined: no room is made for combinations where a tree has no member of one, as most have not.
#[inline(never)]
fn first_combination_from(
    alloc: Global,
    tree: &Value,
    members: &InnerMembers<'_>,
    outcomes: CombinationOutcomes,
) -> Result<Outcome, AllocError>
    requires found { data_of members.now ≡ members_of (view tree.now) }
    requires inside { AreCombinations (data_of members.now) outcomes }
    ensures read { IfOk result (λ o. MatchOption o (IsNoCombination (view tree.now))
        (λ place. outcome_doc (Some place) ≡ option_map own_doc (read schema (view tree.now)))) }
    ensures counted { IfOk result (λ o. count_of (outcome_doc o) ≤ 1 + counts_of_combinations outcomes) }
{
    let CombinationOutcomes {
        one_of,
        all_of,
        any_of,
    } = outcomes;
    if let Some(one_of) = if_fitting(one_of_from(alloc, tree, members.one_of, one_of))? {
        return Ok(Some(Box::new(alloc, RefOr::T(Schema::OneOf(one_of)))?));
    }
    if let Some(all_of) = if_fitting(all_of_from(alloc, tree, members.all_of, all_of))? {
        return Ok(Some(Box::new(alloc, RefOr::T(Schema::AllOf(all_of)))?));
    }
    match if_fitting(any_of_from(alloc, tree, members.any_of, any_of))? {
        Some(any_of) => Ok(Some(Box::new(alloc, RefOr::T(Schema::AnyOf(any_of)))?)),
        None => Ok(None),
    }
}

/// An object with a content schema that has been read, or none, of a tree that is no combination and no array. Fails where memory
/// runs out.
fn object_or_none_from(
    alloc: Global,
    tree: &Value,
    members: &InnerMembers<'_>,
    object: ObjectOutcomes,
    content_schema: Option<Box<RefOr<Schema>>>,
) -> Result<Outcome, AllocError>
    requires found { data_of members.now ≡ members_of (view tree.now) }
    requires inside { AreOfObject (data_of members.now) object }
    requires no_combination { IsNoCombination (view tree.now) }
    requires no_array { read (named array_schema) (view tree.now) ≡ None }
    requires content { HasContent (view tree.now) content_schema }
    ensures read { IfOk result (λ o. outcome_doc o ≡ option_map own_doc (read schema (view tree.now))) }
    ensures counted { IfOk result (λ o. count_of (outcome_doc o)
        ≤ 1 + (counts_of_object object + schema_count (content_schema_doc content_schema))) }
{
    if !may_be_object(tree) {
        return Ok(None);
    }
    match if_fitting(object_from(alloc, tree, members, object))? {
        Some(object) => {
            let object = object_with_content_schema(object, content_schema);
            Ok(Some(Box::new(alloc, RefOr::T(Schema::Object(object)))?))
        }
        None => Ok(None),
    }
}

/// An array, or else an object, with a content schema that has been read, or none. Fails where memory runs out.
fn array_or_object_from(
    alloc: Global,
    tree: &Value,
    members: &InnerMembers<'_>,
    array: ArrayOutcomes,
    object: ObjectOutcomes,
    content_schema: Option<Box<RefOr<Schema>>>,
) -> Result<Outcome, AllocError>
    requires found { data_of members.now ≡ members_of (view tree.now) }
    requires array { AreOfArray (data_of members.now) array }
    requires object { AreOfObject (data_of members.now) object }
    requires no_combination { IsNoCombination (view tree.now) }
    requires content { HasContent (view tree.now) content_schema }
    ensures read { IfOk result (λ o. outcome_doc o ≡ option_map own_doc (read schema (view tree.now))) }
    ensures counted { IfOk result (λ o. count_of (outcome_doc o)
        ≤ 1 + (counts_of_array array + (counts_of_object object + schema_count (content_schema_doc content_schema)))) }
{
    if !members.has_items() {
        return object_or_none_from(alloc, tree, members, object, content_schema);
    }
    array_first_from(alloc, tree, members, array, object, content_schema)
}

/// As `array_or_object_from`, with an array tried whether or not a tree has items.
// Not inlined: no room is made for an array where a tree has no items, as most have not.
#[inline(never)]
fn array_first_from(
    alloc: Global,
    tree: &Value,
    members: &InnerMembers<'_>,
    array: ArrayOutcomes,
    object: ObjectOutcomes,
    content_schema: Option<Box<RefOr<Schema>>>,
) -> Result<Outcome, AllocError>
    requires found { data_of members.now ≡ members_of (view tree.now) }
    requires array { AreOfArray (data_of members.now) array }
    requires object { AreOfObject (data_of members.now) object }
    requires no_combination { IsNoCombination (view tree.now) }
    requires content { HasContent (view tree.now) content_schema }
    ensures read { IfOk result (λ o. outcome_doc o ≡ option_map own_doc (read schema (view tree.now))) }
    ensures counted { IfOk result (λ o. count_of (outcome_doc o)
        ≤ 1 + (counts_of_array array + (counts_of_object object + schema_count (content_schema_doc content_schema)))) }
{
    if let Some(array) = if_fitting(array_from(alloc, tree, members, array))? {
        let array = array_with_content_schema(array, content_schema);
        return Ok(Some(Box::new(alloc, RefOr::T(Schema::Array(array)))?));
    }
    object_or_none_from(alloc, tree, members, object, content_schema)
}

/// A schema: the first alternative that fits, or none. Fails where memory runs out.
pub(crate) fn schema_from(
    alloc: Global,
    tree: &Value,
    members: &InnerMembers<'_>,
    outcomes: InnerOutcomes,
) -> Result<Outcome, AllocError>
    requires found { data_of members.now ≡ members_of (view tree.now) }
    requires inside { AreInner (data_of members.now) outcomes }
    ensures read { IfOk result (λ o. outcome_doc o ≡ option_map own_doc (read schema (view tree.now))) }
    ensures counted { IfOk result (λ o. count_of (outcome_doc o) ≤ 1 + counts_of_inner outcomes) }
{
    let InnerOutcomes {
        combinations,
        array,
        object,
        content_schema,
    } = outcomes;
    if let Some(combination) = combination_from(alloc, tree, members, combinations)? {
        return Ok(Some(combination));
    }
    match if_fitting(content_schema_from(members.content_schema, content_schema))? {
        Some(content_schema) => {
            array_or_object_from(alloc, tree, members, array, object, content_schema)
        }
        None => Ok(None),
    }
}
