//! What places were read as, by the member that they stand in.
//!
//! The places inside a tree are read before it, in the order of their members. Each is put to those of its member that have been read
//! before, so that a list or a map is made while its places are read, and nothing is kept twice. The outcomes of a tree's members are
//! then the last, and are taken off there, the last member first.
ghost use Rattle.std.specs.Prelude.{◌≡◌, ◌≤◌, ◌+◌, ◌∷◌, [], length, IfOk, OnOk, Bool, string_bytes};
ghost use Rattle.serde_json.specs.Data.{Data};
ghost use Rattle.serde_json.specs.View.{view};
ghost use Rattle.utoipa_schema.specs.Outcomes.{of_list, of_map, one_of_outcomes, list_of_outcomes, map_of_outcomes, outcomes_of, all_outcomes, with_last, AreEntries, outcome_doc, list_docs, map_docs, put as put_outcome, add_place, add_entry, Takes, last, all_docs, all_entries, counts, count_of, count_of_list, count_of_map, AreCombinations, AreOfArray, AreOfObject, AreInner, counts_of_combinations, counts_of_array, counts_of_object, counts_of_inner};
ghost use Rattle.utoipa_schema.specs.Places.{stands_as, place_at, by_itself, read_by, elements, entries, alone, part, found, data_of, of_combinations, of_array, of_object, of_each};

use crate::inner_members::InnerMembers;
use crate::places::Standing;
use crate::types::Schema;
use serde_json::Value;
use std::alloc::{AllocError, Global};
use std::collections::BTreeMap;
use utoipa_base::RefOr;

/// What a place was read as: none where it fits nothing. A schema is large, so it stays where it is on the heap until it is put
/// into the one around it.
pub(crate) type Outcome = Option<Box<RefOr<Schema>>>;

/// What the places of a list were read as: none where one of them fits nothing.
pub(crate) type ListOutcome = Option<Vec<RefOr<Schema>>>;

/// What the places of a map were read as, by their names: none where one of them fits nothing.
pub(crate) type MapOutcome = Option<BTreeMap<String, RefOr<Schema>>>;

/// The outcomes of the places of one member, as far as they have been read.
#[derive(Drop)]
pub(crate) enum Group {
    /// The member is a place.
    One(Outcome),
    /// The member is a list of places.
    List(ListOutcome),
    /// The member is a map of places.
    Map(MapOutcome),
}

/// The outcomes in the combinations of a tree.
#[derive(Drop)]
pub(crate) struct CombinationOutcomes {
    /// Those in `oneOf`.
    pub(crate) one_of: ListOutcome,
    /// Those in `allOf`.
    pub(crate) all_of: ListOutcome,
    /// Those in `anyOf`.
    pub(crate) any_of: ListOutcome,
}

/// The outcomes in the items of an array.
#[derive(Drop)]
pub(crate) struct ArrayOutcomes {
    /// That in `items`, if it is a place.
    pub(crate) items: Outcome,
    /// Those in `prefixItems`.
    pub(crate) prefix_items: ListOutcome,
}

/// The outcomes in the properties of an object.
#[derive(Drop)]
pub(crate) struct ObjectOutcomes {
    /// Those in `properties`.
    pub(crate) properties: MapOutcome,
    /// That in `additionalProperties`, if it is a place.
    pub(crate) additional_properties: Outcome,
    /// That in `propertyNames`, if it is a place.
    pub(crate) property_names: Outcome,
}

/// The outcomes in a tree.
#[derive(Drop)]
pub(crate) struct InnerOutcomes {
    /// Those in the combinations.
    pub(crate) combinations: CombinationOutcomes,
    /// Those in the items of an array.
    pub(crate) array: ArrayOutcomes,
    /// Those in the properties of an object.
    pub(crate) object: ObjectOutcomes,
    /// That in `contentSchema`, if it is a place.
    pub(crate) content_schema: Outcome,
}

impl Group {
    /// The outcome of a member that is one place.
    fn into_place(self) -> Outcome
        ensures { outcome_doc result ≡ one_of_outcomes (outcomes_of self) }
    {
        match self {
            Group::One(outcome) => outcome,
            Group::List(_) => None,
            Group::Map(_) => None,
        }
    }

    /// The outcomes of a member that is a list of places.
    fn into_list(self) -> ListOutcome
        ensures { list_docs result ≡ list_of_outcomes (outcomes_of self) }
    {
        match self {
            Group::List(list) => list,
            Group::One(_) => None,
            Group::Map(_) => None,
        }
    }

    /// The outcomes of a member that is a map of places.
    fn into_map(self) -> MapOutcome
        ensures { map_docs result ≡ map_of_outcomes (outcomes_of self) }
    {
        match self {
            Group::Map(map) => map,
            Group::One(_) => None,
            Group::List(_) => None,
        }
    }

    /// With one place more, if it is a list. Fails where memory runs out.
    fn with_place(self, outcome: Outcome) -> Result<Group, AllocError>
        ensures { IfOk result (λ group. outcomes_of group ≡ add_place (outcome_doc outcome) (outcomes_of self)) }
    {
        match self {
            Group::List(list) => Ok(Group::List(with_element(list, outcome)?)),
            Group::One(own) => Ok(Group::One(own)),
            Group::Map(map) => Ok(Group::Map(map)),
        }
    }

    /// With one place more under its name, if it is a map. Fails where memory runs out.
    fn with_named(self, name: &String, outcome: Outcome) -> Result<Group, AllocError>
        ensures { IfOk result (λ group. outcomes_of group
            ≡ add_entry (string_bytes name.now) (outcome_doc outcome) (outcomes_of self)) }
    {
        match self {
            Group::Map(map) => Ok(Group::Map(with_entry(map, name, outcome)?)),
            Group::One(own) => Ok(Group::One(own)),
            Group::List(list) => Ok(Group::List(list)),
        }
    }
}

/// One place more of a list. Fails where memory runs out.
fn with_element(list: ListOutcome, outcome: Outcome) -> Result<ListOutcome, AllocError>
    ensures { IfOk result (λ o. of_list (list_docs o) ≡ add_place (outcome_doc outcome) (of_list (list_docs list))) }
{
    let (Some(mut list), Some(place)) = (list, outcome) else {
        return Ok(None);
    };
    list.push(Box::into_inner(place))?;
    Ok(Some(list))
}

/// One place more of a map. Fails where memory runs out.
fn with_entry(map: MapOutcome, name: &String, outcome: Outcome) -> Result<MapOutcome, AllocError>
    ensures { IfOk result (λ o. of_map (map_docs o)
        ≡ add_entry (string_bytes name.now) (outcome_doc outcome) (of_map (map_docs map))) }
{
    let (Some(mut map), Some(place)) = (map, outcome) else {
        return Ok(None);
    };
    let name = name.clone()?;
    drop(map.insert(name, Box::into_inner(place))?);
    Ok(Some(map))
}

/// Puts a place that has been read to those of its member. Fails where memory runs out.
pub(crate) fn put(
    alloc: Global,
    filled: &mut Vec<Group>,
    standing: Standing<'_>,
    outcome: Outcome,
) -> Result<(), AllocError>
    ensures { OnOk result (all_outcomes filled.new.items
        ≡ put_outcome (all_outcomes filled.old.items) (stands_as standing.entry) (outcome_doc outcome)) }
{
    match standing {
        Standing::Alone => Ok(filled.push(Group::One(outcome))?),
        Standing::FirstInList => {
            // Most lists of schemas have one or two, and a list that grows at its first would take room for four.
            let list = Vec::with_capacity(alloc, 2)?;
            let group = Group::List(Some(list)).with_place(outcome)?;
            Ok(filled.push(group)?)
        }
        Standing::FirstInMap(name) => {
            let group = Group::Map(Some(BTreeMap::new(alloc))).with_named(name, outcome)?;
            Ok(filled.push(group)?)
        }
        Standing::NextInList => put_element(filled, outcome),
        Standing::NextInMap(name) => put_entry(filled, name, outcome),
    }
}

/// Puts an element that has been read to those before it. Fails where memory runs out.
fn put_element(filled: &mut Vec<Group>, outcome: Outcome) -> Result<(), AllocError>
    ensures { OnOk result (all_outcomes filled.new.items
        ≡ with_last (add_place (outcome_doc outcome)) (all_outcomes filled.old.items)) }
{
    match filled.pop() {
        Some(group) => {
            let group = group.with_place(outcome)?;
            Ok(filled.push(group)?)
        }
        None => Ok(()),
    }
}

/// Puts a value of a map that has been read to those before it. Fails where memory runs out.
fn put_entry(filled: &mut Vec<Group>, name: &String, outcome: Outcome) -> Result<(), AllocError>
    ensures { OnOk result (all_outcomes filled.new.items
        ≡ with_last (add_entry (string_bytes name.now) (outcome_doc outcome)) (all_outcomes filled.old.items)) }
{
    match filled.pop() {
        Some(group) => {
            let group = group.with_named(name, outcome)?;
            Ok(filled.push(group)?)
        }
        None => Ok(()),
    }
}

/// Takes off the last outcome, which is that of one place.
pub(crate) fn take_last(filled: &mut Vec<Group>) -> Outcome
    ensures read { (b : Bool) (d : Data)
        → Takes filled.old.items filled.new.items (place_at b by_itself d ∷ []) (outcome_doc result ≡ read_by b d) }
    ensures counted { counts (all_outcomes filled.new.items) + count_of (outcome_doc result)
        ≤ counts (all_outcomes filled.old.items) }
{
    match filled.pop() {
        Some(group) => group.into_place(),
        None => None,
    }
}

/// Takes off the outcome of a member that is one place.
pub(crate) fn take_alone(tree: &Value, filled: &mut Vec<Group>) -> Outcome
    ensures read { (b : Bool)
        → Takes filled.old.items filled.new.items (alone b (view tree.now))
        (outcome_doc result ≡ last (alone b (view tree.now))) }
    ensures counted { counts (all_outcomes filled.new.items) + count_of (outcome_doc result)
        ≤ counts (all_outcomes filled.old.items) }
{
    if tree.is_null() || tree.is_boolean() {
        None
    } else {
        take_last(filled)
    }
}

/// How many places there are in a member that is a list.
fn count_elements(tree: &Value) -> usize
    ensures { (b : Bool) → result ≡ length (elements b (view tree.now)) }
{
    match tree.as_array() {
        Some(list) => list.len(),
        None => 0,
    }
}

/// How many places there are in a member that is a map, whose names ascend.
fn count_entries(tree: &Value) -> usize
    ensures many { (b : Bool) → result ≡ length (entries b (view tree.now)) }
    ensures ordered { AreEntries (view tree.now) }
{
    match tree.as_object() {
        Some(map) => map.len(),
        None => 0,
    }
}

/// Takes off the outcomes of a member that is a list of places.
pub(crate) fn take_elements(alloc: Global, tree: &Value, filled: &mut Vec<Group>) -> ListOutcome
    ensures read { (b : Bool)
        → Takes filled.old.items filled.new.items (elements b (view tree.now))
        (list_docs result ≡ all_docs (elements b (view tree.now))) }
    ensures counted { counts (all_outcomes filled.new.items) + count_of_list (list_docs result)
        ≤ counts (all_outcomes filled.old.items) }
{
    if count_elements(tree) == 0 {
        return Some(Vec::new(alloc));
    }
    match filled.pop() {
        Some(group) => group.into_list(),
        None => None,
    }
}

/// Takes off the outcomes of a member that is a map of places.
pub(crate) fn take_entries(alloc: Global, tree: &Value, filled: &mut Vec<Group>) -> MapOutcome
    ensures read { (b : Bool)
        → Takes filled.old.items filled.new.items (entries b (view tree.now))
        (map_docs result ≡ all_entries (entries b (view tree.now))) }
    ensures counted { counts (all_outcomes filled.new.items) + count_of_map (map_docs result)
        ≤ counts (all_outcomes filled.old.items) }
{
    if count_entries(tree) == 0 {
        return Some(BTreeMap::new(alloc));
    }
    match filled.pop() {
        Some(group) => group.into_map(),
        None => None,
    }
}

/// Takes off the outcome of a member, if it is there, that is one place.
pub(crate) fn take_one(member: Option<&Value>, filled: &mut Vec<Group>) -> Outcome
    ensures read { (b : Bool)
        → Takes filled.old.items filled.new.items (part (alone b) (found member.entry))
        (outcome_doc result ≡ last (part (alone b) (found member.entry))) }
    ensures counted { counts (all_outcomes filled.new.items) + count_of (outcome_doc result)
        ≤ counts (all_outcomes filled.old.items) }
{
    match member {
        Some(member) => take_alone(member, filled),
        None => None,
    }
}

/// Takes off the outcomes of a member, if it is there, that is a list of places.
pub(crate) fn take_list(
    alloc: Global,
    member: Option<&Value>,
    filled: &mut Vec<Group>,
) -> ListOutcome
    ensures read { (b : Bool)
        → Takes filled.old.items filled.new.items (part (elements b) (found member.entry))
        (list_docs result ≡ all_docs (part (elements b) (found member.entry))) }
    ensures counted { counts (all_outcomes filled.new.items) + count_of_list (list_docs result)
        ≤ counts (all_outcomes filled.old.items) }
{
    match member {
        Some(member) => take_elements(alloc, member, filled),
        None => Some(Vec::new(alloc)),
    }
}

/// Takes off the outcomes of a member, if it is there, that is a map of places.
fn take_map(alloc: Global, member: Option<&Value>, filled: &mut Vec<Group>) -> MapOutcome
    ensures read { (b : Bool)
        → Takes filled.old.items filled.new.items (part (entries b) (found member.entry))
        (map_docs result ≡ all_entries (part (entries b) (found member.entry))) }
    ensures counted { counts (all_outcomes filled.new.items) + count_of_map (map_docs result)
        ≤ counts (all_outcomes filled.old.items) }
{
    match member {
        Some(member) => take_entries(alloc, member, filled),
        None => Some(BTreeMap::new(alloc)),
    }
}

/// Takes off the outcomes in the combinations of a tree.
fn take_combinations(
    alloc: Global,
    members: &InnerMembers<'_>,
    filled: &mut Vec<Group>,
) -> CombinationOutcomes
    ensures read { Takes filled.old.items filled.new.items (of_combinations (data_of members.now))
        (AreCombinations (data_of members.now) result) }
    ensures counted { counts (all_outcomes filled.new.items) + counts_of_combinations result
        ≤ counts (all_outcomes filled.old.items) }
{
    let any_of = take_list(alloc, members.any_of, filled);
    let all_of = take_list(alloc, members.all_of, filled);
    let one_of = take_list(alloc, members.one_of, filled);
    CombinationOutcomes {
        one_of,
        all_of,
        any_of,
    }
}

/// Takes off the outcomes in the items of an array.
pub(crate) fn take_of_array(
    alloc: Global,
    members: &InnerMembers<'_>,
    filled: &mut Vec<Group>,
) -> ArrayOutcomes
    ensures read { Takes filled.old.items filled.new.items (of_array (data_of members.now))
        (AreOfArray (data_of members.now) result) }
    ensures counted { counts (all_outcomes filled.new.items) + counts_of_array result
        ≤ counts (all_outcomes filled.old.items) }
{
    let prefix_items = take_list(alloc, members.prefix_items, filled);
    let items = take_one(members.items, filled);
    ArrayOutcomes {
        items,
        prefix_items,
    }
}

/// Takes off the outcomes in the properties of an object.
pub(crate) fn take_of_object(
    alloc: Global,
    members: &InnerMembers<'_>,
    filled: &mut Vec<Group>,
) -> ObjectOutcomes
    ensures read { Takes filled.old.items filled.new.items (of_object (data_of members.now))
        (AreOfObject (data_of members.now) result) }
    ensures counted { counts (all_outcomes filled.new.items) + counts_of_object result
        ≤ counts (all_outcomes filled.old.items) }
{
    let property_names = take_one(members.property_names, filled);
    let additional_properties = take_one(members.additional_properties, filled);
    let properties = take_map(alloc, members.properties, filled);
    ObjectOutcomes {
        properties,
        additional_properties,
        property_names,
    }
}

/// Takes off the outcomes in a tree.
pub(crate) fn take_inner(
    alloc: Global,
    members: &InnerMembers<'_>,
    filled: &mut Vec<Group>,
) -> InnerOutcomes
    ensures read { Takes filled.old.items filled.new.items (of_each (data_of members.now))
        (AreInner (data_of members.now) result) }
    ensures counted { counts (all_outcomes filled.new.items) + counts_of_inner result
        ≤ counts (all_outcomes filled.old.items) }
{
    let content_schema = take_one(members.content_schema, filled);
    let object = take_of_object(alloc, members, filled);
    let array = take_of_array(alloc, members, filled);
    let combinations = take_combinations(alloc, members, filled);
    InnerOutcomes {
        combinations,
        array,
        object,
        content_schema,
    }
}
