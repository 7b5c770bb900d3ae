//! Names that stand more than once in an object of a JSON text (RFC 8259, section 4): a reader of trees keeps the last member of a name and
//! drops those before it, so a second `/orders` under `paths` hides the operations of the first.
#![tactic(auto)]

ghost use Rattle.std.specs.Prelude.{◌≡◌, ◌++◌, ◌∷◌, ℕ, List, [], IfOk, OnOk, false, map, string_bytes};
ghost use Rattle.json.specs.Json.{document};
ghost use Rattle.json.specs.Value.{value_view, items_view, members_view};
ghost use Rattle.utoipa_check.specs.Misfits.{at_name};
ghost use Rattle.utoipa_check.specs.Pointers.{pointer_text};
ghost use Rattle.utoipa_check.specs.Views.{step_of};
ghost use Rattle.utoipa_duplicates.specs.Duplicates as specs;
ghost use Rattle.utoipa_duplicates.specs.Views.{AreNames, place_of, places_of};

use json::{Error, Scratch, Value};
use std::alloc::{AllocError, Global};
use std::collections::BTreeSet;
use utoipa_check::{Pointer, Step};

/// Adds the places in a value, by the places of the value that it stands in. Fails where memory runs out.
fn put_behind<'a>(
    step: Step<'a>,
    inner: Vec<Pointer<'a>>,
    found: &mut Vec<Pointer<'a>>,
) -> Result<(), AllocError>
    ensures { OnOk result (places_of found.new.items
        ≡ places_of found.old.items ++ specs.behind (step_of step.entry) (places_of inner.entry.items)) }
{
    for mut pointer in inner {
        pointer.steps.push(step)?;
        found.push(pointer)?;
    }
    Ok(())
}

/// Adds the place of a member. Fails where memory runs out.
fn put_member<'a>(
    alloc: Global,
    name: &'a str,
    found: &mut Vec<Pointer<'a>>,
) -> Result<(), AllocError>
    ensures { OnOk result (places_of found.new.items
        ≡ places_of found.old.items ++ (at_name name.entry.now ∷ []) ∷ []) }
{
    let mut steps = Vec::new(alloc);
    steps.push(Step::Name(name))?;
    found.push(Pointer { steps })?;
    Ok(())
}

/// Adds the place of a member whose name is one of the earlier, and the name to these. Fails where memory runs out.
fn note_name<'a>(
    alloc: Global,
    name: &'a str,
    earlier: &mut BTreeSet<&'a str>,
    found: &mut Vec<Pointer<'a>>,
) -> Result<(), AllocError>
    ensures { OnOk result ((names : List (List ℕ)) → AreNames earlier.old names
        → AreNames earlier.new (name.entry.now ∷ names) × (places_of found.new.items ≡ places_of found.old.items ++ specs.again name.entry.now names)) }
{
    let is_new = earlier.insert(name)?;
    if is_new {
        return Ok(());
    }
    put_member(alloc, name, found)
}

/// The places in a value where a name stands again in its object (RFC 8259, section 4), in the order of the text. Fails where memory runs out.
#[cycle(places)]
pub fn places_in_value<'v, 'a>(
    alloc: Global,
    value: &'v Value<'a>,
) -> Result<Vec<Pointer<'a>>, AllocError>
    ensures { IfOk result (λ v. places_of v.items ≡ specs.duplicates (value_view value.now)) }
{
    match value {
        Value::Array(items) => places_in_items(alloc, items),
        Value::Object(members) => places_in_members(alloc, members),
        Value::Null | Value::Bool(_) | Value::Number(_) | Value::String(_) => Ok(Vec::new(alloc)),
    }
}

/// The places in items where a name stands again. Fails where memory runs out.
#[cycle(places)]
fn places_in_items<'v, 'a>(
    alloc: Global,
    items: &'v Vec<Value<'a>>,
) -> Result<Vec<Pointer<'a>>, AllocError>
    ensures { IfOk result (λ v. places_of v.items ≡ specs.items_duplicates 0 (items_view items.now.items)) }
{
    let mut found = Vec::new(alloc);
    let mut index: usize = 0;
    for item in items {
        let inner = places_in_value(alloc, item)?;
        put_behind(Step::Index(index), inner, &mut found)?;
        index += 1;
    }
    Ok(found)
}

/// The places of members, and in them, where a name stands again. Fails where memory runs out.
#[cycle(places)]
fn places_in_members<'v, 'a>(
    alloc: Global,
    members: &'v Vec<(&'a str, Value<'a>)>,
) -> Result<Vec<Pointer<'a>>, AllocError>
    ensures { IfOk result (λ v. places_of v.items ≡ specs.members_duplicates [] (members_view members.now.items)) }
{
    let mut found = Vec::new(alloc);
    let mut earlier = BTreeSet::new(alloc);
    for (name, member) in members {
        let name: &str = *name;
        note_name(alloc, name, &mut earlier, &mut found)?;
        let inner = places_in_value(alloc, member)?;
        put_behind(Step::Name(name), inner, &mut found)?;
    }
    Ok(found)
}

/// Whether a name may stand again in an object of a text: where it is false, none does. It is asked before the places are looked for,
/// which takes more. Fails where memory runs out.
pub fn may_have_duplicates(alloc: Global, text: &str) -> Result<bool, AllocError>
    ensures { IfOk result (λ may. may ≡ false → specs.places_in (document text.now) ≡ []) }
{
    let mut scratch = Scratch::new(alloc);
    match Value::parse_strict(alloc, text, &mut scratch) {
        Ok(_value) => Ok(false),
        Err(Error::Invalid) => Ok(false),
        Err(Error::DuplicateKey) => Ok(true),
        Err(_) => Err(AllocError),
    }
}

/// The pointers as texts. Fails where memory runs out.
fn texts_of(alloc: Global, pointers: &[Pointer<'_>]) -> Result<Vec<String>, AllocError>
    ensures { IfOk result (λ v. map string_bytes v.items ≡ map pointer_text (places_of pointers.now)) }
{
    let mut texts = Vec::new(alloc);
    for pointer in pointers {
        texts.push(pointer.to_string(alloc)?)?;
    }
    Ok(texts)
}

/// The places in a value where a name stands again, as texts. Fails where memory runs out.
fn texts_in(alloc: Global, value: &Value<'_>) -> Result<Vec<String>, AllocError>
    ensures { IfOk result
        (λ v. map string_bytes v.items ≡ map pointer_text (specs.duplicates (value_view value.now))) }
{
    let found = places_in_value(alloc, value)?;
    texts_of(alloc, &found)
}

/// The places of a text where a name stands again, by its values. Fails where memory runs out.
fn all_duplicates(alloc: Global, text: &str) -> Result<Vec<String>, AllocError>
    ensures { IfOk result (λ v. map string_bytes v.items ≡ specs.duplicates_of_text text.now) }
{
    let mut scratch = Scratch::new(alloc);
    let parsed = Value::parse(alloc, text, &mut scratch);
    match &parsed {
        Ok(value) => texts_in(alloc, value),
        Err(Error::Invalid) => Ok(Vec::new(alloc)),
        Err(_) => Err(AllocError),
    }
}

/// The JSON Pointers (RFC 6901) of the places of a text where a name stands again in its object (RFC 8259, section 4), in the order of the text.
///
/// A reader of trees keeps the last member of a name, so what stood at such a place before is lost. None of a text that is no JSON. Fails
/// where memory runs out.
pub fn duplicate_names(alloc: Global, text: &str) -> Result<Vec<String>, AllocError>
    ensures { IfOk result (λ v. map string_bytes v.items ≡ specs.duplicates_of_text text.now) }
{
    if may_have_duplicates(alloc, text)? {
        return all_duplicates(alloc, text);
    }
    Ok(Vec::new(alloc))
}
