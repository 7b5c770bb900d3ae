//! Lists joined one after the other: an entry stays where no earlier list has an equal one.
//!
//! Equal entries are written as one text. So an entry is looked up by its text and compared with one that is written so; only where
//! these differ, as two entries that were read never do, is it compared with each.
ghost use Rattle.std.specs.Prelude.{◌≡◌, ◌++◌, ◌∷◌, [], ◌↔◌, All, Contains, IfOk, IsTrue, map};
ghost use Rattle.std.specs.Option.{ForSome};
ghost use Rattle.utoipa_base.specs.Views.{list_of_docs, option_of};
ghost use Rattle.utoipa_base.specs.WellFormed.{IsPlain};
ghost use Rattle.utoipa_merging.specs.Merged.{IsListMerged};
ghost use Rattle.utoipa_merging.specs.Rules.{AreNew};
ghost use Rattle.utoipa_merging_parts.specs.Lists.{ArePlain, AreKnown, IsWritten, IsSound, HasRoomFor, IsTaken, IsJoinedWith, entry_doc};

use std::alloc::{AllocError, Global};
use std::collections::BTreeMap;
use utoipa_base::Same;

/// The place of an entry in a list, by its text.
type Places = BTreeMap<Vec<u8>, usize>;

/// An entry with the text that it is written as.
#[derive(Drop)]
pub(crate) struct Written<T> {
    text: Vec<u8>,
    entry: T,
}

/// Lists joined so far, with a place for the text of each entry.
#[derive(Drop)]
pub(crate) struct Joined<T> {
    entries: Vec<T>,
    places: Places,
}

/// The entries of all lists in their order, but for those that equal an entry of an earlier list. There is a list where any is there.
/// No entry may hold a fraction.
///
/// Fails where memory runs out.
pub fn join_lists<T: Same>(
    alloc: Global,
    lists: Vec<Option<Vec<T>>>,
) -> Result<Option<Vec<T>>, AllocError>
    requires plain { All (λ l. IsPlain (option_of (list_of_docs T.doc) l)) lists.items }
    ensures { IfOk result
        (λ joined. IsListMerged (map (option_of (list_of_docs T.doc)) lists.items) (option_of (list_of_docs T.doc) joined)) }
{
    let mut joined = None;
    for list in lists {
        joined = join_if_any(joined, alloc, list)?;
    }
    match joined {
        Some(joined) => Ok(Some(joined.entries)),
        None => Ok(None),
    }
}

/// Finds what a list takes of a later one, the entries that equal none of its own, and makes room for them in it. No entry may hold a
/// fraction.
///
/// Fails where memory runs out. Whatever the result, the list has the entries that it had.
pub fn make_room<T: Same>(
    own: &mut Option<Vec<T>>,
    alloc: Global,
    later: Option<Vec<T>>,
) -> Result<Option<Vec<T>>, AllocError>
    requires plain { IsPlain (option_of (list_of_docs T.doc) own.old) }
    requires later_plain { IsPlain (option_of (list_of_docs T.doc) later) }
    ensures room { IfOk result (λ new. HasRoomFor own.new new) }
    ensures merged { IfOk result (λ new. (taken : _) → IsTaken own.new new taken
        → IsListMerged (option_of (list_of_docs T.doc) own.old ∷ option_of (list_of_docs T.doc) later ∷ []) (option_of (list_of_docs T.doc) taken)) }
    ensures unchanged { option_of (list_of_docs T.doc) own.new ≡ option_of (list_of_docs T.doc) own.old }
{
    let Some(later) = later else {
        return Ok(None);
    };
    let Some(own) = own else {
        return Ok(Some(later));
    };
    let places = places_of(alloc, own)?;
    let new = entries_of(alloc, new_entries(alloc, &places, own, later)?)?;
    own.reserve(new.len())?;
    Ok(Some(new))
}

/// Appends entries for which there is room. Takes no memory.
pub fn take_entries<T: Drop>(own: &mut Option<Vec<T>>, new: Option<Vec<T>>)
    requires { HasRoomFor own.old new }
    ensures { IsTaken own.old new own.new }
{
    let Some(mut new) = new else {
        return;
    };
    *own = match own.take() {
        Some(mut list) => {
            // There is room, so this asks for no memory and can't fail.
            drop(list.append(&mut new));
            Some(list)
        }
        None => Some(new),
    };
}

fn join_if_any<T: Same>(
    joined: Option<Joined<T>>,
    alloc: Global,
    list: Option<Vec<T>>,
) -> Result<Option<Joined<T>>, AllocError>
    requires sound { ForSome joined (IsSound T.doc) }
    requires plain { IsPlain (option_of (list_of_docs T.doc) list) }
    ensures sound { IfOk result (λ all. ForSome all (IsSound T.doc)) }
    ensures joined { IfOk result (λ all. IsJoinedWith T.doc joined list all) }
{
    let Some(list) = list else {
        return Ok(joined);
    };
    let joined = match joined {
        Some(joined) => joined,
        None => Joined {
            entries: Vec::new(alloc),
            places: BTreeMap::new(alloc),
        },
    };
    let new = new_entries(alloc, &joined.places, &joined.entries, list)?;
    Ok(Some(with_entries(joined, new)?))
}

fn with_entries<T: Same>(joined: Joined<T>, new: Vec<Written<T>>) -> Result<Joined<T>, AllocError>
    requires sound { IsSound T.doc joined }
    requires written { All (IsWritten T.doc) new.items }
    ensures sound { IfOk result (IsSound T.doc) }
    ensures entries { IfOk result (λ all. map T.doc all.entries.items
        ≡ map T.doc joined.entries.items ++ map (entry_doc T.doc) new.items) }
{
    let mut joined = joined;
    for Written { text, entry } in new {
        drop(joined.places.insert(text, joined.entries.len())?);
        joined.entries.push(entry)?;
    }
    Ok(joined)
}

fn places_of<T: Same>(alloc: Global, entries: &[T]) -> Result<Places, AllocError>
    requires plain { ArePlain T.doc entries.now }
    ensures { IfOk result (λ places. AreKnown places (map T.doc entries.now)) }
{
    let mut places = BTreeMap::new(alloc);
    for (place, entry) in entries.iter().enumerate() {
        drop(places.insert(entry.to_json(alloc)?, place)?);
    }
    Ok(places)
}

/// The entries that equal none of the earlier.
fn new_entries<T: Same>(
    alloc: Global,
    places: &Places,
    earlier: &[T],
    entries: Vec<T>,
) -> Result<Vec<Written<T>>, AllocError>
    requires earlier_plain { ArePlain T.doc earlier.now }
    requires known { AreKnown places.now (map T.doc earlier.now) }
    requires plain { ArePlain T.doc entries.items }
    ensures new { IfOk result
        (λ new. AreNew (map T.doc earlier.now) (map T.doc entries.items) (map (entry_doc T.doc) new.items)) }
    ensures written { IfOk result (λ new. All (IsWritten T.doc) new.items) }
{
    let mut new = Vec::new(alloc);
    for entry in entries {
        let entry = with_text(alloc, entry)?;
        if !has_same(places, earlier, &entry) {
            new.push(entry)?;
        }
    }
    Ok(new)
}

fn with_text<T: Same>(alloc: Global, entry: T) -> Result<Written<T>, AllocError>
    requires plain { IsPlain (T.doc entry) }
    ensures entry { IfOk result (λ w. w.entry ≡ entry) }
    ensures written { IfOk result (IsWritten T.doc) }
{
    let text = entry.to_json(alloc)?;
    Ok(Written { text, entry })
}

/// Whether one of the earlier entries is the same.
fn has_same<T: Same>(places: &Places, earlier: &[T], entry: &Written<T>) -> bool
    requires earlier_plain { ArePlain T.doc earlier.now }
    requires known { AreKnown places.now (map T.doc earlier.now) }
    requires written { IsWritten T.doc entry.now }
    ensures { IsTrue result ↔ Contains (map T.doc earlier.now) (T.doc entry.now.entry) }
{
    let Some(place) = places.get(entry.text.as_slice()) else {
        return false;
    };
    if let Some(first) = earlier.get(*place) {
        if first.same(&entry.entry) {
            return true;
        }
    }
    contains(earlier, &entry.entry)
}

fn contains<T: Same>(list: &[T], entry: &T) -> bool
    requires plain { ArePlain T.doc list.now }
    requires entry_plain { IsPlain (T.doc entry.now) }
    ensures { IsTrue result ↔ Contains (map T.doc list.now) (T.doc entry.now) }
{
    for other in list {
        if other.same(entry) {
            return true;
        }
    }
    false
}

fn entries_of<T: Drop>(alloc: Global, written: Vec<Written<T>>) -> Result<Vec<T>, AllocError>
    ensures { IfOk result (λ entries. entries.items ≡ map (λ w. w.entry) written.items) }
{
    let mut entries = Vec::with_capacity(alloc, written.len())?;
    for Written { entry, .. } in written {
        entries.push(entry)?;
    }
    Ok(entries)
}
