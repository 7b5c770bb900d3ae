//! Lists that may be absent, and lists of what stands where a reference could.
ghost use Rattle.std.specs.Prelude.{◌≡◌, ◌++◌, List, IfOk, OnOk, map};
ghost use Rattle.std.specs.Iterator.{IsFinite};
ghost use Rattle.std.specs.Option.{ForSome};
ghost use Rattle.utoipa_base.specs.Lists.{EachIterator, GivesAll};
ghost use Rattle.utoipa_base.specs.declared.refs.Ref.{Ref};
ghost use Rattle.utoipa_path.specs.Lists.{IsOneMore, IsExtendedIfAny, ArePlacesIfAny, AreReferencesIfAny, own_place, reference_place};

use std::alloc::{AllocError, Global};
use utoipa_base::{Ref, RefOr};

/// Adds an item to a list; where there is none, there is one of that item then. Fails where memory runs out, and then gives up the
/// list.
pub(crate) fn add_one<T: Drop>(
    list: &mut Option<Vec<T>>,
    alloc: Global,
    item: T,
) -> Result<(), AllocError>
    ensures { OnOk result (IsOneMore list.old item list.new) }
{
    let mut items = list.take().unwrap_or(Vec::new(alloc));
    items.push(item)?;
    *list = Some(items);
    Ok(())
}

/// Adds each value that an iterator gives to a list of what stands where a reference could; where there is no iterator, there is no
/// list then. The iterator has to end. Fails where memory runs out, and then gives up the list.
pub(crate) fn add_places_or_clear<T: Drop, I: IntoIterator<Item = T>>(
    list: &mut Option<Vec<RefOr<T>>>,
    alloc: Global,
    items: Option<I>,
) -> Result<(), AllocError>
    requires can { ForSome items (EachIterator I.into_iter_gives I.IntoIter.can_next) }
    requires ends { ForSome items (EachIterator I.into_iter_gives (λ it. IsFinite (I.IntoIter.remaining it))) }
    ensures { OnOk result (IsExtendedIfAny I.into_iter_gives I.IntoIter.next_gives list.old items list.new) }
{
    let standing = list.take();
    match items {
        Some(items) => {
            let mut places = standing.unwrap_or(Vec::new(alloc));
            add_places(&mut places, items)?;
            *list = Some(places);
            Ok(())
        }
        None => Ok(()),
    }
}

/// Adds each value that an iterator gives to a list of what stands where a reference could. The iterator has to end. Fails
/// where memory runs out, and then some were added.
fn add_places<T: Drop, I: IntoIterator<Item = T>>(
    list: &mut Vec<RefOr<T>>,
    items: I,
) -> Result<(), AllocError>
    requires can { EachIterator I.into_iter_gives I.IntoIter.can_next items }
    requires ends { EachIterator I.into_iter_gives (λ it. IsFinite (I.IntoIter.remaining it)) items }
    ensures { OnOk result ((given : _) × GivesAll I.into_iter_gives I.IntoIter.next_gives items given
        × (list.new.items ≡ list.old.items ++ map own_place given)) }
{
    for item in items {
        list.push(RefOr::T(item))?;
    }
    Ok(())
}

/// The list of all values that an iterator gives, each where a reference could stand; none where there is no iterator. The iterator
/// has to end. Fails where memory runs out.
pub(crate) fn places_if_any<T: Drop, I: IntoIterator<Item = T>>(
    alloc: Global,
    items: Option<I>,
) -> Result<Option<Vec<RefOr<T>>>, AllocError>
    requires can { ForSome items (EachIterator I.into_iter_gives I.IntoIter.can_next) }
    requires ends { ForSome items (EachIterator I.into_iter_gives (λ it. IsFinite (I.IntoIter.remaining it))) }
    ensures { IfOk result (λ list. ArePlacesIfAny I.into_iter_gives I.IntoIter.next_gives items list) }
{
    let mut list = None;
    add_places_or_clear(&mut list, alloc, items)?;
    Ok(list)
}

/// The list of all references that an iterator gives, each where a value could stand; none where there is no iterator. The iterator
/// has to end. Fails where memory runs out.
pub(crate) fn references_if_any<T: Drop, I: IntoIterator<Item = Ref>>(
    alloc: Global,
    references: Option<I>,
) -> Result<Option<Vec<RefOr<T>>>, AllocError>
    requires can { ForSome references (EachIterator I.into_iter_gives I.IntoIter.can_next) }
    requires ends { ForSome references (EachIterator I.into_iter_gives (λ it. IsFinite (I.IntoIter.remaining it))) }
    ensures { IfOk result (λ list. AreReferencesIfAny I.into_iter_gives I.IntoIter.next_gives references list) }
{
    match references {
        Some(references) => Ok(Some(list_of_references(alloc, references)?)),
        None => Ok(None),
    }
}

/// The list of all references that an iterator gives, each where a value could stand. The iterator has to end. Fails where
/// memory runs out.
fn list_of_references<T: Drop, I: IntoIterator<Item = Ref>>(
    alloc: Global,
    references: I,
) -> Result<Vec<RefOr<T>>, AllocError>
    requires can { EachIterator I.into_iter_gives I.IntoIter.can_next references }
    requires ends { EachIterator I.into_iter_gives (λ it. IsFinite (I.IntoIter.remaining it)) references }
    ensures { IfOk result (λ list. (given : List Ref)
        × GivesAll I.into_iter_gives I.IntoIter.next_gives references given
        × (list.items ≡ map reference_place given)) }
{
    let mut list = Vec::new(alloc);
    for reference in references {
        list.push(RefOr::Ref(reference))?;
    }
    Ok(list)
}
