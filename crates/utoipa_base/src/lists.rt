//! Lists that are filled from iterators.
ghost use Rattle.std.specs.Prelude.{IfOk};
ghost use Rattle.std.specs.Iterator.{IsFinite};
ghost use Rattle.std.specs.Option.{ForSome};
ghost use Rattle.utoipa_base.specs.Lists.{EachIterator, IsFilledFrom, IsFilledIfAny};

use std::alloc::{AllocError, Global};

/// The list of all that an iterator gives. The iterator has to end. Fails where memory runs out.
pub fn list_from<T: Drop, I: IntoIterator<Item = T>>(
    alloc: Global,
    items: I,
) -> Result<Vec<T>, AllocError>
    requires can { EachIterator I.into_iter_gives I.IntoIter.can_next items }
    requires ends { EachIterator I.into_iter_gives (λ it. IsFinite (I.IntoIter.remaining it)) items }
    ensures { IfOk result (λ list. IsFilledFrom I.into_iter_gives I.IntoIter.next_gives items list) }
{
    let mut list = Vec::new(alloc);
    for item in items {
        list.push(item)?;
    }
    Ok(list)
}

/// The list of all that an iterator gives, where there is one. The iterator has to end. Fails where memory runs out.
pub fn list_if_any<T: Drop, I: IntoIterator<Item = T>>(
    alloc: Global,
    items: Option<I>,
) -> Result<Option<Vec<T>>, AllocError>
    requires can { ForSome items (EachIterator I.into_iter_gives I.IntoIter.can_next) }
    requires ends { ForSome items (EachIterator I.into_iter_gives (λ it. IsFinite (I.IntoIter.remaining it))) }
    ensures { IfOk result (λ list. IsFilledIfAny I.into_iter_gives I.IntoIter.next_gives items list) }
{
    match items {
        Some(items) => Ok(Some(list_from(alloc, items)?)),
        None => Ok(None),
    }
}
