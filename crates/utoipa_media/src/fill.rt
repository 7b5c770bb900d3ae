//! Lists and maps that are filled, with what was read or copied, or with what an iterator gives.
ghost use Rattle.std.specs.Prelude.{◌≡◌, ◌++◌, [], ◌∷◌, Option, Ok, IfErr, OnOk, OnErr};
ghost use Rattle.std.specs.Iterator.{IsFinite};
ghost use Rattle.utoipa_base.specs.Docs.{Doc};
ghost use Rattle.utoipa_base.specs.Faults.{Refuses};
ghost use Rattle.utoipa_base.specs.Lists.{EachIterator, IsFilledFrom};
ghost use Rattle.utoipa_media.specs.Fill.{PutsUnderCopy};

use std::alloc::{AllocError, Global};
use std::collections::BTreeMap;
use std::mem;
use utoipa_base::{ReadFault, list_from};

/// Sets a list to all that an iterator gives. The iterator has to end. Fails where memory runs out, and then the list is what it was.
pub(crate) fn set_list<T: Drop, I: IntoIterator<Item = T>>(
    list: &mut Vec<T>,
    alloc: Global,
    items: I,
) -> Result<(), AllocError>
    requires can { EachIterator I.into_iter_gives I.IntoIter.can_next items }
    requires ends { EachIterator I.into_iter_gives (λ it. IsFinite (I.IntoIter.remaining it)) items }
    ensures ok { OnOk result (IsFilledFrom I.into_iter_gives I.IntoIter.next_gives items list.new) }
    ensures err { OnErr result (list.new ≡ list.old) }
{
    drop(mem::replace(list, list_from(alloc, items)?));
    Ok(())
}

/// Puts a copy into a map, under a copy of its name. Fails where it was not made, and where memory runs out.
pub(crate) fn put_copied<T: Drop>(
    map: &mut BTreeMap<String, T>,
    name: &String,
    copied: Result<T, AllocError>,
) -> Result<(), AllocError>
    ensures { OnOk result (PutsUnderCopy name.now copied map.old.entries map.new.entries) }
{
    let value = copied?;
    drop(map.insert(name.clone()?, value)?);
    Ok(())
}

/// Puts a value that was read into a map, under a copy of its name. Fails with the fault of reading, and where memory runs out.
pub(crate) fn put_read<T: Drop>(
    map: &mut BTreeMap<String, T>,
    name: &String,
    read: Result<T, ReadFault>,
) -> Result<(), ReadFault>
    ensures ok { OnOk result (PutsUnderCopy name.now read map.old.entries map.new.entries) }
    ensures err { IfErr result (λ e. (o : Option Doc) → IfErr read (Refuses o) → Refuses o e) }
{
    let value = read?;
    drop(map.insert(name.clone()?, value)?);
    Ok(())
}

/// Puts a copy at the end of a list. Fails where it was not made, and where memory runs out.
pub(crate) fn push_copied<T: Drop>(
    list: &mut Vec<T>,
    copied: Result<T, AllocError>,
) -> Result<(), AllocError>
    ensures { OnOk result ((value : T) × (copied ≡ Ok value) × (list.new.items ≡ list.old.items ++ value ∷ [])) }
{
    Ok(list.push(copied?)?)
}

/// Puts a value that was read at the end of a list. Fails with the fault of reading, and where memory runs out.
pub(crate) fn push_read<T: Drop>(
    list: &mut Vec<T>,
    read: Result<T, ReadFault>,
) -> Result<(), ReadFault>
    ensures ok { OnOk result ((value : T) × (read ≡ Ok value) × (list.new.items ≡ list.old.items ++ value ∷ [])) }
    ensures err { IfErr result (λ e. (o : Option Doc) → IfErr read (Refuses o) → Refuses o e) }
{
    Ok(list.push(read?)?)
}
