//! Fields that are filled: with a value that was made or put on the heap, and with pairs put into a map.
ghost use Rattle.std.specs.Prelude.{◌≡◌, Ok, Err, IfOk, IfErr, OnOk, OnErr, string_cmp};
ghost use Rattle.std.specs.BTreeMap.{insert_entry};
ghost use Rattle.std.specs.Iterator.{IsFinite};
ghost use Rattle.utoipa_base.specs.Fill.{IsBoxedIfAny, Pairs, put_each};
ghost use Rattle.utoipa_base.specs.Lists.{EachIterator, GivesAll};

use std::alloc::{AllocError, Global};
use std::collections::BTreeMap;
use std::mem;

/// A value put on the heap, where there is one. Fails where memory runs out, and then gives it up.
pub fn boxed_if_any<T: Drop>(alloc: Global, value: Option<T>) -> Result<Option<Box<T>>, AllocError>
    ensures { IfOk result (λ boxed. IsBoxedIfAny value boxed) }
{
    match value {
        Some(value) => Ok(Some(Box::new(alloc, value)?)),
        None => Ok(None),
    }
}

/// Sets a field to a value, where it was made. Fails with what making it failed with, and then the field is what it was.
pub fn set<T: Drop, E: Drop>(field: &mut T, value: Result<T, E>) -> Result<(), E>
    ensures ok { OnOk result (value ≡ Ok field.new) }
    ensures err { IfErr result (λ e. (value ≡ Err e) × (field.new ≡ field.old)) }
{
    drop(mem::replace(field, value?));
    Ok(())
}

/// Puts a value into a map, in place of an earlier one of that name. Fails where memory runs out, and then gives it up, and the map is
/// what it was.
pub fn put<T: Drop>(map: &mut BTreeMap<String, T>, name: String, value: T) -> Result<(), AllocError>
    ensures ok { OnOk result (map.new.entries ≡ insert_entry string_cmp map.old.entries name value) }
    ensures err { OnErr result (map.new.entries ≡ map.old.entries) }
{
    drop(map.insert(name, value)?);
    Ok(())
}

/// Puts each pair that an iterator gives into a map, in place of an earlier one of that name. The iterator has to end.
/// Fails where memory runs out, and then some pairs were put.
pub fn put_each<T: Drop, I: IntoIterator<Item = (String, T)>>(
    map: &mut BTreeMap<String, T>,
    pairs: I,
) -> Result<(), AllocError>
    requires can { EachIterator I.into_iter_gives I.IntoIter.can_next pairs }
    requires ends { EachIterator I.into_iter_gives (λ it. IsFinite (I.IntoIter.remaining it)) pairs }
    ensures { OnOk result ((given : Pairs T) × GivesAll I.into_iter_gives I.IntoIter.next_gives pairs given
        × (map.new.entries ≡ put_each given map.old.entries)) }
{
    for (name, value) in pairs {
        drop(map.insert(name, value)?);
    }
    Ok(())
}
