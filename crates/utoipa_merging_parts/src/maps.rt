//! A map that is filled from another: under each name stands the entry of the first map that has one.
ghost use Rattle.std.specs.Prelude.{◌≡◌, ℕ, List, IfOk, OnErr, OnOk, string_cmp};
ghost use Rattle.std.specs.Option.{is_some, option_or};
ghost use Rattle.std.specs.BTreeMap.{IsOrdered, get_by_text};
ghost use Rattle.utoipa_merging.specs.Rules.{where_missing};
ghost use Rattle.utoipa_merging_parts.specs.Filled.{without};

use std::alloc::{AllocError, Global};
use std::collections::BTreeMap;
use utoipa_base::put_all;

/// Names of entries.
pub(crate) type Names = BTreeMap<String, ()>;

/// Puts each entry in whose name is not there yet. Fails where memory runs out, and then nothing has changed, and the
/// entries that were to be put are given up.
pub fn fill_missing<T: Drop>(
    map: &mut BTreeMap<String, T>,
    alloc: Global,
    later: BTreeMap<String, T>,
) -> Result<(), AllocError>
    ensures ok { OnOk result ((name : List ℕ)
        → get_by_text map.new name ≡ option_or (get_by_text map.old name) (get_by_text later name)) }
    ensures err { OnErr result (map.new.entries ≡ map.old.entries) }
    ensures ordered { IsOrdered string_cmp map.old → IsOrdered string_cmp map.new }
{
    let mut missing = later;
    keep_missing(&mut missing, map);
    put_all(map, alloc, missing)
}

/// Puts each entry in whose name is not there yet, as [`fill_missing`] does, and answers the names that were put, by which
/// [`take_back`] takes them out again.
pub(crate) fn fill_noted<T: Drop>(
    map: &mut BTreeMap<String, T>,
    alloc: Global,
    later: BTreeMap<String, T>,
) -> Result<Names, AllocError>
    ensures ok { OnOk result ((name : List ℕ) → get_by_text map.new name
        ≡ option_or (get_by_text map.old name) (get_by_text later name)) }
    ensures noted { IfOk result (λ names. without names map.new.entries ≡ map.old.entries) }
    ensures err { OnErr result (map.new.entries ≡ map.old.entries) }
    ensures ordered { IsOrdered string_cmp map.old → IsOrdered string_cmp map.new }
{
    let mut entries = later;
    keep_missing(&mut entries, map);
    let names = names_of(alloc, &entries)?;
    put_all(map, alloc, entries)?;
    Ok(names)
}

/// Takes the entries of these names out. Takes no memory.
pub(crate) fn take_back<T: Drop>(map: &mut BTreeMap<String, T>, names: &Names)
    ensures { map.new.entries ≡ without names.now map.old.entries }
{
    map.retain(|name, _| !names.contains_key(name.as_str()));
}

/// Keeps the entries whose names the other map lacks. Takes no memory.
fn keep_missing<T: Drop>(entries: &mut BTreeMap<String, T>, map: &BTreeMap<String, T>)
    ensures { (name : List ℕ) → get_by_text entries.new name
        ≡ where_missing (get_by_text map.now name) (get_by_text entries.old name) }
{
    entries.retain(|name, _| !map.contains_key(name.as_str()));
}

fn names_of<T: Drop>(alloc: Global, map: &BTreeMap<String, T>) -> Result<Names, AllocError>
    ensures { IfOk result (λ names. (name : List ℕ) → is_some (get_by_text names name)
        ≡ is_some (get_by_text map.now name)) }
{
    let mut names = BTreeMap::new(alloc);
    for name in map.keys() {
        drop(names.insert(name.clone()?, ())?);
    }
    Ok(names)
}
