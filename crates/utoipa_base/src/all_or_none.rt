//! Entries put into a map, all of them or none.
//!
//! What each name had before is noted, and put back where memory runs out.
ghost use Rattle.std.specs.Prelude.{◌≡◌, OnOk, OnErr, string_cmp};
ghost use Rattle.std.specs.BTreeMap.{IsOrdered, insert_entry, is_at};
ghost use Rattle.std.specs.Map.{set_value as value_set};
ghost use Rattle.utoipa_base.specs.AllOrNone.{put_back, undone};
ghost use Rattle.utoipa_base.specs.Fill.{put_each};

use std::alloc::{AllocError, Global};
use std::collections::BTreeMap;

// What a name had before a value was put there.
#[derive(Drop)]
pub(crate) struct Replaced<T> {
    name: String,
    value: Option<T>,
}

/// Puts each entry of a map into another, in place of an earlier one of its name. Fails where memory runs out, and then nothing
/// has changed, and the entries that were to be put are given up.
pub fn put_all<T: Drop>(
    map: &mut BTreeMap<String, T>,
    alloc: Global,
    later: BTreeMap<String, T>,
) -> Result<(), AllocError>
    ensures ok { OnOk result (map.new.entries ≡ put_each later.entries map.old.entries) }
    ensures err { OnErr result (map.new.entries ≡ map.old.entries) }
    ensures ordered { IsOrdered string_cmp later }
{
    let mut replaced = Vec::new(alloc);
    for (name, value) in later {
        match put_noted(map, &mut replaced, name, value) {
            Ok(()) => {}
            Err(refused) => {
                take_back(map, replaced);
                return Err(refused);
            }
        }
    }
    Ok(())
}

// Notes what the name had. Whatever the result, to take the notes back leads where it did before.
fn put_noted<T: Drop>(
    map: &mut BTreeMap<String, T>,
    replaced: &mut Vec<Replaced<T>>,
    name: String,
    value: T,
) -> Result<(), AllocError>
    ensures ok { OnOk result (map.new.entries ≡ insert_entry string_cmp map.old.entries name value) }
    ensures undone { undone replaced.new.items map.new.entries ≡ undone replaced.old.items map.old.entries }
{
    let noted = name.clone()?;
    replaced.reserve(1)?;
    let earlier = map.insert(name, value)?;
    replaced.push(Replaced {
        name: noted,
        value: earlier,
    })?;
    Ok(())
}

fn take_back<T: Drop>(map: &mut BTreeMap<String, T>, replaced: Vec<Replaced<T>>)
    ensures { map.new.entries ≡ undone replaced.items map.old.entries }
{
    let mut rest = replaced;
    while let Some(last) = rest.pop() {
        restore(map, last);
    }
}

// Neither a removal nor a new value at a name that is there takes memory.
fn restore<T: Drop>(map: &mut BTreeMap<String, T>, replaced: Replaced<T>)
    ensures { map.new.entries ≡ put_back replaced map.old.entries }
{
    let Replaced { name, value } = replaced;
    match value {
        Some(value) => set_value(map, &name, value),
        None => drop(map.remove(&name)),
    }
}

fn set_value<T: Drop>(map: &mut BTreeMap<String, T>, name: &String, value: T)
    ensures { map.new.entries ≡ value_set (is_at (string_cmp name.now)) map.old.entries value }
{
    if let Some(place) = map.get_mut(name) {
        *place = value;
    }
}
