//! Maps that keep the order in which their entries were put.
ghost use Rattle.std.specs.Prelude.{◌≡◌, IfOk, string_cmp};
ghost use Rattle.std.specs.BTreeMap.{IsOrdered};
ghost use Rattle.std.specs.Map.{keys_of};
ghost use Rattle.indexmap.specs.IndexMap.{IsEmpty, hasher_of};
ghost use Rattle.serde_json.specs.Data.{no_members};
ghost use Rattle.utoipa_base.specs.Kinds.{ordered_map_of};
ghost use Rattle.utoipa_base.specs.NameHashes.{salt_of_names};
ghost use Rattle.utoipa_base.specs.OfKind.{ordered_map_of_kind};
ghost use Rattle.utoipa_base.specs.Views.{ordered_map_of_docs, shown_members, pairs_of};
ghost use Rattle.utoipa_base.specs.Docs.{entries_of_list};
ghost use Rattle.utoipa_base.specs.Writing.{put_written};

use crate::emit::{Documented, Emit};
use crate::empty::Empty;
use crate::fault::ReadFault;
use crate::name_hasher::NameHasher;
use crate::readings::Readings;
use crate::sink::JsonSink;
use crate::tree::{Place, Tree};
use crate::unread::Unread;
use indexmap::IndexMap;
use json::{Reader, Token};
use serde_json::Value;
use std::alloc::{AllocError, Global};
use std::collections::BTreeMap;
use std::hash::BuildHasher;

/// A map from names that keeps the order of its entries. `IndexMap::with_hasher(alloc, NameHasher::new())` is an empty one.
pub type OrderedMap<T> = IndexMap<String, T, NameHasher>;

/// An object as a map from the names of its members, which keeps the order of its entries while it is built. It is read and
/// written in the order of the names. Reading salts its hashes with the names, and a copy keeps the salt.
#[tactic(auto, using(crate::proofs::OrderedMaps::by_ordered_maps))]
impl<T: Tree> Tree for OrderedMap<T> {
    ghost is_of_kind = { ordered_map_of_kind T.doc T.kind T.is_of_kind };

    fn read_plain(
        alloc: Global,
        tree: &Value,
        readings: &mut Readings,
    ) -> Result<OrderedMap<T>, ReadFault> {
        let Some(members) = tree.as_object() else {
            return Err(ReadFault::Kind("map"));
        };
        let mut map = with_names(alloc, members);
        for (key, member) in members.iter() {
            let name = key.clone()?;
            let value = T::read_plain(alloc, member, readings)?;
            drop(map.insert(name, value)?);
        }
        Ok(map)
    }

    fn from_tokens(
        alloc: Global,
        first: Token<'_>,
        reader: &mut Reader<'_>,
        depth: usize,
        readings: &mut Readings,
    ) -> Result<OrderedMap<T>, Unread> {
        let entries: BTreeMap<String, T> = BTreeMap::from_tokens(
            alloc, first, reader, depth, readings,
        )?;
        Ok(in_order_of_names(alloc, entries)?)
    }

    fn try_clone(&self, alloc: Global) -> Result<OrderedMap<T>, AllocError> {
        let mut map = under_hasher_of(alloc, self);
        for (key, member) in self.iter() {
            let name = key.clone()?;
            let value = member.try_clone(alloc)?;
            drop(map.insert(name, value)?);
        }
        Ok(map)
    }
}

impl<T: Tree> Place for OrderedMap<T> {
    fn is_schema() -> bool {
        false
    }
}

/// The map of no entries.
#[tactic(auto, using(crate::proofs::Empties::empties))]
impl<T: Tree> Empty for OrderedMap<T> {
    fn empty(alloc: Global) -> OrderedMap<T> {
        IndexMap::with_hasher(alloc, NameHasher::new())
    }
}

impl<T: Documented, H: BuildHasher + Drop> Documented for IndexMap<String, T, H> {
    ghost kind = { ordered_map_of T.kind };

    ghost doc = { ordered_map_of_docs T.doc };
}

/// An object, in the order of the names. Fails also where memory for that order runs out.
#[tactic(auto, using(crate::proofs::OrderedMaps::by_ordered_maps))]
impl<T: Emit, H: BuildHasher + Drop> Emit for IndexMap<String, T, H> {
    fn emit<S: JsonSink>(&self, out: &mut S) -> Result<(), AllocError> {
        let sorted = sorted_by_name(self)?;
        out.begin_object()?;
        for (name, member) in sorted.iter() {
            out.key(name)?;
            member.emit(out)?;
        }
        out.end_object()
    }
}

// A map without entries, under hashes that are salted with these names.
fn with_names<T, V>(alloc: Global, named: &BTreeMap<String, V>) -> OrderedMap<T>
    ensures empty { IsEmpty result }
    ensures salt { (hasher_of result).salt ≡ salt_of_names (keys_of named.now.entries) }
{
    IndexMap::with_hasher(alloc, NameHasher::from_names(named))
}

// A map without entries, under the hashes of another.
fn under_hasher_of<T>(alloc: Global, other: &OrderedMap<T>) -> OrderedMap<T>
    ensures empty { IsEmpty result }
    ensures hasher { hasher_of result ≡ hasher_of other.now }
{
    IndexMap::with_hasher(alloc, *other.hasher())
}

// The same entries, under hashes that are salted with their names. Fails where memory runs out.
fn in_order_of_names<T: Tree>(
    alloc: Global,
    entries: BTreeMap<String, T>,
) -> Result<OrderedMap<T>, AllocError>
    ensures same { IfOk result (λ map. map.entries ≡ entries.entries) }
    ensures salt { IfOk result (λ map. (hasher_of map).salt ≡ salt_of_names (keys_of entries.entries)) }
    ensures ordered { IsOrdered string_cmp entries }
{
    let mut map = with_names(alloc, &entries);
    for (name, value) in entries {
        drop(map.insert(name, value)?);
    }
    Ok(map)
}

/// The entries of a map in the order of their names. Fails where memory runs out.
fn sorted_by_name<'a, T: Documented, H: BuildHasher>(
    map: &'a IndexMap<String, T, H>,
) -> Result<BTreeMap<&'a str, &'a T>, AllocError>
    ensures { IfOk result (λ sorted. shown_members T.doc sorted.entries
        ≡ put_written (entries_of_list (pairs_of T.doc map.now.entries)) no_members) }
{
    let mut sorted = BTreeMap::new(*map.allocator());
    for (key, member) in map.iter() {
        sorted.insert(key.as_str(), member)?;
    }
    Ok(sorted)
}
