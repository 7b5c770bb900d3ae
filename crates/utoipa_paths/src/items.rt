//! Path items that are put at their paths, where others may stand.
ghost use Rattle.std.specs.Prelude.{◌≡◌, ◌∷◌, [], IfOk, OnOk, OnErr, option_copied, string_bytes};
ghost use Rattle.utoipa_base.specs.Views.{map_of_docs};
ghost use Rattle.utoipa_merging.specs.Merged.{AreItemsMerged};
ghost use Rattle.utoipa_path.specs.Docs.{path_item_doc};
ghost use Rattle.utoipa_paths.specs.Items.{IsMergedWith, IsItemPut, IsPutUnder, AreMergedOver, IsItemInOrder, IsInOrderIfAny, AreItemsInOrder};

use crate::paths::PathsMap;
use std::alloc::{AllocError, Global};
use std::collections::BTreeMap;
use utoipa_base::{Tree, put_all};
use utoipa_path::PathItem;

/// Puts an item at a path; where one stands, fills in the operations that it lacks. Fails where memory runs out, and then gives up
/// the item that was to be put.
pub(crate) fn put_item(
    items: &mut PathsMap<String, PathItem>,
    alloc: Global,
    path: String,
    item: PathItem,
) -> Result<(), AllocError>
    ensures ok { OnOk result (IsItemPut (string_bytes path) item items.old items.new) }
    ensures ordered { AreItemsInOrder items.old → IsItemInOrder item → AreItemsInOrder items.new }
{
    match items.get_mut(path.as_str()) {
        Some(standing) => standing.merge_operations(alloc, item),
        None => {
            drop(items.insert(path, item)?);
            Ok(())
        }
    }
}

/// Puts a value into a map under a name, in place of an earlier one. Fails where memory runs out, and then gives it up, and the map is
/// what it was.
pub(crate) fn put_under<T: Drop>(
    map: &mut BTreeMap<String, T>,
    alloc: Global,
    name: &str,
    value: T,
) -> Result<(), AllocError>
    ensures ok { OnOk result (IsPutUnder name.now value map.old map.new) }
    ensures err { OnErr result (map.new.entries ≡ map.old.entries) }
{
    drop(map.insert(String::from_str(alloc, name)?, value)?);
    Ok(())
}

/// Puts each item of a map at its path, as [`put_item`] does. Fails where memory runs out, and then some items were put.
pub(crate) fn put_items(
    items: &mut PathsMap<String, PathItem>,
    alloc: Global,
    later: PathsMap<String, PathItem>,
) -> Result<(), AllocError>
    ensures ok { OnOk result (AreItemsMerged (map_of_docs path_item_doc items.old ∷ map_of_docs path_item_doc later ∷ []) (map_of_docs path_item_doc items.new)) }
    ensures ordered { AreItemsInOrder items.old → AreItemsInOrder later → AreItemsInOrder items.new }
{
    for (path, item) in later {
        put_item(items, alloc, path, item)?;
    }
    Ok(())
}

/// Puts all items of a map at their paths, as [`put_item`] does, or none of them. Fails where memory runs out, and then nothing has
/// changed, and the items that were to be put are given up.
pub(crate) fn merge_items(
    items: &mut PathsMap<String, PathItem>,
    alloc: Global,
    later: PathsMap<String, PathItem>,
) -> Result<(), AllocError>
    ensures ok { OnOk result (AreItemsMerged (map_of_docs path_item_doc items.old ∷ map_of_docs path_item_doc later ∷ []) (map_of_docs path_item_doc items.new)) }
    ensures err { OnErr result (items.new.entries ≡ items.old.entries) }
    ensures ordered { AreItemsInOrder items.old → AreItemsInOrder later → AreItemsInOrder items.new }
{
    let merged = merged_items(items, alloc, later)?;
    put_all(items, alloc, merged)
}

/// What stands at each path of a map once its items are put over others, which stay as they are.
fn merged_items(
    items: &PathsMap<String, PathItem>,
    alloc: Global,
    later: PathsMap<String, PathItem>,
) -> Result<PathsMap<String, PathItem>, AllocError>
    ensures merged { IfOk result (λ merged. AreMergedOver items.now later merged) }
    ensures ordered { IfOk result (λ merged. AreItemsInOrder items.now → AreItemsInOrder later
        → AreItemsInOrder merged) }
{
    let mut merged = BTreeMap::new(alloc);
    for (path, item) in later {
        let put = merged_item(items.get(path.as_str()), alloc, item)?;
        drop(merged.insert(path, put)?);
    }
    Ok(merged)
}

/// The item that stands at a path once one is put there, where another may stand, which stays as it is.
fn merged_item(
    standing: Option<&PathItem>,
    alloc: Global,
    item: PathItem,
) -> Result<PathItem, AllocError>
    ensures merged { IfOk result (λ merged. IsMergedWith (option_copied standing.entry) item merged) }
    ensures ordered { IfOk result (λ merged. IsInOrderIfAny (option_copied standing.entry) → IsItemInOrder item
        → IsItemInOrder merged) }
{
    match standing {
        Some(standing) => {
            let mut merged = standing.try_clone(alloc)?;
            merged.merge_operations(alloc, item)?;
            Ok(merged)
        }
        None => Ok(item),
    }
}
