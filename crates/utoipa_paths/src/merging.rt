//! Merging paths, of which none is needed afterwards.
ghost use Rattle.std.specs.Prelude.{◌∷◌, [], IfOk, map};
ghost use Rattle.std.specs.List.{AllByRecursion};
ghost use Rattle.utoipa_merging.specs.Merged.{ArePathsMerged, ArePathsInOrder};
ghost use Rattle.utoipa_paths.specs.Paths.{paths_doc, AreExtensionsMerged, AreExtensionsInOrder};

use crate::items::put_items;
use crate::paths::Paths;
use std::alloc::{AllocError, Global};
use utoipa_base::Extensions;

/// The paths of all values in one: at each path the item of the first that has it, with the operations that it lacks from the first
/// that has one; and each extension of the last that has its name. Of no values these are no paths. Nothing is copied.
///
/// Fails where memory runs out.
pub fn merge_paths(alloc: Global, all: Vec<Paths>) -> Result<Paths, AllocError>
    ensures merged { IfOk result (λ merged. ArePathsMerged (map paths_doc all.items) (paths_doc merged)) }
    ensures ordered { IfOk result (λ merged. AllByRecursion (λ paths. ArePathsInOrder (paths_doc paths)) all.items
        → ArePathsInOrder (paths_doc merged)) }
{
    let mut merged = Paths::new(alloc);
    for paths in all {
        merged = with_paths(merged, alloc, paths)?;
    }
    Ok(merged)
}

/// The paths with those of another value. Fails where memory runs out.
fn with_paths(earlier: Paths, alloc: Global, later: Paths) -> Result<Paths, AllocError>
    ensures merged { IfOk result
        (λ merged. ArePathsMerged (paths_doc earlier ∷ paths_doc later ∷ []) (paths_doc merged)) }
    ensures ordered { IfOk result (λ merged. ArePathsInOrder (paths_doc earlier) → ArePathsInOrder (paths_doc later)
        → ArePathsInOrder (paths_doc merged)) }
{
    let mut earlier = earlier;
    put_items(&mut earlier.paths, alloc, later.paths)?;
    Ok(Paths {
        paths: earlier.paths,
        extensions: merged_extensions(alloc, earlier.extensions, later.extensions)?,
    })
}

/// The extensions of both values, of which the later wins where both have the name; there are some where either has them, also where
/// these are empty. Fails where memory runs out.
pub(crate) fn merged_extensions(
    alloc: Global,
    earlier: Option<Extensions>,
    later: Option<Extensions>,
) -> Result<Option<Extensions>, AllocError>
    ensures merged { IfOk result (λ merged. AreExtensionsMerged earlier later merged) }
    ensures ordered { IfOk result (λ merged. AreExtensionsInOrder earlier → AreExtensionsInOrder later
        → AreExtensionsInOrder merged) }
{
    match (earlier, later) {
        (Some(earlier), Some(later)) => {
            let mut merged = earlier;
            merged.merge(alloc, later)?;
            Ok(Some(merged))
        }
        (None, later) => Ok(later),
        (earlier, None) => Ok(earlier),
    }
}
