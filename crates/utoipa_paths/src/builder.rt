//! Building paths.
ghost use Rattle.std.specs.Prelude.{◌≡◌, IfOk, string_bytes};
ghost use Rattle.utoipa_merging.specs.Merged.{ArePathsInOrder, IsInOrder};
ghost use Rattle.utoipa_path.specs.declared.types.PathItem.{PathItem};
ghost use Rattle.utoipa_paths.specs.Items.{IsItemOf, IsItemPut, IsItemInOrder};
ghost use Rattle.utoipa_paths.specs.Paths.{paths_doc, built_paths, IsEmptyPaths};

use crate::items::put_item;
use crate::paths::Paths;
use crate::traits::{Path, item_from};
use std::alloc::{AllocError, Global};
use utoipa_base::Extensions;
use utoipa_path::PathItem;

/// Builds [`Paths`].
#[derive(Debug, Drop)]
pub struct PathsBuilder {
    paths: Paths,
}

impl PathsBuilder {
    /// Begins with no paths and no extensions. Takes no memory.
    pub fn new(alloc: Global) -> PathsBuilder
        ensures { IsEmptyPaths (built_paths result) }
    {
        PathsBuilder {
            paths: Paths::new(alloc),
        }
    }

    /// Puts an item at a path. Where an item stands there, the operations of the new one that it lacks are filled in, and all else of it
    /// stays.
    ///
    /// Fails where memory runs out, and then gives up what was built.
    pub fn path(
        mut self,
        alloc: Global,
        path: String,
        item: PathItem,
    ) -> Result<PathsBuilder, AllocError>
        ensures put { IfOk result
            (λ b. IsItemPut (string_bytes path) item (built_paths self).paths (built_paths b).paths) }
        ensures extensions { IfOk result (λ b. (built_paths b).extensions ≡ (built_paths self).extensions) }
        ensures ordered { IfOk result (λ b. ArePathsInOrder (paths_doc (built_paths self)) → IsItemInOrder item
            → ArePathsInOrder (paths_doc (built_paths b))) }
    {
        put_item(&mut self.paths.paths, alloc, path, item)?;
        Ok(self)
    }

    /// Puts a new item at the path of a type, with its operation under each of its methods; an item without operations where it has no
    /// methods. Where an item stands there, the operations that it lacks are filled in, as [`PathsBuilder::path`] does.
    ///
    /// Fails where memory runs out, and then gives up what was built.
    pub fn path_from<P: Path>(self, alloc: Global) -> Result<PathsBuilder, AllocError>
        ensures put { IfOk result (λ b. (item : PathItem) × IsItemOf P.listed P.IsDescribed item
            × IsItemPut P.named item (built_paths self).paths (built_paths b).paths) }
        ensures extensions { IfOk result (λ b. (built_paths b).extensions ≡ (built_paths self).extensions) }
        ensures ordered { IfOk result (λ b. ArePathsInOrder (paths_doc (built_paths self))
            → ArePathsInOrder (paths_doc (built_paths b))) }
    {
        let path = P::path(alloc)?;
        let item = item_from::<P>(alloc)?;
        self.path(alloc, path, item)
    }

    /// Sets the specification extensions.
    pub fn extensions(mut self, extensions: Option<Extensions>) -> PathsBuilder
        ensures { built_paths result ≡ record (built_paths self) { extensions = extensions } }
    {
        self.paths.extensions = extensions;
        self
    }

    /// The paths that were built.
    pub fn build(self) -> Paths
        ensures { result ≡ built_paths self }
    {
        self.paths
    }
}

impl From<Paths> for PathsBuilder {
    ghost from_gives = { λ paths builder. built_paths builder ≡ paths };

    fn from(paths: Paths) -> PathsBuilder {
        PathsBuilder { paths }
    }
}

impl From<PathsBuilder> for Paths {
    ghost from_gives = { λ builder paths. paths ≡ built_paths builder };

    fn from(builder: PathsBuilder) -> Paths {
        builder.build()
    }
}
