//! The paths of an API.
ghost use Rattle.std.specs.Prelude.{◌≡◌, ◌∷◌, [], None, OnOk, OnErr, option_map};
ghost use Rattle.std.specs.BTreeMap.{get_by_text};
ghost use Rattle.std.specs.Option.{option_and_then};
ghost use Rattle.utoipa_base.specs.Tables.{paths as paths_kind};
ghost use Rattle.utoipa_merging.specs.Merged.{ArePathsMerged, ArePathsInOrder};
ghost use Rattle.utoipa_path.specs.Docs.{operation_doc};
ghost use Rattle.utoipa_path.specs.Methods.{operation_at};
ghost use Rattle.utoipa_path.specs.declared.types.PathItem.{out-PathItem};
ghost use Rattle.utoipa_paths.specs.Paths.{paths_doc, paths_of_kind, built_paths, IsEmptyPaths, IsOperationAdded};

use crate::builder::PathsBuilder;
use crate::items::{merge_items, put_under};
use crate::merging::merged_extensions;
use json::{Reader, Token};
use serde_json::Value;
use std::alloc::{AllocError, Global};
use std::collections::BTreeMap;
use utoipa_base::{
    Documented, Emit, Extensions, JsonSink, Place, ReadFault, Readings, Tree, Unread,
    clone_extensions, emit_entries, entries_from_tokens, read_entries,
};
use utoipa_leaf::path::HttpMethod;
use utoipa_path::methods::take_operations;
use utoipa_path::{Operation, PathItem};

/// A map by paths, or by the names of webhooks.
pub type PathsMap<K, V> = BTreeMap<K, V>;

/// A Paths Object (OpenAPI 3.1, section 4.8.8): the paths of an API. Each member is a path with its item, also one that begins
/// with no `/`, but for those whose names begin `x-`, which are extensions.
#[derive(Debug, Drop)]
pub struct Paths {
    /// The path items by their paths.
    pub paths: PathsMap<String, PathItem>,
    /// Specification extensions.
    pub extensions: Option<Extensions>,
}

impl Paths {
    /// No paths and no extensions. Takes no memory.
    pub fn new(alloc: Global) -> Paths
        ensures { IsEmptyPaths result }
    {
        Paths {
            paths: BTreeMap::new(alloc),
            extensions: None,
        }
    }

    /// A builder that begins with no paths. Takes no memory.
    pub fn builder(alloc: Global) -> PathsBuilder
        ensures { IsEmptyPaths (built_paths result) }
    {
        PathsBuilder::new(alloc)
    }

    /// The item at a path.
    pub fn get_path_item(&self, path: &str) -> Option<&PathItem>
        ensures { option_map (λ item. item.now) result ≡ get_by_text self.now.paths path.now }
    {
        self.paths.get(path)
    }

    /// The operation of a method at a path. Only the methods of [`HttpMethod`] can be asked for.
    pub fn get_path_operation(&self, path: &str, method: HttpMethod) -> Option<&Operation>
        ensures { option_map (λ operation. operation.now) result
            ≡ option_and_then (λ item. operation_at method (out-PathItem item)) (get_by_text self.now.paths path.now) }
    {
        match self.get_path_item(path) {
            Some(item) => item.operation(method),
            None => None,
        }
    }

    /// Puts a copy of an operation at each of some methods of a path, in place of earlier ones. A path that is new gets an item, also
    /// where no method is listed. All else stays as it is.
    ///
    /// Fails where memory runs out, and then nothing has changed.
    pub fn add_path_operation(
        &mut self,
        alloc: Global,
        path: &str,
        methods: Vec<HttpMethod>,
        operation: Operation,
    ) -> Result<(), AllocError>
        ensures ok { OnOk result (IsOperationAdded path.now methods.items (operation_doc operation) self.old self.new) }
        ensures err { OnErr result (paths_doc self.new ≡ paths_doc self.old) }
        ensures ordered { ArePathsInOrder (paths_doc self.old) → ArePathsInOrder (paths_doc self.new) }
    {
        let item = PathItem::from_http_methods(alloc, methods, operation)?;
        match self.paths.get_mut(path) {
            Some(standing) => {
                take_operations(standing, alloc, item);
                Ok(())
            }
            None => put_under(&mut self.paths, alloc, path, item),
        }
    }

    /// Takes the paths of another value: the item of each new path whole, and for a path that both have the operations that are
    /// missing here. Takes its extensions too, which win where both have the name.
    ///
    /// Fails where memory runs out, and then nothing has changed.
    pub fn merge(&mut self, alloc: Global, other: Paths) -> Result<(), AllocError>
        ensures ok { OnOk result (ArePathsMerged (paths_doc self.old ∷ paths_doc other ∷ []) (paths_doc self.new)) }
        ensures err { OnErr result (paths_doc self.new ≡ paths_doc self.old) }
        ensures ordered { ArePathsInOrder (paths_doc self.old) → ArePathsInOrder (paths_doc other)
            → ArePathsInOrder (paths_doc self.new) }
    {
        let Paths { paths, extensions } = other;
        if extensions.is_none() {
            return merge_items(&mut self.paths, alloc, paths);
        }
        let standing = clone_extensions(alloc, &self.extensions)?;
        let extensions = merged_extensions(alloc, standing, extensions)?;
        merge_items(&mut self.paths, alloc, paths)?;
        self.extensions = extensions;
        Ok(())
    }
}

impl Documented for Paths {
    ghost kind = { paths_kind };

    ghost doc = { paths_doc };
}

/// Paths, whose members are path items but for the extensions.
impl Emit for Paths {
    fn emit<S: JsonSink>(&self, out: &mut S) -> Result<(), AllocError> {
        emit_entries(out, &self.paths, &self.extensions)
    }
}

/// Paths, whose members are path items but for the extensions.
impl Tree for Paths {
    ghost is_of_kind = { paths_of_kind };

    fn read_plain(
        alloc: Global,
        tree: &Value,
        readings: &mut Readings,
    ) -> Result<Paths, ReadFault> {
        let (paths, extensions) = read_entries(alloc, tree, "Paths", readings)?;
        Ok(Paths { paths, extensions })
    }

    fn from_tokens(
        alloc: Global,
        first: Token<'_>,
        reader: &mut Reader<'_>,
        depth: usize,
        readings: &mut Readings,
    ) -> Result<Paths, Unread> {
        let (paths, extensions) = entries_from_tokens(alloc, first, reader, depth, readings)?;
        Ok(Paths { paths, extensions })
    }

    fn try_clone(&self, alloc: Global) -> Result<Paths, AllocError> {
        Ok(Paths {
            paths: self.paths.try_clone(alloc)?,
            extensions: clone_extensions(alloc, &self.extensions)?,
        })
    }
}

impl Place for Paths {
    fn is_schema() -> bool {
        false
    }
}
