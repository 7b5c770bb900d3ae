//! Nesting a document into another: its paths are put where a composer of paths says, and the rest is merged.
ghost use Rattle.std.specs.Prelude.{◌≡◌, ◌∷◌, ◌++◌, ◌↔◌, ◌||◌, ℕ, List, true, map, IfOk, IsErrOf, OnOk, string_bytes};
ghost use Rattle.std.specs.Map.{keys_of};
ghost use Rattle.utoipa_base.specs.Views.{map_of_docs};
ghost use Rattle.utoipa_merging.specs.Merged.{IsInKeyOrder};
ghost use Rattle.utoipa_merging.specs.Nested.{IsNested};
ghost use Rattle.utoipa_merging.specs.Slots.{entries_in, paths_of};
ghost use Rattle.utoipa_path.specs.Docs.{path_item_doc};
ghost use Rattle.utoipa_paths.specs.Items.{AreItemsInOrder};
ghost use Rattle.utoipa.specs.Merging.{lists_have_fraction};
ghost use Rattle.utoipa.specs.Nesting.{MayAnswerEach, MayRefuseOne, AreMounted, ArePathsMounted};
ghost use Rattle.utoipa.specs.OpenApi.{openapi_doc};
ghost use Rattle.utoipa.specs.declared.merging.MergeFault.TheVariants.{Memory, Fraction, Composer};

use crate::document::OpenApi;
use crate::merging::{MergeFault, merged_with, or_memory};
use std::alloc::{AllocError, Global};
use std::mem;
use utoipa_base::beside;
use utoipa_path::PathItem;
use utoipa_paths::{Paths, PathsMap};

impl OpenApi {
    /// This document with another nested into it: each path of the other, behind the base, has the other's item whole, in place of one
    /// that stood there, and the rest is merged as [`OpenApi::merge`] does. The extensions of the other's paths are dropped.
    ///
    /// Fails with `Fraction` exactly where a server or a tag of one of the two holds a fraction, before anything else and without
    /// memory, and with `Memory` where memory runs out.
    pub fn nest(self, alloc: Global, base: &str, other: OpenApi) -> Result<OpenApi, MergeFault>
        ensures fraction { IsErrOf result Fraction ↔ ((lists_have_fraction (openapi_doc self)
            || lists_have_fraction (openapi_doc other)) ≡ true) }
        ensures composer { IsErrOf result Composer → ⊥ }
        ensures ok { IfOk result
            (λ nested. IsNested (map
            (λ path. base.now ++ path) (keys_of (entries_in (paths_of (openapi_doc other))))) (openapi_doc self)
            (openapi_doc other) (openapi_doc nested)) }
        ensures ordered { IfOk result (λ nested. IsInKeyOrder (openapi_doc self) → IsInKeyOrder (openapi_doc nested)) }
    {
        let behind = |base: &str, path: &str| joined(alloc, base, path);
        match self.nest_with_path_composer(alloc, base, other, behind) {
            Err(MergeFault::Composer) => Err(MergeFault::Memory),
            nested => nested,
        }
    }

    /// This document with another nested into it, as [`OpenApi::nest`] does, where a composer answers to the base and each path of the
    /// other, in the order of the paths, at which path its item is to stand. Of two paths with one answer the later stays.
    ///
    /// Fails with `Composer` where the composer refused a path, and else as [`OpenApi::nest`] does.
    pub fn nest_with_path_composer<F: Fn(&str, &str) -> Result<String, AllocError> + Drop>(
        self,
        alloc: Global,
        base: &str,
        other: OpenApi,
        composer: F,
    ) -> Result<OpenApi, MergeFault>
        requires { F.IsAlwaysCallable composer }
        ensures fraction { IsErrOf result Fraction ↔ ((lists_have_fraction (openapi_doc self)
            || lists_have_fraction (openapi_doc other)) ≡ true) }
        ensures composer { IsErrOf result Composer
            → MayRefuseOne F.Fn composer base.now (keys_of (entries_in (paths_of (openapi_doc other)))) }
        ensures ok { IfOk result (λ nested. (answers : List (List ℕ))
            × MayAnswerEach F.Fn composer base.now (keys_of (entries_in (paths_of (openapi_doc other)))) answers
            × IsNested answers (openapi_doc self) (openapi_doc other) (openapi_doc nested)) }
        ensures ordered { IfOk result (λ nested. IsInKeyOrder (openapi_doc self) → IsInKeyOrder (openapi_doc nested)) }
    {
        other.in_key_order();
        let mut document = self;
        let mut other = other;
        let mounted = mount_paths(&mut document, alloc, base, &mut other, &composer);
        let ((document, other), ()) = beside((document, other), mounted)?;
        or_memory(merged_with(document, alloc, other))
    }
}

/// Takes the paths of another document, and puts each of their items at the composer's answer to its path; their extensions are dropped.
/// Fails as [`OpenApi::nest_with_path_composer`] does, and then some items were put.
fn mount_paths<F: Fn(&str, &str) -> Result<String, AllocError>>(
    document: &mut OpenApi,
    alloc: Global,
    base: &str,
    other: &mut OpenApi,
    composer: &F,
) -> Result<(), MergeFault>
    requires { F.IsAlwaysCallable composer.now }
    ensures fraction { IsErrOf result Fraction ↔ ((lists_have_fraction (openapi_doc document.old)
        || lists_have_fraction (openapi_doc other.old)) ≡ true) }
    ensures composer { IsErrOf result Composer
        → MayRefuseOne F.Fn composer.now base.now (keys_of (entries_in (paths_of (openapi_doc other.old)))) }
    ensures ok { OnOk result ((answers : List (List ℕ))
        × MayAnswerEach F.Fn composer.now base.now (keys_of (entries_in (paths_of (openapi_doc other.old)))) answers
        × ArePathsMounted answers document.old document.new other.old other.new) }
    ensures ordered { OnOk result (AreItemsInOrder document.old.paths.paths → AreItemsInOrder other.old.paths.paths
        → AreItemsInOrder document.new.paths.paths) }
{
    if document.lists_have_fraction() || other.lists_have_fraction() {
        return Err(MergeFault::Fraction);
    }
    let nested = mem::replace(&mut other.paths, Paths::new(alloc));
    mount(&mut document.paths.paths, base, nested.paths, composer)
}

/// Puts each nested item at the composer's answer to its path.
fn mount<F: Fn(&str, &str) -> Result<String, AllocError>>(
    items: &mut PathsMap<String, PathItem>,
    base: &str,
    nested: PathsMap<String, PathItem>,
    composer: &F,
) -> Result<(), MergeFault>
    requires { F.IsAlwaysCallable composer.now }
    ensures fraction { IsErrOf result Fraction → ⊥ }
    ensures composer { IsErrOf result Composer
        → MayRefuseOne F.Fn composer.now base.now (keys_of (entries_in (map_of_docs path_item_doc nested))) }
    ensures ok { OnOk result ((answers : List (List ℕ))
        × MayAnswerEach F.Fn composer.now base.now (keys_of (entries_in (map_of_docs path_item_doc nested))) answers
        × AreMounted answers (map_of_docs path_item_doc nested) (map_of_docs path_item_doc items.old)
        (map_of_docs path_item_doc items.new)) }
    ensures ordered { AreItemsInOrder items.old → AreItemsInOrder nested → AreItemsInOrder items.new }
{
    for (path, item) in nested {
        let Ok(answer) = composer(base, path.as_str()) else {
            drop(item);
            return Err(MergeFault::Composer);
        };
        drop(items.insert(answer, item)?);
    }
    Ok(())
}

fn joined(alloc: Global, base: &str, path: &str) -> Result<String, AllocError>
    ensures { IfOk result (λ s. string_bytes s ≡ base.now ++ path.now) }
{
    let mut text = String::with_capacity(alloc, base.len() + path.len())?;
    text.push_str(base)?;
    text.push_str(path)?;
    Ok(text)
}
