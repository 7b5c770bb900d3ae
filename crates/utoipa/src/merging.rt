//! Merging documents into one.
ghost use Rattle.std.specs.Prelude.{◌≡◌, ◌∷◌, [], ◌↔◌, ◌||◌, false, true, Ok, IfOk, IfErr, IsErrOf, OnErr, OnOk};
ghost use Rattle.utoipa_base.specs.Views.{option_of};
ghost use Rattle.utoipa_components.specs.Components.{components_doc};
ghost use Rattle.utoipa_components.specs.Filled.{AreComponentsInOrder, GoBack};
ghost use Rattle.utoipa_merging.specs.Merged.{AreComponentsMerged, ArePathsInOrder, ArePathsMerged, IsInKeyOrder, IsMerged};
ghost use Rattle.utoipa_paths.specs.Paths.{paths_doc};
ghost use Rattle.utoipa.specs.Merging.{lists_have_fraction};
ghost use Rattle.utoipa.specs.OpenApi.{openapi_doc};
ghost use Rattle.utoipa.specs.declared.merging.MergeFault.TheVariants.{Memory, Fraction, Composer};

use crate::document::OpenApi;
use std::alloc::{AllocError, AllocFailed, Global};
use thiserror::Error;
use utoipa_base::{beside, option_has_fraction};
use utoipa_components::{Components, FilledComponents, fill_components, take_back_components};
use utoipa_leaf::server::Server;
use utoipa_leaf::tag::Tag;
use utoipa_merging_parts::{make_room, take_entries};
use utoipa_paths::Paths;
use utoipa_security::security::SecurityRequirement;

/// Why documents were not merged.
#[derive(Clone, Copy, Debug, Drop, Error, PartialEq, Eq)]
pub enum MergeFault {
    /// A request for memory was refused.
    #[error("out of memory")]
    Memory,
    /// A server or a tag of one of the documents holds a fraction: a number that is neither an `i64` nor a `u64`. Whether two of these are
    /// equal is not decided.
    #[error("a number in a server or a tag is neither an i64 nor a u64")]
    Fraction,
    /// The composer of paths refused a path.
    #[error("a path was refused")]
    Composer,
}

impl From<AllocError> for MergeFault {
    ghost from_gives = { λ _ fault. fault ≡ Memory };

    fn from(_error: AllocError) -> MergeFault {
        MergeFault::Memory
    }
}

impl<T: Drop> From<AllocFailed<T>> for MergeFault {
    ghost from_gives = { λ _ fault. fault ≡ Memory };

    fn from(_error: AllocFailed<T>) -> MergeFault {
        MergeFault::Memory
    }
}

impl OpenApi {
    /// Merges another document into this one. This document's version, info, webhooks, external docs, dialect, `$schema`, `$self` and
    /// extensions stay. Of the other's servers, security requirements and tags come those that equal none here. A new path comes whole,
    /// and an operation where the path has none at its method, or its additional name. Extensions of the paths win where both have the
    /// name. A component comes where none of its name is in its map; the extensions of the components stay.
    ///
    /// Fails with `Fraction` exactly where a server or a tag of one of the two holds a fraction, before anything else and without
    /// memory, and with `Memory` where memory runs out. Then this document is what it was.
    pub fn merge(&mut self, alloc: Global, other: OpenApi) -> Result<(), MergeFault>
        ensures fraction { IsErrOf result Fraction ↔ ((lists_have_fraction (openapi_doc self.old)
            || lists_have_fraction (openapi_doc other)) ≡ true) }
        ensures composer { IsErrOf result Composer → ⊥ }
        ensures ok { OnOk result (IsMerged (openapi_doc self.old ∷ openapi_doc other ∷ []) (openapi_doc self.new)) }
        ensures err { OnErr result (openapi_doc self.new ≡ openapi_doc self.old) }
        ensures ordered { IsInKeyOrder (openapi_doc self.old) → IsInKeyOrder (openapi_doc self.new) }
    {
        if self.lists_have_fraction() || other.lists_have_fraction() {
            drop(other);
            return Err(MergeFault::Fraction);
        }
        other.in_key_order();
        self.merge_plain(alloc, other)?;
        Ok(())
    }

    /// This document with another merged into it, as [`OpenApi::merge`] does.
    pub fn merge_from(self, alloc: Global, other: OpenApi) -> Result<OpenApi, MergeFault>
        ensures fraction { IsErrOf result Fraction ↔ ((lists_have_fraction (openapi_doc self)
            || lists_have_fraction (openapi_doc other)) ≡ true) }
        ensures composer { IsErrOf result Composer → ⊥ }
        ensures ok { IfOk result (λ merged. IsMerged (openapi_doc self ∷ openapi_doc other ∷ [])
            (openapi_doc merged)) }
        ensures ordered { IfOk result (λ merged. IsInKeyOrder (openapi_doc self) → IsInKeyOrder (openapi_doc merged)) }
    {
        let mut merged = self;
        let done = merged.merge(alloc, other);
        let (merged, ()) = beside(merged, done)?;
        Ok(merged)
    }

    /// Whether a server or a tag holds a fraction.
    pub(crate) fn lists_have_fraction(&self) -> bool
        ensures { result ≡ lists_have_fraction (openapi_doc self.now) }
    {
        option_has_fraction(&self.servers) || option_has_fraction(&self.tags)
    }

    /// Merges another document into this one, where no server and no tag of either holds a fraction.
    pub(crate) fn merge_plain(&mut self, alloc: Global, other: OpenApi) -> Result<(), AllocError>
        requires plain { lists_have_fraction (openapi_doc self.old) ≡ false }
        requires other_plain { lists_have_fraction (openapi_doc other) ≡ false }
        ensures ok { OnOk result (IsMerged (openapi_doc self.old ∷ openapi_doc other ∷ []) (openapi_doc self.new)) }
        ensures err { OnErr result (openapi_doc self.new ≡ openapi_doc self.old) }
        ensures ordered { IsInKeyOrder (openapi_doc self.old) → IsInKeyOrder (openapi_doc other)
            → IsInKeyOrder (openapi_doc self.new) }
    {
        let (servers, security, tags, maps) = parts_of(other);
        let (maps, servers) = beside(maps, make_room(&mut self.servers, alloc, servers))?;
        let (maps, security) = beside(maps, make_room(&mut self.security, alloc, security))?;
        let (maps, tags) = beside(maps, make_room(&mut self.tags, alloc, tags))?;
        merge_maps(&mut self.components, &mut self.paths, alloc, maps)?;
        take_entries(&mut self.servers, servers);
        take_entries(&mut self.security, security);
        take_entries(&mut self.tags, tags);
        Ok(())
    }
}

/// The components and the paths of a document.
type Maps = (Option<Components>, Paths);

/// What is merged of a document: its servers, security requirements, tags and maps. The rest is given up.
fn parts_of(
    document: OpenApi,
) -> (
    Option<Vec<Server>>,
    Option<Vec<SecurityRequirement>>,
    Option<Vec<Tag>>,
    Maps,
)
    ensures { result ≡ (document.servers, document.security, document.tags, (document.components, document.paths)) }
{
    let OpenApi {
        servers,
        security,
        tags,
        components,
        paths,
        ..
    } = document;
    (servers, security, tags, (components, paths))
}

/// Merges components and paths, both or none.
fn merge_maps(
    components: &mut Option<Components>,
    paths: &mut Paths,
    alloc: Global,
    later: Maps,
) -> Result<(), AllocError>
    ensures components { OnOk result (AreComponentsMerged
        (option_of components_doc components.old ∷ option_of components_doc later.0 ∷ [])
        (option_of components_doc components.new)) }
    ensures paths { OnOk result (ArePathsMerged (paths_doc paths.old ∷ paths_doc later.1 ∷ []) (paths_doc paths.new)) }
    ensures components_err { OnErr result (option_of components_doc components.new
        ≡ option_of components_doc components.old) }
    ensures paths_err { OnErr result (paths_doc paths.new ≡ paths_doc paths.old) }
    ensures components_ordered { AreComponentsInOrder components.old → AreComponentsInOrder later.0
        → AreComponentsInOrder components.new }
    ensures paths_ordered { ArePathsInOrder (paths_doc paths.old) → ArePathsInOrder (paths_doc later.1)
        → ArePathsInOrder (paths_doc paths.new) }
{
    let (later_components, later_paths) = later;
    let filled = fill_components(components, alloc, later_components);
    let (later_paths, filled) = beside(later_paths, filled)?;
    let merged = paths.merge(alloc, later_paths);
    keep_if_merged(components, filled, &merged);
    merged
}

/// Takes back what components took where the paths were not merged.
fn keep_if_merged(
    components: &mut Option<Components>,
    filled: FilledComponents,
    paths: &Result<(), AllocError>,
)
    ensures kept { OnOk paths.now (components.new ≡ components.old) }
    ensures taken_back { OnErr paths.now ((before : _) → GoBack filled components.old before
        → option_of components_doc components.new ≡ option_of components_doc before) }
{
    if paths.is_err() {
        take_back_components(components, filled);
    }
}

/// What was made, or the fault of memory.
pub(crate) fn or_memory<T: Drop>(made: Result<T, AllocError>) -> Result<T, MergeFault>
    ensures ok { IfOk result (λ value. made ≡ Ok value) }
    ensures err { IfErr result (λ fault. fault ≡ Memory) }
{
    match made {
        Ok(value) => Ok(value),
        Err(_) => Err(MergeFault::Memory),
    }
}

/// A document with another merged into it, where no server and no tag of either holds a fraction. Fails where memory runs out.
pub(crate) fn merged_with(
    document: OpenApi,
    alloc: Global,
    other: OpenApi,
) -> Result<OpenApi, AllocError>
    requires plain { lists_have_fraction (openapi_doc document) ≡ false }
    requires other_plain { lists_have_fraction (openapi_doc other) ≡ false }
    ensures ok { IfOk result (λ merged. IsMerged (openapi_doc document ∷ openapi_doc other ∷ [])
        (openapi_doc merged)) }
    ensures ordered { IfOk result (λ merged. IsInKeyOrder (openapi_doc document) → IsInKeyOrder (openapi_doc other)
        → IsInKeyOrder (openapi_doc merged)) }
{
    let mut document = document;
    let merged = document.merge_plain(alloc, other);
    let (document, ()) = beside(document, merged)?;
    Ok(document)
}
