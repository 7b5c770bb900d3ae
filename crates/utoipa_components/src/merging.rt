//! Components taken from other documents: in each map stands under a name the entry of the first document that has one.
ghost use Rattle.std.specs.Prelude.{◌≡◌, ◌∷◌, ◌<◌, [], None, Some, length, map, IfOk, OnErr, OnOk};
ghost use Rattle.std.specs.List.{AllByRecursion};
ghost use Rattle.utoipa_base.specs.Docs.{some_doc};
ghost use Rattle.utoipa_base.specs.Views.{option_of};
ghost use Rattle.utoipa_components.specs.Components.{components_doc};
ghost use Rattle.utoipa_components.specs.Filled.{maps_in, GoBack, EntriesGoBack, AreComponentsInOrder};
ghost use Rattle.utoipa_merging.specs.Merged.{AreComponentsMerged};

use crate::components::Components;
use std::alloc::{AllocError, Global};
use std::collections::BTreeMap;
use utoipa_base::{Extensions, RefOr, beside};
use utoipa_leaf::example::Example;
use utoipa_media::content::Content;
use utoipa_media::header::Header;
use utoipa_media::link::Link;
use utoipa_merging_parts::{Filling, filled, taken_back};
use utoipa_operation_parts::{Parameter, RequestBody, Response};
use utoipa_path::{Callback, PathItem};
use utoipa_schema::Schema;
use utoipa_security::security::SecurityScheme;

type Places<T> = BTreeMap<String, RefOr<T>>;

// The maps of components side by side, in the order of their fields.
type FirstMaps<R> = (
    Places<Schema>,
    (Places<Response>, (Places<Parameter>, (Places<Example>, R))),
);

type MiddleMaps<R> = (
    Places<RequestBody>,
    (Places<Header>, (Places<Link>, (Places<Callback>, R))),
);

type LastMaps = (
    BTreeMap<String, PathItem>,
    (Places<Content>, (Places<SecurityScheme>, ())),
);

type Maps = FirstMaps<MiddleMaps<LastMaps>>;

/// The names of what was put into each of the maps.
type FilledMaps = <Maps as Filling>::Filled;

/// What components took, so that it can be taken back.
#[derive(Drop)]
pub enum FilledComponents {
    /// Nothing.
    Nothing,
    /// The components whole, for there were none.
    Whole,
    /// The entries of these names, for each map.
    Entries(FilledMaps),
}

/// Takes the entries of later components whose names are not there yet, map by map. Where there are no components, the later are taken
/// without their extensions.
///
/// Fails where memory runs out, and then nothing has changed, and the later components are given up.
pub fn fill_components(
    own: &mut Option<Components>,
    alloc: Global,
    later: Option<Components>,
) -> Result<FilledComponents, AllocError>
    ensures merged { OnOk result (AreComponentsMerged
        (option_of components_doc own.old ∷ option_of components_doc later ∷ []) (option_of components_doc own.new)) }
    ensures noted { IfOk result (λ filled. GoBack filled own.new own.old) }
    ensures err { OnErr result (option_of components_doc own.new ≡ option_of components_doc own.old) }
    ensures ordered { AreComponentsInOrder own.old → AreComponentsInOrder later → AreComponentsInOrder own.new }
{
    let Some(later) = later else {
        return Ok(FilledComponents::Nothing);
    };
    let Some(standing) = own.take() else {
        drop(own.replace(without_extensions(later)));
        return Ok(FilledComponents::Whole);
    };
    let (standing, filled) = filled_with(standing, alloc, later);
    drop(own.replace(standing));
    match filled {
        Ok(names) => Ok(FilledComponents::Entries(names)),
        Err(refused) => Err(refused),
    }
}

/// Components with the entries of later ones whose names are not there, and what takes these back; without them where memory runs out.
fn filled_with(
    standing: Components,
    alloc: Global,
    later: Components,
) -> (Components, Result<FilledMaps, AllocError>)
    ensures merged { OnOk result.1 (AreComponentsMerged
        (some_doc (components_doc standing) ∷ some_doc (components_doc later) ∷ [])
        (some_doc (components_doc result.0))) }
    ensures noted { IfOk result.1 (λ filled. EntriesGoBack filled result.0 standing) }
    ensures err { OnErr result.1 (components_doc result.0 ≡ components_doc standing) }
    ensures ordered { AreComponentsInOrder (Some standing) → AreComponentsInOrder (Some result.0) }
{
    let (maps, extensions) = maps_of(standing);
    let (maps, names) = filled(maps, alloc, maps_of(later).0);
    (components_of(maps, extensions), names)
}

/// Takes back what was taken. Takes no memory.
pub fn take_back_components(own: &mut Option<Components>, filled: FilledComponents)
    ensures { (before : _) → GoBack filled own.old before → option_of components_doc own.new
        ≡ option_of components_doc before }
{
    match filled {
        FilledComponents::Nothing => {}
        FilledComponents::Whole => drop(own.take()),
        FilledComponents::Entries(filled) => {
            if let Some(standing) = own.take() {
                drop(own.replace(without_filled(standing, filled)));
            }
        }
    }
}

/// Components without what was put into their maps.
fn without_filled(standing: Components, filled: FilledMaps) -> Components
    ensures { (before : _) → EntriesGoBack filled standing before → components_doc result ≡ components_doc before }
{
    let (maps, extensions) = maps_of(standing);
    components_of(taken_back(maps, filled), extensions)
}

/// The components of all documents in one, where any has some: under each name the entry of the first that has one, and the extensions
/// of the first document's. Of no documents there are none.
///
/// Fails where memory runs out.
pub fn merge_components(
    alloc: Global,
    all: Vec<Option<Components>>,
) -> Result<Option<Components>, AllocError>
    ensures merged { IfOk result (λ merged. 0 < length all.items
        → AreComponentsMerged (map (option_of components_doc) all.items) (option_of components_doc merged)) }
    ensures none { all.items ≡ [] → IfOk result (λ merged. merged ≡ None) }
    ensures ordered { IfOk result (λ merged. AllByRecursion AreComponentsInOrder all.items
        → AreComponentsInOrder merged) }
{
    let mut all = all.into_iter();
    let Some(mut merged) = all.next() else {
        return Ok(None);
    };
    for later in all {
        merged = with_missing_of(merged, alloc, later)?;
    }
    Ok(merged)
}

/// Components with the entries of later ones whose names are not there yet, as [`fill_components`] takes them. Fails where memory runs
/// out, and then both are given up.
fn with_missing_of(
    own: Option<Components>,
    alloc: Global,
    later: Option<Components>,
) -> Result<Option<Components>, AllocError>
    ensures merged { IfOk result (λ merged. AreComponentsMerged
        (option_of components_doc own ∷ option_of components_doc later ∷ []) (option_of components_doc merged)) }
    ensures ordered { IfOk result (λ merged. AreComponentsInOrder own → AreComponentsInOrder later
        → AreComponentsInOrder merged) }
{
    let Some(later) = later else {
        return Ok(own);
    };
    let Some(standing) = own else {
        return Ok(Some(without_extensions(later)));
    };
    let (maps, extensions) = maps_of(standing);
    let filled = maps.with_missing_of(alloc, maps_of(later).0);
    let (extensions, maps) = beside(extensions, filled)?;
    Ok(Some(components_of(maps, extensions)))
}

/// Components without their extensions.
fn without_extensions(components: Components) -> Components
    ensures { result ≡ record components { extensions = None } }
{
    Components {
        extensions: None,
        ..components
    }
}

// The maps, and the extensions.
fn maps_of(components: Components) -> (Maps, Option<Extensions>)
    ensures { result ≡ (maps_in components, components.extensions) }
{
    let Components {
        schemas,
        responses,
        parameters,
        examples,
        request_bodies,
        headers,
        links,
        callbacks,
        path_items,
        media_types,
        security_schemes,
        extensions,
    } = components;
    let last = (path_items, (media_types, (security_schemes, ())));
    let middle = (request_bodies, (headers, (links, (callbacks, last))));
    let maps = (schemas, (responses, (parameters, (examples, middle))));
    (maps, extensions)
}

// The components of these maps and extensions.
fn components_of(maps: Maps, extensions: Option<Extensions>) -> Components
    ensures maps { maps_in result ≡ maps }
    ensures extensions { result.extensions ≡ extensions }
{
    let (schemas, (responses, (parameters, (examples, middle)))) = maps;
    let (request_bodies, (headers, (links, (callbacks, last)))) = middle;
    let (path_items, (media_types, (security_schemes, ()))) = last;
    Components {
        schemas,
        responses,
        parameters,
        examples,
        request_bodies,
        headers,
        links,
        callbacks,
        path_items,
        media_types,
        security_schemes,
        extensions,
    }
}
