//! What stands in a place of a document: a value, or a reference that leads to one among the components.
ghost use Rattle.std.specs.Prelude.{◌≡◌, IfOk, option_map, option_and_then};
ghost use Rattle.std.specs.BTreeMap.{get_by_text};
ghost use Rattle.utoipa_components.specs.Resolve.{name_in, resolved, resolved_item};

use crate::components::Components;
use std::alloc::{AllocError, Global};
use std::collections::BTreeMap;
use utoipa_base::{ComponentMap, Ref, RefOr};
use utoipa_leaf::example::Example;
use utoipa_media::content::Content;
use utoipa_media::header::Header;
use utoipa_media::link::Link;
use utoipa_operation_parts::{Parameter, RequestBody, Response};
use utoipa_path::{Callback, PathItem};
use utoipa_schema::Schema;
use utoipa_security::security::SecurityScheme;

/// The values in places of a document, where a reference stands for a component (Reference Object: OpenAPI 3.1, section 4.8.23). A name
/// that stands in its reference with neither `%` nor `~` takes no memory. Each call fails where memory runs out.
impl Components {
    /// The schema in a place: the one that stands there itself, or the one that its reference leads to. Where a reference leads to a
    /// reference, that is followed too.
    ///
    /// There is none exactly where a reference leads elsewhere than to a name among the schemas ([`Ref::component`]), to a name under
    /// which none stands, or round in a circle.
    pub fn schema<'a>(
        &'a self,
        alloc: Global,
        place: &'a RefOr<Schema>,
    ) -> Result<Option<&'a Schema>, AllocError>
        ensures { IfOk result (λ found. option_map (λ schema. schema.now) found
            ≡ resolved ComponentMap.Schemas self.now.schemas place.now) }
    {
        value_in(alloc, &self.schemas, ComponentMap::Schemas, place)
    }

    /// The response in a place, or none, as [`Components::schema`] finds a schema.
    pub fn response<'a>(
        &'a self,
        alloc: Global,
        place: &'a RefOr<Response>,
    ) -> Result<Option<&'a Response>, AllocError>
        ensures { IfOk result (λ found. option_map (λ response. response.now) found
            ≡ resolved ComponentMap.Responses self.now.responses place.now) }
    {
        value_in(alloc, &self.responses, ComponentMap::Responses, place)
    }

    /// The parameter in a place, or none, as [`Components::schema`] finds a schema.
    pub fn parameter<'a>(
        &'a self,
        alloc: Global,
        place: &'a RefOr<Parameter>,
    ) -> Result<Option<&'a Parameter>, AllocError>
        ensures { IfOk result (λ found. option_map (λ parameter. parameter.now) found
            ≡ resolved ComponentMap.Parameters self.now.parameters place.now) }
    {
        value_in(alloc, &self.parameters, ComponentMap::Parameters, place)
    }

    /// The example in a place, or none, as [`Components::schema`] finds a schema.
    pub fn example<'a>(
        &'a self,
        alloc: Global,
        place: &'a RefOr<Example>,
    ) -> Result<Option<&'a Example>, AllocError>
        ensures { IfOk result (λ found. option_map (λ example. example.now) found
            ≡ resolved ComponentMap.Examples self.now.examples place.now) }
    {
        value_in(alloc, &self.examples, ComponentMap::Examples, place)
    }

    /// The request body in a place, or none, as [`Components::schema`] finds a schema.
    pub fn request_body<'a>(
        &'a self,
        alloc: Global,
        place: &'a RefOr<RequestBody>,
    ) -> Result<Option<&'a RequestBody>, AllocError>
        ensures { IfOk result (λ found. option_map (λ body. body.now) found
            ≡ resolved ComponentMap.RequestBodies self.now.request_bodies place.now) }
    {
        value_in(
            alloc,
            &self.request_bodies,
            ComponentMap::RequestBodies,
            place,
        )
    }

    /// The header in a place, or none, as [`Components::schema`] finds a schema.
    pub fn header<'a>(
        &'a self,
        alloc: Global,
        place: &'a RefOr<Header>,
    ) -> Result<Option<&'a Header>, AllocError>
        ensures { IfOk result (λ found. option_map (λ header. header.now) found
            ≡ resolved ComponentMap.Headers self.now.headers place.now) }
    {
        value_in(alloc, &self.headers, ComponentMap::Headers, place)
    }

    /// The link in a place, or none, as [`Components::schema`] finds a schema.
    pub fn link<'a>(
        &'a self,
        alloc: Global,
        place: &'a RefOr<Link>,
    ) -> Result<Option<&'a Link>, AllocError>
        ensures { IfOk result (λ found. option_map (λ link. link.now) found
            ≡ resolved ComponentMap.Links self.now.links place.now) }
    {
        value_in(alloc, &self.links, ComponentMap::Links, place)
    }

    /// The callback in a place, or none, as [`Components::schema`] finds a schema.
    pub fn callback<'a>(
        &'a self,
        alloc: Global,
        place: &'a RefOr<Callback>,
    ) -> Result<Option<&'a Callback>, AllocError>
        ensures { IfOk result (λ found. option_map (λ callback. callback.now) found
            ≡ resolved ComponentMap.Callbacks self.now.callbacks place.now) }
    {
        value_in(alloc, &self.callbacks, ComponentMap::Callbacks, place)
    }

    /// The path item in a place: the one that stands there itself, or the one that its reference leads to. The `$ref` of a path item
    /// itself, which the other members of the item may add to, is not followed.
    ///
    /// There is none exactly where the reference leads elsewhere than to a name among the path items ([`Ref::component`]), or to a name
    /// under which none stands.
    pub fn path_item<'a>(
        &'a self,
        alloc: Global,
        place: &'a RefOr<PathItem>,
    ) -> Result<Option<&'a PathItem>, AllocError>
        ensures { IfOk result (λ found. option_map (λ item. item.now) found
            ≡ resolved_item self.now.path_items place.now) }
    {
        match place {
            RefOr::T(item) => Ok(Some(item)),
            RefOr::Ref(reference) => {
                entry_at(alloc, &self.path_items, ComponentMap::PathItems, reference)
            }
        }
    }

    /// The content in a place, or none, as [`Components::schema`] finds a schema.
    pub fn media_type<'a>(
        &'a self,
        alloc: Global,
        place: &'a RefOr<Content>,
    ) -> Result<Option<&'a Content>, AllocError>
        ensures { IfOk result (λ found. option_map (λ content. content.now) found
            ≡ resolved ComponentMap.MediaTypes self.now.media_types place.now) }
    {
        value_in(alloc, &self.media_types, ComponentMap::MediaTypes, place)
    }

    /// The security scheme in a place, or none, as [`Components::schema`] finds a schema.
    pub fn security_scheme<'a>(
        &'a self,
        alloc: Global,
        place: &'a RefOr<SecurityScheme>,
    ) -> Result<Option<&'a SecurityScheme>, AllocError>
        ensures { IfOk result (λ found. option_map (λ scheme. scheme.now) found
            ≡ resolved ComponentMap.SecuritySchemes self.now.security_schemes place.now) }
    {
        value_in(
            alloc,
            &self.security_schemes,
            ComponentMap::SecuritySchemes,
            place,
        )
    }
}

// The value in a place, by the map of the components that its kind has. Fails where memory runs out.
fn value_in<'a, T>(
    alloc: Global,
    entries: &'a BTreeMap<String, RefOr<T>>,
    map: ComponentMap,
    place: &'a RefOr<T>,
) -> Result<Option<&'a T>, AllocError>
    ensures { IfOk result (λ found. option_map (λ value. value.now) found ≡ resolved map entries.now place.now) }
{
    let mut reached = place;
    // References that lead past more entries than there are go round in a circle.
    for _ in 0..=entries.len() {
        match reached {
            RefOr::T(value) => return Ok(Some(value)),
            RefOr::Ref(reference) => {
                let Some(entry) = entry_at(alloc, entries, map, reference)? else {
                    return Ok(None);
                };
                reached = entry;
            }
        }
    }
    Ok(None)
}

// The entry that a reference leads to in a map; none where it leads elsewhere, or to a name under which none stands. Fails where memory
// runs out.
fn entry_at<'a, V>(
    alloc: Global,
    entries: &'a BTreeMap<String, V>,
    map: ComponentMap,
    reference: &Ref,
) -> Result<Option<&'a V>, AllocError>
    ensures { IfOk result (λ found. option_map (λ entry. entry.now) found
        ≡ option_and_then (get_by_text entries.now) (name_in map reference.now)) }
{
    let Some(key) = reference.component(alloc)? else {
        return Ok(None);
    };
    if key.map == map {
        return Ok(entries.get(key.name.as_str()));
    }
    Ok(None)
}
