//! The order of keys. A `BTreeMap` is always in it, but tells so only where it is called: of a map that a contract speaks of no more is known than
//! its entries. So each map that merging fills is called here.
ghost use Rattle.std.specs.Prelude.{IfOk};
ghost use Rattle.utoipa_components.specs.Filled.{AreComponentsInOrder};
ghost use Rattle.utoipa_merging.specs.Merged.{IsInKeyOrder};
ghost use Rattle.utoipa_paths.specs.Items.{AreItemsInOrder};
ghost use Rattle.utoipa_paths.specs.Paths.{AreExtensionsInOrder};
ghost use Rattle.utoipa.specs.OpenApi.{openapi_doc};

use crate::document::OpenApi;
use crate::merging::MergeFault;
use utoipa_base::Extensions;
use utoipa_components::Components;
use utoipa_path::PathItem;
use utoipa_paths::PathsMap;

impl OpenApi {
    /// The paths, their extensions, the additional operations of each path and the maps of the components stand in the order of their keys, as
    /// in every document that is at hand. A caller learns it by the call, which changes nothing and goes through the paths once.
    pub fn in_key_order(&self)
        ensures { IsInKeyOrder (openapi_doc self.now) }
    {
        items_in_order(&self.paths.paths);
        extensions_in_order(&self.paths.extensions);
        components_in_order(&self.components);
    }
}

/// So it is of a document that was made.
pub(crate) fn in_order_where_made(made: &Result<OpenApi, MergeFault>)
    ensures { IfOk made.now (λ document. IsInKeyOrder (openapi_doc document)) }
{
    if let Ok(document) = made {
        document.in_key_order();
    }
}

fn items_in_order(items: &PathsMap<String, PathItem>)
    ensures { AreItemsInOrder items.now }
{
    for (_, item) in items {
        let _ = item.additional_operations.len();
    }
}

fn extensions_in_order(extensions: &Option<Extensions>)
    ensures { AreExtensionsInOrder extensions.now }
{
    if let Some(extensions) = extensions {
        let _ = extensions.as_map().len();
    }
}

fn components_in_order(components: &Option<Components>)
    ensures { AreComponentsInOrder components.now }
{
    if let Some(components) = components {
        let _ = components.schemas.len();
        let _ = components.responses.len();
        let _ = components.parameters.len();
        let _ = components.examples.len();
        let _ = components.request_bodies.len();
        let _ = components.headers.len();
        let _ = components.links.len();
        let _ = components.callbacks.len();
        let _ = components.path_items.len();
        let _ = components.media_types.len();
        let _ = components.security_schemes.len();
    }
}
