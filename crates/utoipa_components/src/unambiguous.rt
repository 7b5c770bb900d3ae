//! Which components come back from what they are written as.
ghost use Rattle.std.specs.Prelude.{◌≡◌, ◌&&◌};
ghost use Rattle.utoipa_base.specs.Kinds.{named, schema, security_scheme, example_object, header_object, link_object, media_type_object, parameter_object, request_body_object, response_object};
ghost use Rattle.utoipa_base.specs.Tables.{callback};
ghost use Rattle.utoipa_base.specs.Unambiguous.{is_unambiguous};
ghost use Rattle.utoipa_base.specs.Views.{map_of_docs};
ghost use Rattle.utoipa_components.specs.Components.{places_doc, components_of_kind};
ghost use Rattle.utoipa_leaf.specs.Example.{example_doc};
ghost use Rattle.utoipa_media.specs.Docs.{content_doc, header_doc};
ghost use Rattle.utoipa_media.specs.Link.{link_doc};
ghost use Rattle.utoipa_operation_parts.specs.Parameter.{parameter_doc};
ghost use Rattle.utoipa_operation_parts.specs.RequestBody.{request_body_doc};
ghost use Rattle.utoipa_operation_parts.specs.Response.{response_doc};
ghost use Rattle.utoipa_path.specs.Docs.{path_item_doc, callback_doc};
ghost use Rattle.utoipa_schema.specs.Docs.{schema_doc};
ghost use Rattle.utoipa_security.specs.Schemes.{scheme_doc};

use crate::components::Components;
use utoipa_base::{Unambiguous, extensions_are_unambiguous};

// Whether the maps from `callbacks` to `parameters` are unambiguous.
fn up_to_parameters_passes(components: &Components) -> bool
    ensures { result ≡ (is_unambiguous (places_doc callback callback_doc components.now.callbacks)
        && (is_unambiguous (places_doc (named example_object) example_doc components.now.examples)
        && (is_unambiguous (places_doc (named header_object) header_doc components.now.headers)
        && (is_unambiguous (places_doc (named link_object) link_doc components.now.links)
        && (is_unambiguous (places_doc (named media_type_object) content_doc components.now.media_types)
        && is_unambiguous (places_doc (named parameter_object) parameter_doc components.now.parameters)))))) }
{
    components.callbacks.is_unambiguous()
        && components.examples.is_unambiguous()
        && components.headers.is_unambiguous()
        && components.links.is_unambiguous()
        && components.media_types.is_unambiguous()
        && components.parameters.is_unambiguous()
}

// Whether the maps from `pathItems` to `securitySchemes` are unambiguous.
fn from_path_items_passes(components: &Components) -> bool
    ensures { result ≡ (is_unambiguous (map_of_docs path_item_doc components.now.path_items)
        && (is_unambiguous (places_doc (named request_body_object) request_body_doc components.now.request_bodies)
        && (is_unambiguous (places_doc (named response_object) response_doc components.now.responses)
        && (is_unambiguous (places_doc schema schema_doc components.now.schemas)
        && is_unambiguous (places_doc security_scheme scheme_doc components.now.security_schemes))))) }
{
    components.path_items.is_unambiguous()
        && components.request_bodies.is_unambiguous()
        && components.responses.is_unambiguous()
        && components.schemas.is_unambiguous()
        && components.security_schemes.is_unambiguous()
}

#[tactic(auto, using(crate::proofs::UnambiguousMaps::by_maps))]
impl Unambiguous for Components {
    ghost of_kind = { components_of_kind };

    fn is_unambiguous(&self) -> bool {
        up_to_parameters_passes(self)
            && from_path_items_passes(self)
            && extensions_are_unambiguous(&self.extensions)
    }
}
