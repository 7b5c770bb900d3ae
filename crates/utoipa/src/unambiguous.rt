//! Which documents come back from what they are written as.
ghost use Rattle.utoipa.specs.OpenApi.{openapi_of_kind};

use crate::openapi::OpenApi;
use utoipa_base::{Unambiguous, extensions_are_unambiguous, option_is_unambiguous};

#[tactic(auto, using(crate::proofs::UnambiguousFields::by_document_fields))]
impl Unambiguous for OpenApi {
    ghost of_kind = { openapi_of_kind };

    fn is_unambiguous(&self) -> bool {
        option_is_unambiguous(&self.components)
            && option_is_unambiguous(&self.external_docs)
            && self.info.is_unambiguous()
            && self.paths.is_unambiguous()
            && option_is_unambiguous(&self.servers)
            && option_is_unambiguous(&self.tags)
            && option_is_unambiguous(&self.webhooks)
            && extensions_are_unambiguous(&self.extensions)
    }
}
