//! Which parameters, request bodies and responses come back from what they are written as.
ghost use Rattle.utoipa_operation_parts.specs.Parameter.{parameter_of_kind};
ghost use Rattle.utoipa_operation_parts.specs.RequestBody.{request_body_of_kind};
ghost use Rattle.utoipa_operation_parts.specs.Response.{response_of_kind};
ghost use Rattle.utoipa_operation_parts.specs.Responses.{responses_of_kind};

use crate::{Parameter, RequestBody, Response, Responses};
use utoipa_base::{
    NoReference, Unambiguous, extensions_are_unambiguous, names_are_no_extensions,
    option_is_unambiguous,
};

#[tactic(auto, using(crate::proofs::UnambiguousParameters::by_parameters))]
impl Unambiguous for Parameter {
    ghost of_kind = { parameter_of_kind };

    fn is_unambiguous(&self) -> bool {
        self.content.is_unambiguous()
            && option_is_unambiguous(&self.schema)
            && extensions_are_unambiguous(&self.extensions)
    }
}

impl NoReference for Parameter {
    fn is_no_reference(&self) -> bool {
        let _parameter = self;
        true
    }
}

#[tactic(auto, using(utoipa_base::proofs::UnambiguousParts::by_parts))]
impl Unambiguous for RequestBody {
    ghost of_kind = { request_body_of_kind };

    fn is_unambiguous(&self) -> bool {
        self.content.is_unambiguous() && extensions_are_unambiguous(&self.extensions)
    }
}

impl NoReference for RequestBody {
    fn is_no_reference(&self) -> bool {
        let _request_body = self;
        true
    }
}

#[tactic(auto, using(utoipa_base::proofs::UnambiguousParts::by_parts))]
impl Unambiguous for Response {
    ghost of_kind = { response_of_kind };

    fn is_unambiguous(&self) -> bool {
        self.content.is_unambiguous()
            && self.headers.is_unambiguous()
            && self.links.is_unambiguous()
            && extensions_are_unambiguous(&self.extensions)
    }
}

impl NoReference for Response {
    fn is_no_reference(&self) -> bool {
        let _response = self;
        true
    }
}

/// Responses are, where besides no status begins with `x-`.
#[tactic(auto, using(utoipa_base::proofs::UnambiguousParts::by_parts))]
impl Unambiguous for Responses {
    ghost of_kind = { responses_of_kind };

    fn is_unambiguous(&self) -> bool {
        self.responses.is_unambiguous()
            && names_are_no_extensions(&self.responses)
            && extensions_are_unambiguous(&self.extensions)
    }
}
