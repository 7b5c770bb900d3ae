//! The traits by which a type says which parameters an operation takes and which responses it answers.
ghost use Rattle.std.specs.Prelude.{◌≡◌, ℕ, List, [], IfOk, OnOk, map};
ghost use Rattle.std.specs.Fn.{FnReturns};
ghost use Rattle.utoipa_base.specs.Docs.{Doc};
ghost use Rattle.utoipa_base.specs.Fill.{put_each};
ghost use Rattle.utoipa_operation_parts.specs.Parameter.{parameter_doc};
ghost use Rattle.utoipa_operation_parts.specs.Traits.{ArePlaced, ByCode, ByPlace, responses_by_code, response_place_doc, with_later};

use crate::parameter::Parameter;
use crate::response::Response;
use std::alloc::{AllocError, Global};
use std::collections::BTreeMap;
use utoipa_base::{RefOr, put};
use utoipa_leaf::path::ParameterIn;

/// A type whose fields are parameters of an operation.
pub trait IntoParams {
    // The parameters, each by the place that the provider answers of it.
    ghost described: { ByPlace };

    /// The parameters. The provider answers where a parameter stands of which the type does not say it.
    ///
    /// Fails where memory runs out.
    fn into_params<F: Fn() -> Option<ParameterIn>>(
        alloc: Global,
        parameter_in_provider: F,
    ) -> Result<Vec<Parameter>, AllocError>
        requires { F.IsAlwaysCallable parameter_in_provider }
        ensures { IfOk result (λ made. ArePlaced
            (λ place. FnReturns F.Fn parameter_in_provider tt place) described (map parameter_doc made.items)) };
}

/// A type whose values are answered as one response, which has a name under which it stands among the components of a document.
pub trait ToResponse<'r> {
    // The name.
    ghost named: { List ℕ };

    // The response, or the reference to one.
    ghost described: { Doc };

    /// The response, or a reference to one, with its name. Fails where memory runs out.
    fn response(alloc: Global) -> Result<(&'r str, RefOr<Response>), AllocError>
        ensures { IfOk result (λ made. (made.0.now ≡ named) × (response_place_doc made.1 ≡ described)) };
}

/// A type whose values are answered as one of several responses.
pub trait IntoResponses {
    // The responses, or references to such, by their status codes.
    ghost answered: { ByCode };

    /// The responses, or references to such, by their status codes. Fails where memory runs out.
    fn responses(alloc: Global) -> Result<BTreeMap<String, RefOr<Response>>, AllocError>
        ensures { IfOk result (λ made. responses_by_code made ≡ answered) };
}

/// No response.
impl IntoResponses for () {
    ghost answered = { [] };

    fn responses(alloc: Global) -> Result<BTreeMap<String, RefOr<Response>>, AllocError> {
        Ok(BTreeMap::new(alloc))
    }
}

/// The responses of what is answered where all is well and of what is answered where it is not, which win where both have a code.
impl<T: IntoResponses, E: IntoResponses> IntoResponses for Result<T, E> {
    ghost answered = { with_later T.answered E.answered };

    fn responses(alloc: Global) -> Result<BTreeMap<String, RefOr<Response>>, AllocError> {
        let mut responses = T::responses(alloc)?;
        put_responses(&mut responses, E::responses(alloc)?)?;
        Ok(responses)
    }
}

/// Puts each of the responses under its status code, in place of an earlier one of that code. Fails where memory runs out, and then
/// some were put.
pub(crate) fn put_responses(
    responses: &mut BTreeMap<String, RefOr<Response>>,
    later: BTreeMap<String, RefOr<Response>>,
) -> Result<(), AllocError>
    ensures { OnOk result (responses.new.entries ≡ put_each later.entries responses.old.entries) }
{
    for (code, response) in later {
        put(responses, code, response)?;
    }
    Ok(())
}
