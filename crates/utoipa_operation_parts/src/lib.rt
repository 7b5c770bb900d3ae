//! What an operation is sent and what it answers: parameters, request bodies and responses.
#![tactic(auto)]

mod json_schema;
pub mod laws;
pub mod parameter;
pub mod request_body;
pub mod response;
mod traits;
mod unambiguous;

pub use parameter::{Parameter, ParameterBuilder};
pub use request_body::{RequestBody, RequestBodyBuilder, RequestBodyExt};
pub use response::{Response, ResponseBuilder, ResponseExt, Responses, ResponsesBuilder};
pub use traits::{IntoParams, IntoResponses, ToResponse};
