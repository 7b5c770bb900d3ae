//! Security Schemes (OpenAPI 3.1, section 4.8.27), the flows of OAuth, and Security Requirements.

pub mod api_key;
pub mod flow;
pub mod flows;
pub mod http;
pub mod oauth2;
pub mod open_id_connect;
pub mod requirement;
mod row_lists;
pub mod scheme;
mod scheme_type;
pub mod scopes;

pub use api_key::{ApiKey, ApiKeyValue};
pub use flow::{AuthorizationCode, ClientCredentials, DeviceAuthorization, Implicit, Password};
pub use flows::Flow;
pub use http::{Http, HttpAuthScheme, HttpBuilder};
pub use oauth2::OAuth2;
pub use open_id_connect::OpenIdConnect;
pub use requirement::SecurityRequirement;
pub use scheme::SecurityScheme;
pub use scopes::Scopes;
