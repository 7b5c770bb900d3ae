//! Which values of these types come back from what they are written as.
ghost use Rattle.utoipa_security.specs.ApiKey.{api_key_value_of_kind, api_key_of_kind};
ghost use Rattle.utoipa_security.specs.Flows.{implicit_of_kind, password_of_kind, client_credentials_of_kind, authorization_code_of_kind, device_authorization_of_kind};
ghost use Rattle.utoipa_security.specs.Http.{auth_scheme_of_kind, http_of_kind};
ghost use Rattle.utoipa_security.specs.OpenIdConnect.{open_id_connect_of_kind};
ghost use Rattle.utoipa_security.specs.Requirement.{requirement_of_kind};
ghost use Rattle.utoipa_security.specs.Schemes.{scheme_of_kind};
ghost use Rattle.utoipa_security.specs.Scopes.{scopes_of_kind};
ghost use Rattle.std.specs.Prelude.{◌≡◌};
ghost use Rattle.utoipa_security.specs.OAuth.{flow_object, flow_view, flows_doc, oauth2_of_kind};
ghost use Rattle.utoipa_base.specs.Unambiguous.{is_unambiguous, is_key_of};

use crate::security::{
    ApiKey, ApiKeyValue, AuthorizationCode, ClientCredentials, DeviceAuthorization, Flow, Http,
    HttpAuthScheme, Implicit, OAuth2, OpenIdConnect, Password, Scopes, SecurityRequirement,
    SecurityScheme,
};
use std::collections::BTreeMap;
use utoipa_base::{NoReference, Unambiguous, extensions_are_unambiguous};

#[tactic(auto, using(utoipa_base::proofs::UnambiguousParts::by_parts))]
impl Unambiguous for Scopes {
    ghost of_kind = { scopes_of_kind };

    fn is_unambiguous(&self) -> bool {
        let _scopes = self;
        true
    }
}

#[tactic(auto, using(utoipa_base::proofs::UnambiguousParts::by_parts))]
impl Unambiguous for SecurityRequirement {
    ghost of_kind = { requirement_of_kind };

    fn is_unambiguous(&self) -> bool {
        let _requirement = self;
        true
    }
}

/// A word always is.
#[tactic(auto, using(utoipa_base::proofs::UnambiguousParts::by_parts))]
impl Unambiguous for HttpAuthScheme {
    ghost of_kind = { auth_scheme_of_kind };

    fn is_unambiguous(&self) -> bool {
        true
    }
}

#[tactic(auto, using(utoipa_base::proofs::UnambiguousParts::by_parts))]
impl Unambiguous for Implicit {
    ghost of_kind = { implicit_of_kind };

    fn is_unambiguous(&self) -> bool {
        extensions_are_unambiguous(&self.extensions)
    }
}

#[tactic(auto, using(utoipa_base::proofs::UnambiguousParts::by_parts))]
impl Unambiguous for Password {
    ghost of_kind = { password_of_kind };

    fn is_unambiguous(&self) -> bool {
        extensions_are_unambiguous(&self.extensions)
    }
}

#[tactic(auto, using(utoipa_base::proofs::UnambiguousParts::by_parts))]
impl Unambiguous for ClientCredentials {
    ghost of_kind = { client_credentials_of_kind };

    fn is_unambiguous(&self) -> bool {
        extensions_are_unambiguous(&self.extensions)
    }
}

#[tactic(auto, using(utoipa_base::proofs::UnambiguousParts::by_parts))]
impl Unambiguous for AuthorizationCode {
    ghost of_kind = { authorization_code_of_kind };

    fn is_unambiguous(&self) -> bool {
        extensions_are_unambiguous(&self.extensions)
    }
}

#[tactic(auto, using(utoipa_base::proofs::UnambiguousParts::by_parts))]
impl Unambiguous for DeviceAuthorization {
    ghost of_kind = { device_authorization_of_kind };

    fn is_unambiguous(&self) -> bool {
        extensions_are_unambiguous(&self.extensions)
    }
}

/// Whether the members of a flow are unambiguous.
fn flow_passes(flow: &Flow) -> bool
    ensures { result ≡ is_unambiguous (flow_object flow.now) }
{
    match flow {
        Flow::Implicit(flow) => flow.is_unambiguous(),
        Flow::Password(flow) => flow.is_unambiguous(),
        Flow::ClientCredentials(flow) => flow.is_unambiguous(),
        Flow::AuthorizationCode(flow) => flow.is_unambiguous(),
        Flow::DeviceAuthorization(flow) => flow.is_unambiguous(),
    }
}

/// Whether a flow stands under its own key (OAuth Flows Object: section 4.8.28).
fn is_under(flow: &Flow, key: &str) -> bool
    ensures { result ≡ is_key_of key.now (flow_view flow.now) }
{
    match flow {
        Flow::Implicit(_) => key == "implicit",
        Flow::Password(_) => key == "password",
        Flow::ClientCredentials(_) => key == "clientCredentials",
        Flow::AuthorizationCode(_) => key == "authorizationCode",
        Flow::DeviceAuthorization(_) => key == "deviceAuthorization",
    }
}

/// Whether each flow is unambiguous and stands under its own key.
#[tactic(auto, using(utoipa_base::proofs::UnambiguousParts::by_parts))]
fn flows_pass(flows: &BTreeMap<String, Flow>) -> bool
    ensures { result ≡ is_unambiguous (flows_doc flows.now) }
{
    for (key, flow) in flows.iter() {
        if !flow_passes(flow) || !is_under(flow, key.as_str()) {
            return false;
        }
    }
    true
}

#[tactic(auto, using(utoipa_base::proofs::UnambiguousParts::by_parts))]
impl Unambiguous for OAuth2 {
    ghost of_kind = { oauth2_of_kind };

    fn is_unambiguous(&self) -> bool {
        flows_pass(&self.flows) && extensions_are_unambiguous(&self.extensions)
    }
}

#[tactic(auto, using(utoipa_base::proofs::UnambiguousParts::by_parts))]
impl Unambiguous for ApiKeyValue {
    ghost of_kind = { api_key_value_of_kind };

    fn is_unambiguous(&self) -> bool {
        extensions_are_unambiguous(&self.extensions)
    }
}

#[tactic(auto, using(utoipa_base::proofs::UnambiguousParts::by_parts))]
impl Unambiguous for ApiKey {
    ghost of_kind = { api_key_of_kind };

    fn is_unambiguous(&self) -> bool {
        match self {
            ApiKey::Header(value) => value.is_unambiguous(),
            ApiKey::Query(value) => value.is_unambiguous(),
            ApiKey::Cookie(value) => value.is_unambiguous(),
        }
    }
}

#[tactic(auto, using(utoipa_base::proofs::UnambiguousParts::by_parts))]
impl Unambiguous for Http {
    ghost of_kind = { http_of_kind };

    fn is_unambiguous(&self) -> bool {
        extensions_are_unambiguous(&self.extensions)
    }
}

#[tactic(auto, using(utoipa_base::proofs::UnambiguousParts::by_parts))]
impl Unambiguous for OpenIdConnect {
    ghost of_kind = { open_id_connect_of_kind };

    fn is_unambiguous(&self) -> bool {
        extensions_are_unambiguous(&self.extensions)
    }
}

#[tactic(auto, using(utoipa_base::proofs::UnambiguousParts::by_parts))]
impl Unambiguous for SecurityScheme {
    ghost of_kind = { scheme_of_kind };

    fn is_unambiguous(&self) -> bool {
        match self {
            SecurityScheme::OAuth2(scheme) => scheme.is_unambiguous(),
            SecurityScheme::ApiKey(scheme) => scheme.is_unambiguous(),
            SecurityScheme::Http(scheme) => scheme.is_unambiguous(),
            SecurityScheme::OpenIdConnect(scheme) => scheme.is_unambiguous(),
            SecurityScheme::MutualTls { extensions, .. } => extensions_are_unambiguous(extensions),
        }
    }
}

impl NoReference for SecurityScheme {
    fn is_no_reference(&self) -> bool {
        let _scheme = self;
        true
    }
}
