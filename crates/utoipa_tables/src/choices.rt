//! The choices that a member's text or a key decides, as data.
ghost use Rattle.std.specs.Prelude.{◌≡◌};
ghost use Rattle.utoipa_base.specs.Choices as specs;
ghost use Rattle.utoipa_base.specs.Rows.{texts};
ghost use Rattle.utoipa_tables.specs.Tables.{choices_of, flow_choices, words_of_choices, kinds_of, flow_kinds};

use crate::kinds::{Kind, ObjectType};

/// An alternative, and the word that chooses it.
#[derive(Clone, Copy, Drop)]
pub struct Choice {
    /// The word.
    pub word: &'static str,
    /// What it chooses.
    pub kind: Kind,
}

static SCHEME_TYPES: [Choice; 5] = [
    Choice {
        word: "oauth2",
        kind: Kind::Named(ObjectType::Oauth2Scheme),
    },
    Choice {
        word: "apiKey",
        kind: Kind::ApiKey,
    },
    Choice {
        word: "http",
        kind: Kind::Named(ObjectType::HttpScheme),
    },
    Choice {
        word: "openIdConnect",
        kind: Kind::Named(ObjectType::OpenIdConnectScheme),
    },
    Choice {
        word: "mutualTLS",
        kind: Kind::Named(ObjectType::MutualTlsScheme),
    },
];

/// A security scheme, by its member `type` (Security Scheme Object: section 4.8.27).
pub fn scheme_types() -> &'static [Choice]
    ensures { choices_of result.now ≡ specs.scheme_types }
{
    &SCHEME_TYPES
}

static SCHEME_TYPE_WORDS: [&str; 5] = ["oauth2", "apiKey", "http", "openIdConnect", "mutualTLS"];

/// The words of [`scheme_types`].
pub fn scheme_type_words() -> &'static [&'static str]
    ensures { texts result.now ≡ words_of_choices specs.scheme_types }
{
    &SCHEME_TYPE_WORDS
}

static API_KEY_PLACES: [Choice; 3] = [
    Choice {
        word: "header",
        kind: Kind::Named(ObjectType::ApiKeyScheme),
    },
    Choice {
        word: "query",
        kind: Kind::Named(ObjectType::ApiKeyScheme),
    },
    Choice {
        word: "cookie",
        kind: Kind::Named(ObjectType::ApiKeyScheme),
    },
];

/// An API key, by its member `in` (Security Scheme Object: section 4.8.27).
pub fn api_key_places() -> &'static [Choice]
    ensures { choices_of result.now ≡ specs.api_key_places }
{
    &API_KEY_PLACES
}

static API_KEY_PLACE_WORDS: [&str; 3] = ["header", "query", "cookie"];

/// The words of [`api_key_places`].
pub fn api_key_place_words() -> &'static [&'static str]
    ensures { texts result.now ≡ words_of_choices specs.api_key_places }
{
    &API_KEY_PLACE_WORDS
}

static FLOW_KEYS: [Choice; 5] = [
    Choice {
        word: "implicit",
        kind: Kind::Named(ObjectType::ImplicitFlow),
    },
    Choice {
        word: "password",
        kind: Kind::Named(ObjectType::PasswordFlow),
    },
    Choice {
        word: "clientCredentials",
        kind: Kind::Named(ObjectType::ClientCredentialsFlow),
    },
    Choice {
        word: "authorizationCode",
        kind: Kind::Named(ObjectType::AuthorizationCodeFlow),
    },
    Choice {
        word: "deviceAuthorization",
        kind: Kind::Named(ObjectType::DeviceAuthorizationFlow),
    },
];

/// OAuth flows, by their keys (OAuth Flows Object: section 4.8.28).
pub fn flow_keys() -> &'static [Choice]
    ensures { choices_of result.now ≡ flow_choices specs.flow_keys }
{
    &FLOW_KEYS
}

static FLOW_KINDS: [Kind; 5] = [
    Kind::Named(ObjectType::ImplicitFlow),
    Kind::Named(ObjectType::PasswordFlow),
    Kind::Named(ObjectType::ClientCredentialsFlow),
    Kind::Named(ObjectType::AuthorizationCodeFlow),
    Kind::Named(ObjectType::DeviceAuthorizationFlow),
];

/// The kinds of OAuth flows.
pub fn flow_kinds() -> &'static [Kind]
    ensures { kinds_of result.now ≡ flow_kinds specs.flow_keys }
{
    &FLOW_KINDS
}

static FLOW_NAMES: [&str; 5] = [
    "implicit",
    "password",
    "clientCredentials",
    "authorizationCode",
    "deviceAuthorization",
];

/// The keys of [`flow_keys`].
pub fn flow_names() -> &'static [&'static str]
    ensures { texts result.now ≡ words_of_choices (flow_choices specs.flow_keys) }
{
    &FLOW_NAMES
}
