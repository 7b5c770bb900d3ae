//! Schemes whose key is sent in a header, the query or a cookie.
ghost use Rattle.std.specs.Prelude.{◌≡◌, None, Some, codes, OnOk};
ghost use Rattle.utoipa_base.specs.Docs.{tagged_doc};
ghost use Rattle.utoipa_base.specs.Kinds.{named, api_key_scheme, api_key};
ghost use Rattle.utoipa_base.specs.Events.{events};
ghost use Rattle.utoipa_base.specs.Vocabularies.{with_text};
ghost use Rattle.utoipa_base.specs.Writing.{write};
ghost use Rattle.utoipa_security.specs.ApiKey.{api_key_value_doc, api_key_doc, api_key_of_kind, key_place_text, every_key_place};

use crate::security::row_lists::row_values;
use crate::security::scheme_type::read_type;
use serde_json::Value;
use std::alloc::{AllocError, Global};
use utoipa_base::{
    Deprecated, Documented, Emit, Extensions, JsonSink, Place, ReadFault, Readings, Tree,
    clone_table, emit_table, from_fields, read_table, row_names,
};

// The rows of an API key, in the order of the members' names: mark, member, field. Others may stand before
// the name, and last.
macro_rules! api_key_rows {
    ($lines:ident!($($arguments:tt)*) [$($before_name:tt)*] $($last:tt)*) => {
        $lines! {
            $($arguments)*;
            optional "deprecated" deprecated,
            optional "description" description,
            $($before_name)*
            required "name" name,
            $($last)*
        }
    };
}

/// A Security Scheme Object of the type `apiKey` (OpenAPI 3.1, section 4.8.27), without its members `type` and `in`.
#[derive(Debug, Drop)]
pub struct ApiKeyValue {
    /// The name of the header, query parameter or cookie that holds the key.
    pub name: String,
    /// A description of the scheme.
    pub description: Option<String>,
    /// Whether the scheme is deprecated, from OpenAPI 3.2 on.
    pub deprecated: Option<Deprecated>,
    /// Specification extensions.
    pub extensions: Option<Extensions>,
}

impl ApiKeyValue {
    ghost use Rattle.utoipa_security.specs.ApiKey.{made_api_key};

    /// A key under a name, with nothing else.
    pub fn new(name: String) -> ApiKeyValue
        ensures { result ≡ made_api_key name None }
    {
        ApiKeyValue {
            name,
            description: None,
            deprecated: None,
            extensions: None,
        }
    }

    /// A key under a name, with a description.
    pub fn with_description(name: String, description: String) -> ApiKeyValue
        ensures { result ≡ made_api_key name (Some description) }
    {
        ApiKeyValue {
            name,
            description: Some(description),
            deprecated: None,
            extensions: None,
        }
    }

    /// Sets whether the scheme is deprecated.
    pub fn deprecated(mut self, deprecated: Option<Deprecated>) -> ApiKeyValue
        ensures { result ≡ record self { deprecated = deprecated } }
    {
        self.deprecated = deprecated;
        self
    }
}

impl Documented for ApiKeyValue {
    ghost kind = { named api_key_scheme };

    ghost doc = { api_key_value_doc };
}

impl Emit for ApiKeyValue {
    fn emit<S: JsonSink>(&self, out: &mut S) -> Result<(), AllocError> {
        let names = api_key_rows!(row_names!() []);
        let values = api_key_rows!(row_values!(self) []);
        emit_table(out, names, &values, &self.extensions)
    }
}

impl Tree for ApiKeyValue {
    ghost use Rattle.utoipa_security.specs.ApiKey.{api_key_value_of_kind};

    ghost is_of_kind = { api_key_value_of_kind };

    fn read_plain(
        alloc: Global,
        tree: &Value,
        readings: &mut Readings,
    ) -> Result<ApiKeyValue, ReadFault> {
        let names = api_key_rows!(row_names!() []);
        let (fields, extensions) = read_table(alloc, tree, "ApiKeyValue", names, readings)?;
        Ok(api_key_rows!(from_fields!(ApiKeyValue, fields, extensions) []))
    }

    fn try_clone(&self, alloc: Global) -> Result<ApiKeyValue, AllocError> {
        api_key_rows!(clone_table!(ApiKeyValue, self, alloc) [])
    }
}

impl Place for ApiKeyValue {
    fn is_schema() -> bool {
        false
    }
}

/// A Security Scheme Object of the type `apiKey` (OpenAPI 3.1, section 4.8.27), by its member `in`, without its member
/// `type`.
#[derive(Debug, Drop)]
pub enum ApiKey {
    /// `header`: The key is sent in a request header.
    Header(ApiKeyValue),
    /// `query`: The key is sent in the query of the URL.
    Query(ApiKeyValue),
    /// `cookie`: The key is sent in a cookie.
    Cookie(ApiKeyValue),
}

impl ApiKey {
    // The word of the place, and the key itself.
    fn place_and_value(&self) -> (&'static str, &ApiKeyValue)
        ensures { api_key_doc self.now ≡ tagged_doc (codes "in") result.0.now (api_key_value_doc result.1.now) }
    {
        match self {
            ApiKey::Header(value) => ("header", value),
            ApiKey::Query(value) => ("query", value),
            ApiKey::Cookie(value) => ("cookie", value),
        }
    }

    /// Sends the scheme with its member `type`, of this word. Fails where the sink does; then some of it may have been sent.
    pub(crate) fn emit_typed<S: JsonSink>(&self, out: &mut S, word: &str) -> Result<(), AllocError>
        ensures { OnOk result (S.adds out.old
            (events (write (tagged_doc (codes "type") word.now (api_key_doc self.now)))) out.new) }
    {
        let (place, value) = self.place_and_value();
        let names = api_key_rows!(row_names!() [tag "in" place,] tag "type" word,);
        let values = api_key_rows!(row_values!(value) [tag "in" place,] tag "type" word,);
        emit_table(out, names, &values, &value.extensions)
    }
}

#[derive(Clone, Copy)]
pub(crate) enum KeyPlace {
    Header,
    Query,
    Cookie,
}

fn key_place(word: &str) -> Option<KeyPlace>
    ensures { result ≡ with_text key_place_text every_key_place word.now }
{
    match word {
        "header" => Some(KeyPlace::Header),
        "query" => Some(KeyPlace::Query),
        "cookie" => Some(KeyPlace::Cookie),
        _ => None,
    }
}

fn in_place(place: KeyPlace, value: ApiKeyValue) -> ApiKey
    ensures { api_key_doc result ≡ tagged_doc (codes "in") (key_place_text place) (api_key_value_doc value) }
{
    match place {
        KeyPlace::Header => ApiKey::Header(value),
        KeyPlace::Query => ApiKey::Query(value),
        KeyPlace::Cookie => ApiKey::Cookie(value),
    }
}

impl Documented for ApiKey {
    ghost kind = { api_key };

    ghost doc = { api_key_doc };
}

impl Emit for ApiKey {
    fn emit<S: JsonSink>(&self, out: &mut S) -> Result<(), AllocError> {
        let (place, value) = self.place_and_value();
        let names = api_key_rows!(row_names!() [tag "in" place,]);
        let values = api_key_rows!(row_values!(value) [tag "in" place,]);
        emit_table(out, names, &values, &value.extensions)
    }
}

#[tactic(auto, using(crate::proofs::SchemeTypes::by_scheme_types))]
impl Tree for ApiKey {
    ghost is_of_kind = { api_key_of_kind };

    fn read_plain(
        alloc: Global,
        tree: &Value,
        readings: &mut Readings,
    ) -> Result<ApiKey, ReadFault> {
        let word = read_type(tree, "in", "ApiKey")?;
        match key_place(word) {
            Some(place) => {
                let value = ApiKeyValue::read_plain(alloc, tree, readings)?;
                Ok(in_place(place, value))
            }
            None => Err(ReadFault::Word("ApiKey")),
        }
    }

    fn try_clone(&self, alloc: Global) -> Result<ApiKey, AllocError> {
        match self {
            ApiKey::Header(value) => Ok(ApiKey::Header(value.try_clone(alloc)?)),
            ApiKey::Query(value) => Ok(ApiKey::Query(value.try_clone(alloc)?)),
            ApiKey::Cookie(value) => Ok(ApiKey::Cookie(value.try_clone(alloc)?)),
        }
    }
}

impl Place for ApiKey {
    fn is_schema() -> bool {
        false
    }
}
