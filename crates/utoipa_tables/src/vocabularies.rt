//! The words of each vocabulary, as data.
ghost use Rattle.std.specs.Prelude.{◌≡◌};
ghost use Rattle.utoipa_base.specs.Rows.{texts};
ghost use Rattle.utoipa_base.specs.Words as specs;
ghost use Rattle.utoipa_tables.specs.Tables.{vocabulary_of};

use crate::kinds::Vocabulary;

static TYPE_WORD: [&str; 7] = [
    "object", "string", "integer", "number", "boolean", "array", "null",
];

static KNOWN_FORMAT: [&str; 21] = [
    "int32",
    "int64",
    "float",
    "double",
    "byte",
    "binary",
    "time",
    "date",
    "date-time",
    "duration",
    "password",
    "email",
    "idn-email",
    "hostname",
    "idn-hostname",
    "ipv4",
    "ipv6",
    "uri-template",
    "json-pointer",
    "relative-json-pointer",
    "regex",
];

static HTTP_METHOD: [&str; 8] = [
    "get", "post", "put", "delete", "options", "head", "patch", "trace",
];

static PARAMETER_IN: [&str; 5] = ["query", "path", "header", "cookie", "querystring"];

static PARAMETER_STYLE: [&str; 8] = [
    "matrix",
    "label",
    "form",
    "simple",
    "spaceDelimited",
    "pipeDelimited",
    "deepObject",
    "cookie",
];

static HTTP_AUTH_SCHEME: [&str; 10] = [
    "basic",
    "bearer",
    "digest",
    "hoba",
    "mutual",
    "negotiate",
    "oauth",
    "scram-sha-1",
    "scram-sha-256",
    "vapid",
];

/// The words of a vocabulary, in the order of the definition.
pub fn words(vocabulary: Vocabulary) -> &'static [&'static str]
    ensures { texts result.now ≡ specs.words (vocabulary_of vocabulary) }
{
    match vocabulary {
        Vocabulary::TypeWord => &TYPE_WORD,
        Vocabulary::KnownFormat => &KNOWN_FORMAT,
        Vocabulary::HttpMethod => &HTTP_METHOD,
        Vocabulary::ParameterIn => &PARAMETER_IN,
        Vocabulary::ParameterStyle => &PARAMETER_STYLE,
        Vocabulary::HttpAuthScheme => &HTTP_AUTH_SCHEME,
    }
}
