//! The formats of schemas.
ghost use Rattle.std.specs.Prelude.{◌≡◌, refl, false, Some, is_some, IfOk, IfErr};
ghost use Rattle.serde_json.specs.Find.{as_str};
ghost use Rattle.serde_json.specs.View.{view};
ghost use Rattle.utoipa_base.specs.Faults.{Refuses};
ghost use Rattle.utoipa_base.specs.Kinds.{word_of, known_format, schema_format};
ghost use Rattle.utoipa_base.specs.Reading.{read};
ghost use Rattle.utoipa_schema_parts.specs.Format.{schema_format_doc, schema_format_of_kind};

use serde_json::Value;
use std::alloc::{AllocError, Global};
use std::fmt;
use utoipa_base::{
    Documented, Emit, JsonSink, Place, ReadFault, Readings, Tree, Word, emit_word, read_word,
};

/// A format that the model knows: a word of the keyword `format` (OpenAPI 3.1, section 4.4; JSON Schema 2020-12,
/// Validation, section 7.3; `byte` and `binary` of OpenAPI 3.0).
#[derive(Clone, Copy, Debug, Drop, PartialEq, Eq)]
pub enum KnownFormat {
    /// Integers of 32 bits with a sign (OpenAPI 3.1, section 4.4): `int32`.
    Int32,
    /// Integers of 64 bits with a sign (OpenAPI 3.1, section 4.4): `int64`.
    Int64,
    /// Numbers of single precision (OpenAPI 3.1, section 4.4): `float`.
    Float,
    /// Numbers of double precision (OpenAPI 3.1, section 4.4): `double`.
    Double,
    /// Bytes in Base64 (OpenAPI 3.0, Data Types): `byte`.
    Byte,
    /// Any sequence of bytes (OpenAPI 3.0, Data Types): `binary`.
    Binary,
    /// A time of day, by RFC 3339 (JSON Schema 2020-12, Validation, section 7.3.1): `time`.
    Time,
    /// A date, by RFC 3339 (JSON Schema 2020-12, Validation, section 7.3.1): `date`.
    Date,
    /// A date with a time of day, by RFC 3339 (JSON Schema 2020-12, Validation, section 7.3.1): `date-time`.
    DateTime,
    /// A duration, by RFC 3339 (JSON Schema 2020-12, Validation, section 7.3.1): `duration`.
    Duration,
    /// A text that is not to be shown (OpenAPI 3.1, section 4.4): `password`.
    Password,
    /// An e-mail address (JSON Schema 2020-12, Validation, section 7.3.2): `email`.
    Email,
    /// An internationalized e-mail address (JSON Schema 2020-12, Validation, section 7.3.2): `idn-email`.
    IdnEmail,
    /// A host name (JSON Schema 2020-12, Validation, section 7.3.3): `hostname`.
    Hostname,
    /// An internationalized host name (JSON Schema 2020-12, Validation, section 7.3.3): `idn-hostname`.
    IdnHostname,
    /// An IPv4 address (JSON Schema 2020-12, Validation, section 7.3.4): `ipv4`.
    Ipv4,
    /// An IPv6 address (JSON Schema 2020-12, Validation, section 7.3.4): `ipv6`.
    Ipv6,
    /// A URI template (JSON Schema 2020-12, Validation, section 7.3.6): `uri-template`.
    UriTemplate,
    /// A JSON Pointer (JSON Schema 2020-12, Validation, section 7.3.7): `json-pointer`.
    JsonPointer,
    /// A relative JSON Pointer (JSON Schema 2020-12, Validation, section 7.3.7): `relative-json-pointer`.
    RelativeJsonPointer,
    /// A regular expression, by ECMA-262 (JSON Schema 2020-12, Validation, section 7.3.8): `regex`.
    Regex,
}

impl Word for KnownFormat {
    ghost use Rattle.utoipa_schema_parts.specs.Format.{known_format_text, every_known_format, known_format_by_text};

    ghost vocabulary = { known_format };

    ghost every = { every_known_format };

    ghost spelling = { known_format_text };

    ghost are_words = { refl };

    ghost found_by_text = { known_format_by_text };

    fn lookup(text: &str) -> Option<KnownFormat> {
        match text {
            "int32" => Some(KnownFormat::Int32),
            "int64" => Some(KnownFormat::Int64),
            "float" => Some(KnownFormat::Float),
            "double" => Some(KnownFormat::Double),
            "byte" => Some(KnownFormat::Byte),
            "binary" => Some(KnownFormat::Binary),
            "time" => Some(KnownFormat::Time),
            "date" => Some(KnownFormat::Date),
            "date-time" => Some(KnownFormat::DateTime),
            "duration" => Some(KnownFormat::Duration),
            "password" => Some(KnownFormat::Password),
            "email" => Some(KnownFormat::Email),
            "idn-email" => Some(KnownFormat::IdnEmail),
            "hostname" => Some(KnownFormat::Hostname),
            "idn-hostname" => Some(KnownFormat::IdnHostname),
            "ipv4" => Some(KnownFormat::Ipv4),
            "ipv6" => Some(KnownFormat::Ipv6),
            "uri-template" => Some(KnownFormat::UriTemplate),
            "json-pointer" => Some(KnownFormat::JsonPointer),
            "relative-json-pointer" => Some(KnownFormat::RelativeJsonPointer),
            "regex" => Some(KnownFormat::Regex),
            _ => None,
        }
    }

    fn as_text(&self) -> &'static str {
        match self {
            KnownFormat::Int32 => "int32",
            KnownFormat::Int64 => "int64",
            KnownFormat::Float => "float",
            KnownFormat::Double => "double",
            KnownFormat::Byte => "byte",
            KnownFormat::Binary => "binary",
            KnownFormat::Time => "time",
            KnownFormat::Date => "date",
            KnownFormat::DateTime => "date-time",
            KnownFormat::Duration => "duration",
            KnownFormat::Password => "password",
            KnownFormat::Email => "email",
            KnownFormat::IdnEmail => "idn-email",
            KnownFormat::Hostname => "hostname",
            KnownFormat::IdnHostname => "idn-hostname",
            KnownFormat::Ipv4 => "ipv4",
            KnownFormat::Ipv6 => "ipv6",
            KnownFormat::UriTemplate => "uri-template",
            KnownFormat::JsonPointer => "json-pointer",
            KnownFormat::RelativeJsonPointer => "relative-json-pointer",
            KnownFormat::Regex => "regex",
        }
    }
}

/// The word.
impl fmt::Display for KnownFormat {
    ghost use Rattle.utoipa_schema_parts.specs.Format.{known_format_text};

    ghost output = { λ word. Some (known_format_text word) };

    fn fmt<W: fmt::Write>(&self, f: &mut fmt::Formatter<W>) -> fmt::Result {
        f.write_str(self.as_text())
    }
}

impl Documented for KnownFormat {
    ghost use Rattle.utoipa_schema_parts.specs.Format.{known_format_doc};

    ghost kind = { word_of known_format };

    ghost doc = { known_format_doc };
}

#[tactic(auto, using(utoipa_base::proofs::ByWords::by_words))]
impl Emit for KnownFormat {
    fn emit<S: JsonSink>(&self, out: &mut S) -> Result<(), AllocError> {
        emit_word(out, self)
    }
}

#[tactic(auto, using(utoipa_base::proofs::ByWords::by_words))]
impl Tree for KnownFormat {
    ghost use Rattle.utoipa_schema_parts.specs.Format.{known_format_of_kind};

    ghost is_of_kind = { known_format_of_kind };

    fn read_plain(
        _alloc: Global,
        tree: &Value,
        _readings: &mut Readings,
    ) -> Result<KnownFormat, ReadFault> {
        read_word(tree, "KnownFormat")
    }

    fn try_clone(&self, _alloc: Global) -> Result<KnownFormat, AllocError> {
        Ok(*self)
    }
}

impl Place for KnownFormat {
    fn is_schema() -> bool {
        false
    }
}

/// The format of a schema's values: the keyword `format` (OpenAPI 3.1, section 4.4; JSON Schema 2020-12, Validation,
/// section 7), which may have any text.
#[derive(Debug, Drop, PartialEq, Eq)]
pub enum SchemaFormat {
    /// A format that the model knows, by its word.
    KnownFormat(KnownFormat),
    /// A format of any other name. One that is the word of a known format is written as it stands, and so reads back as
    /// [`SchemaFormat::KnownFormat`].
    Custom(String),
}

// The format that a tree names. A tree that is no text is refused as `Kind` with the name.
#[tactic(auto, using(crate::proofs::ReadFormats::by_formats))]
fn read_format(alloc: Global, tree: &Value, name: &'static str) -> Result<SchemaFormat, ReadFault>
    ensures ok { IfOk result (λ f. read schema_format (view tree.now) ≡ Some (schema_format_doc f)) }
    ensures err { IfErr result (Refuses (read schema_format (view tree.now))) }
    ensures no_text { IfErr result (λ e. is_some (as_str (view tree.now)) ≡ false → e ≡ ReadFault.Kind name.entry) }
{
    let Some(text) = tree.as_str() else {
        return Err(ReadFault::Kind(name));
    };
    match KnownFormat::from_text(text) {
        Some(known) => Ok(SchemaFormat::KnownFormat(known)),
        None => Ok(SchemaFormat::Custom(String::from_str(alloc, text)?)),
    }
}

impl Documented for SchemaFormat {
    ghost kind = { schema_format };

    ghost doc = { schema_format_doc };
}

/// A text.
#[tactic(auto, using(utoipa_base::proofs::Sending::by_sending))]
impl Emit for SchemaFormat {
    fn emit<S: JsonSink>(&self, out: &mut S) -> Result<(), AllocError> {
        match self {
            SchemaFormat::KnownFormat(known) => known.emit(out),
            SchemaFormat::Custom(name) => out.string(name.as_str()),
        }
    }
}

/// A text.
#[tactic(auto, using(crate::proofs::ReadFormats::by_formats, crate::proofs::Counts::schema_format_counts_none))]
impl Tree for SchemaFormat {
    ghost is_of_kind = { schema_format_of_kind };

    fn read_plain(
        alloc: Global,
        tree: &Value,
        _readings: &mut Readings,
    ) -> Result<SchemaFormat, ReadFault> {
        read_format(alloc, tree, "SchemaFormat")
    }

    fn try_clone(&self, alloc: Global) -> Result<SchemaFormat, AllocError> {
        match self {
            SchemaFormat::KnownFormat(known) => Ok(SchemaFormat::KnownFormat(*known)),
            SchemaFormat::Custom(name) => Ok(SchemaFormat::Custom(name.try_clone(alloc)?)),
        }
    }
}

impl Place for SchemaFormat {
    fn is_schema() -> bool {
        false
    }
}
