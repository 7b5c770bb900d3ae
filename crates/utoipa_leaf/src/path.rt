//! The words of paths and their parameters.
ghost use Rattle.std.specs.Prelude.{refl, Some};
ghost use Rattle.utoipa_base.specs.Kinds.{word_of, http_method, parameter_in, parameter_style};

use serde_json::Value;
use std::alloc::{AllocError, Global};
use std::fmt;
use utoipa_base::{
    Documented, Emit, JsonSink, Place, ReadFault, Readings, Tree, Word, emit_word, read_word,
};

/// The HTTP method of an operation: the field of a Path Item Object (OpenAPI 3.1, section 4.8.9) under which it stands.
///
/// Methods are ordered as they are listed here.
#[derive(Clone, Copy, Debug, Drop, PartialEq, Eq, PartialOrd, Ord, Hash)]
pub enum HttpMethod {
    /// A GET operation: `get`.
    Get,
    /// A POST operation: `post`.
    Post,
    /// A PUT operation: `put`.
    Put,
    /// A DELETE operation: `delete`.
    Delete,
    /// An OPTIONS operation: `options`.
    Options,
    /// A HEAD operation: `head`.
    Head,
    /// A PATCH operation: `patch`.
    Patch,
    /// A TRACE operation: `trace`.
    Trace,
}

impl HttpMethod {
    /// Every method, in the order of the list above.
    pub const ALL: [HttpMethod; 8] = [
        HttpMethod::Get,
        HttpMethod::Post,
        HttpMethod::Put,
        HttpMethod::Delete,
        HttpMethod::Options,
        HttpMethod::Head,
        HttpMethod::Patch,
        HttpMethod::Trace,
    ];
}

impl Word for HttpMethod {
    ghost use Rattle.utoipa_leaf.specs.Path.{http_method_text, every_http_method, http_method_by_text};

    ghost vocabulary = { http_method };

    ghost every = { every_http_method };

    ghost spelling = { http_method_text };

    ghost are_words = { refl };

    ghost found_by_text = { http_method_by_text };

    fn lookup(text: &str) -> Option<HttpMethod> {
        match text {
            "get" => Some(HttpMethod::Get),
            "post" => Some(HttpMethod::Post),
            "put" => Some(HttpMethod::Put),
            "delete" => Some(HttpMethod::Delete),
            "options" => Some(HttpMethod::Options),
            "head" => Some(HttpMethod::Head),
            "patch" => Some(HttpMethod::Patch),
            "trace" => Some(HttpMethod::Trace),
            _ => None,
        }
    }

    fn as_text(&self) -> &'static str {
        match self {
            HttpMethod::Get => "get",
            HttpMethod::Post => "post",
            HttpMethod::Put => "put",
            HttpMethod::Delete => "delete",
            HttpMethod::Options => "options",
            HttpMethod::Head => "head",
            HttpMethod::Patch => "patch",
            HttpMethod::Trace => "trace",
        }
    }
}

/// The word.
impl fmt::Display for HttpMethod {
    ghost use Rattle.utoipa_leaf.specs.Path.{http_method_text};

    ghost output = { λ word. Some (http_method_text word) };

    fn fmt<W: fmt::Write>(&self, f: &mut fmt::Formatter<W>) -> fmt::Result {
        f.write_str(self.as_text())
    }
}

impl Documented for HttpMethod {
    ghost use Rattle.utoipa_leaf.specs.Path.{http_method_doc};

    ghost kind = { word_of http_method };

    ghost doc = { http_method_doc };
}

#[tactic(auto, using(utoipa_base::proofs::ByWords::by_words))]
impl Emit for HttpMethod {
    fn emit<S: JsonSink>(&self, out: &mut S) -> Result<(), AllocError> {
        emit_word(out, self)
    }
}

#[tactic(auto, using(utoipa_base::proofs::ByWords::by_words))]
impl Tree for HttpMethod {
    ghost use Rattle.utoipa_leaf.specs.Path.{http_method_of_kind};

    ghost is_of_kind = { http_method_of_kind };

    fn read_plain(
        _alloc: Global,
        tree: &Value,
        _readings: &mut Readings,
    ) -> Result<HttpMethod, ReadFault> {
        read_word(tree, "HttpMethod")
    }

    fn try_clone(&self, _alloc: Global) -> Result<HttpMethod, AllocError> {
        Ok(*self)
    }
}

impl Place for HttpMethod {
    fn is_schema() -> bool {
        false
    }
}

/// The place of a parameter: the field `in` of a Parameter Object (OpenAPI 3.1, section 4.8.12).
#[derive(Clone, Copy, Debug, Default, Drop, PartialEq, Eq)]
pub enum ParameterIn {
    /// A part of the URL's query, under its name: `query`.
    Query,
    /// A part of the path, where a template names it: `path`.
    #[default]
    Path,
    /// A request header: `header`.
    Header,
    /// A cookie: `cookie`.
    Cookie,
    /// The URL's query as a whole, from OpenAPI 3.2 on: `querystring`.
    QueryString,
}

impl Word for ParameterIn {
    ghost use Rattle.utoipa_leaf.specs.Path.{parameter_in_text, every_parameter_in, parameter_in_by_text};

    ghost vocabulary = { parameter_in };

    ghost every = { every_parameter_in };

    ghost spelling = { parameter_in_text };

    ghost are_words = { refl };

    ghost found_by_text = { parameter_in_by_text };

    fn lookup(text: &str) -> Option<ParameterIn> {
        match text {
            "query" => Some(ParameterIn::Query),
            "path" => Some(ParameterIn::Path),
            "header" => Some(ParameterIn::Header),
            "cookie" => Some(ParameterIn::Cookie),
            "querystring" => Some(ParameterIn::QueryString),
            _ => None,
        }
    }

    fn as_text(&self) -> &'static str {
        match self {
            ParameterIn::Query => "query",
            ParameterIn::Path => "path",
            ParameterIn::Header => "header",
            ParameterIn::Cookie => "cookie",
            ParameterIn::QueryString => "querystring",
        }
    }
}

/// The word.
impl fmt::Display for ParameterIn {
    ghost use Rattle.utoipa_leaf.specs.Path.{parameter_in_text};

    ghost output = { λ word. Some (parameter_in_text word) };

    fn fmt<W: fmt::Write>(&self, f: &mut fmt::Formatter<W>) -> fmt::Result {
        f.write_str(self.as_text())
    }
}

impl Documented for ParameterIn {
    ghost use Rattle.utoipa_leaf.specs.Path.{parameter_in_doc};

    ghost kind = { word_of parameter_in };

    ghost doc = { parameter_in_doc };
}

#[tactic(auto, using(utoipa_base::proofs::ByWords::by_words))]
impl Emit for ParameterIn {
    fn emit<S: JsonSink>(&self, out: &mut S) -> Result<(), AllocError> {
        emit_word(out, self)
    }
}

#[tactic(auto, using(utoipa_base::proofs::ByWords::by_words))]
impl Tree for ParameterIn {
    ghost use Rattle.utoipa_leaf.specs.Path.{parameter_in_of_kind};

    ghost is_of_kind = { parameter_in_of_kind };

    fn read_plain(
        _alloc: Global,
        tree: &Value,
        _readings: &mut Readings,
    ) -> Result<ParameterIn, ReadFault> {
        read_word(tree, "ParameterIn")
    }

    fn try_clone(&self, _alloc: Global) -> Result<ParameterIn, AllocError> {
        Ok(*self)
    }
}

impl Place for ParameterIn {
    fn is_schema() -> bool {
        false
    }
}

/// How the value of a parameter is written: the field `style` of a Parameter Object (OpenAPI 3.1, section 4.8.12).
#[derive(Clone, Copy, Debug, Drop, PartialEq, Eq)]
pub enum ParameterStyle {
    /// Path-style parameters (RFC 6570, section 3.2.7): `matrix`.
    Matrix,
    /// Label-style parameters (RFC 6570, section 3.2.5): `label`.
    Label,
    /// Form-style parameters (RFC 6570, section 3.2.8): `form`.
    Form,
    /// Simple-style parameters (RFC 6570, section 3.2.2): `simple`.
    Simple,
    /// Values divided by spaces: `spaceDelimited`.
    SpaceDelimited,
    /// Values divided by pipes: `pipeDelimited`.
    PipeDelimited,
    /// The properties of an object, each in brackets behind the parameter's name: `deepObject`.
    DeepObject,
    /// Cookies, divided by a semicolon and a space, from OpenAPI 3.2 on: `cookie`.
    Cookie,
}

impl Word for ParameterStyle {
    ghost use Rattle.utoipa_leaf.specs.Path.{parameter_style_text, every_parameter_style, parameter_style_by_text};

    ghost vocabulary = { parameter_style };

    ghost every = { every_parameter_style };

    ghost spelling = { parameter_style_text };

    ghost are_words = { refl };

    ghost found_by_text = { parameter_style_by_text };

    fn lookup(text: &str) -> Option<ParameterStyle> {
        match text {
            "matrix" => Some(ParameterStyle::Matrix),
            "label" => Some(ParameterStyle::Label),
            "form" => Some(ParameterStyle::Form),
            "simple" => Some(ParameterStyle::Simple),
            "spaceDelimited" => Some(ParameterStyle::SpaceDelimited),
            "pipeDelimited" => Some(ParameterStyle::PipeDelimited),
            "deepObject" => Some(ParameterStyle::DeepObject),
            "cookie" => Some(ParameterStyle::Cookie),
            _ => None,
        }
    }

    fn as_text(&self) -> &'static str {
        match self {
            ParameterStyle::Matrix => "matrix",
            ParameterStyle::Label => "label",
            ParameterStyle::Form => "form",
            ParameterStyle::Simple => "simple",
            ParameterStyle::SpaceDelimited => "spaceDelimited",
            ParameterStyle::PipeDelimited => "pipeDelimited",
            ParameterStyle::DeepObject => "deepObject",
            ParameterStyle::Cookie => "cookie",
        }
    }
}

/// The word.
impl fmt::Display for ParameterStyle {
    ghost use Rattle.utoipa_leaf.specs.Path.{parameter_style_text};

    ghost output = { λ word. Some (parameter_style_text word) };

    fn fmt<W: fmt::Write>(&self, f: &mut fmt::Formatter<W>) -> fmt::Result {
        f.write_str(self.as_text())
    }
}

impl Documented for ParameterStyle {
    ghost use Rattle.utoipa_leaf.specs.Path.{parameter_style_doc};

    ghost kind = { word_of parameter_style };

    ghost doc = { parameter_style_doc };
}

#[tactic(auto, using(utoipa_base::proofs::ByWords::by_words))]
impl Emit for ParameterStyle {
    fn emit<S: JsonSink>(&self, out: &mut S) -> Result<(), AllocError> {
        emit_word(out, self)
    }
}

#[tactic(auto, using(utoipa_base::proofs::ByWords::by_words))]
impl Tree for ParameterStyle {
    ghost use Rattle.utoipa_leaf.specs.Path.{parameter_style_of_kind};

    ghost is_of_kind = { parameter_style_of_kind };

    fn read_plain(
        _alloc: Global,
        tree: &Value,
        _readings: &mut Readings,
    ) -> Result<ParameterStyle, ReadFault> {
        read_word(tree, "ParameterStyle")
    }

    fn try_clone(&self, _alloc: Global) -> Result<ParameterStyle, AllocError> {
        Ok(*self)
    }
}

impl Place for ParameterStyle {
    fn is_schema() -> bool {
        false
    }
}
