//! The version of the standard that a document follows.
ghost use Rattle.std.specs.Prelude.{◌≡◌, ℤ, List, ◌∷◌, [], true, false, Some, is_some, option_map, IfOk, IfErr};
ghost use Rattle.serde_json.specs.Find.{as_str};
ghost use Rattle.serde_json.specs.View.{view};
ghost use Rattle.utoipa_base.specs.Faults.{Refuses};
ghost use Rattle.utoipa_base.specs.Kinds.{version};
ghost use Rattle.utoipa_base.specs.Reading.{read};
ghost use Rattle.utoipa_base.specs.Version.{read_version, piece_number, and_number};
ghost use Rattle.utoipa_leaf.specs.Version.{version_text, version_doc, version_of_kind, version_after};

use serde_json::Value;
use std::alloc::{AllocError, Global};
use std::fmt;
use utoipa_base::{Documented, Emit, JsonSink, Place, ReadFault, Readings, Tree};

/// The version of the OpenAPI Specification that a document follows: the field `openapi` of an OpenAPI Object (OpenAPI
/// 3.1, section 4.8.1).
#[derive(Clone, Copy, Debug, Default, Drop, PartialEq, Eq)]
pub enum OpenApiVersion {
    /// OpenAPI 3.1, written `3.1.0`.
    #[default]
    Version31,
    /// OpenAPI 3.2, written `3.2.0`.
    Version32,
}

impl OpenApiVersion {
    /// The version's text, as it is written.
    pub fn as_text(self) -> &'static str
        ensures { result.now ≡ version_text self }
    {
        match self {
            OpenApiVersion::Version31 => "3.1.0",
            OpenApiVersion::Version32 => "3.2.0",
        }
    }
}

// The numbers of a version text so far.
#[derive(Clone, Copy, Drop)]
enum Numbers {
    // None.
    Nothing,
    // The one number 3.
    Three,
    // Two numbers, which name this version.
    Named(OpenApiVersion),
    // Three numbers, the first two of which name this version.
    Whole(OpenApiVersion),
    // Numbers that begin no version.
    Others,
}

impl Numbers {
    // With one more number.
    fn and(self, number: i8) -> Numbers
        ensures { (rest : List ℤ) → version_after result rest ≡ version_after self (number ∷ rest) }
    {
        match self {
            Numbers::Nothing if number == 3 => Numbers::Three,
            Numbers::Three if number == 1 => Numbers::Named(OpenApiVersion::Version31),
            Numbers::Three if number == 2 => Numbers::Named(OpenApiVersion::Version32),
            Numbers::Named(named) => Numbers::Whole(named),
            _ => Numbers::Others,
        }
    }

    // With the number of a piece, if it counts.
    fn and_piece(self, piece: &str) -> Numbers
        ensures { (rest : List ℤ) → version_after result rest
            ≡ version_after self (and_number (piece_number piece.now) rest) }
    {
        match number_of(piece) {
            Some(number) => self.and(number),
            None => self,
        }
    }

    // The version of the numbers, where none is still to come.
    fn version(self) -> Option<OpenApiVersion>
        ensures { option_map version_text result ≡ version_after self [] }
    {
        match self {
            Numbers::Whole(named) => Some(named),
            _ => None,
        }
    }
}

// The number of a piece that is an optional sign and digits with a value from -128 to 127.
fn number_of(piece: &str) -> Option<i8>
    ensures { result ≡ piece_number piece.now }
{
    match piece.parse::<i8>() {
        Ok(number) => Some(number),
        Err(_) => None,
    }
}

// The version that a text names. Pieces between the dots that are no numbers from -128 to 127 don't count.
fn version_named(text: &str) -> Option<OpenApiVersion>
    ensures { option_map version_text result ≡ read_version text.now }
{
    let mut numbers = Numbers::Nothing;
    let mut rest = text;
    while let Some((piece, later)) = rest.split_once('.') {
        numbers = numbers.and_piece(piece);
        rest = later;
    }
    numbers.and_piece(rest).version()
}

// The version that the tree names. A text that names none is refused as `Word`, and another tree as `Kind`.
#[tactic(auto, using(crate::proofs::Versions::by_version))]
fn read_named(tree: &Value, name: &'static str) -> Result<OpenApiVersion, ReadFault>
    ensures ok { IfOk result (λ v. read version (view tree.now) ≡ Some (version_doc v)) }
    ensures err { IfErr result (Refuses (read version (view tree.now))) }
    ensures no_word { IfErr result (λ e. is_some (as_str (view tree.now)) ≡ true → e ≡ ReadFault.Word name.entry) }
    ensures no_text { IfErr result (λ e. is_some (as_str (view tree.now)) ≡ false → e ≡ ReadFault.Kind name.entry) }
{
    match tree.as_str() {
        Some(text) => version_named(text).ok_or(ReadFault::Word(name)),
        None => Err(ReadFault::Kind(name)),
    }
}

/// The version's text.
impl fmt::Display for OpenApiVersion {
    ghost output = { λ version. Some (version_text version) };

    fn fmt<W: fmt::Write>(&self, f: &mut fmt::Formatter<W>) -> fmt::Result {
        f.write_str(self.as_text())
    }
}

impl Documented for OpenApiVersion {
    ghost kind = { version };

    ghost doc = { version_doc };
}

#[tactic(auto, using(utoipa_base::proofs::Sending::by_sending))]
impl Emit for OpenApiVersion {
    fn emit<S: JsonSink>(&self, out: &mut S) -> Result<(), AllocError> {
        out.string(self.as_text())
    }
}

#[tactic(auto, using(crate::proofs::Versions::by_version))]
impl Tree for OpenApiVersion {
    ghost is_of_kind = { version_of_kind };

    fn read_plain(
        _alloc: Global,
        tree: &Value,
        _readings: &mut Readings,
    ) -> Result<OpenApiVersion, ReadFault> {
        read_named(tree, "OpenApiVersion")
    }

    fn try_clone(&self, _alloc: Global) -> Result<OpenApiVersion, AllocError> {
        Ok(*self)
    }
}

impl Place for OpenApiVersion {
    fn is_schema() -> bool {
        false
    }
}
