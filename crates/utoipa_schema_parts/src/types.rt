//! The types of schemas.
ghost use Rattle.std.specs.Prelude.{◌≡◌, ◌≤◌, ◌<◌, ◌+◌, ◌↔◌, refl, true, false, Some, is_some, IsTrue, IfOk, IfErr};
ghost use Rattle.std.specs.Iterator.{IsFinite};
ghost use Rattle.serde_json.specs.Find.{as_str, as_array};
ghost use Rattle.serde_json.specs.View.{view};
ghost use Rattle.utoipa_base.specs.Faults.{Refuses};
ghost use Rattle.utoipa_base.specs.Kinds.{word_of, type_word, schema_type};
ghost use Rattle.utoipa_base.specs.Lists.{EachIterator, IsFilledFrom};
ghost use Rattle.utoipa_base.specs.Reading.{read};
ghost use Rattle.utoipa_base.specs.Values.{values};
ghost use Rattle.utoipa_schema_parts.specs.Types.{TypeWords, schema_type_doc, schema_type_of_kind};

use serde_json::Value;
use std::alloc::{AllocError, Global};
use std::fmt;
use utoipa_base::{
    Documented, Emit, Empty, JsonSink, Omit, Place, ReadFault, Readings, Tree, Word, emit_word,
    list_from, read_word,
};

/// A type of JSON values: a word of the keyword `type` (JSON Schema 2020-12, Validation, section 6.1.1).
#[derive(Clone, Copy, Debug, Default, Drop, PartialEq, Eq)]
pub enum TypeWord {
    /// Objects: `object`.
    #[default]
    Object,
    /// Texts: `string`.
    String,
    /// Numbers with no fraction: `integer`.
    Integer,
    /// Numbers: `number`.
    Number,
    /// True and false: `boolean`.
    Boolean,
    /// Arrays: `array`.
    Array,
    /// Null alone: `null`.
    Null,
}

impl Word for TypeWord {
    ghost use Rattle.utoipa_schema_parts.specs.Types.{type_word_text, every_type_word, type_word_by_text};

    ghost vocabulary = { type_word };

    ghost every = { every_type_word };

    ghost spelling = { type_word_text };

    ghost are_words = { refl };

    ghost found_by_text = { type_word_by_text };

    fn lookup(text: &str) -> Option<TypeWord> {
        match text {
            "object" => Some(TypeWord::Object),
            "string" => Some(TypeWord::String),
            "integer" => Some(TypeWord::Integer),
            "number" => Some(TypeWord::Number),
            "boolean" => Some(TypeWord::Boolean),
            "array" => Some(TypeWord::Array),
            "null" => Some(TypeWord::Null),
            _ => None,
        }
    }

    fn as_text(&self) -> &'static str {
        match self {
            TypeWord::Object => "object",
            TypeWord::String => "string",
            TypeWord::Integer => "integer",
            TypeWord::Number => "number",
            TypeWord::Boolean => "boolean",
            TypeWord::Array => "array",
            TypeWord::Null => "null",
        }
    }
}

/// The word.
impl fmt::Display for TypeWord {
    ghost use Rattle.utoipa_schema_parts.specs.Types.{type_word_text};

    ghost output = { λ word. Some (type_word_text word) };

    fn fmt<W: fmt::Write>(&self, f: &mut fmt::Formatter<W>) -> fmt::Result {
        f.write_str(self.as_text())
    }
}

impl Documented for TypeWord {
    ghost use Rattle.utoipa_schema_parts.specs.Types.{type_word_doc};

    ghost kind = { word_of type_word };

    ghost doc = { type_word_doc };
}

#[tactic(auto, using(utoipa_base::proofs::ByWords::by_words))]
impl Emit for TypeWord {
    fn emit<S: JsonSink>(&self, out: &mut S) -> Result<(), AllocError> {
        emit_word(out, self)
    }
}

#[tactic(auto, using(utoipa_base::proofs::ByWords::by_words))]
impl Tree for TypeWord {
    ghost use Rattle.utoipa_schema_parts.specs.Types.{type_word_of_kind};

    ghost is_of_kind = { type_word_of_kind };

    fn read_plain(
        _alloc: Global,
        tree: &Value,
        _readings: &mut Readings,
    ) -> Result<TypeWord, ReadFault> {
        read_word(tree, "TypeWord")
    }

    fn try_clone(&self, _alloc: Global) -> Result<TypeWord, AllocError> {
        Ok(*self)
    }
}

impl Place for TypeWord {
    fn is_schema() -> bool {
        false
    }
}

/// Which values a schema allows by their type: the keyword `type` (JSON Schema 2020-12, Validation, section 6.1.1).
#[derive(Debug, Drop, PartialEq, Eq)]
pub enum SchemaType {
    /// Values of one type, written as its word.
    Single(TypeWord),
    /// Values of any of some types, written as a list of their words.
    Array(Vec<TypeWord>),
    /// Any value. It is written as null, or left out where the keyword may be absent.
    AnyValue,
}

impl SchemaType {
    /// Values of one type.
    pub fn new(word: TypeWord) -> SchemaType
        ensures { result ≡ SchemaType.Single word }
    {
        SchemaType::Single(word)
    }

    /// Any value.
    pub fn any() -> SchemaType
        ensures { result ≡ SchemaType.AnyValue }
    {
        SchemaType::AnyValue
    }

    /// Values of any of the types that the iterator gives, in its order. The iterator has to end. Fails where memory runs
    /// out.
    pub fn from_types<I: IntoIterator<Item = TypeWord>>(
        alloc: Global,
        types: I,
    ) -> Result<SchemaType, AllocError>
        requires can { EachIterator I.into_iter_gives I.IntoIter.can_next types }
        requires ends { EachIterator I.into_iter_gives (λ it. IsFinite (I.IntoIter.remaining it)) types }
        ensures { IfOk result (λ t. (words : TypeWords)
            × IsFilledFrom I.into_iter_gives I.IntoIter.next_gives types words
            × (t ≡ SchemaType.Array words)) }
    {
        Ok(SchemaType::Array(list_from(alloc, types)?))
    }

    /// Whether any value is allowed, without a list of types.
    pub fn is_any_value(&self) -> bool
        ensures { IsTrue result ↔ (self.now ≡ SchemaType.AnyValue) }
    {
        matches!(self, SchemaType::AnyValue)
    }
}

/// Types are collected to values of any of them, as by [`SchemaType::from_types`].
impl FromIterator<TypeWord> for SchemaType {
    ghost use Rattle.utoipa_schema_parts.specs.declared.types.SchemaType.{SchemaType};

    type Alloc = Global;

    ghost from_iter_gives = { λ types t. (words : TypeWords) × (words.items ≡ types) × (t ≡ SchemaType.Array words) };

    fn from_iter<U: IntoIterator<Item = TypeWord>>(
        alloc: Global,
        iter: U,
    ) -> Result<SchemaType, AllocError> {
        SchemaType::from_types(alloc, iter)
    }
}

/// Objects.
impl Default for SchemaType {
    ghost use Rattle.utoipa_schema_parts.specs.declared.types.SchemaType.{SchemaType};
    ghost use Rattle.utoipa_schema_parts.specs.declared.types.TypeWord.{TypeWord};

    ghost is_default = { λ t. t ≡ SchemaType.Single TypeWord.Object };

    fn default() -> SchemaType {
        SchemaType::Single(TypeWord::Object)
    }
}

/// Values of one type.
impl From<TypeWord> for SchemaType {
    ghost use Rattle.utoipa_schema_parts.specs.declared.types.SchemaType.{SchemaType};

    ghost from_gives = { λ word t. t ≡ SchemaType.Single word };

    fn from(word: TypeWord) -> SchemaType {
        SchemaType::new(word)
    }
}

// The types that a tree names.
//
// A text that is no type is refused as `Word` with the name, and a tree that is no text, list or null as `Kind` with it.
#[tactic(auto, using(crate::proofs::ReadTypes::by_types))]
fn read_types(
    alloc: Global,
    tree: &Value,
    name: &'static str,
    readings: &mut Readings,
) -> Result<SchemaType, ReadFault>
    ensures ok { IfOk result (λ t. read schema_type (view tree.now) ≡ Some (schema_type_doc t)) }
    ensures err { IfErr result (Refuses (read schema_type (view tree.now))) }
    ensures no_word { IfErr result (λ e. is_some (as_str (view tree.now)) ≡ true → e ≡ ReadFault.Word name.entry) }
    ensures no_kind { IfErr result (λ e. is_some (as_str (view tree.now)) ≡ false
        → is_some (as_array (view tree.now)) ≡ false → e ≡ ReadFault.Kind name.entry) }
    ensures grows { readings.old ≤ readings.new }
    ensures at_most { readings.new ≤ readings.old + values (view tree.now) }
{
    if tree.is_null() {
        return Ok(SchemaType::AnyValue);
    }
    if tree.is_array() {
        let words = <Vec<TypeWord> as Tree>::read_plain(alloc, tree, readings)?;
        return Ok(SchemaType::Array(words));
    }
    Ok(SchemaType::Single(read_word(tree, name)?))
}

impl Documented for SchemaType {
    ghost kind = { schema_type };

    ghost doc = { schema_type_doc };
}

/// A word, a list of words, or null.
#[tactic(auto, using(crate::proofs::ReadTypes::by_types))]
impl Emit for SchemaType {
    fn emit<S: JsonSink>(&self, out: &mut S) -> Result<(), AllocError> {
        match self {
            SchemaType::Single(word) => word.emit(out),
            SchemaType::Array(words) => words.emit(out),
            SchemaType::AnyValue => out.null(),
        }
    }
}

/// A word, a list of words, or null.
#[tactic(auto, using(crate::proofs::ReadTypes::by_types, crate::proofs::Counts::schema_type_counts_none))]
impl Tree for SchemaType {
    ghost is_of_kind = { schema_type_of_kind };

    fn read_plain(
        alloc: Global,
        tree: &Value,
        readings: &mut Readings,
    ) -> Result<SchemaType, ReadFault> {
        read_types(alloc, tree, "SchemaType", readings)
    }

    fn try_clone(&self, alloc: Global) -> Result<SchemaType, AllocError> {
        match self {
            SchemaType::Single(word) => Ok(SchemaType::Single(*word)),
            SchemaType::Array(words) => Ok(SchemaType::Array(words.try_clone(alloc)?)),
            SchemaType::AnyValue => Ok(SchemaType::AnyValue),
        }
    }
}

impl Place for SchemaType {
    fn is_schema() -> bool {
        false
    }
}

/// Any value.
impl Empty for SchemaType {
    fn empty(_alloc: Global) -> SchemaType {
        SchemaType::any()
    }
}

/// Any value.
impl Omit for SchemaType {
    #[tactic(auto, using(crate::proofs::ReadTypes::left_out_if))]
    fn is_omitted(&self) -> bool {
        self.is_any_value()
    }
}
