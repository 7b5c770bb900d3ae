//! Which values of these types come back from what they are written as.
ghost use Rattle.utoipa_schema_parts.specs.Discriminator.{discriminator_of_kind};
ghost use Rattle.utoipa_schema_parts.specs.Format.{known_format_of_kind, schema_format_of_kind};
ghost use Rattle.utoipa_schema_parts.specs.Types.{type_word_of_kind, schema_type_of_kind};
ghost use Rattle.utoipa_schema_parts.specs.Xml.{xml_of_kind};

use crate::{Discriminator, KnownFormat, SchemaFormat, SchemaType, TypeWord, Xml};
use utoipa_base::{Unambiguous, extensions_are_unambiguous};

/// An XML object always is, since it has no extensions.
#[tactic(auto, using(utoipa_base::proofs::UnambiguousParts::by_parts))]
impl Unambiguous for Xml {
    ghost of_kind = { xml_of_kind };

    fn is_unambiguous(&self) -> bool {
        let _xml = self;
        true
    }
}

#[tactic(auto, using(utoipa_base::proofs::UnambiguousParts::by_parts))]
impl Unambiguous for Discriminator {
    ghost of_kind = { discriminator_of_kind };

    fn is_unambiguous(&self) -> bool {
        extensions_are_unambiguous(&self.extensions)
    }
}

/// A word always is.
#[tactic(auto, using(utoipa_base::proofs::UnambiguousParts::by_parts))]
impl Unambiguous for KnownFormat {
    ghost of_kind = { known_format_of_kind };

    fn is_unambiguous(&self) -> bool {
        true
    }
}

/// A format always is: a custom one is written as the text that it is.
#[tactic(auto, using(utoipa_base::proofs::UnambiguousParts::by_parts))]
impl Unambiguous for SchemaFormat {
    ghost of_kind = { schema_format_of_kind };

    fn is_unambiguous(&self) -> bool {
        match self {
            SchemaFormat::KnownFormat(format) => format.is_unambiguous(),
            SchemaFormat::Custom(format) => format.is_unambiguous(),
        }
    }
}

/// A word always is.
#[tactic(auto, using(utoipa_base::proofs::UnambiguousParts::by_parts))]
impl Unambiguous for TypeWord {
    ghost of_kind = { type_word_of_kind };

    fn is_unambiguous(&self) -> bool {
        true
    }
}

/// A type always is: a word, a list of words, or any value.
#[tactic(auto, using(utoipa_base::proofs::UnambiguousParts::by_parts))]
impl Unambiguous for SchemaType {
    ghost of_kind = { schema_type_of_kind };

    fn is_unambiguous(&self) -> bool {
        match self {
            SchemaType::Single(word) => word.is_unambiguous(),
            SchemaType::Array(words) => words.is_unambiguous(),
            SchemaType::AnyValue => true,
        }
    }
}
