//! Which contents, encodings, headers and links come back from what they are written as.
ghost use Rattle.utoipa_media.specs.Link.{link_of_kind};
ghost use Rattle.utoipa_media.specs.OfKind.{content_of_kind, encoding_of_kind, header_of_kind};

use crate::content::Content;
use crate::encoding::Encoding;
use crate::header::Header;
use crate::link::Link;
use utoipa_base::{
    NoReference, Unambiguous, boxed_is_unambiguous, extensions_are_unambiguous,
    option_is_unambiguous,
};

#[tactic(auto, using(utoipa_leaf::proofs::UnambiguousFields::by_words_and_parts))]
impl Unambiguous for Content {
    ghost of_kind = { content_of_kind };

    #[cycle(contents)]
    fn is_unambiguous(&self) -> bool {
        self.encoding.is_unambiguous()
            && self.examples.is_unambiguous()
            && boxed_is_unambiguous(&self.item_encoding)
            && option_is_unambiguous(&self.item_schema)
            && self.prefix_encoding.is_unambiguous()
            && option_is_unambiguous(&self.schema)
            && extensions_are_unambiguous(&self.extensions)
    }
}

impl NoReference for Content {
    fn is_no_reference(&self) -> bool {
        let _content = self;
        true
    }
}

#[tactic(auto, using(crate::proofs::UnambiguousEncodings::by_encodings))]
impl Unambiguous for Encoding {
    ghost of_kind = { encoding_of_kind };

    #[cycle(contents)]
    fn is_unambiguous(&self) -> bool {
        self.encoding.is_unambiguous()
            && self.headers.is_unambiguous()
            && boxed_is_unambiguous(&self.item_encoding)
            && self.prefix_encoding.is_unambiguous()
            && extensions_are_unambiguous(&self.extensions)
    }
}

#[tactic(auto, using(utoipa_leaf::proofs::UnambiguousFields::by_words_and_parts))]
impl Unambiguous for Header {
    ghost of_kind = { header_of_kind };

    #[cycle(contents)]
    fn is_unambiguous(&self) -> bool {
        self.content.is_unambiguous()
            && self.examples.is_unambiguous()
            && option_is_unambiguous(&self.schema)
            && extensions_are_unambiguous(&self.extensions)
    }
}

impl NoReference for Header {
    fn is_no_reference(&self) -> bool {
        let _header = self;
        true
    }
}

#[tactic(auto, using(utoipa_base::proofs::UnambiguousParts::by_parts))]
impl Unambiguous for Link {
    ghost of_kind = { link_of_kind };

    fn is_unambiguous(&self) -> bool {
        option_is_unambiguous(&self.server) && extensions_are_unambiguous(&self.extensions)
    }
}

impl NoReference for Link {
    fn is_no_reference(&self) -> bool {
        let _link = self;
        true
    }
}
