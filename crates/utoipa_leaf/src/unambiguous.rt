//! Which values of these types come back from what they are written as.
ghost use Rattle.utoipa_leaf.specs.Example.{example_of_kind};
ghost use Rattle.utoipa_leaf.specs.ExternalDocs.{external_docs_of_kind};
ghost use Rattle.utoipa_leaf.specs.Info.{contact_of_kind, license_of_kind, info_of_kind};
ghost use Rattle.utoipa_leaf.specs.Path.{http_method_of_kind, parameter_in_of_kind, parameter_style_of_kind};
ghost use Rattle.utoipa_leaf.specs.Server.{server_variable_of_kind, server_of_kind};
ghost use Rattle.utoipa_leaf.specs.Tag.{tag_of_kind};
ghost use Rattle.utoipa_leaf.specs.Version.{version_of_kind};

use crate::example::Example;
use crate::external_docs::ExternalDocs;
use crate::info::{Contact, Info, License};
use crate::path::{HttpMethod, ParameterIn, ParameterStyle};
use crate::server::{Server, ServerVariable};
use crate::tag::Tag;
use crate::version::OpenApiVersion;
use utoipa_base::{NoReference, Unambiguous, extensions_are_unambiguous, option_is_unambiguous};

#[tactic(auto, using(utoipa_base::proofs::UnambiguousParts::by_parts))]
impl Unambiguous for ExternalDocs {
    ghost of_kind = { external_docs_of_kind };

    fn is_unambiguous(&self) -> bool {
        extensions_are_unambiguous(&self.extensions)
    }
}

#[tactic(auto, using(utoipa_base::proofs::UnambiguousParts::by_parts))]
impl Unambiguous for Example {
    ghost of_kind = { example_of_kind };

    fn is_unambiguous(&self) -> bool {
        extensions_are_unambiguous(&self.extensions)
    }
}

#[tactic(auto, using(utoipa_base::proofs::UnambiguousParts::by_parts))]
impl Unambiguous for Contact {
    ghost of_kind = { contact_of_kind };

    fn is_unambiguous(&self) -> bool {
        extensions_are_unambiguous(&self.extensions)
    }
}

#[tactic(auto, using(utoipa_base::proofs::UnambiguousParts::by_parts))]
impl Unambiguous for License {
    ghost of_kind = { license_of_kind };

    fn is_unambiguous(&self) -> bool {
        extensions_are_unambiguous(&self.extensions)
    }
}

#[tactic(auto, using(utoipa_base::proofs::UnambiguousParts::by_parts))]
impl Unambiguous for Info {
    ghost of_kind = { info_of_kind };

    fn is_unambiguous(&self) -> bool {
        option_is_unambiguous(&self.contact)
            && option_is_unambiguous(&self.license)
            && extensions_are_unambiguous(&self.extensions)
    }
}

#[tactic(auto, using(utoipa_base::proofs::UnambiguousParts::by_parts))]
impl Unambiguous for ServerVariable {
    ghost of_kind = { server_variable_of_kind };

    fn is_unambiguous(&self) -> bool {
        extensions_are_unambiguous(&self.extensions)
    }
}

#[tactic(auto, using(utoipa_base::proofs::UnambiguousParts::by_parts))]
impl Unambiguous for Server {
    ghost of_kind = { server_of_kind };

    fn is_unambiguous(&self) -> bool {
        option_is_unambiguous(&self.variables) && extensions_are_unambiguous(&self.extensions)
    }
}

#[tactic(auto, using(utoipa_base::proofs::UnambiguousParts::by_parts))]
impl Unambiguous for Tag {
    ghost of_kind = { tag_of_kind };

    fn is_unambiguous(&self) -> bool {
        option_is_unambiguous(&self.external_docs) && extensions_are_unambiguous(&self.extensions)
    }
}

/// A word always is.
#[tactic(auto, using(utoipa_base::proofs::UnambiguousParts::by_parts))]
impl Unambiguous for HttpMethod {
    ghost of_kind = { http_method_of_kind };

    fn is_unambiguous(&self) -> bool {
        true
    }
}

/// A word always is.
#[tactic(auto, using(utoipa_base::proofs::UnambiguousParts::by_parts))]
impl Unambiguous for ParameterIn {
    ghost of_kind = { parameter_in_of_kind };

    fn is_unambiguous(&self) -> bool {
        true
    }
}

/// A word always is.
#[tactic(auto, using(utoipa_base::proofs::UnambiguousParts::by_parts))]
impl Unambiguous for ParameterStyle {
    ghost of_kind = { parameter_style_of_kind };

    fn is_unambiguous(&self) -> bool {
        true
    }
}

/// A version always is.
#[tactic(auto, using(utoipa_base::proofs::UnambiguousParts::by_parts))]
impl Unambiguous for OpenApiVersion {
    ghost of_kind = { version_of_kind };

    fn is_unambiguous(&self) -> bool {
        true
    }
}

impl NoReference for Example {
    fn is_no_reference(&self) -> bool {
        let _example = self;
        true
    }
}
