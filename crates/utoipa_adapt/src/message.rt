//! What was adapted or upgraded, in words.
ghost use Rattle.std.specs.Prelude.{◌≡◌, Some};
ghost use Rattle.utoipa_adapt.specs.Said.{rule_text, told_text};
ghost use Rattle.utoipa_adapt.specs.Views.{rule_of, told_of};

use crate::rules::Rule;
use crate::telling::AdaptedPlace;
use std::fmt;

impl Rule {
    /// What the rule makes of a tree, in words.
    pub fn text(self) -> &'static str
        ensures { result.now ≡ rule_text (rule_of self) }
    {
        match self {
            Rule::PathsAbsent => "the member `paths` is absent, and is read as `{}`",
            Rule::ResponsesAbsent => "the member `responses` is absent, and is read as `{}`",
            Rule::RequiredAbsent => "the member `required` is absent, and is read as `false`",
            Rule::VersionOfTwo => "the version has no third number, and is read with `.0`",
            Rule::SchemeInOtherCase => "the scheme is read in lower case",
            Rule::SchemaTrue => "the schema `true` is read as `{}`",
            Rule::ConstAlone => "the member `const` is read as an `enum` of its value",
            Rule::ItemsAbsent => "the member `items` is absent, and is read as `{}`",
            Rule::VersionOf30 => "the version becomes `3.1.0`",
            Rule::BesideReference => "the members beside `$ref` have no effect, and go",
            Rule::BinaryFormat => {
                "the format `binary` becomes the `contentMediaType` `application/octet-stream`"
            }
            Rule::ByteFormat => "the format `byte` becomes the `contentEncoding` `base64`",
            Rule::ExclusiveMinimum => "the bound of `minimum` becomes that of `exclusiveMinimum`",
            Rule::IdleExclusiveMinimum => "the member `exclusiveMinimum` has no effect, and goes",
            Rule::ExclusiveMaximum => "the bound of `maximum` becomes that of `exclusiveMaximum`",
            Rule::IdleExclusiveMaximum => "the member `exclusiveMaximum` has no effect, and goes",
            Rule::SchemaExample => "the member `example` becomes a list, `examples`",
            Rule::NullInEnum => "the `enum` gets null, which `nullable` allows",
            Rule::NullableType => "the member `nullable` becomes a second type, `null`",
            Rule::NullableReference => "the member `nullable` becomes an alternative, null",
            Rule::IdleNullable => "the member `nullable` has no effect, and goes",
        }
    }
}

impl fmt::Display for Rule {
    ghost output = { λ r. Some (rule_text (rule_of r)) };

    fn fmt<W: fmt::Write>(&self, f: &mut fmt::Formatter<W>) -> fmt::Result {
        let text = self.text();
        write!(f, "{text}")
    }
}

/// The JSON Pointer of the place, and what was changed there.
impl fmt::Display for AdaptedPlace<'_> {
    ghost output = { λ a. Some (told_text (told_of a)) };

    fn fmt<W: fmt::Write>(&self, f: &mut fmt::Formatter<W>) -> fmt::Result {
        let pointer = &self.pointer;
        let rule = self.rule;
        write!(f, "{pointer}: {rule}")
    }
}
