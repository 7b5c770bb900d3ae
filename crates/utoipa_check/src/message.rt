//! What a misfit says, in words.
ghost use Rattle.std.specs.Fmt.{WritesOnOk};
ghost use Rattle.std.specs.Prelude.{◌≡◌, Some};
ghost use Rattle.utoipa_base.specs.Rows.{texts};
ghost use Rattle.utoipa_check.specs.Said.{expectation as expected_text, words_text, kinds_text, cause_text, misfit_text};
ghost use Rattle.utoipa_check.specs.Views.{cause_of, misfit_of};
ghost use Rattle.utoipa_tables.specs.Tables.{kind_of, kinds_of};

use crate::misfit::{Cause, Misfit};
use crate::pointer::ShownPointer;
use crate::shown::Shown;
use std::fmt;
use utoipa_tables::{Kind, title};

/// What is expected of a tree of a kind.
fn expectation(kind: Kind) -> &'static str
    ensures { result.now ≡ expected_text (kind_of kind) }
{
    match kind {
        Kind::Text => "a string",
        Kind::Flag => "true or false",
        Kind::Whole => "an integer from 0 to 18446744073709551615",
        Kind::Numeral => "an integer from -9223372036854775808 to 18446744073709551615",
        Kind::Any => "anything",
        Kind::WordOf(_) => "a string",
        Kind::Version => "a version 3.1 or 3.2",
        Kind::ListOf(_) => "an array",
        Kind::MapOf(_) | Kind::OrderedMapOf(_) | Kind::EntriesOf(_) => "an object",
        Kind::RefOr(own) => expectation(*own),
        Kind::Named(object_type) => title(object_type),
        Kind::Schema => "a Schema Object",
        Kind::SchemaType => "a type, an array of types or null",
        Kind::SchemaFormat => "a string",
        Kind::ArrayItems => "a Schema Object or false",
        Kind::AdditionalProperties => "a Schema Object, true or false",
        Kind::SecurityScheme => "a Security Scheme Object",
        Kind::ApiKey => "a Security Scheme Object of `apiKey`",
        Kind::Flows => "an OAuth Flows Object",
    }
}

/// Writes words, each in quotation marks, with a comma between them.
fn write_words<W: fmt::Write>(f: &mut fmt::Formatter<W>, words: &[&str]) -> fmt::Result
    ensures { WritesOnOk W.write_str_gives f.old result (words_text (texts words.now)) f.new }
{
    let [first, others @ ..] = words else {
        return Ok(());
    };
    let first = Shown(*first);
    write!(f, "`{first}`")?;
    for word in others {
        let word = Shown(*word);
        write!(f, ", `{word}`")?;
    }
    Ok(())
}

/// Writes what is expected of trees of some kinds, with `or` between them.
fn write_kinds<W: fmt::Write>(f: &mut fmt::Formatter<W>, kinds: &[Kind]) -> fmt::Result
    ensures { WritesOnOk W.write_str_gives f.old result (kinds_text (kinds_of kinds.now)) f.new }
{
    let [first, others @ ..] = kinds else {
        return Ok(());
    };
    let expected = expectation(*first);
    write!(f, "{expected}")?;
    for kind in others {
        let expected = expectation(*kind);
        write!(f, " or {expected}")?;
    }
    Ok(())
}

impl fmt::Display for Cause {
    ghost output = { λ c. Some (cause_text (cause_of c)) };

    fn fmt<W: fmt::Write>(&self, f: &mut fmt::Formatter<W>) -> fmt::Result {
        match self {
            Cause::Absent(name) => {
                let name = Shown(*name);
                write!(f, "the member `{name}` is required")
            }
            Cause::Expected(kind) => {
                let expected = expectation(*kind);
                write!(f, "{expected} is expected")
            }
            Cause::UnknownWord(words) => {
                write!(f, "one of these words is expected: ")?;
                write_words(f, words)
            }
            Cause::NoAlternative(kinds) => {
                write!(f, "this is not ")?;
                write_kinds(f, kinds)
            }
            Cause::UnknownName(names) => {
                write!(f, "this name is none of ")?;
                write_words(f, names)
            }
            Cause::Fraction => write!(f, "the number is not an integer of 64 bits"),
        }
    }
}

/// The JSON Pointer of the place, and the cause.
impl fmt::Display for Misfit<'_> {
    ghost output = { λ m. Some (misfit_text (misfit_of m)) };

    fn fmt<W: fmt::Write>(&self, f: &mut fmt::Formatter<W>) -> fmt::Result {
        let pointer = ShownPointer(&self.pointer);
        let cause = self.cause;
        write!(f, "{pointer}: {cause}")
    }
}
