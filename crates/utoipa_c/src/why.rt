//! Why a text is refused that has a tree which is no document: the first place that does not fit.
//!
//! A reader tells the fault that it met, and the order in which it looks is its own. A call from C tells the first misfit, in the order in which
//! `utoipa_check` lists them. The tree is looked through only where a text is refused for a misfit.
ghost use Rattle.std.specs.Prelude.{◌≡◌, Some, true, false, IfOk};
ghost use Rattle.serde_json.specs.Data.{Data};
ghost use Rattle.serde_json.specs.View.{view};
ghost use Rattle.utoipa_check.specs.Misfits.{misfits_and_fractions};
ghost use Rattle.utoipa_check.specs.Views.{cause_of};
ghost use Rattle.utoipa_command.specs.Answers as answers;
ghost use Rattle.utoipa_command.specs.Commands.{request_of};
ghost use Rattle.utoipa_command.specs.Dropped.{documents_kind};
ghost use Rattle.utoipa_findings.specs.Sources.{tree_of};
ghost use Rattle.utoipa_tables.specs.Tables.{kind_of};
ghost use Rattle.utoipa_c.specs.Causes as specs;

use serde_json::Value;
use std::alloc::{AllocError, Global};
use utoipa_check::{Cause, misfits};
use utoipa_command::{Command, Refusal};
use utoipa_tables::{Kind, ObjectType};

const DOCUMENTS: Kind = Kind::ListOf(&Kind::Named(ObjectType::OpenApiObject));

const SCHEMA: Kind = Kind::RefOr(&Kind::Schema);

/// The kind of a list of documents.
pub(crate) fn list_kind() -> Kind
    ensures { kind_of result ≡ documents_kind }
{
    DOCUMENTS
}

/// The kind of the document that a command reads.
pub(crate) fn input_kind(command: Command) -> Kind
    ensures { kind_of result ≡ answers.input_kind (request_of command.entry) }
{
    match command {
        Command::Server => Kind::Named(ObjectType::ServerObject),
        Command::Schema => SCHEMA,
        Command::Document => Kind::Named(ObjectType::OpenApiObject),
        Command::Merge | Command::Nest(_) => DOCUMENTS,
    }
}

/// The refusal that says a cause.
fn refusal_of(cause: Cause) -> Refusal
    ensures { result ≡ specs.refusal_of (cause_of cause) }
{
    match cause {
        Cause::Absent(_) => Refusal::Missing,
        Cause::Expected(_) => Refusal::Kind,
        Cause::UnknownWord(_) | Cause::UnknownName(_) => Refusal::Word,
        Cause::NoAlternative(_) => Refusal::Alternative,
        Cause::Fraction => Refusal::Fraction,
    }
}

/// Whether a refusal is for a tree that does not fit.
fn is_of_misfit(refusal: Refusal) -> bool
    ensures { result ≡ specs.is_of_misfit refusal }
{
    match refusal {
        Refusal::Missing | Refusal::Kind | Refusal::Word | Refusal::Alternative => true,
        _ => false,
    }
}

/// The refusal that says the first misfit of a tree; another where the tree fits. Fails where memory runs out.
fn first_in_tree(
    alloc: Global,
    kind: Kind,
    tree: &Value,
    other: Refusal,
) -> Result<Refusal, AllocError>
    ensures { IfOk result (λ w. w ≡ specs.first_or other (misfits_and_fractions (kind_of kind) (view tree.now))) }
{
    let report = misfits(alloc, kind, tree)?;
    match report.misfits.first() {
        Some(misfit) => Ok(refusal_of(misfit.cause)),
        None => Ok(other),
    }
}

/// The same of a text that has a tree. Fails where memory runs out.
fn first_in_text(
    alloc: Global,
    kind: Kind,
    text: &[u8],
    other: Refusal,
) -> Result<Refusal, AllocError>
    ensures { IfOk result (λ w. (t : Data) → tree_of text.now ≡ Some t
        → w ≡ specs.first_or other (misfits_and_fractions (kind_of kind) t)) }
{
    let Ok(text) = str::from_utf8(text) else {
        return Ok(other);
    };
    match Value::from_str(alloc, text) {
        Ok(tree) => first_in_tree(alloc, kind, &tree, other),
        Err(error) if error.is_memory() => Err(AllocError),
        Err(_) => Ok(other),
    }
}

/// What a text is refused for: the first misfit in place of any other, or want of memory on the way there. A refusal for anything else stays.
pub(crate) fn told(alloc: Global, kind: Kind, text: &[u8], refusal: Refusal) -> Refusal
    ensures other { specs.is_of_misfit refusal ≡ false → result ≡ refusal }
    ensures misfit { specs.is_of_misfit refusal ≡ true → specs.IsToldFirst (kind_of kind) text.now refusal result }
{
    if !is_of_misfit(refusal) {
        return refusal;
    }
    match first_in_text(alloc, kind, text, refusal) {
        Ok(first) => first,
        Err(_) => Refusal::Memory,
    }
}
