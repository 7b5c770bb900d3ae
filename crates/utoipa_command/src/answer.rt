//! The answer of a command to a text.
ghost use Rattle.std.specs.Prelude.{◌≡◌, false, IfOk, IfErr};
ghost use Rattle.serde_json.specs.Written.{has_float};
ghost use Rattle.utoipa_base.specs.Writing.{write};
ghost use Rattle.utoipa_command.specs.Answers.{line_of, IsAnswer, IsCause, IsCauseOfText, IsTextRewritten};
ghost use Rattle.utoipa_command.specs.Commands.{merge, nest, request_of};
ghost use Rattle.utoipa_findings.specs.Sources.{IsSourceOf};

use crate::command::Command;
use crate::refusal::Refusal;
use simdutf8::compat::from_utf8;
use std::alloc::Global;
use utoipa::Tree;
use utoipa::openapi::{OpenApi, RefOr, Schema, Server, merge_all};

/// The line with which the command answers a text. Fails with why the text is refused: no JSON text, a fraction, no document of
/// the command's kind, another number of documents than the command wants, or want of memory.
pub fn answer(alloc: Global, command: Command, text: &[u8]) -> Result<Vec<u8>, Refusal>
    ensures ok { IfOk result (λ line. IsAnswer (request_of command.entry) text.now line.items) }
    ensures err { IfErr result (IsCause (request_of command.entry) text.now) }
{
    match command {
        Command::Server => rewritten::<Server>(alloc, text),
        Command::Schema => rewritten::<RefOr<Schema>>(alloc, text),
        Command::Document => rewritten::<OpenApi>(alloc, text),
        Command::Merge => merged(alloc, text),
        Command::Nest(base) => nested(alloc, base, text),
    }
}

// Reads a document of the type and prints it.
fn rewritten<T: Tree>(alloc: Global, text: &[u8]) -> Result<Vec<u8>, Refusal>
    ensures ok { IfOk result (λ line. IsTextRewritten T.kind text.now line.items) }
    ensures err { IfErr result (IsCauseOfText T.kind text.now) }
{
    let document = document_of::<T>(alloc, text)?;
    line(alloc, &document)
}

// Prints what the documents of a list are merged into.
fn merged(alloc: Global, text: &[u8]) -> Result<Vec<u8>, Refusal>
    ensures ok { IfOk result (λ line. IsAnswer merge text.now line.items) }
    ensures err { IfErr result (IsCause merge text.now) }
{
    let documents = document_of::<Vec<OpenApi>>(alloc, text)?;
    match merge_all(alloc, documents)? {
        Some(document) => line(alloc, &document),
        None => Err(Refusal::Empty),
    }
}

// Prints the first document of a list of two with the second nested into it.
fn nested(alloc: Global, base: &str, text: &[u8]) -> Result<Vec<u8>, Refusal>
    ensures ok { IfOk result (λ line. IsAnswer (nest base.now) text.now line.items) }
    ensures err { IfErr result (IsCause (nest base.now) text.now) }
{
    let mut documents = document_of::<Vec<OpenApi>>(alloc, text)?.into_iter();
    match (documents.next(), documents.next(), documents.next()) {
        (Some(own), Some(nested), None) => line(alloc, &own.nest(alloc, base, nested)?),
        _ => Err(Refusal::Count),
    }
}

/// The document of a type that a text is. Fails where the text is no JSON, where a number of it is a fraction, where it is no document of the
/// type, and where memory runs out.
pub fn document_of<T: Tree>(alloc: Global, text: &[u8]) -> Result<T, Refusal>
    ensures ok { IfOk result (λ document. IsSourceOf T.kind (T.doc document) text.now) }
    ensures err { IfErr result (IsCauseOfText T.kind text.now) }
{
    match from_utf8(text) {
        Ok(text) => Ok(T::from_json_text(alloc, text)?),
        Err(_) => Err(Refusal::Text),
    }
}

// The document on a line.
fn line<T: Tree>(alloc: Global, document: &T) -> Result<Vec<u8>, Refusal>
    ensures ok { IfOk result (λ line. has_float (write (T.doc document.now)) ≡ false
        → line.items ≡ line_of (write (T.doc document.now))) }
    ensures err { IfErr result (λ w. w ≡ Refusal.Memory) }
{
    let mut line = document.to_json(alloc)?;
    line.push(b'\n')?;
    Ok(line)
}
