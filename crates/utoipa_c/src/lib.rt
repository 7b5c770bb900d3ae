//! The commands of `utoipa_doc` for C, and what is found in a document or dropped where documents are merged: each takes a text and the room for
//! its answer, and tells how it ended by a code.
//!
//! `bindings/c/utoipa.h` declares them for C. The codes are those of `specs/Codes.antt`: 0 where the answer is written, 1 where the room
//! is too small for it, and one for each refusal. Nothing is written to the room but where the code is 0.
#![tactic(auto)]

mod why;

ghost use Rattle.std.specs.Prelude.{◌≡◌, ◌≢◌, ◌<◌, ◌↔◌, length};
ghost use Rattle.std.specs.Str.{IsUtf8};
ghost use Rattle.utoipa_c.specs.Codes.{code_of, HasRoom, IsAnswered, IsRefused, IsToldOf, IsTooLong, IsWritten};
ghost use Rattle.utoipa_c.specs.Documents.{IsNoList};
ghost use Rattle.utoipa_command.specs.Answers.{IsCause, IsCauseOfText};
ghost use Rattle.utoipa_command.specs.Commands.{server, schema, document, merge, nest, request_of};
ghost use Rattle.utoipa_command.specs.Dropped.{AreConflicts, documents_kind};
ghost use Rattle.utoipa_command.specs.Files.{document_kind};
ghost use Rattle.utoipa_findings.specs.Told.{IsChecked};

use std::alloc::Global;
use utoipa_command::answer::answer;
use utoipa_command::files::{Form, Source, check};
use utoipa_command::{Command, Refusal, dropped};
use why::{input_kind, list_kind, told};

const DONE: u8 = 0;

const ROOM: u8 = 1;

const BASE: u8 = 11;

const NAME: u8 = 14;

// The code of a refusal.
fn code(refusal: Refusal) -> u8
    ensures code { result ≡ code_of refusal }
    ensures no_answer { 1 < result }
{
    match refusal {
        Refusal::Memory => 2,
        Refusal::Text => 3,
        Refusal::Fraction => 4,
        Refusal::Missing => 5,
        Refusal::Kind => 6,
        Refusal::Word => 7,
        Refusal::Alternative => 8,
        Refusal::Empty => 9,
        Refusal::Count => 10,
        Refusal::Read => 12,
        Refusal::Write => 13,
    }
}

// Writes the line to the front of the room, if there is as much.
fn put(line: &[u8], room: &mut [u8], needed: &mut usize) -> u8
    ensures done { result ≡ 0 → HasRoom line.now room.old room.new }
    ensures needed { needed.new ≡ length line.now }
    ensures room { result ≢ 0 → (result ≡ 1) × (length room.old < length line.now) × (room.new ≡ room.old) }
{
    *needed = line.len();
    if room.len() < line.len() {
        return ROOM;
    }
    room[..line.len()].copy_from_slice(line);
    DONE
}

// The code of a text that a command refuses: of its first misfit, where it has a tree that does not fit.
fn code_of_text(alloc: Global, command: Command, text: &[u8], refusal: Refusal) -> u8
    ensures refused { IsCause (request_of command.entry) text.now refusal → IsRefused (request_of command.entry) text.now result }
    ensures no_answer { 1 < result }
{
    code(told(alloc, input_kind(command), text, refusal))
}

// The same of a text that is to be a list of documents.
fn code_of_list(alloc: Global, text: &[u8], refusal: Refusal) -> u8
    ensures refused { IsCauseOfText documents_kind text.now refusal → IsNoList text.now result }
    ensures no_answer { 1 < result }
{
    code(told(alloc, list_kind(), text, refusal))
}

// Answers a text by a command.
fn serve(alloc: Global, command: Command, text: &[u8], room: &mut [u8], needed: &mut usize) -> u8
    ensures done { result ≡ 0 → IsAnswered (request_of command.entry) text.now room.old room.new needed.new }
    ensures room { result ≡ 1 → IsToldOf (request_of command.entry) text.now room.old needed.new }
    ensures refused { result ≢ 0 → result ≢ 1 → IsRefused (request_of command.entry) text.now result }
    ensures untouched { result ≢ 0 → room.new ≡ room.old }
    ensures unsaid { result ≢ 0 → result ≢ 1 → needed.new ≡ needed.old }
{
    match answer(alloc, command, text) {
        Ok(line) => put(line.as_slice(), room, needed),
        Err(refusal) => code_of_text(alloc, command, text, refusal),
    }
}

/// Reads a Server Object (OpenAPI 3.1, section 4.8.5) and writes it, on a line.
///
/// The code is 0 where the answer is written to the front of the room, and `needed` is its length; 1 where the room is smaller than
/// `needed`, the length of the answer; else that of why the text is refused. A text that is JSON and no such object is refused for the first
/// place that does not fit, in the order in which [`utoipa_check`] tells them.
#[unsafe(no_mangle)]
pub extern "C" fn utoipa_server(
    alloc: Global,
    text: &[u8],
    room: &mut [u8],
    needed: &mut usize,
) -> u8
    ensures done { result ≡ 0 → IsAnswered server text.now room.old room.new needed.new }
    ensures room { result ≡ 1 → IsToldOf server text.now room.old needed.new }
    ensures refused { result ≢ 0 → result ≢ 1 → IsRefused server text.now result }
    ensures untouched { result ≢ 0 → room.new ≡ room.old }
    ensures unsaid { result ≢ 0 → result ≢ 1 → needed.new ≡ needed.old }
{
    serve(alloc, Command::Server, text, room, needed)
}

/// Reads a Schema Object, or a reference to one (section 4.8.24), and writes it, on a line. The codes are those of [`utoipa_server`].
#[unsafe(no_mangle)]
pub extern "C" fn utoipa_schema(
    alloc: Global,
    text: &[u8],
    room: &mut [u8],
    needed: &mut usize,
) -> u8
    ensures done { result ≡ 0 → IsAnswered schema text.now room.old room.new needed.new }
    ensures room { result ≡ 1 → IsToldOf schema text.now room.old needed.new }
    ensures refused { result ≢ 0 → result ≢ 1 → IsRefused schema text.now result }
    ensures untouched { result ≢ 0 → room.new ≡ room.old }
    ensures unsaid { result ≢ 0 → result ≢ 1 → needed.new ≡ needed.old }
{
    serve(alloc, Command::Schema, text, room, needed)
}

/// Reads an OpenAPI Object (section 4.8.1) and writes it, on a line. The codes are those of [`utoipa_server`].
#[unsafe(no_mangle)]
pub extern "C" fn utoipa_document(
    alloc: Global,
    text: &[u8],
    room: &mut [u8],
    needed: &mut usize,
) -> u8
    ensures done { result ≡ 0 → IsAnswered document text.now room.old room.new needed.new }
    ensures room { result ≡ 1 → IsToldOf document text.now room.old needed.new }
    ensures refused { result ≢ 0 → result ≢ 1 → IsRefused document text.now result }
    ensures untouched { result ≢ 0 → room.new ≡ room.old }
    ensures unsaid { result ≢ 0 → result ≢ 1 → needed.new ≡ needed.old }
{
    serve(alloc, Command::Document, text, room, needed)
}

/// Reads a list of OpenAPI documents and writes what they are merged into, on a line. The codes are those of [`utoipa_server`]; a list
/// of no documents is refused.
#[unsafe(no_mangle)]
pub extern "C" fn utoipa_merge(
    alloc: Global,
    text: &[u8],
    room: &mut [u8],
    needed: &mut usize,
) -> u8
    ensures done { result ≡ 0 → IsAnswered merge text.now room.old room.new needed.new }
    ensures room { result ≡ 1 → IsToldOf merge text.now room.old needed.new }
    ensures refused { result ≢ 0 → result ≢ 1 → IsRefused merge text.now result }
    ensures untouched { result ≢ 0 → room.new ≡ room.old }
    ensures unsaid { result ≢ 0 → result ≢ 1 → needed.new ≡ needed.old }
{
    serve(alloc, Command::Merge, text, room, needed)
}

/// Reads a list of two OpenAPI documents and writes the first with the second nested into it, its paths behind the base, on a line.
///
/// The codes are those of [`utoipa_server`], and 11 where the base is not UTF-8; another number of documents than two is refused.
#[unsafe(no_mangle)]
pub extern "C" fn utoipa_nest(
    alloc: Global,
    base: &[u8],
    text: &[u8],
    room: &mut [u8],
    needed: &mut usize,
) -> u8
    ensures done { result ≡ 0 → IsAnswered (nest base.now) text.now room.old room.new needed.new }
    ensures room { result ≡ 1 → IsToldOf (nest base.now) text.now room.old needed.new }
    ensures base { (result ≡ 11) ↔ (¬ IsUtf8 base.now) }
    ensures refused { result ≢ 0 → result ≢ 1 → result ≢ 11 → IsRefused (nest base.now) text.now result }
    ensures untouched { result ≢ 0 → room.new ≡ room.old }
    ensures unsaid { result ≢ 0 → result ≢ 1 → needed.new ≡ needed.old }
{
    match str::from_utf8(base) {
        Ok(base) => serve(alloc, Command::Nest(base), text, room, needed),
        Err(_) => BASE,
    }
}

// Tells what is found in a text.
fn tell_found(alloc: Global, name: &str, text: &[u8], room: &mut [u8], needed: &mut usize) -> u8
    ensures done { result ≡ 0 → IsWritten (IsChecked document_kind (name.now, text.now, Form.AsIs)) room.old room.new needed.new }
    ensures room { result ≡ 1 → IsTooLong (IsChecked document_kind (name.now, text.now, Form.AsIs)) room.old needed.new }
    ensures refused { result ≢ 0 → result ≢ 1 → result ≡ 2 }
    ensures untouched { result ≢ 0 → room.new ≡ room.old }
    ensures unsaid { result ≢ 0 → result ≢ 1 → needed.new ≡ needed.old }
{
    let source = Source {
        name,
        bytes: text,
        form: Form::AsIs,
    };
    match check(alloc, source) {
        Ok(lines) => put(lines.as_bytes(), room, needed),
        Err(_) => code(Refusal::Memory),
    }
}

/// Tells what is found in a text that is to be an OpenAPI Object (section 4.8.1): a line for each place that does not fit, is read otherwise than
/// it was meant, is dropped where it is read and written again, or refers to nothing; or the line that tells that the text is no JSON. Each
/// line begins with the name. Nothing is written where nothing is found. The text is looked at as it is, for so [`utoipa_document`] reads it.
///
/// The codes are those of [`utoipa_server`] up to 2, and 14 where the name is not UTF-8: no text is refused.
#[unsafe(no_mangle)]
pub extern "C" fn utoipa_check(
    alloc: Global,
    name: &[u8],
    text: &[u8],
    room: &mut [u8],
    needed: &mut usize,
) -> u8
    ensures done { result ≡ 0 → IsWritten (IsChecked document_kind (name.now, text.now, Form.AsIs)) room.old room.new needed.new }
    ensures room { result ≡ 1 → IsTooLong (IsChecked document_kind (name.now, text.now, Form.AsIs)) room.old needed.new }
    ensures name { (result ≡ 14) ↔ (¬ IsUtf8 name.now) }
    ensures refused { result ≢ 0 → result ≢ 1 → result ≢ 14 → result ≡ 2 }
    ensures untouched { result ≢ 0 → room.new ≡ room.old }
    ensures unsaid { result ≢ 0 → result ≢ 1 → needed.new ≡ needed.old }
{
    match str::from_utf8(name) {
        Ok(name) => tell_found(alloc, name, text, room, needed),
        Err(_) => NAME,
    }
}

/// Tells what merging a list of OpenAPI documents drops: a line for each value of a document in whose place another document decides, with its
/// place in the document, and both by their numbers, counted from 0. Nothing is written where nothing is dropped.
///
/// The codes are those of [`utoipa_server`].
#[unsafe(no_mangle)]
pub extern "C" fn utoipa_conflicts(
    alloc: Global,
    text: &[u8],
    room: &mut [u8],
    needed: &mut usize,
) -> u8
    ensures done { result ≡ 0 → IsWritten (AreConflicts text.now) room.old room.new needed.new }
    ensures room { result ≡ 1 → IsTooLong (AreConflicts text.now) room.old needed.new }
    ensures refused { result ≢ 0 → result ≢ 1 → IsNoList text.now result }
    ensures untouched { result ≢ 0 → room.new ≡ room.old }
    ensures unsaid { result ≢ 0 → result ≢ 1 → needed.new ≡ needed.old }
{
    match dropped(alloc, text) {
        Ok(lines) => put(lines.as_bytes(), room, needed),
        Err(refusal) => code_of_list(alloc, text, refusal),
    }
}
