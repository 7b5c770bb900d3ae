//! The words of a call.

use clap::{Arg, ArgAction, Command};
use std::alloc::{AllocError, Global};

const AFTER_HELP: &str =
    "A file - is standard input. YAML is not read: yq -o json api.yaml | openapi check - (yq of mikefarah)\n\nThe status is 0 where all is well, 1 where something was found, is lost under --strict, or could not be read or written, and 2 where the words are wrong.";

/// The command with its subcommands. Fails where memory runs out.
pub fn command<'a>(alloc: Global) -> Result<Command<'a>, AllocError> {
    Command::new(alloc, "openapi")
        .version("0.1.0")
        .about(
            "Checks, formats, upgrades, merges, nests and lists OpenAPI documents, versions 3.1 and 3.2, in JSON",
        )
        .after_help(AFTER_HELP)
        .subcommand_required(true)
        .arg_required_else_help(true)
        .subcommand(check(alloc)?)?
        .subcommand(format(alloc)?)?
        .subcommand(upgrade(alloc)?)?
        .subcommand(merge(alloc)?)?
        .subcommand(nest(alloc)?)?
        .subcommand(operations(alloc)?)?
        .subcommand(stats(alloc)?)
}

fn check<'a>(alloc: Global) -> Result<Command<'a>, AllocError> {
    let command = Command::new(alloc, "check")
        .about(
            "Tells what does not fit, is read otherwise than it was meant, is dropped or refers to nothing",
        )
        .arg(files(alloc, "The documents"))?;
    with_form(alloc, command)
}

fn format<'a>(alloc: Global) -> Result<Command<'a>, AllocError> {
    let command = Command::new(alloc, "format")
        .about(
            "Writes a document in its normal form, the members of each object in the order of their names, and tells on standard error what that loses",
        )
        .arg(file(alloc, "FILE", "The document"))?;
    with_form(alloc, with_output(alloc, command)?)
}

fn upgrade<'a>(alloc: Global) -> Result<Command<'a>, AllocError> {
    let command = Command::new(alloc, "upgrade")
        .about("Writes a document of OpenAPI 3.0 as one of 3.1, in its normal form")
        .arg(file(alloc, "FILE", "The document"))?;
    with_output(alloc, command)
}

fn merge<'a>(alloc: Global) -> Result<Command<'a>, AllocError> {
    let command = Command::new(alloc, "merge")
        .about(
            "Merges documents, and tells on standard error what that loses: where two have something of one name, most often the first stays",
        )
        .arg(files(
            alloc,
            "The documents, the first of which gives its info and version",
        ))?;
    with_form(alloc, with_output(alloc, command)?)
}

fn nest<'a>(alloc: Global) -> Result<Command<'a>, AllocError> {
    let base = Arg::new(alloc, "BASE").required(true).help(
        "What is put before the paths of the nested document, as /api: nothing, or a path that begins with /",
    );
    let command = Command::new(alloc, "nest")
        .about(
            "Nests a document into another, its paths behind a base, and tells on standard error what that loses",
        )
        .arg(base)?
        .arg(file(alloc, "FILE", "The document"))?
        .arg(file(alloc, "NESTED", "The document that is nested into it"))?;
    with_form(alloc, with_output(alloc, command)?)
}

fn operations<'a>(alloc: Global) -> Result<Command<'a>, AllocError> {
    let command = Command::new(alloc, "operations")
        .about(
            "Writes a line for each operation: its method, path, operationId and summary, with tabs between",
        )
        .arg(file(alloc, "FILE", "The document"))?;
    with_form(alloc, command)
}

fn stats<'a>(alloc: Global) -> Result<Command<'a>, AllocError> {
    let command = Command::new(alloc, "stats")
        .about("Counts the paths, webhooks, operations, schemas, depth and bytes of a document")
        .arg(file(alloc, "FILE", "The document"))?;
    with_form(alloc, command)
}

// One file.
fn file<'a>(alloc: Global, id: &'a str, help: &'a str) -> Arg<'a> {
    Arg::new(alloc, id).required(true).help(help)
}

// One file or more.
fn files<'a>(alloc: Global, help: &'a str) -> Arg<'a> {
    Arg::new(alloc, "FILE")
        .required(true)
        .num_args(1..)
        .help(help)
}

// With the options that say in which form files are looked at.
fn with_form<'a>(alloc: Global, command: Command<'a>) -> Result<Command<'a>, AllocError> {
    let as_is = Arg::new(alloc, "as-is")
        .long("as-is")
        .action(ArgAction::SetTrue)
        .help(
            "Read by the model alone, and refuse what the standard lets be said otherwise, as a parameter without required",
        );
    let upgrade = Arg::new(alloc, "upgrade")
        .long("upgrade")
        .action(ArgAction::SetTrue)
        .conflicts_with("as-is")?
        .help("Read documents of OpenAPI 3.0, too, as the command upgrade writes them");
    command.arg(as_is)?.arg(upgrade)
}

// With the options of a command that writes a document.
fn with_output<'a>(alloc: Global, command: Command<'a>) -> Result<Command<'a>, AllocError> {
    let output = Arg::new(alloc, "OUT")
        .short('o')
        .long("output")
        .action(ArgAction::Set)
        .help("Write to this file, whole or not at all, in place of standard output");
    let compact = Arg::new(alloc, "compact")
        .long("compact")
        .action(ArgAction::SetTrue)
        .help("Write all on one line");
    let strict = Arg::new(alloc, "strict")
        .long("strict")
        .action(ArgAction::SetTrue)
        .help("Refuse where something is lost");
    let allowed = Arg::new(alloc, "WHAT")
        .long("allow")
        .action(ArgAction::Append)
        .help(
            "Accept that this is lost, and don't tell it: a member of the document as info, a beginning of JSON Pointers as /paths/~1pets, or unknown-members, which the model does not keep",
        );
    command.arg(output)?.arg(compact)?.arg(strict)?.arg(allowed)
}
