//! What people do with the documents of their APIs: checks, formats, merges and nests the OpenAPI documents of files, and lists what they have.
//!
//! What each command answers is made by the functions of `utoipa_command::files`, of the names and the bytes of the files. Here are the words of a
//! call (`words.rt`), what reads files and writes them (`files.rt`), how far long work has come (`progress.rt`), which losses are accepted
//! (`allowed.rt`), what helps with a file that is refused (`hints.rt`), and what calls the answers with the files (`commands.rt`).
#![tactic(auto)]

mod allowed;
mod commands;
mod files;
mod hints;
mod progress;
mod words;

use anyhow::{Context, Result};
use commands::perform;
use std::env;
use std::process::ExitCode;
use words::command;

fn main(rt: HostRuntime) -> ExitCode {
    match run(&rt) {
        Ok(status) => status,
        Err(error) => {
            // A fault of standard error has nowhere to be told.
            let _ = eprintln!(rt; "openapi: {error:#}");
            ExitCode::FAILURE
        }
    }
}

// Does what the words of the call ask, and says how that ended: 0 where all is well, 1 where something was found, is lost under --strict,
// or could not be read or written, 2 where the words are wrong.
fn run(rt: &HostRuntime) -> Result<ExitCode> {
    let words: Vec<String> = env::args(rt)?.collect(rt.alloc())?;
    match command(rt.alloc())?.try_get_matches_from(words.as_slice()) {
        Ok(matches) => perform(rt, &matches),
        Err(error) => {
            error
                .print(rt)
                .context("telling how the command is called")?;
            Ok(ExitCode::from(error.exit_code() as u8))
        }
    }
}
