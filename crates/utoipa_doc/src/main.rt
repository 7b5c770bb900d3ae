//! Reads a document of a command's type from standard input and writes it to standard output.
#![tactic(auto)]

use std::process::ExitCode;
use std::{env, io};
pub use utoipa_command::run;
use utoipa_command::{Outcome, Refusal, report};

fn main(rt: HostRuntime) -> ExitCode {
    let mut fault = rt.stderr();
    let status = match words_of_call(&rt) {
        Ok(words) => run(
            rt.alloc(),
            words.as_slice(),
            &mut rt.stdin(),
            &mut rt.stdout(),
            &mut fault,
        ),
        // Whatever kept the words away, the call can't be judged without them.
        Err(_) => report(Outcome::Refused(Refusal::Memory), &mut fault),
    };
    ExitCode::from(status)
}

// The words after the program's own name.
fn words_of_call(rt: &HostRuntime) -> io::Result<Vec<String>> {
    let mut words = Vec::new(rt.alloc());
    for word in env::args(rt)?.skip(1) {
        words.push(word)?;
    }
    Ok(words)
}
