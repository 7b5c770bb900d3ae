//! Runs of the command.

mod faults;
mod hex;
mod planned;
mod told;

use std::alloc::{AllocError, Global};
use utoipa_case_kit::Call;

/// The answer to a call that runs the command.
pub fn answer_to_call(alloc: Global, call: &Call<'_>) -> Result<String, AllocError> {
    let bytes = call.given.as_bytes();
    match call.name {
        "run" => told::run_of(alloc, call.words, bytes),
        "run-hex" => told::run_of_hex(alloc, call.words, call.given),
        "steps" => told::run_in_steps(alloc, call.words, bytes),
        "calls" => told::run_with_calls(alloc, call.words, bytes),
        "faults" => faults::faults_of(alloc, call.subject(), bytes),
        _ => String::from_str(alloc, "no such call"),
    }
}
