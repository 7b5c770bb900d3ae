//! Runs of the command where each call of its reader or of one of its writers fails in turn.

use super::planned::{Failure, Plan};
use super::told::{Left, run_by_plans, words_of};
use std::alloc::{AllocError, Global};

/// Whose calls fail.
#[derive(Clone, Copy)]
enum Caller {
    Reader,
    AnswerWriter,
    FaultWriter,
    // That of the answer writer, and the first of the fault writer.
    BothWriters,
}

/// How many calls can fail, each with the run that is due, and the run where none fails.
///
/// The words are how a call fails, whose it is, and those of the run.
pub fn faults_of(alloc: Global, words: &str, text: &[u8]) -> Result<String, AllocError> {
    let mut parts = words.splitn(3, ' ');
    let failure = match parts.next() {
        Some("error") => Failure::Error,
        Some("interruption") => Failure::Interruption,
        Some("nothing") => Failure::Nothing,
        _ => return String::from_str(alloc, "no such failure"),
    };
    let caller = match parts.next() {
        Some("reading") => Caller::Reader,
        Some("writing") => Caller::AnswerWriter,
        Some("telling") => Caller::FaultWriter,
        Some("both") => Caller::BothWriters,
        _ => return String::from_str(alloc, "no such calls"),
    };
    let words = words_of(alloc, parts.next())?;
    each_call_fails(alloc, words.as_slice(), text, caller, failure)
}

// Fails the first call, the second and so on, until none is left to fail, or a run is not the one that is due.
fn each_call_fails(
    alloc: Global,
    words: &[String],
    text: &[u8],
    caller: Caller,
    failure: Failure,
) -> Result<String, AllocError> {
    let whole = run_failing(alloc, words, text, caller, Plan::steps_of(1));
    for call in 1..u64::MAX {
        let plan = Plan::fails_at(call, failure);
        let left = run_failing(alloc, words, text, caller, plan);
        if !is_due(&left, &whole, caller, call) {
            let failed = call - 1;
            let shown = left.shown(alloc)?;
            return format!(in alloc; "{failed} failed calls: {shown}");
        }
    }
    String::from_str(alloc, "a call failed always")
}

fn run_failing(
    alloc: Global,
    words: &[String],
    text: &[u8],
    caller: Caller,
    failing: Plan,
) -> Left {
    let whole = Plan::steps_of(1);
    match caller {
        Caller::Reader => run_by_plans(alloc, words, text, failing, whole, whole),
        Caller::AnswerWriter => run_by_plans(alloc, words, text, whole, failing, whole),
        Caller::FaultWriter => run_by_plans(alloc, words, text, whole, whole, failing),
        Caller::BothWriters => {
            let untold = Plan::fails_at(1, failing.failure);
            run_by_plans(alloc, words, text, whole, failing, untold)
        }
    }
}

// Whether the run is the one that is due where the call of this number failed.
fn is_due(left: &Left, whole: &Left, caller: Caller, call: u64) -> bool {
    match caller {
        Caller::Reader => is_unread(left),
        Caller::AnswerWriter => is_unwritten(left, whole, call),
        Caller::FaultWriter => is_untold(left, whole, call),
        Caller::BothWriters => {
            is_broken_off(left, whole, call)
                && left.told.calls == 1
                && left.told.bytes.as_slice().is_empty()
        }
    }
}

// Refused for the reader, with no answer begun.
fn is_unread(left: &Left) -> bool {
    left.status == 1
        && left.answer.calls == 0
        && left.told.bytes.as_slice() == b"refused: read\n".as_slice()
}

// Refused for the writer at that call.
fn is_unwritten(left: &Left, whole: &Left, call: u64) -> bool {
    is_broken_off(left, whole, call) && left.told.bytes.as_slice() == b"refused: write\n".as_slice()
}

// Refused at that call of the answer writer, which was its last; what it took is where the answer begins.
fn is_broken_off(left: &Left, whole: &Left, call: u64) -> bool {
    left.status == 1
        && left.answer.calls == call
        && left.answer.bytes.len() as u64 + 1 == call
        && whole.answer.bytes.starts_with(left.answer.bytes.as_slice())
}

// The same status, no answer, and the word broken off at that call.
fn is_untold(left: &Left, whole: &Left, call: u64) -> bool {
    left.status == whole.status
        && left.answer.calls == 0
        && left.told.calls == call
        && left.told.bytes.len() as u64 + 1 == call
        && whole.told.bytes.starts_with(left.told.bytes.as_slice())
}
