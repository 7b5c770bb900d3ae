//! Runs of the command over texts in memory.

use super::hex::bytes_of_hex;
use super::planned::{Plan, PlannedReader, PlannedWriter};
use std::alloc::{AllocError, Global};
use utoipa_command::run;

/// What a run left.
#[derive(Drop)]
pub struct Left {
    /// The exit status.
    pub status: u8,
    /// How often the input was read.
    pub reads: u64,
    /// The writer of the answer.
    pub answer: PlannedWriter,
    /// The writer of faults.
    pub told: PlannedWriter,
}

impl Left {
    /// The status, and all that was written, without the newline at its end.
    pub fn shown(&self, alloc: Global) -> Result<String, AllocError> {
        let status = self.status;
        let answer = String::from_utf8_lossy(alloc, self.answer.bytes.as_slice())?;
        let told = String::from_utf8_lossy(alloc, self.told.bytes.as_slice())?;
        let shown = format!(in alloc; "{status} {answer}{told}")?;
        String::from_str(alloc, shown.as_str().trim_end_matches('\n'))
    }
}

/// The words of a call, which stand between bars.
pub fn words_of(alloc: Global, words: Option<&str>) -> Result<Vec<String>, AllocError> {
    let mut owned = Vec::new(alloc);
    if let Some(words) = words {
        for word in words.split('|') {
            owned.push(String::from_str(alloc, word)?)?;
        }
    }
    Ok(owned)
}

/// Runs the words over a text, by a plan for the reader, the writer of the answer and the writer of faults.
pub fn run_by_plans(
    alloc: Global,
    words: &[String],
    text: &[u8],
    reading: Plan,
    writing: Plan,
    telling: Plan,
) -> Left {
    let mut input = PlannedReader::new(text, reading);
    let mut answer = PlannedWriter::new(alloc, writing);
    let mut told = PlannedWriter::new(alloc, telling);
    let status = run(alloc, words, &mut input, &mut answer, &mut told);
    Left {
        status,
        reads: input.calls,
        answer,
        told,
    }
}

fn run_by_plan(
    alloc: Global,
    words: Option<&str>,
    text: &[u8],
    plan: Plan,
) -> Result<Left, AllocError> {
    let words = words_of(alloc, words)?;
    Ok(run_by_plans(alloc, words.as_slice(), text, plan, plan, plan))
}

/// Runs the words over a text, by a reader and writers that know their bytes.
pub fn run_of(alloc: Global, words: Option<&str>, text: &[u8]) -> Result<String, AllocError> {
    let words = words_of(alloc, words)?;
    let mut input = text;
    let mut answer = Vec::new(alloc);
    let mut told = Vec::new(alloc);
    let status = run(alloc, words.as_slice(), &mut input, &mut answer, &mut told);
    answer.extend_from_slice(told.as_slice())?;
    let written = String::from_utf8_lossy(alloc, answer.as_slice())?;
    let shown = written.as_str().trim_end_matches('\n');
    format!(in alloc; "{status} {shown}")
}

/// The same over bytes in hexadecimal.
pub fn run_of_hex(alloc: Global, words: Option<&str>, hex: &str) -> Result<String, AllocError> {
    match bytes_of_hex(alloc, hex.as_bytes())? {
        Some(bytes) => run_of(alloc, words, bytes.as_slice()),
        None => String::from_str(alloc, "no hexadecimal digits"),
    }
}

/// The same where one byte is moved a call.
pub fn run_in_steps(alloc: Global, words: Option<&str>, text: &[u8]) -> Result<String, AllocError> {
    run_by_plan(alloc, words, text, Plan::steps_of(1))?.shown(alloc)
}

/// The same where all that fits is moved in a call, and how many calls that took.
pub fn run_with_calls(
    alloc: Global,
    words: Option<&str>,
    text: &[u8],
) -> Result<String, AllocError> {
    let left = run_by_plan(alloc, words, text, Plan::steps_of(usize::MAX))?;
    let shown = left.shown(alloc)?;
    let (reads, writes) = (left.reads, left.answer.calls);
    format!(in alloc; "{reads} reads, {writes} writes: {shown}")
}
