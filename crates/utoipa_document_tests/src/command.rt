//! A run over bytes in memory: what a caller learns from its contract alone, and what it says of what is refused.
ghost use Rattle.std.specs.Prelude.{◌≡◌, ◌≤◌, ◌-◌, ◌⊎◌, Some, ℕ, List, vec_capacity, vec_len, ◌++◌};
ghost use Rattle.utoipa_command.specs.Answers.{HasFraction, HasNoDocument, HasNoTree, IsAnswer};
ghost use Rattle.utoipa_command.specs.Commands.{server};
ghost use Rattle.utoipa_command.specs.Messages.{refusal_line};

use crate::shared::{is_flag, is_number, is_text};
use std::alloc::Global;
use std::process::Abort;
use utoipa_base::ReadFault;
use utoipa_command::{Refusal, run};

// A server with two variables.
const TEMPLATED: &str =
    r#"{"url":"/api/{version}/{username}","variables":{"version":{"enum":["v1","v2"],"default":"v1","description":"api version"},"username":{"default":"the_user"}}}"#;

// Its answer.
const TEMPLATED_ANSWER: &str =
    "{\"url\":\"/api/{version}/{username}\",\"variables\":{\"username\":{\"default\":\"the_user\"},\"version\":{\"default\":\"v1\",\"description\":\"api version\",\"enum\":[\"v1\",\"v2\"]}}}\n";

// Serves a text, with room on the fault writer for each line.
fn serve_text(alloc: Global, text: &[u8], answer: &mut Vec<u8>, told: &mut Vec<u8>) -> u8
    requires { 26 ≤ vec_capacity told.old - vec_len told.old }

    // Status 0 comes with the answer.
    ensures answered { result ≡ 0 → (line : List ℕ) × IsAnswer server text.now line
        × (answer.new.items ≡ answer.old.items ++ line) }

    // The line names the reason.
    ensures told_text { told.new.items ≡ told.old.items ++ refusal_line Refusal.Text → HasNoTree text.now }
    ensures told_fraction { told.new.items ≡ told.old.items ++ refusal_line Refusal.Fraction → HasFraction text.now }
    ensures told_missing { told.new.items ≡ told.old.items ++ refusal_line Refusal.Missing
        → HasNoDocument server text.now }

    // The reason names the line, where memory lasts.
    ensures no_tree { HasNoTree text.now → (result ≡ 1)
        × ((told.new.items ≡ told.old.items ++ refusal_line Refusal.Text)
        ⊎ (told.new.items ≡ told.old.items ++ refusal_line Refusal.Memory)) }
    ensures fraction { HasFraction text.now → (result ≡ 1)
        × ((told.new.items ≡ told.old.items ++ refusal_line Refusal.Fraction)
        ⊎ (told.new.items ≡ told.old.items ++ refusal_line Refusal.Memory)) }
{
    let words = Vec::new(alloc);
    let mut input = text;
    run(alloc, words.as_slice(), &mut input, answer, told)
}

// A run came to the answer, or to a refusal for memory and no answer.
fn is_served_or_refused(rt: &impl Abort, status: u8, answer: &[u8], told: &[u8]) {
    if status == 0 {
        is_flag(rt, answer == TEMPLATED_ANSWER.as_bytes(), true);
        is_flag(rt, told.is_empty(), true);
    } else {
        is_number(rt, status as u64, 1);
        is_flag(rt, answer.is_empty(), true);
        is_flag(rt, told == b"refused: memory\n".as_slice(), true);
    }
}

// With memory for the line and the answer.
#[test]
fn a_caller_serves_a_text(rt: HostRuntime) {
    let mut answer = Vec::new(rt.alloc());
    let mut told = Vec::with_capacity(rt.alloc(), 26).expect(&rt, "memory for a line");
    let status = serve_text(rt.alloc(), TEMPLATED.as_bytes(), &mut answer, &mut told);
    is_number(&rt, status as u64, 0);
    is_served_or_refused(&rt, status, answer.as_slice(), told.as_slice());
}

// With each allocation refused in turn.
#[test]
fn memory_that_is_refused_is_told(rt: HostRuntime) {
    let Ok(mut told) = Vec::with_capacity(rt.alloc(), 64) else {
        return;
    };
    let mut answer = Vec::new(rt.alloc());
    let status = serve_text(rt.alloc(), TEMPLATED.as_bytes(), &mut answer, &mut told);
    is_served_or_refused(&rt, status, answer.as_slice(), told.as_slice());
}

// The fault is told by that line.
fn is_told(rt: &impl Abort, fault: ReadFault, line: &str) {
    is_text(rt, Refusal::from(fault).line(), line);
}

// No run shows all of these: the commands that there are read no word that may be refused.
#[test]
fn a_fault_of_reading_has_its_own_line(rt: HostRuntime) {
    is_told(&rt, ReadFault::Memory, "refused: memory\n");
    is_told(&rt, ReadFault::Fraction, "refused: fraction\n");
    is_told(&rt, ReadFault::Missing("url"), "refused: missing\n");
    is_told(&rt, ReadFault::Kind("text"), "refused: kind\n");
    is_told(&rt, ReadFault::Word("in"), "refused: word\n");
    is_told(&rt, ReadFault::Alternative, "refused: alternative\n");
    is_told(&rt, ReadFault::Text, "refused: text\n");
}
