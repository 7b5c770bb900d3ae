//! Answers each line of standard input: a call, a tab, and what the call is given.
//!
//! A line without a tab is printed as it is: one that begins with `#` says what the next ones show. The calls:
//!
//! | Call | Given | Answer |
//! |---|---|---|
//! | `misfits TYPE` | a JSON text | the places that do not fit the type, each with the cause, ` ; ` between two; `none` where all fits |
//! | `places TYPE` | a JSON text | the places alone |
//! | `doubts TYPE` | a JSON text | the places that do not fit what was meant there, where something else is read |
//! | `references TYPE` | a JSON text | the places where a document of the type refers, each with its text and what has become of it |
//! | `adaptations TYPE` | a JSON text | what is adapted in its tree, each with its place; `none` where nothing is |
//! | `adapted TYPE` | a JSON text | the adapted tree |
//! | `upgrades TYPE` | a JSON text of OpenAPI 3.0 | what is upgraded in its tree, each with its place; `none` where nothing is |
//! | `upgraded TYPE` | a JSON text of OpenAPI 3.0 | the upgraded tree |
//! | `located TYPE` | a JSON text | `read` where the text is a document of the type, else the fault with its place |
//! | `conflicts` | a JSON list of the trees of documents | what is dropped where they are merged |
//! | `nested_conflicts` | a JSON list: the tree of a document, that of one that is nested into it, and a list of the answers to the nested paths | what is dropped |
//! | `changed_meanings` | a JSON list: a list of the trees of documents, and the tree that they were merged into | what is changed of the meaning of operations |
//! | `between` | two JSON texts, a tab between: a tree, and one that was written for it | the places of the first that the second lacks or has another value at, each with what has become of it |
//! | `found TYPE` | a text | what is found in it as the file `f`, ` ; ` between two lines; `none` where nothing is |
//! | `lost TYPE` | a text | what the file `f` loses when its document is written again, or why it is no document |
//! | `dropped TYPE` | a JSON text | the same of its tree and of what the tree is written as when it was read as the type, or the refusal |
#![tactic(auto)]

mod conflicts;
mod dropped;
mod kinds;
mod located;
mod lost;
mod meaning;
mod told;

use crate::conflicts::{conflicts_of_text, nested_conflicts_of_text};
use crate::dropped::{between, dropped_of_text};
use crate::kinds::kind_named;
use crate::located::located_of_text;
use crate::lost::{found_in_text, lost_of_text};
use crate::meaning::changed_meanings_of_text;
use crate::told::told;
use serde_json::Value;
use std::alloc::{AllocError, Global};
use std::io;
use utoipa_adapt::{adapt, adaptations, upgrade, upgrades};
use utoipa_case_kit::Call;
use utoipa_check::references::references;
use utoipa_check::{Pointer, Report, doubts, misfits};
use utoipa_tables::Kind;

fn main(rt: HostRuntime) -> io::Result<()> {
    for line in rt.lines(rt.alloc()) {
        let line = line?;
        let answer = answer_of(rt.alloc(), line.as_str())?;
        println!(rt; "{answer}")?;
    }
    Ok(())
}

// The answer to a line.
fn answer_of(alloc: Global, line: &str) -> Result<String, AllocError> {
    let Some(call) = Call::of_line(line) else {
        return String::from_str(alloc, line);
    };
    match call.name {
        "between" => between(alloc, call.given),
        "dropped" => dropped_of_text(alloc, call.subject(), call.given),
        "conflicts" => conflicts_of_text(alloc, call.given),
        "nested_conflicts" => nested_conflicts_of_text(alloc, call.given),
        "changed_meanings" => changed_meanings_of_text(alloc, call.given),
        "located" => located_of_text(alloc, call.subject(), call.given),
        "found" => found_in_text(alloc, call.subject(), call.given),
        "lost" => lost_of_text(alloc, call.subject(), call.given),
        _ => answer_of_kind(alloc, &call),
    }
}

// The answer to a call that asks of a text as a kind.
fn answer_of_kind(alloc: Global, call: &Call<'_>) -> Result<String, AllocError> {
    let Some(kind) = kind_named(call.subject()) else {
        return String::from_str(alloc, "no such type");
    };
    match Value::from_str(alloc, call.given) {
        Ok(tree) => match call.name {
            "adapted" => adapt(alloc, kind, tree)?.to_string(alloc),
            "upgraded" => upgrade(alloc, kind, tree)?.to_string(alloc),
            _ => answer_of_tree(alloc, call.name, kind, &tree),
        },
        Err(_) => String::from_str(alloc, "no JSON"),
    }
}

fn answer_of_tree(
    alloc: Global,
    call: &str,
    kind: Kind,
    tree: &Value,
) -> Result<String, AllocError> {
    match call {
        "adaptations" => told(alloc, &adaptations(alloc, kind, tree)?),
        "upgrades" => told(alloc, &upgrades(alloc, kind, tree)?),
        "doubts" => told(alloc, &doubts(alloc, kind, tree)?),
        "references" => told(alloc, &references(alloc, kind, tree)?),
        "misfits" => told(alloc, &misfits(alloc, kind, tree)?.misfits),
        "places" => places(alloc, misfits(alloc, kind, tree)?),
        _ => String::from_str(alloc, "no such call"),
    }
}

// The places of a report, without the causes.
fn places(alloc: Global, report: Report<'_>) -> Result<String, AllocError> {
    let mut pointers: Vec<Pointer<'_>> = Vec::new(alloc);
    for misfit in report.misfits {
        pointers.push(misfit.pointer)?;
    }
    told(alloc, &pointers)
}
