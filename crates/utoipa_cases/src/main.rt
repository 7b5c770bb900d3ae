//! Answers each line of standard input: a call, a tab, and what the call is given. It knows the types from which operations are
//! made, those below, and types of the language, whose schemas are composed.
//!
//! A line without a tab is printed as it is: one that begins with `#` says what the next ones show. The calls:
//!
//! | Call | Given | Answer |
//! |---|---|---|
//! | `read TYPE` | a JSON text | what a copy of the value that its tree reads as is written as, or the refusal |
//! | `print TYPE` | two JSON texts, a tab between: a value, and an object whose members are its extensions | what the value prints, or the refusal |
//! | `comes-back TYPE` | the same | whether it reads back from the tree that it is written as: `yes` or `no`, or the refusal |
//! | `fault TYPE` | a JSON text | what the fault of reading it says |
//! | `fits TYPE` | a JSON text | whether its tree is a document of the type: `yes` or `no` |
//! | `count TYPE` | a JSON text | the schema readings, and the values of the tree |
//! | `count-from N TYPE` | a JSON text | `within`, where N readings at least were counted, and no more than the tree has values |
//! | `same TYPE` | two JSON texts, a tab between | whether both values are the same |
//! | `compose TYPE` | a JSON text: schemas and references in a list | what the type is composed to over them, or the refusal |
//! | `schema TYPE` | anything | the schema of the type, or the refusal |
//! | `name TYPE` | anything | the name of the type's schema |
//! | `component` | a reference's location | the map and the name of the component that it leads to, or `none` |
//! | `schemas TYPE` | anything | the names of the schemas that the type's schema refers to, behind `Given` |
//!
//! A value that prints another text than that of the tree that it is written as is told so by `read` and `print`, as
//! `printed otherwise`, and that text.
#![tactic(auto)]

mod compositions;
mod extended;
mod extensions;
mod same;
mod types;

use crate::extensions::{Asked, answered_with_extensions};
use std::alloc::{AllocError, Global};
use std::io;
use utoipa_base::Ref;
use utoipa_case_kit::Call;

fn main(rt: HostRuntime) -> io::Result<()> {
    for line in rt.lines(rt.alloc()) {
        let line = line?;
        let answer = answer_of(rt.alloc(), line.as_str())?;
        println!(rt; "{answer}")?;
    }
    Ok(())
}

// The answer to a line.
fn answer_of(alloc: Global, line: &str) -> Result<String, AllocError> {
    match Call::of_line(line) {
        Some(call) => answer_to_call(alloc, &call),
        None => String::from_str(alloc, line),
    }
}

fn answer_to_call(alloc: Global, call: &Call<'_>) -> Result<String, AllocError> {
    match call.name {
        "print" => answered_with_extensions(alloc, Asked::Print, call.subject(), call.given),
        "comes-back" => {
            answered_with_extensions(alloc, Asked::ComesBack, call.subject(), call.given)
        }
        "same" => same::are_same(alloc, call.subject(), call.given),
        "component" => component_of(alloc, call.given),
        "compose" | "schema" | "name" | "schemas" => compositions::answer_to_call(alloc, call),
        _ => answer_to_question(alloc, call),
    }
}

// The map and the name of the component that a reference to the location leads to.
fn component_of(alloc: Global, location: &str) -> Result<String, AllocError> {
    let reference = Ref::new(alloc, String::from_str(alloc, location)?);
    let Some(key) = reference.component(alloc)? else {
        return String::from_str(alloc, "none");
    };
    let mut answer = String::from_str(alloc, key.map.as_text())?;
    answer.push_str(" ")?;
    answer.push_str(key.name.as_str())?;
    Ok(answer)
}

fn answer_to_question(alloc: Global, call: &Call<'_>) -> Result<String, AllocError> {
    match call.question() {
        Some((question, name)) => types::answer_of_type(alloc, question, name, call.given),
        None => String::from_str(alloc, "no such call"),
    }
}
