//! Answers each line of standard input: a call, a tab, and what the call is given. It knows operations, path items and callbacks, and
//! what is made of them: paths, components and documents; and it runs the command.
//!
//! A line without a tab is printed as it is: one that begins with `#` says what the next ones show. The calls:
//!
//! | Call | Given | Answer |
//! |---|---|---|
//! | `read TYPE` | a JSON text | what a copy of the value that its tree reads as is written as, or the refusal |
//! | `print TYPE` | two JSON texts, a tab between: a value, and an object whose members are its extensions | what the value prints, or the refusal |
//! | `fault TYPE` | a JSON text | what the fault of reading it says |
//! | `fits TYPE` | a JSON text | whether its tree is a document of the type: `yes` or `no` |
//! | `count TYPE` | a JSON text | the schema readings, and the values of the tree |
//! | `count-from N TYPE` | a JSON text | `within`, where N readings at least were counted, and no more than the tree has values |
//! | `merge TYPE` | two JSON texts, a tab between | what the first value is written as, once it has taken what it lacks of the second |
//! | `merge-paths` | a JSON text, a list | what the paths of the list are written as, merged all at once |
//! | `merge-all` | a JSON text, a list | what the documents of the list are written as, merged all at once; `none` where there is none |
//! | `merge-pairs SIDE` | a JSON text, a list | the same, merged pair by pair: `left` begins with the first two, `right` with the last two |
//! | `composed RULE` | two JSON texts, a tab between | what the first document is written as, once the second is nested into it at the base `/v1`, where the composer answers each path by the rule: `fixed` by `/x`, `empty` by the empty text, `turned` by the path and then the base; `refuses` refuses each |
//! | `add PATH` | three JSON texts, a tab between each: paths, a list of methods, an operation | what the paths are written as, once a copy of the operation was put at each of the methods of PATH |
//! | `put-scheme NAME` | two JSON texts: components, a security scheme or a reference | what the components are written as, once the scheme was put under NAME |
//! | `put-schemes` | two JSON texts: components, an object of security schemes | the same, once each was put under its name |
//! | `put-extension NAME` | two JSON texts: paths with extensions, any value | what the paths are written as, once their extension NAME was set |
//! | `take-extensions` | two JSON texts: paths with extensions, twice | what the first are written as, once they took the extensions of the second |
//! | `path-from TYPE` | a JSON text | what the paths are written as, once the operation of the type was put at its path |
//! | `parameters-in PLACE` | nothing | what the parameter of a type is written as in a list, where its provider answers that place, or `none` |
//! | `operation-of TYPE` | nothing | what the operation of the type is written as, with its tags |
//! | `openapi-of TYPE` | nothing | what the document of the type is written as, with its tags |
//! | `responses-from TYPE` | a JSON text | what the responses are written as, once those of the type were put |
//! | `component-from TYPE` | a JSON text | what the components are written as, once the schema or the response of the type was put |
//! | `schemas-from TYPE` | a JSON text | what the components are written as, once the schema of the type was put, and those that it refers to |
//! | `own-schema` | `fields`, `fields of one name`, `no fields`, `texts` or `reference` | what the schema is written as that is made of such |
//! | `schema-in` | two JSON texts: components, a schema or a reference | what the schema is written as that stands there or that the reference leads to; `none` where there is none |
//! | `operations` | a JSON text, a document | the operations of its paths: of each the method, the path and the id, with `; ` behind it; `none` where there is none |
//! | `operation-by-id ID` | a JSON text, a document | the operation of its paths that has the id, in the same way, or `none` |
//! | `callbacks` | a number | `true`, where an operation in so many callbacks, one in the other, is kept |
//! | `run`, `run WORD`, `run WORD\|WORD..` | the text of standard input | the exit status of the command, and what it wrote |
//! | `run-hex ..` | the same in hexadecimal, two digits a byte | the same |
//! | `steps ..` | the text | the same, by a reader and writers that move one byte a call |
//! | `calls ..` | the text | the same, and how often the reader and the answer's writer were called |
//! | `faults HOW AT ..` | the text | how many calls can fail, each with the run that is due, and the run where none fails |
//!
//! A value that prints another text than that of the tree that it is written as is told so, as `printed otherwise`, and that
//! text.
#![tactic(auto)]

mod again;
mod brackets;
mod documents;
mod extended;
mod extensions;
mod listed;
mod made;
mod merged;
mod nested;
mod own;
mod resolved;
mod runs;
mod types;

use std::alloc::{AllocError, Global};
use std::io;
use utoipa_case_kit::Call;

fn main(rt: HostRuntime) -> io::Result<()> {
    for line in rt.lines(rt.alloc()) {
        let line = line?;
        let answer = answer_of(rt.alloc(), line.as_str())?;
        println!(rt; "{answer}")?;
    }
    Ok(())
}

// The answer to a line.
fn answer_of(alloc: Global, line: &str) -> Result<String, AllocError> {
    match Call::of_line(line) {
        Some(call) => answer_to_call(alloc, &call),
        None => String::from_str(alloc, line),
    }
}

fn answer_to_call(alloc: Global, call: &Call<'_>) -> Result<String, AllocError> {
    match call.name {
        "print" => extensions::printed_with_extensions(alloc, call.subject(), call.given),
        "merge" => merged::merged_of_type(alloc, call.subject(), call.given),
        "merge-paths" => merged::merged_list(alloc, call.given),
        "merge-all" => documents::merged_at_once(alloc, call.given),
        "merge-pairs" => documents::merged_in_pairs(alloc, call.subject(), call.given),
        "composed" => documents::nested_by_rule(alloc, call.subject(), call.given),
        "add" => merged::with_operation(alloc, call.subject(), call.given),
        "schema-in" => resolved::schema_in(alloc, call.given),
        "operations" => listed::operations_of(alloc, call.given),
        "operation-by-id" => listed::operation_of_id(alloc, call.subject(), call.given),
        "callbacks" => nested::callbacks_kept(alloc, call.given),
        "run" | "run-hex" | "steps" | "calls" | "faults" => runs::answer_to_call(alloc, call),
        _ => answer_changed_again(alloc, call),
    }
}

fn answer_changed_again(alloc: Global, call: &Call<'_>) -> Result<String, AllocError> {
    match call.name {
        "put-scheme" => again::with_scheme(alloc, call.subject(), call.given),
        "put-schemes" => again::with_schemes(alloc, call.given),
        "put-extension" => again::with_extension(alloc, call.subject(), call.given),
        "take-extensions" => again::with_extensions_of(alloc, call.given),
        _ => answer_by_type(alloc, call),
    }
}

fn answer_by_type(alloc: Global, call: &Call<'_>) -> Result<String, AllocError> {
    match call.name {
        "path-from" => made::with_path_of(alloc, call.subject(), call.given),
        "parameters-in" => made::parameters_in(alloc, call.subject()),
        "operation-of" => made::operation_of_type(alloc, call.subject()),
        "openapi-of" => made::document_of_type(alloc, call.subject()),
        "responses-from" => made::with_responses_of(alloc, call.subject(), call.given),
        "component-from" => made::with_component_of(alloc, call.subject(), call.given),
        "schemas-from" => own::with_schemas_of(alloc, call.subject(), call.given),
        "own-schema" => own::own_schema(alloc, call.given),
        _ => answer_to_question(alloc, call),
    }
}

fn answer_to_question(alloc: Global, call: &Call<'_>) -> Result<String, AllocError> {
    match call.question() {
        Some((question, name)) => types::answer_of_type(alloc, question, name, call.given),
        None => String::from_str(alloc, "no such call"),
    }
}
