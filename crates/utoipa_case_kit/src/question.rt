//! What is asked of a text as a type.

use crate::printing::printed;
use crate::refusal::refused;
use crate::values::values_of;
use serde_json::Value;
use std::alloc::{AllocError, Global};
use utoipa_base::{Counted, ReadFault, Tree};

/// What is asked.
#[derive(Clone, Copy)]
pub enum Question {
    /// What a copy of the value is written as and prints, or the word of the refusal.
    Read,
    /// What the fault of reading says.
    Fault,
    /// Whether the tree is a document of the type.
    Fit,
    /// How many schemas are read, and how many values the tree has.
    Count,
    /// Whether so many schemas are read at least, and at most as many as the tree has values.
    CountFrom(u64),
}

/// The answer to a question of a text as a type. A text is read by its tree and by its tokens; where these differ the answer tells what
/// the tokens gave.
pub fn answered<T: Tree>(
    alloc: Global,
    question: Question,
    text: &str,
) -> Result<String, AllocError> {
    match Value::from_str(alloc, text) {
        Ok(tree) => answered_of_tree::<T>(alloc, question, text, &tree),
        Err(error) if error.is_memory() => Err(AllocError),
        Err(_) => without_tree::<T>(alloc, text),
    }
}

// A text that has no tree has no value.
fn without_tree<T: Tree>(alloc: Global, text: &str) -> Result<String, AllocError> {
    match T::from_json_text(alloc, text) {
        Err(ReadFault::Text) => String::from_str(alloc, "no tree"),
        Err(ReadFault::Memory) => Err(AllocError),
        _ => String::from_str(alloc, "no tree, and not refused for that"),
    }
}

fn answered_of_tree<T: Tree>(
    alloc: Global,
    question: Question,
    text: &str,
    tree: &Value,
) -> Result<String, AllocError> {
    match question {
        Question::Read => {
            let by_tree = read_again(alloc, T::from_value(alloc, tree))?;
            both(
                alloc,
                by_tree,
                read_again(alloc, T::from_json_text(alloc, text))?,
            )
        }
        Question::Fault => {
            let by_tree = fault_told(alloc, T::from_value(alloc, tree))?;
            both(
                alloc,
                by_tree,
                fault_told(alloc, T::from_json_text(alloc, text))?,
            )
        }
        Question::Fit => String::from_str(alloc, fits(&T::from_value(alloc, tree))),
        Question::Count => {
            let by_tree = counted(alloc, tree, T::from_value_counted(alloc, tree))?;
            both(
                alloc,
                by_tree,
                counted(alloc, tree, T::from_json_text_counted(alloc, text))?,
            )
        }
        Question::CountFrom(least) => {
            let by_tree = counted_from(alloc, least, tree, T::from_value_counted(alloc, tree))?;
            let by_tokens = counted_from(
                alloc,
                least,
                tree,
                T::from_json_text_counted(alloc, text),
            )?;
            both(alloc, by_tree, by_tokens)
        }
    }
}

// What was answered by the tree, where the tokens gave the same.
fn both(alloc: Global, by_tree: String, by_tokens: String) -> Result<String, AllocError> {
    if by_tree == by_tokens {
        return Ok(by_tree);
    }
    format!(in alloc; "{by_tree}, and by tokens {by_tokens}")
}

fn read_again<T: Tree>(alloc: Global, read: Result<T, ReadFault>) -> Result<String, AllocError> {
    match read {
        Ok(value) => {
            let copy = value.try_clone(alloc)?;
            drop(value);
            printed(alloc, &copy)
        }
        Err(fault) => refused(alloc, &fault),
    }
}

fn fault_told<T: Drop>(alloc: Global, read: Result<T, ReadFault>) -> Result<String, AllocError> {
    match read {
        Ok(_) => String::from_str(alloc, "no fault"),
        Err(fault) => format!(in alloc; "{fault}"),
    }
}

fn fits<T: Drop>(read: &Result<T, ReadFault>) -> &'static str {
    if read.is_ok() { "yes" } else { "no" }
}

fn counted<T: Drop>(
    alloc: Global,
    tree: &Value,
    counted: Counted<T>,
) -> Result<String, AllocError> {
    let (readings, values) = (counted.readings, values_of(tree));
    match counted.outcome {
        Ok(_) => format!(in alloc; "{readings} readings, {values} values"),
        Err(fault) => {
            let line = refused(alloc, &fault)?;
            format!(in alloc; "{readings} readings, {values} values, {line}")
        }
    }
}

fn counted_from<T: Drop>(
    alloc: Global,
    least: u64,
    tree: &Value,
    counted: Counted<T>,
) -> Result<String, AllocError> {
    let (readings, values) = (counted.readings, values_of(tree));
    if least <= readings && readings <= values {
        return String::from_str(alloc, "within");
    }
    format!(in alloc; "{readings} readings, {values} values")
}
