//! Values that are changed: that take of another what they lack, and paths that take an operation.

use serde_json::Value;
use std::alloc::{AllocError, Global};
use utoipa::openapi::{MergeFault, OpenApi};
use utoipa_base::{ReadFault, Tree};
use utoipa_case_kit::{printed, refused, two_trees};
use utoipa_leaf::path::HttpMethod;
use utoipa_path::{Operation, PathItem};
use utoipa_paths::{Paths, merge_paths};

/// A type whose values take something of another type.
pub trait Takes<T: Drop>: Tree {
    /// Takes the other. Fails where the type's own call does, and then nothing has changed.
    fn take(&mut self, alloc: Global, other: T) -> Result<(), MergeFault>;
}

impl Takes<PathItem> for PathItem {
    fn take(&mut self, alloc: Global, other: PathItem) -> Result<(), MergeFault> {
        self.merge_operations(alloc, other)
            .map_err(MergeFault::from)
    }
}

impl Takes<Paths> for Paths {
    fn take(&mut self, alloc: Global, other: Paths) -> Result<(), MergeFault> {
        self.merge(alloc, other).map_err(MergeFault::from)
    }
}

impl Takes<OpenApi> for OpenApi {
    fn take(&mut self, alloc: Global, other: OpenApi) -> Result<(), MergeFault> {
        self.merge(alloc, other)
    }
}

/// An operation, and where it is added.
#[derive(Drop)]
pub struct Addition<'a> {
    path: &'a str,
    methods: Vec<HttpMethod>,
    operation: Operation,
}

impl<'a> Takes<Addition<'a>> for Paths {
    fn take(&mut self, alloc: Global, other: Addition<'a>) -> Result<(), MergeFault> {
        self.add_path_operation(alloc, other.path, other.methods, other.operation)
            .map_err(MergeFault::from)
    }
}

/// What the value of the first of two texts, with a tab between them, is written as, once it has taken what it lacks of that of the
/// second, both read as the type of that name.
pub fn merged_of_type(alloc: Global, name: &str, texts: &str) -> Result<String, AllocError> {
    match two_trees(alloc, texts) {
        Ok((first, second)) => of_type(alloc, name, &first, &second),
        Err(lacking) => String::from_str(alloc, lacking),
    }
}

fn of_type(alloc: Global, name: &str, first: &Value, second: &Value) -> Result<String, AllocError> {
    match name {
        "PathItem" => merged::<PathItem>(alloc, first, second),
        "Paths" => merged::<Paths>(alloc, first, second),
        "OpenApi" => merged::<OpenApi>(alloc, first, second),
        _ => String::from_str(alloc, "no such type"),
    }
}

fn merged<T: Takes<T>>(alloc: Global, first: &Value, second: &Value) -> Result<String, AllocError> {
    match read_both::<T>(alloc, first, second) {
        Ok((first, second)) => taken(alloc, first, second),
        Err(fault) => refused(alloc, &fault),
    }
}

/// The values of a type that two trees are.
pub fn read_both<T: Tree>(
    alloc: Global,
    first: &Value,
    second: &Value,
) -> Result<(T, T), ReadFault> {
    let first = T::from_value(alloc, first)?;
    Ok((first, T::from_value(alloc, second)?))
}

fn taken<T: Takes<O>, O: Drop>(alloc: Global, first: T, second: O) -> Result<String, AllocError> {
    let before = printed(alloc, &first)?;
    let mut merged = first;
    let outcome = merged.take(alloc, second);
    told(alloc, outcome, before.as_str(), printed(alloc, &merged)?)
}

/// What the paths of a list are written as, once they are merged all at once.
pub fn merged_list(alloc: Global, text: &str) -> Result<String, AllocError> {
    match read_text::<Vec<Paths>>(alloc, text) {
        Ok(all) => shown(alloc, merge_paths(alloc, all).map_err(MergeFault::from)),
        Err(fault) => refused(alloc, &fault),
    }
}

/// What paths are written as, once an operation was added at methods of a path. The texts of the three stand one after the other, with
/// tabs between: the paths, the list of the methods, the operation.
pub fn with_operation(alloc: Global, path: &str, texts: &str) -> Result<String, AllocError> {
    let Some((paths, texts)) = texts.split_once('\t') else {
        return String::from_str(alloc, "no three texts");
    };
    let Some((methods, operation)) = texts.split_once('\t') else {
        return String::from_str(alloc, "no three texts");
    };
    match read_three::<Paths, Vec<HttpMethod>, Operation>(alloc, paths, methods, operation) {
        Ok((paths, methods, operation)) => {
            let addition = Addition {
                path,
                methods,
                operation,
            };
            taken(alloc, paths, addition)
        }
        Err(fault) => refused(alloc, &fault),
    }
}

fn read_three<A: Tree, B: Tree, C: Tree>(
    alloc: Global,
    first: &str,
    second: &str,
    third: &str,
) -> Result<(A, B, C), ReadFault> {
    let first = read_text::<A>(alloc, first)?;
    let second = read_text::<B>(alloc, second)?;
    Ok((first, second, read_text::<C>(alloc, third)?))
}

/// The value that a text reads as.
pub fn read_text<T: Tree>(alloc: Global, text: &str) -> Result<T, ReadFault> {
    match Value::from_str(alloc, text) {
        Ok(tree) => T::from_value(alloc, &tree),
        Err(e) if e.is_memory() => Err(ReadFault::Memory),
        Err(_) => Err(ReadFault::Text),
    }
}

/// What a value that was made is written as, or why it was not.
pub fn shown<T: Tree>(alloc: Global, outcome: Result<T, MergeFault>) -> Result<String, AllocError> {
    match outcome {
        Ok(value) => printed(alloc, &value),
        Err(fault) => String::from_str(alloc, refusal_of(&fault)),
    }
}

/// The same, and `none` where none was made.
pub fn shown_if_any<T: Tree>(
    alloc: Global,
    outcome: Result<Option<T>, MergeFault>,
) -> Result<String, AllocError> {
    match outcome {
        Ok(Some(value)) => printed(alloc, &value),
        Ok(None) => String::from_str(alloc, "none"),
        Err(fault) => String::from_str(alloc, refusal_of(&fault)),
    }
}

// Why documents are not merged, by a word for the fault.
fn refusal_of(fault: &MergeFault) -> &'static str {
    match fault {
        MergeFault::Memory => "refused: memory",
        MergeFault::Fraction => "refused: fraction",
        MergeFault::Composer => "refused: composer",
    }
}

// What a value is written as after the call that changes it. Where the call was refused, as a tool has it of memory, the answer tells
// whether the value is what it was before.
fn told(
    alloc: Global,
    outcome: Result<(), MergeFault>,
    before: &str,
    after: String,
) -> Result<String, AllocError> {
    match outcome {
        Ok(()) => Ok(after),
        Err(fault) => {
            let refusal = refusal_of(&fault);
            if after.as_str() == before {
                return format!(in alloc; "{refusal}, and nothing has changed");
            }
            format!(in alloc; "{refusal}, and changed to {after}")
        }
    }
}
