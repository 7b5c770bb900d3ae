//! The types by their names.

use super::answers::{composed, described, named, referred};
use super::own::Flag;
use indexmap::{IndexMap, IndexSet};
use serde_json::Value;
use std::alloc::{AllocError, Global};
use std::borrow::Cow;
use std::cell::RefCell;
use std::collections::{BTreeMap, BTreeSet, HashMap, HashSet, LinkedList};
use std::hash::{BuildHasherDefault, DefaultHasher};
use std::rc::Rc;
use utoipa_case_kit::Call;
use utoipa_compose::{ComposeSchema, PartialSchema, ToSchema, TupleUnit};

type Hashes = BuildHasherDefault<DefaultHasher>;

/// The answer to a call.
pub fn answer_to_call(alloc: Global, call: &Call<'_>) -> Result<String, AllocError> {
    match call.subject() {
        "i8" => answer::<i8>(alloc, call),
        "i16" => answer::<i16>(alloc, call),
        "i32" => answer::<i32>(alloc, call),
        "i64" => answer::<i64>(alloc, call),
        "i128" => answer::<i128>(alloc, call),
        "isize" => answer::<isize>(alloc, call),
        "u8" => answer::<u8>(alloc, call),
        "u16" => answer::<u16>(alloc, call),
        "u32" => answer::<u32>(alloc, call),
        "u64" => answer::<u64>(alloc, call),
        "u128" => answer::<u128>(alloc, call),
        "usize" => answer::<usize>(alloc, call),
        _ => answer_of_scalar(alloc, call),
    }
}

fn answer_of_scalar(alloc: Global, call: &Call<'_>) -> Result<String, AllocError> {
    match call.subject() {
        "bool" => answer::<bool>(alloc, call),
        "String" => answer::<String>(alloc, call),
        "&str" => answer::<&'static str>(alloc, call),
        "char" => answer::<char>(alloc, call),
        "Flag" => answer::<Flag>(alloc, call),
        "()" => answer_uncomposed::<TupleUnit>(alloc, call),
        "Value" => answer_uncomposed::<Value>(alloc, call),
        _ => answer_of_container(alloc, call),
    }
}

fn answer_of_container(alloc: Global, call: &Call<'_>) -> Result<String, AllocError> {
    match call.subject() {
        "Option<Vec<i32>>" => answer::<Option<Vec<i32>>>(alloc, call),
        "Vec<Option<Flag>>" => answer::<Vec<Option<Flag>>>(alloc, call),
        "LinkedList<Vec<bool>>" => answer::<LinkedList<Vec<bool>>>(alloc, call),
        "&[Option<u64>]" => answer::<&'static [Option<u64>]>(alloc, call),
        "Box<Option<String>>" => answer::<Box<Option<String>>>(alloc, call),
        "Cow<Vec<char>>" => answer::<Cow<'static, Vec<char>>>(alloc, call),
        "RefCell<Box<i64>>" => answer::<RefCell<Box<i64>>>(alloc, call),
        "Rc<Option<u8>>" => answer::<Rc<Option<u8>>>(alloc, call),
        "HashSet<Box<String>>" => answer::<HashSet<Box<String>, Hashes>>(alloc, call),
        "BTreeSet<bool>" => answer::<BTreeSet<bool>>(alloc, call),
        "BTreeSet<Option<u32>>" => answer::<BTreeSet<Option<u32>>>(alloc, call),
        "IndexSet<Box<i32>>" => answer::<IndexSet<Box<i32>>>(alloc, call),
        _ => answer_of_map(alloc, call),
    }
}

fn answer_of_map(alloc: Global, call: &Call<'_>) -> Result<String, AllocError> {
    match call.subject() {
        "BTreeMap<String, Vec<i32>>" => answer::<BTreeMap<String, Vec<i32>>>(alloc, call),
        "BTreeMap<String, Option<i32>>" => answer::<BTreeMap<String, Option<i32>>>(alloc, call),
        "BTreeMap<String, BTreeMap<String, bool>>" => {
            answer::<BTreeMap<String, BTreeMap<String, bool>>>(alloc, call)
        }
        "BTreeMap<Flag, Flag>" => answer::<BTreeMap<Flag, Flag>>(alloc, call),
        "HashMap<String, Vec<Flag>>" => answer::<HashMap<String, Vec<Flag>, Hashes>>(alloc, call),
        "IndexMap<String, Box<Flag>>" => answer::<IndexMap<String, Box<Flag>>>(alloc, call),
        _ => String::from_str(alloc, "no such type"),
    }
}

fn answer<T: ComposeSchema + ToSchema>(
    alloc: Global,
    call: &Call<'_>,
) -> Result<String, AllocError> {
    match call.name {
        "compose" => composed::<T>(alloc, call.given),
        _ => answer_uncomposed::<T>(alloc, call),
    }
}

fn answer_uncomposed<T: ToSchema>(alloc: Global, call: &Call<'_>) -> Result<String, AllocError> {
    match call.name {
        "schema" => described::<T>(alloc),
        "name" => named::<T>(alloc),
        "schemas" => referred::<T>(alloc),
        _ => String::from_str(alloc, "no such call"),
    }
}
