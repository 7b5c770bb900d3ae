//! Values that are sent to any sink as JSON, written once.
ghost use Rattle.std.specs.Prelude.{◌≡◌, ◌++◌, ℕ, List, false, IfOk, OnOk};
ghost use Rattle.serde_json.specs.Data.{array};
ghost use Rattle.serde_json.specs.View.{view, items_view, members_view};
ghost use Rattle.serde_json.specs.Written.{has_float, compact_text};
ghost use Rattle.utoipa_base.specs.Docs.{Doc, flag_doc, whole_doc};
ghost use Rattle.utoipa_base.specs.Events.{events, members_events};
ghost use Rattle.utoipa_base.specs.Kinds.{Kind, text, flag, whole, any, list_of, map_of};
ghost use Rattle.utoipa_base.specs.Printed.{IsJsonOf};
ghost use Rattle.utoipa_base.specs.Views.{text_of, tree_of, boxed, list_of_docs, map_of_docs};
ghost use Rattle.utoipa_base.specs.Writing.{write};

use crate::sink::JsonSink;
use json::Writer;
use serde_json::{Map, Value};
use std::alloc::{AllocError, Global};
use std::collections::BTreeMap;

/// A type whose values are documents: `kind` says what they are read by, and `doc` what a value is.
pub trait Documented: Drop {
    ghost kind: { Kind };

    ghost doc: { Self → Doc };
}

/// A type whose values are sent to any sink.
pub trait Emit: Documented {
    /// Sends the tree that the value is written as. Fails where the sink does; then some of it may have been sent.
    fn emit<S: JsonSink>(&self, out: &mut S) -> Result<(), AllocError>
        ensures { OnOk result (S.adds out.old (events (write (Self.doc self.now))) out.new) };
}

impl Documented for String {
    ghost kind = { text };

    ghost doc = { text_of };
}

/// A text.
#[tactic(auto, using(crate::proofs::Sending::by_sending))]
impl Emit for String {
    fn emit<S: JsonSink>(&self, out: &mut S) -> Result<(), AllocError> {
        out.string(self.as_str())
    }
}

impl Documented for bool {
    ghost kind = { flag };

    ghost doc = { flag_doc };
}

/// True or false.
#[tactic(auto, using(crate::proofs::Sending::by_sending))]
impl Emit for bool {
    fn emit<S: JsonSink>(&self, out: &mut S) -> Result<(), AllocError> {
        out.boolean(*self)
    }
}

impl Documented for usize {
    ghost kind = { whole };

    ghost doc = { whole_doc };
}

/// A whole number from 0 to 18446744073709551615.
#[tactic(auto, using(crate::proofs::Sending::by_sending))]
impl Emit for usize {
    fn emit<S: JsonSink>(&self, out: &mut S) -> Result<(), AllocError> {
        out.u64(*self as u64)
    }
}

impl Documented for Value {
    ghost kind = { any };

    ghost doc = { tree_of };
}

/// Any tree, as it stands.
#[tactic(auto, using(crate::proofs::Sending::by_sending))]
impl Emit for Value {
    fn emit<S: JsonSink>(&self, out: &mut S) -> Result<(), AllocError> {
        emit_tree(self, out)
    }
}

// Sends a tree, as it stands.
#[cycle(emit_tree)]
pub(crate) fn emit_tree<S: JsonSink>(tree: &Value, out: &mut S) -> Result<(), AllocError>
    ensures { OnOk result (S.adds out.old (events (view tree.now)) out.new) }
{
    match tree {
        Value::Null => out.null(),
        Value::Bool(flag) => out.boolean(*flag),
        Value::Number(number) => out.number(number),
        Value::String(text) => out.string(text.as_str()),
        Value::Array(items) => emit_items(items, out),
        Value::Object(members) => {
            out.begin_object()?;
            emit_members(members, out)?;
            out.end_object()
        }
    }
}

#[cycle(emit_tree)]
fn emit_items<S: JsonSink>(items: &Vec<Value>, out: &mut S) -> Result<(), AllocError>
    ensures { OnOk result (S.adds out.old (events (array (items_view items.now.items))) out.new) }
{
    out.begin_array()?;
    for item in items {
        emit_tree(item, out)?;
    }
    out.end_array()
}

// Sends members, without the braces round them.
#[cycle(emit_tree)]
fn emit_members<S: JsonSink>(members: &Map<String, Value>, out: &mut S) -> Result<(), AllocError>
    ensures { OnOk result (S.adds out.old (members_events (members_view members.now.entries)) out.new) }
{
    for (key, member) in members.iter() {
        out.key(key.as_str())?;
        emit_tree(member, out)?;
    }
    Ok(())
}

impl<T: Documented> Documented for Box<T> {
    ghost kind = { T.kind };

    ghost doc = { boxed T.doc };
}

/// What the box holds.
impl<T: Emit> Emit for Box<T> {
    fn emit<S: JsonSink>(&self, out: &mut S) -> Result<(), AllocError> {
        Emit::emit(&**self, out)
    }
}

impl<T: Documented> Documented for Vec<T> {
    ghost kind = { list_of T.kind };

    ghost doc = { list_of_docs T.doc };
}

/// A list.
impl<T: Emit> Emit for Vec<T> {
    fn emit<S: JsonSink>(&self, out: &mut S) -> Result<(), AllocError> {
        out.begin_array()?;
        for item in self {
            item.emit(out)?;
        }
        out.end_array()
    }
}

impl<T: Documented> Documented for BTreeMap<String, T> {
    ghost kind = { map_of T.kind };

    ghost doc = { map_of_docs T.doc };
}

/// An object, in the order of the names.
impl<T: Emit> Emit for BTreeMap<String, T> {
    fn emit<S: JsonSink>(&self, out: &mut S) -> Result<(), AllocError> {
        out.begin_object()?;
        for (name, member) in self.iter() {
            out.key(name.as_str())?;
            member.emit(out)?;
        }
        out.end_object()
    }
}

/// The text, with a value as JSON at its end: in compact form, the members of each object in the order of their names.
///
/// What was added is read as the tree that the value is written as, with its fractions. The text of a whole number is its digits;
/// of a fraction it is one that is read as the fraction, and which is not defined. Fails where memory runs out.
pub fn append_text<T: Emit>(text: Vec<u8>, value: &T) -> Result<Vec<u8>, AllocError>
    ensures text { IfOk result (λ longer. has_float (write (T.doc value.now)) ≡ false
        → longer.items ≡ text.items ++ compact_text (write (T.doc value.now))) }
    ensures json { IfOk result (λ longer. (added : List ℕ) × (longer.items ≡ text.items ++ added)
        × IsJsonOf (write (T.doc value.now)) added) }
{
    let mut out = Writer::new(text);
    value.emit(&mut out)?;
    Ok(out.into_inner())
}

/// A value as JSON, as [`append_text`] writes it. Fails where memory runs out.
pub fn written_text<T: Emit>(alloc: Global, value: &T) -> Result<Vec<u8>, AllocError>
    ensures text { IfOk result (λ text. has_float (write (T.doc value.now)) ≡ false
        → text.items ≡ compact_text (write (T.doc value.now))) }
    ensures json { IfOk result (λ text. IsJsonOf (write (T.doc value.now)) text.items) }
{
    append_text(Vec::with_capacity(alloc, 128)?, value)
}
