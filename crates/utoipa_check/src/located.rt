//! Reading a text or a tree as a document of a type, where a fault tells the place too.
//!
//! A document is read as [`Tree::from_value`] reads it, and nothing more is done. Only where that refuses it is the tree looked through
//! for the place: a fraction is told at the first one, and a tree that is no document at the first place that does not fit, in the order of
//! [`misfits`](crate::misfits()).
//!
//! The place is sought by a kind, which a caller gives as a value. It is to be that of the type; by another kind the document is read all
//! the same, and a place is told that does not fit that kind, if there is one.
ghost use Rattle.std.specs.Prelude.{◌≡◌, None, Some, IfOk, IfErr, true};
ghost use Rattle.serde_json.specs.Data.{Data};
ghost use Rattle.serde_json.specs.Read.{read as read_text};
ghost use Rattle.serde_json.specs.View.{view};
ghost use Rattle.utoipa_base.specs.Kinds as kinds;
ghost use Rattle.utoipa_base.specs.WellFormed.{ReadsAs};
ghost use Rattle.utoipa_check.specs.Located as specs;
ghost use Rattle.utoipa_check.specs.Misfits.{Misfits};
ghost use Rattle.utoipa_check.specs.Places.{found};
ghost use Rattle.utoipa_check.specs.Views.{cause_of, target_of};
ghost use Rattle.utoipa_tables.specs.Tables.{kind_of};

use crate::layout::Target;
use crate::misfit::Cause;
use crate::shown::Shown;
use crate::walk::walk;
use serde_json::Value;
use std::alloc::{AllocError, Global};
use std::error::Error;
use std::fmt;
use utoipa_base::{ReadFault, Tree};
use utoipa_tables::Kind;

/// Where a text was refused as a document.
#[derive(Drop)]
pub enum FaultPlace {
    /// In the text, which is no JSON.
    InText {
        /// The line at which the parser stood, the first of which is 1.
        line: usize,
        /// The byte of that line at which it stood, the first of which is 1. At the end of the text it is the last one, and 0 of an empty line.
        column: usize,
    },
    /// In the tree of the text.
    InTree {
        /// The JSON Pointer of the place (RFC 6901).
        pointer: String,
        /// Why the tree there does not fit.
        cause: Cause,
    },
}

/// Why a text was refused as a document, and where.
#[derive(Drop)]
pub struct LocatedFault {
    /// Why: as the cause at the place says it, and as [`Tree::from_value`] does where no place is told. `Text` where the text is no JSON.
    pub fault: ReadFault,
    /// Where. None where memory ran out, and where a tree that is no document of the type fits the kind by which the place was sought.
    pub place: Option<FaultPlace>,
}

/// The fault of memory that ran out.
fn out_of_memory() -> LocatedFault
    ensures fault { result.fault ≡ ReadFault.Memory }
    ensures place { result.place ≡ None }
{
    LocatedFault {
        fault: ReadFault::Memory,
        place: None,
    }
}

/// The first place of a tree that does not fit. Fails where memory runs out.
fn first_place(
    alloc: Global,
    target: Target,
    tree: &Value,
) -> Result<Option<FaultPlace>, AllocError>
    ensures { IfOk result (specs.IsFirst (found (target_of target) (view tree.now))) }
{
    let mut visits = 0;
    let misfits = walk(alloc, target, tree, &mut visits)?;
    match misfits.first() {
        Some(misfit) => {
            let pointer = misfit.pointer.to_string(alloc)?;
            let cause = misfit.cause;
            Ok(Some(FaultPlace::InTree { pointer, cause }))
        }
        None => Ok(None),
    }
}

/// Where a tree was refused for a fault. Fails where memory runs out.
fn place_of(
    alloc: Global,
    kind: Kind,
    tree: &Value,
    fault: &ReadFault,
) -> Result<Option<FaultPlace>, AllocError>
    ensures { IfOk result (specs.IsPlaceOf (kind_of kind) (view tree.now) fault.now) }
{
    match fault {
        ReadFault::Memory => Ok(None),
        ReadFault::Fraction => first_place(alloc, Target::NoFraction, tree),
        _ => first_place(alloc, Target::Document(kind), tree),
    }
}

/// What was wanted where another sort of tree stands, in a word.
fn wanted(kind: Kind) -> &'static str
    ensures { result.now ≡ specs.wanted (kind_of kind) }
{
    match kind {
        Kind::Text | Kind::WordOf(_) | Kind::SchemaFormat => "text",
        Kind::Flag => "bool",
        Kind::Whole | Kind::Numeral => "whole number",
        Kind::Any => "tree",
        Kind::Version => "version",
        Kind::ListOf(_) => "list",
        Kind::MapOf(_) | Kind::OrderedMapOf(_) | Kind::EntriesOf(_) | Kind::Flows => "map",
        Kind::RefOr(own) => wanted(*own),
        Kind::Named(_) => "object",
        Kind::Schema | Kind::ArrayItems | Kind::AdditionalProperties => "schema",
        Kind::SchemaType => "schema type",
        Kind::SecurityScheme | Kind::ApiKey => "security scheme",
    }
}

/// The fault that says a cause. A tree that is refused for another fault has no fraction: for that cause the fault stays.
fn saying(cause: Cause, fault: ReadFault) -> ReadFault
    ensures says { specs.Says (cause_of cause) result }
    ensures of_misfit { specs.is_of_misfit fault ≡ true → specs.is_of_misfit result ≡ true }
{
    match cause {
        Cause::Absent(name) => ReadFault::Missing(name),
        Cause::Expected(kind) => ReadFault::Kind(wanted(kind)),
        Cause::UnknownWord(_) | Cause::UnknownName(_) => {
            ReadFault::Word("those that may stand here")
        }
        Cause::NoAlternative(_) => ReadFault::Alternative,
        Cause::Fraction => fault,
    }
}

/// The fault of a tree that does not fit: the one that says the cause at its first place, and the reader's own where no place is told.
fn fault_at(place: &Option<FaultPlace>, fault: ReadFault) -> ReadFault
    ensures says { (ms : Misfits) → specs.IsFirst ms place.now → specs.SaysFirst ms result }
    ensures of_misfit { specs.is_of_misfit fault ≡ true → specs.is_of_misfit result ≡ true }
{
    match place {
        Some(FaultPlace::InTree { cause, .. }) => saying(*cause, fault),
        Some(FaultPlace::InText { .. }) => fault,
        None => fault,
    }
}

/// The fault of reading a tree, by the first place that is told. The fault of memory and that of a fraction stay.
fn fault_told(place: &Option<FaultPlace>, fault: ReadFault) -> ReadFault
    ensures refused { (k : kinds.Kind) → (t : Data) → specs.RefusesTree k t fault → specs.RefusesTree k t result }
    ensures place { (k : kinds.Kind) → (t : Data) → specs.IsPlaceOf k t fault place.now → specs.IsPlaceOf k t result place.now }
    ensures says { (k : kinds.Kind) → (t : Data) → specs.IsPlaceOf k t fault place.now → specs.IsFaultOf k t result }
{
    match fault {
        ReadFault::Memory => ReadFault::Memory,
        ReadFault::Fraction => ReadFault::Fraction,
        ReadFault::Text => ReadFault::Text,
        _ => fault_at(place, fault),
    }
}

/// A fault of reading a tree, with its place.
fn located(alloc: Global, kind: Kind, tree: &Value, fault: ReadFault) -> LocatedFault
    ensures refused { (k : kinds.Kind) → specs.RefusesTree k (view tree.now) fault → specs.RefusesTree k (view tree.now) result.fault }
    ensures place { specs.IsPlaceOf (kind_of kind) (view tree.now) result.fault result.place }
    ensures says { specs.IsFaultOf (kind_of kind) (view tree.now) result.fault }
{
    match place_of(alloc, kind, tree, &fault) {
        Ok(place) => {
            let fault = fault_told(&place, fault);
            LocatedFault { fault, place }
        }
        Err(_) => out_of_memory(),
    }
}

/// The tree of a text. Fails where the text is no JSON, and where memory runs out.
fn tree_of(alloc: Global, text: &str) -> Result<Value, LocatedFault>
    ensures ok { IfOk result (λ tree. read_text text.now ≡ Some (view tree)) }
    ensures err { IfErr result (λ e. specs.RefusesTreeless e.fault) }
    ensures none { IfErr result (λ e. e.fault ≡ ReadFault.Text → read_text text.now ≡ None) }
    ensures place { IfErr result (λ e. specs.IsPlaceOfTreeless e.fault e.place) }
{
    match Value::from_str(alloc, text) {
        Ok(tree) => Ok(tree),
        Err(error) if error.is_memory() => Err(out_of_memory()),
        Err(error) => {
            let line = error.line();
            let column = error.column();
            Err(LocatedFault {
                fault: ReadFault::Text,
                place: Some(FaultPlace::InText { line, column }),
            })
        }
    }
}

/// The document of a tree, as [`Tree::from_value`] reads it.
///
/// Fails where that does, with a place in the tree. A tree with a fraction is refused with `Fraction`, at the first one. Another tree is
/// refused at the first place that does not fit the kind, with the fault that says the cause there: `Missing` of an absent member, `Kind` of
/// another sort of tree, `Word` of an unknown word, `Alternative` where no alternative fits. The reader may have met another fault first.
/// The kind is to be that of the type. By another kind the tree may fit; then the fault is the reader's own, and no place is told.
/// Fails with `Memory`, and without a place, also where memory runs out while the place is sought.
pub fn from_value_located<T: Tree>(
    alloc: Global,
    kind: Kind,
    tree: &Value,
) -> Result<T, LocatedFault>
    ensures ok { IfOk result (λ document. ReadsAs T.kind (view tree.now) (T.doc document)) }
    ensures err { IfErr result (λ e. specs.RefusesTree T.kind (view tree.now) e.fault) }
    ensures place { IfErr result (λ e. specs.IsPlaceOf (kind_of kind) (view tree.now) e.fault e.place) }
    ensures says { IfErr result (λ e. specs.IsFaultOf (kind_of kind) (view tree.now) e.fault) }
    ensures told { IfErr result (λ e. kind_of kind ≡ T.kind → e.place ≡ None → e.fault ≡ ReadFault.Memory) }
{
    match T::from_value(alloc, tree) {
        Ok(document) => Ok(document),
        Err(fault) => Err(located(alloc, kind, tree, fault)),
    }
}

/// The document of a JSON text.
///
/// Fails with `Text` exactly where the text is no JSON, and tells the line and the column at which the parser stood then; no clause tells
/// which these are. Else fails as [`from_value_located`] does of the text's tree, and with `Memory` where memory runs out.
pub fn from_json_located<T: Tree>(alloc: Global, kind: Kind, text: &str) -> Result<T, LocatedFault>
    ensures ok { IfOk result (λ document. specs.IsTextOf T.kind (T.doc document) text.now) }
    ensures err { IfErr result (λ e. specs.RefusesText T.kind (read_text text.now) e.fault) }
    ensures place { IfErr result (λ e. specs.IsPlaceOfText (kind_of kind) (read_text text.now) e.fault e.place) }
    ensures says { IfErr result (λ e. specs.IsFaultOfText (kind_of kind) (read_text text.now) e.fault) }
    ensures told { IfErr result (λ e. kind_of kind ≡ T.kind → e.place ≡ None → e.fault ≡ ReadFault.Memory) }
{
    let tree = tree_of(alloc, text)?;
    from_value_located(alloc, kind, &tree)
}

/// The place, and why the text was refused: the JSON Pointer and the cause, as a misfit has them, or the line and the column.
impl fmt::Display for LocatedFault {
    fn fmt<W: fmt::Write>(&self, f: &mut fmt::Formatter<W>) -> fmt::Result {
        let fault = &self.fault;
        match &self.place {
            Some(FaultPlace::InText { line, column }) => {
                write!(f, "line {line}, column {column}: {fault}")
            }
            Some(FaultPlace::InTree { pointer, cause }) => {
                let pointer = Shown(pointer.as_str());
                write!(f, "{pointer}: {cause}")
            }
            None => write!(f, "{fault}"),
        }
    }
}

impl fmt::Debug for LocatedFault {
    fn fmt<W: fmt::Write>(&self, f: &mut fmt::Formatter<W>) -> fmt::Result {
        write!(f, "LocatedFault({self})")
    }
}

impl Error for LocatedFault {}
