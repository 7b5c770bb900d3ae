//! Types that are read from JSON trees and texts and written as such.
ghost use Rattle.std.specs.Prelude.{◌≡◌, ◌≤◌, ◌<◌, ◌+◌, ◌++◌, ◌∷◌, ◌↔◌, ℕ, List, length, true, false, IsErrOf, Some, IfOk, IfErr, OnOk};
ghost use Rattle.json.specs.Reads.{token_of};
ghost use Rattle.serde_json.specs.Data.{Data};
ghost use Rattle.serde_json.specs.Read.{read as read_text};
ghost use Rattle.serde_json.specs.View.{view};
ghost use Rattle.serde_json.specs.Written.{has_float, compact_text};
ghost use Rattle.utoipa_base.specs.Kinds.{ref_or};
ghost use Rattle.utoipa_base.specs.Faults.{Refuses};
ghost use Rattle.utoipa_base.specs.FromTokens.{FromTokens};
ghost use Rattle.utoipa_base.specs.Printed.{IsJsonOf};
ghost use Rattle.utoipa_base.specs.Reading.{read};
ghost use Rattle.utoipa_base.specs.Reads.{Reads};
ghost use Rattle.utoipa_base.specs.Refs.{ref_or_doc};
ghost use Rattle.utoipa_base.specs.Shape.{IsOf, value_of};
ghost use Rattle.utoipa_base.specs.Texts.{IsTextOf, RefusesText};
ghost use Rattle.utoipa_base.specs.Values.{values, schema_count, is_schema};
ghost use Rattle.utoipa_base.specs.OfKind.{text_of_kind, flag_of_kind, whole_of_kind, tree_of_kind, list_of_kind, map_of_kind};
ghost use Rattle.utoipa_base.specs.Writing.{write};

use crate::builder::built_tree;
use crate::emit::{Emit, append_text, written_text};
use crate::fault::ReadFault;
use crate::fraction::has_fraction;
use crate::readings::{Counted, Readings};
use crate::refs::{Ref, RefOr};
use crate::scalar::{read_flag, read_text, read_whole};
use crate::text::from_text;
use crate::token_tree::next_tree;
use crate::unread::Unread;
use json::{Reader, Token};
use serde_json::Value;
use std::alloc::{AllocError, Global};
use std::collections::BTreeMap;

/// A type whose values are read from JSON trees and written as JSON trees.
///
/// `kind`, by which a tree is read, and `doc`, a value as the document that the definitions of reading, writing, normal form and
/// well-formedness speak of, are ghost members of [`Documented`](crate::Documented).
pub trait Tree: Emit {
    /// Reads the tree, and counts the schema readings on the way.
    ///
    /// Fails where the tree is no value of the type, by the first member that does not fit, and where memory runs out.
    /// Answers no `Fraction`: where the tree holds one, it is judged by its kind like any other value.
    fn read_plain(alloc: Global, tree: &Value, readings: &mut Readings) -> Result<Self, ReadFault>
        ensures { Reads (read Self.kind (view tree.now)) Self.doc result readings.old readings.new
            (values (view tree.now)) };

    /// Reads the value from the tokens of a text, and counts the schema readings on the way: it begins with the token `first` and goes
    /// on with those that the reader has, and nests no deeper than `depth`.
    ///
    /// Fails where the tokens are no such value, where a number of it is a fraction, where an entry comes twice, and where memory runs
    /// out. But for memory, that says nothing of the text: it is to be read from its tree.
    fn from_tokens(
        alloc: Global,
        first: Token<'_>,
        reader: &mut Reader<'_>,
        depth: usize,
        readings: &mut Readings,
    ) -> Result<Self, Unread>
        ensures read { IfOk result (λ v. FromTokens (read Self.kind) Self.doc v
            depth (token_of first.entry ∷ reader.old) reader.new readings.old readings.new) }
        ensures left { OnOk result (length reader.new ≤ length reader.old) }
    {
        let tree = next_tree(alloc, first, reader, depth)?;
        Ok(Self::read_plain(alloc, &tree, readings)?)
    }

    /// An equal value. Fails where memory runs out.
    fn try_clone(&self, alloc: Global) -> Result<Self, AllocError>
        ensures { IfOk result (λ copy. Self.doc copy ≡ Self.doc self.now) };

    // Each value is a document of the type's kind.
    ghost is_of_kind: { (x : Self) → IsOf (Self.doc x) (value_of Self.kind) };

    /// Reads the tree.
    ///
    /// Fails with `Fraction` exactly where the tree holds a fraction, before any other fault and without memory; else where the tree is
    /// no value of the type, with the fault of a member that does not fit, and with `Memory` where memory runs out. Never fails with
    /// `Text`.
    final fn from_value(alloc: Global, tree: &Value) -> Result<Self, ReadFault>
        ensures fraction { IsErrOf result ReadFault.Fraction ↔ (has_float (view tree.now) ≡ true) }
        ensures ok { IfOk result (λ v. read Self.kind (view tree.now) ≡ Some (Self.doc v)) }
        ensures err { IfErr result (λ e. has_float (view tree.now) ≡ false
            → Refuses (read Self.kind (view tree.now)) e) }
    {
        if has_fraction(tree) {
            return Err(ReadFault::Fraction);
        }
        let mut readings = Readings::new();
        Self::read_plain(alloc, tree, &mut readings)
    }

    /// Reads the tree as [`Tree::from_value`] does, and counts the schema readings.
    ///
    /// There are at most as many readings as the tree has values, also where it is refused, and at least as many as the
    /// document has schemas, up to the greatest `u64`. Where the tree holds a fraction there is none. The outcome is a fault exactly where
    /// and as [`Tree::from_value`] fails.
    final fn from_value_counted(alloc: Global, tree: &Value) -> Counted<Self>
        ensures fraction { IsErrOf result.outcome ReadFault.Fraction ↔ (has_float (view tree.now) ≡ true) }
        ensures ok { IfOk result.outcome (λ v. read Self.kind (view tree.now) ≡ Some (Self.doc v)) }
        ensures err { IfErr result.outcome (λ e. has_float (view tree.now) ≡ false
            → Refuses (read Self.kind (view tree.now)) e) }
        ensures uncounted { has_float (view tree.now) ≡ true → result.readings ≡ 0 }
        ensures at_most { result.readings ≤ values (view tree.now) }
        ensures at_least { IfOk result.outcome (λ v. result.readings < u64.MAX
            → schema_count (Self.doc v) ≤ result.readings) }
    {
        if has_fraction(tree) {
            return Counted {
                outcome: Err(ReadFault::Fraction),
                readings: 0,
            };
        }
        let mut readings = Readings::new();
        let outcome = Self::read_plain(alloc, tree, &mut readings);
        Counted {
            outcome,
            readings: readings.number(),
        }
    }

    /// Reads a JSON text: its tokens, and where these are not enough its tree, so that a text that is refused is read twice.
    ///
    /// Answers `Text` exactly where the text is no JSON, `Fraction` exactly where a number of it is neither an `i64` nor a `u64`, and
    /// else what [`Tree::from_value`] answers of the text's tree; `Memory`, which says nothing of the text, where memory runs out.
    final fn from_json_text(alloc: Global, text: &str) -> Result<Self, ReadFault>
        ensures ok { IfOk result (λ v. IsTextOf Self.kind (Self.doc v) text.now) }
        ensures err { IfErr result (RefusesText Self.kind text.now) }
    {
        from_text::<Self>(alloc, text).outcome
    }

    /// Reads a JSON text as [`Tree::from_json_text`] does, and counts the schema readings.
    ///
    /// There are at most as many readings as the text's tree has values, also where it is refused, and at least as many as the document
    /// has schemas, up to the greatest `u64`.
    final fn from_json_text_counted(alloc: Global, text: &str) -> Counted<Self>
        ensures ok { IfOk result.outcome (λ v. IsTextOf Self.kind (Self.doc v) text.now) }
        ensures err { IfErr result.outcome (RefusesText Self.kind text.now) }
        ensures at_most { (tree : Data) → read_text text.now ≡ Some tree → result.readings ≤ values tree }
        ensures at_least { IfOk result.outcome (λ v. result.readings < u64.MAX
            → schema_count (Self.doc v) ≤ result.readings) }
    {
        from_text(alloc, text)
    }

    /// The tree that the value is written as. Fails where memory runs out.
    final fn to_value(&self, alloc: Global) -> Result<Value, AllocError>
        ensures { IfOk result (λ v. view v ≡ write (Self.doc self.now)) }
    {
        built_tree(alloc, self)
    }

    /// The text, with the value as JSON at its end: in compact form, the members of each object in the order of their names.
    ///
    /// What was added is read as the tree that the value is written as, with its fractions. The text of a whole number is its
    /// digits; of a fraction it is one that is read as the fraction, and which is not defined. Fails where memory runs out.
    final fn append_json(&self, _alloc: Global, text: Vec<u8>) -> Result<Vec<u8>, AllocError>
        ensures text { IfOk result (λ longer. has_float (write (Self.doc self.now)) ≡ false
            → longer.items ≡ text.items ++ compact_text (write (Self.doc self.now))) }
        ensures json { IfOk result (λ longer. (added : List ℕ) × (longer.items ≡ text.items ++ added)
            × IsJsonOf (write (Self.doc self.now)) added) }
    {
        append_text(text, self)
    }

    /// The value as JSON, as [`Tree::append_json`] writes it. Fails where memory runs out.
    final fn to_json(&self, alloc: Global) -> Result<Vec<u8>, AllocError>
        ensures text { IfOk result (λ text. has_float (write (Self.doc self.now)) ≡ false
            → text.items ≡ compact_text (write (Self.doc self.now))) }
        ensures json { IfOk result (λ text. IsJsonOf (write (Self.doc self.now)) text.items) }
    {
        written_text(alloc, self)
    }
}

/// A type that may stand in a place that a reference can take: `RefOr` reads it.
pub trait Place: Tree {
    /// Whether the type is a schema: then a reference in its place counts as a schema reading.
    fn is_schema() -> bool
        ensures { result ≡ is_schema Self.kind };

    /// Reads the tree as a reference, or else as a value of the type. Fails where it is neither, with the fault of the
    /// type's own reading, and where memory runs out.
    #[tactic(auto, using(crate::proofs::Places::by_places))]
    fn read_ref_or(
        alloc: Global,
        tree: &Value,
        readings: &mut Readings,
    ) -> Result<RefOr<Self>, ReadFault>
        ensures { Reads (read (ref_or Self.kind) (view tree.now)) (ref_or_doc Self.kind Self.doc) result
            readings.old readings.new (values (view tree.now)) }
    {
        let mut uncounted = Readings::new();
        match Ref::read_plain(alloc, tree, &mut uncounted) {
            Ok(reference) => {
                if Self::is_schema() {
                    readings.tick();
                }
                Ok(RefOr::Ref(reference))
            }
            Err(ReadFault::Memory) => Err(ReadFault::Memory),
            Err(_) => Ok(RefOr::T(Self::read_plain(alloc, tree, readings)?)),
        }
    }
}

/// A text.
#[tactic(auto, using(crate::proofs::ByKind::by_kind, crate::proofs::Places::places))]
impl Tree for String {
    ghost is_of_kind = { text_of_kind };

    fn read_plain(
        alloc: Global,
        tree: &Value,
        _readings: &mut Readings,
    ) -> Result<String, ReadFault> {
        read_text(alloc, tree)
    }

    fn try_clone(&self, _alloc: Global) -> Result<String, AllocError> {
        self.clone()
    }
}

/// True or false.
#[tactic(auto, using(crate::proofs::ByKind::by_kind, crate::proofs::Places::places))]
impl Tree for bool {
    ghost is_of_kind = { flag_of_kind };

    fn read_plain(
        _alloc: Global,
        tree: &Value,
        _readings: &mut Readings,
    ) -> Result<bool, ReadFault> {
        read_flag(tree)
    }

    fn try_clone(&self, _alloc: Global) -> Result<bool, AllocError> {
        Ok(*self)
    }
}

/// A whole number from 0 to 18446744073709551615.
#[tactic(auto, using(crate::proofs::ByKind::by_kind, crate::proofs::Places::places))]
impl Tree for usize {
    ghost is_of_kind = { whole_of_kind };

    fn read_plain(
        _alloc: Global,
        tree: &Value,
        _readings: &mut Readings,
    ) -> Result<usize, ReadFault> {
        read_whole(tree)
    }

    fn try_clone(&self, _alloc: Global) -> Result<usize, AllocError> {
        Ok(*self)
    }
}

impl Place for usize {
    fn is_schema() -> bool {
        false
    }
}

/// Any tree.
#[tactic(auto, using(crate::proofs::ByKind::by_kind, crate::proofs::Places::places))]
impl Tree for Value {
    ghost is_of_kind = { tree_of_kind };

    fn read_plain(
        _alloc: Global,
        tree: &Value,
        _readings: &mut Readings,
    ) -> Result<Value, ReadFault> {
        Ok(tree.clone()?)
    }

    fn try_clone(&self, _alloc: Global) -> Result<Value, AllocError> {
        self.clone()
    }
}

/// A list, which is read item by item.
#[tactic(auto, using(crate::proofs::ByKind::by_lists))]
impl<T: Tree> Tree for Vec<T> {
    ghost is_of_kind = { list_of_kind T.doc T.kind T.is_of_kind };

    fn read_plain(
        alloc: Global,
        tree: &Value,
        readings: &mut Readings,
    ) -> Result<Vec<T>, ReadFault> {
        let Some(items) = tree.as_array() else {
            return Err(ReadFault::Kind("list"));
        };
        let mut list = Vec::new(alloc);
        for item in items {
            list.push(T::read_plain(alloc, item, readings)?)?;
        }
        Ok(list)
    }

    fn from_tokens(
        alloc: Global,
        first: Token<'_>,
        reader: &mut Reader<'_>,
        depth: usize,
        readings: &mut Readings,
    ) -> Result<Vec<T>, Unread> {
        let Token::BeginArray = first else {
            return Err(Unread::AsTree);
        };
        if depth == 0 {
            return Err(Unread::AsTree);
        }
        let mut list = Vec::new(alloc);
        'items: while !reader.take_end_array() {
            let token = reader.next().ok_or(Unread::AsTree)?;
            let item = T::from_tokens(alloc, token, reader, depth - 1, readings)?;
            list.push(item)?;
        }
        Ok(list)
    }

    fn try_clone(&self, alloc: Global) -> Result<Vec<T>, AllocError> {
        let mut list = Vec::new(alloc);
        for item in self {
            list.push(item.try_clone(alloc)?)?;
        }
        Ok(list)
    }
}

/// An object as a map from the names of its members, which is read member by member.
#[tactic(auto, using(crate::proofs::Maps::by_maps))]
impl<T: Tree> Tree for BTreeMap<String, T> {
    ghost is_of_kind = { map_of_kind T.doc T.kind T.is_of_kind };

    fn read_plain(
        alloc: Global,
        tree: &Value,
        readings: &mut Readings,
    ) -> Result<BTreeMap<String, T>, ReadFault> {
        let Some(members) = tree.as_object() else {
            return Err(ReadFault::Kind("map"));
        };
        let mut map = BTreeMap::new(alloc);
        for (key, member) in members.iter() {
            let name = key.clone()?;
            let value = T::read_plain(alloc, member, readings)?;
            drop(map.insert(name, value)?);
        }
        Ok(map)
    }

    fn from_tokens(
        alloc: Global,
        first: Token<'_>,
        reader: &mut Reader<'_>,
        depth: usize,
        readings: &mut Readings,
    ) -> Result<BTreeMap<String, T>, Unread> {
        let Token::BeginObject = first else {
            return Err(Unread::AsTree);
        };
        if depth == 0 {
            return Err(Unread::AsTree);
        }
        let mut map = BTreeMap::new(alloc);
        'members: while let Some(key) = reader.next_key()? {
            let name = String::from_str(alloc, key)?;
            let token = reader.next().ok_or(Unread::AsTree)?;
            let value = T::from_tokens(alloc, token, reader, depth - 1, readings)?;
            let earlier = map.insert(name, value)?;
            if earlier.is_some() {
                return Err(Unread::AsTree);
            }
        }
        Ok(map)
    }

    fn try_clone(&self, alloc: Global) -> Result<BTreeMap<String, T>, AllocError> {
        let mut map = BTreeMap::new(alloc);
        for (key, member) in self.iter() {
            let name = key.clone()?;
            let value = member.try_clone(alloc)?;
            drop(map.insert(name, value)?);
        }
        Ok(map)
    }
}

impl Place for String {
    fn is_schema() -> bool {
        false
    }
}

impl Place for bool {
    fn is_schema() -> bool {
        false
    }
}

impl Place for Value {
    fn is_schema() -> bool {
        false
    }
}

impl<T: Tree> Place for Vec<T> {
    fn is_schema() -> bool {
        false
    }
}

impl<T: Tree> Place for BTreeMap<String, T> {
    fn is_schema() -> bool {
        false
    }
}
