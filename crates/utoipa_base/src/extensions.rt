//! Specification extensions.
ghost use Rattle.std.specs.Prelude.{◌≡◌, ◌↔◌, ℕ, List, false, option_map, IfOk, OnOk, OnErr, IsTrue, string_bytes};
ghost use Rattle.std.specs.Iterator.{IsFinite};
ghost use Rattle.std.specs.Option.{option_or};
ghost use Rattle.serde_json.specs.Data.{no_members, put};
ghost use Rattle.serde_json.specs.Find.{get_member};
ghost use Rattle.serde_json.specs.View.{view, members_view};
ghost use Rattle.serde_json.specs.Written.{members_have_float};
ghost use Rattle.utoipa_base.specs.Lists.{EachIterator, GivesAll};

use crate::all_or_none::put_all;
use crate::fraction::members_have_fraction;
use crate::same_trees::same_members;
use serde_json::{Map, Value};
use std::alloc::{AllocError, Global};
use std::collections::BTreeMap;
use std::iter::{FromIterator, IntoIterator};

mod trees;

pub(crate) use trees::extensions_if_any;
pub use trees::{clone_extensions, is_extension_name, read_extensions};

/// Specification extensions (OpenAPI 3.1, section 4.9): members of an object whose names begin `x-`, in the order of their
/// names. Only the builder puts `x-` before a name; another name that is set here is written as
/// it stands, and is no extension when the object is read again.
#[derive(Debug, Drop)]
pub struct Extensions {
    pub(crate) entries: BTreeMap<String, Value>,
}

impl Extensions {
    ghost use Rattle.utoipa_base.specs.Extensions.{extensions_view, extensions_builder_view, Pairs, put_pairs, overlaid};

    /// No extensions. Takes no memory.
    pub fn new(alloc: Global) -> Extensions
        ensures { extensions_view result ≡ no_members }
    {
        Extensions {
            entries: BTreeMap::new(alloc),
        }
    }

    /// A builder with no extensions. Takes no memory.
    pub fn builder(alloc: Global) -> ExtensionsBuilder
        ensures { extensions_builder_view result ≡ no_members }
    {
        ExtensionsBuilder::new(alloc)
    }

    /// The extensions with the given names, to which no prefix is added. The later of two equal
    /// names stays. The iterator has to end. Fails where memory runs out.
    pub fn from_pairs<I: IntoIterator<Item = (String, Value)>>(
        alloc: Global,
        pairs: I,
    ) -> Result<Extensions, AllocError>
        requires can { EachIterator I.into_iter_gives I.IntoIter.can_next pairs }
        requires ends { EachIterator I.into_iter_gives (λ it. IsFinite (I.IntoIter.remaining it)) pairs }
        ensures { IfOk result (λ e. (given : Pairs) × GivesAll I.into_iter_gives I.IntoIter.next_gives pairs given
            × (extensions_view e ≡ put_pairs given no_members)) }
    {
        let mut entries = BTreeMap::new(alloc);
        for (name, value) in pairs {
            drop(entries.insert(name, value)?);
        }
        Ok(Extensions { entries })
    }

    /// Takes every extension of another value, which wins where both have the name. Fails where
    /// memory runs out, and then nothing has changed here, and the other value is given up.
    pub fn merge(&mut self, alloc: Global, other: Extensions) -> Result<(), AllocError>
        ensures ok { OnOk result (extensions_view self.new
            ≡ overlaid (extensions_view other) (extensions_view self.old)) }
        ensures by_name { OnOk result ((name : List ℕ) → get_member name (extensions_view self.new)
            ≡ option_or (get_member name (extensions_view other)) (get_member name (extensions_view self.old))) }
        ensures err { OnErr result (extensions_view self.new ≡ extensions_view self.old) }
    {
        put_all(&mut self.entries, alloc, other.entries)
    }

    /// The value of an extension, by its whole name.
    pub fn get(&self, name: &str) -> Option<&Value>
        ensures { option_map (λ v. view v.now) result
            ≡ get_member name.now (extensions_view self.now) }
    {
        self.entries.get(name)
    }

    /// Sets an extension, and answers the value that the name had before. No prefix is added.
    /// Fails where memory runs out, and then nothing has changed.
    pub fn insert(&mut self, name: String, value: Value) -> Result<Option<Value>, AllocError>
        ensures ok { OnOk result (extensions_view self.new
            ≡ put (string_bytes name) (view value) (extensions_view self.old)) }
        ensures earlier { IfOk result (λ o. option_map view o
            ≡ get_member (string_bytes name) (extensions_view self.old)) }
        ensures err { OnErr result (extensions_view self.new ≡ extensions_view self.old) }
    {
        Ok(self.entries.insert(name, value)?)
    }

    /// Every extension under its name.
    pub fn as_map(&self) -> &BTreeMap<String, Value>
        ensures { members_view result.now.entries ≡ extensions_view self.now }
    {
        &self.entries
    }

    /// Moves out every extension under its name.
    pub fn into_map(self) -> BTreeMap<String, Value>
        ensures { members_view result.entries ≡ extensions_view self }
    {
        self.entries
    }

    /// Whether a value holds a fraction, at any depth.
    pub fn has_fraction(&self) -> bool
        ensures { result ≡ members_have_float (extensions_view self.now) }
    {
        members_have_fraction(&self.entries)
    }

    /// Whether both have the same names with equal values. Neither may hold a fraction.
    pub fn same(&self, other: &Extensions) -> bool
        requires whole { members_have_float (extensions_view self.now) ≡ false }
        requires other_whole { members_have_float (extensions_view other.now) ≡ false }
        ensures { IsTrue result ↔ (extensions_view self.now ≡ extensions_view other.now) }
    {
        same_members(&self.entries, &other.entries)
    }

    /// An equal copy. Fails where memory runs out.
    pub fn try_clone(&self, alloc: Global) -> Result<Extensions, AllocError>
        ensures { IfOk result (λ e. extensions_view e ≡ extensions_view self.now) }
    {
        let entries = copied_members(alloc, &self.entries)?;
        Ok(Extensions { entries })
    }
}

// Made anew, so that the copy lies in the memory that is handed in.
fn copied_members(
    alloc: Global,
    members: &Map<String, Value>,
) -> Result<Map<String, Value>, AllocError>
    ensures { IfOk result (λ m. members_view m.entries ≡ members_view members.now.entries) }
{
    let mut copies = Map::new(alloc);
    for (name, member) in members.iter() {
        let copy = name.clone()?;
        drop(copies.insert(copy, member.clone()?)?);
    }
    Ok(copies)
}

/// Extensions are collected of their names, to which no prefix is added, and values, as by [`Extensions::from_pairs`].
impl FromIterator<(String, Value)> for Extensions {
    ghost use Rattle.utoipa_base.specs.Extensions.{extensions_view, put_pairs};

    type Alloc = Global;

    ghost from_iter_gives = { λ pairs e. extensions_view e ≡ put_pairs pairs no_members };

    fn from_iter<U: IntoIterator<Item = (String, Value)>>(
        alloc: Global,
        iter: U,
    ) -> Result<Extensions, AllocError> {
        Extensions::from_pairs(alloc, iter)
    }
}

/// Builds `Extensions` from names with or without `x-`.
#[derive(Debug, Drop)]
pub struct ExtensionsBuilder {
    pub(crate) extensions: Extensions,
}

impl ExtensionsBuilder {
    ghost use Rattle.utoipa_base.specs.Extensions.{extensions_view, extensions_builder_view, extension_name};

    /// No extensions. Takes no memory.
    pub fn new(alloc: Global) -> ExtensionsBuilder
        ensures { extensions_builder_view result ≡ no_members }
    {
        ExtensionsBuilder {
            extensions: Extensions::new(alloc),
        }
    }

    /// Sets an extension, in place of an earlier one of that name. A name that does not begin
    /// `x-` gets that before it. Fails where memory runs out, and gives up what was built.
    pub fn add(
        self,
        alloc: Global,
        name: String,
        value: Value,
    ) -> Result<ExtensionsBuilder, AllocError>
        ensures { IfOk result (λ b. extensions_builder_view b
            ≡ put (extension_name (string_bytes name)) (view value) (extensions_builder_view self)) }
    {
        let mut extensions = self.extensions;
        let whole = trees::prefixed(alloc, name)?;
        drop(extensions.insert(whole, value)?);
        Ok(ExtensionsBuilder { extensions })
    }

    /// The extensions that were added.
    pub fn build(self) -> Extensions
        ensures { extensions_view result ≡ extensions_builder_view self }
    {
        self.extensions
    }
}

impl From<ExtensionsBuilder> for Extensions {
    ghost use Rattle.utoipa_base.specs.Extensions.{extensions_view, extensions_builder_view};

    ghost from_gives = { λ b e. extensions_view e ≡ extensions_builder_view b };

    fn from(builder: ExtensionsBuilder) -> Extensions {
        builder.build()
    }
}

impl From<Extensions> for ExtensionsBuilder {
    ghost use Rattle.utoipa_base.specs.Extensions.{extensions_view, extensions_builder_view};

    ghost from_gives = { λ e b. extensions_builder_view b ≡ extensions_view e };

    fn from(extensions: Extensions) -> ExtensionsBuilder {
        ExtensionsBuilder { extensions }
    }
}
