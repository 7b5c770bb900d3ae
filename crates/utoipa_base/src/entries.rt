//! Objects whose members are entries of a map, beside their extensions.
ghost use Rattle.std.specs.Prelude.{◌≤◌, ◌∷◌, length, IfOk, OnOk};
ghost use Rattle.json.specs.Reads.{token_of};
ghost use Rattle.serde_json.specs.View.{view};
ghost use Rattle.utoipa_base.specs.Events.{events};
ghost use Rattle.utoipa_base.specs.FromTokens.{FromTokens};
ghost use Rattle.utoipa_base.specs.Kinds.{entries_of};
ghost use Rattle.utoipa_base.specs.Reading.{read};
ghost use Rattle.utoipa_base.specs.Reads.{Reads};
ghost use Rattle.utoipa_base.specs.Values.{values};
ghost use Rattle.utoipa_base.specs.Views.{entries_beside};
ghost use Rattle.utoipa_base.specs.Writing.{write};

use crate::emit::Emit;
use crate::extensions::{Extensions, extensions_if_any, is_extension_name, read_extensions};
use crate::fault::ReadFault;
use crate::pending::PendingExtensions;
use crate::readings::Readings;
use crate::sink::JsonSink;
use crate::token_tree::next_tree;
use crate::tree::Tree;
use crate::unread::Unread;
use json::{Reader, Token};
use serde_json::Value;
use std::alloc::{AllocError, Global};
use std::collections::BTreeMap;

/// The entries of an object, which are all members that are no extensions, and its extensions. Fails where the tree is no
/// object, where an entry does not fit, and where memory runs out.
#[tactic(auto, using(crate::proofs::EntryMaps::by_entries))]
pub fn read_entries<T: Tree>(
    alloc: Global,
    tree: &Value,
    type_name: &'static str,
    readings: &mut Readings,
) -> Result<(BTreeMap<String, T>, Option<Extensions>), ReadFault>
    ensures { Reads (read (entries_of T.kind) (view tree.now)) (λ v. entries_beside T.doc v.0 v.1) result
        readings.old readings.new (values (view tree.now)) }
{
    let Some(members) = tree.as_object() else {
        return Err(ReadFault::Kind(type_name));
    };
    let mut map = BTreeMap::new(alloc);
    for (key, member) in members.iter() {
        if !is_extension_name(key.as_str()) {
            let name = key.clone()?;
            let value = T::read_plain(alloc, member, readings)?;
            drop(map.insert(name, value)?);
        }
    }
    let extensions = read_extensions(alloc, tree)?;
    Ok((map, extensions))
}

/// The entries of an object and its extensions, as [`read_entries`] reads them, from the tokens of a text: the object begins with the token
/// `first` and goes on with those that the reader has.
///
/// Fails where the tokens are no such object, where an entry comes twice, where a number is a fraction, and where memory runs out.
pub fn entries_from_tokens<T: Tree>(
    alloc: Global,
    first: Token<'_>,
    reader: &mut Reader<'_>,
    depth: usize,
    readings: &mut Readings,
) -> Result<(BTreeMap<String, T>, Option<Extensions>), Unread>
    ensures read { IfOk result (λ v. FromTokens (read (entries_of T.kind)) (λ w. entries_beside T.doc w.0 w.1) v
        depth (token_of first.entry ∷ reader.old) reader.new readings.old readings.new) }
    ensures left { OnOk result (length reader.new ≤ length reader.old) }
{
    let Token::BeginObject = first else {
        return Err(Unread::AsTree);
    };
    if depth == 0 {
        return Err(Unread::AsTree);
    }
    let mut map = BTreeMap::new(alloc);
    let mut extensions = BTreeMap::new(alloc);
    'members: while let Some(key) = reader.next_key()? {
        let name = String::from_str(alloc, key)?;
        let token = reader.next().ok_or(Unread::AsTree)?;
        if is_extension_name(key) {
            let value = next_tree(alloc, token, reader, depth - 1)?;
            drop(extensions.insert(name, value)?);
        } else {
            let value = T::from_tokens(alloc, token, reader, depth - 1, readings)?;
            let earlier = map.insert(name, value)?;
            if earlier.is_some() {
                return Err(Unread::AsTree);
            }
        }
    }
    Ok((map, extensions_if_any(extensions)))
}

/// Sends the object of some entries and extensions to a sink; where an entry has the name of an extension, the entry stands. Fails
/// where the sink does; then some of it may have been sent.
pub fn emit_entries<T: Emit, S: JsonSink>(
    out: &mut S,
    entries: &BTreeMap<String, T>,
    extensions: &Option<Extensions>,
) -> Result<(), AllocError>
    ensures { OnOk result (S.adds out.old (events (write (entries_beside T.doc entries.now extensions.now))) out.new) }
{
    out.begin_object()?;
    let mut left = PendingExtensions::of(extensions);
    for (key, member) in entries.iter() {
        left = left.emit_key(out, key.as_str())?;
        member.emit(out)?;
    }
    left.emit_end(out)
}
