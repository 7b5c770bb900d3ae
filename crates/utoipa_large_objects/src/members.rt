//! The members of an object: the large ones read as they come, and the others as trees.
ghost use Rattle.std.specs.Prelude.{◌≡◌, ◌≤◌, ◌∷◌, length, true, IfOk, OnOk};
ghost use Rattle.json.specs.Reads.{token_of};
ghost use Rattle.utoipa_base.proofs.TableNames.{are_apart};
ghost use Rattle.utoipa_base.specs.Rows.{texts};
ghost use Rattle.utoipa_large_objects.specs.Members.{MembersFromTokens};

use json::{Reader, Token};
use serde_json::{Map, Value};
use std::alloc::Global;
use utoipa_base::open_table::OpenFields;
use utoipa_base::table::RowFields;
use utoipa_base::{Readings, Unread, next_tree};

/// The members of an object from the tokens of a text, which begins with the token `first` and goes on with those that the reader has:
/// the members of some rows as the rows' fields, and all others as trees. The rows stand in the order of their names, and none has that
/// of an extension.
///
/// Fails as [`Tree::from_tokens`](utoipa_base::Tree::from_tokens) does, where the member of a row comes twice, and where a row that asks
/// for a member has none.
pub fn members_from_tokens<S: OpenFields<R>, R: RowFields>(
    alloc: Global,
    first: Token<'_>,
    reader: &mut Reader<'_>,
    depth: usize,
    names: &[&'static str],
    readings: &mut Readings,
) -> Result<(R, Map<String, Value>), Unread>
    requires count { length names.now ≡ R.count }
    requires apart { are_apart (R.rows (texts names.now)) ≡ true }
    ensures read { IfOk result (λ v. MembersFromTokens (R.rows (texts names.now)) R.docs v.0 v.1.entries
        depth (token_of first.entry ∷ reader.old) reader.new readings.old readings.new) }
    ensures left { OnOk result (length reader.new ≤ length reader.old) }
{
    let Token::BeginObject = first else {
        return Err(Unread::AsTree);
    };
    if depth == 0 {
        return Err(Unread::AsTree);
    }
    let mut so_far = S::begin();
    let mut others = Map::new(alloc);
    'members: while let Some(name) = reader.next_key()? {
        let token = reader.next().ok_or(Unread::AsTree)?;
        let is_row = so_far.take(alloc, names, name, token, reader, depth - 1, readings)?;
        if !is_row {
            let key = String::from_str(alloc, name)?;
            let other = next_tree(alloc, token, reader, depth - 1)?;
            drop(others.insert(key, other)?);
        }
    }
    Ok((so_far.close(alloc)?, others))
}
