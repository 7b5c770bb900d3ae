//! The tree that comes next among the tokens of a text.
ghost use Rattle.std.specs.Prelude.{◌≡◌, ◌<◌, ◌≤◌, ◌==◌, ◌∷◌, length, slice_index, true, false, Some, IfOk, IfSome, OnOk, IsTrue};
ghost use Rattle.json.specs.Json.{value, items, members};
ghost use Rattle.json.specs.Reads.{token_of};
ghost use Rattle.serde_json.specs.Data.{no_members};
ghost use Rattle.serde_json.specs.Find.{is_float};
ghost use Rattle.serde_json.specs.Read.{of_json, of_items, of_members, converted, number_of, number_from};
ghost use Rattle.serde_json.specs.View.{view, number_view, items_view, members_view};
ghost use Rattle.serde_json.specs.Written.{has_float, items_have_float, members_have_float};

use crate::unread::Unread;
use fast_float::Numeral;
use json::{Reader, Token};
use serde_json::{Map, Number, Value};
use std::alloc::Global;

/// The tree that begins with the token `first` and goes on with those that the reader has, which nests no deeper than `depth`.
///
/// Fails where there is none, where a number of it is a fraction, and where memory runs out.
#[cycle(next_tree)]
pub fn next_tree(
    alloc: Global,
    first: Token<'_>,
    reader: &mut Reader<'_>,
    depth: usize,
) -> Result<Value, Unread>
    ensures ok { IfOk result (λ v. converted of_json (value depth (token_of first.entry ∷ reader.old))
        ≡ Some (view v, reader.new)) }
    ensures plain { IfOk result (λ v. has_float (view v) ≡ false) }
    ensures left { OnOk result (length reader.new ≤ length reader.old) }
{
    match first {
        Token::String(text) => Ok(Value::String(String::from_str(alloc, text)?)),
        Token::Number(text) => match whole_number(text) {
            Some(number) => Ok(Value::Number(number)),
            None => Err(Unread::AsTree),
        },
        Token::Bool(b) => Ok(Value::Bool(b)),
        Token::Null => Ok(Value::Null),
        Token::EndObject | Token::EndArray | Token::Key(_) | Token::Bad => Err(Unread::AsTree),
        Token::BeginArray => {
            if depth == 0 {
                return Err(Unread::AsTree);
            }
            Ok(Value::Array(next_items(alloc, reader, depth - 1)?))
        }
        Token::BeginObject => {
            if depth == 0 {
                return Err(Unread::AsTree);
            }
            Ok(Value::Object(next_members(alloc, reader, depth - 1)?))
        }
    }
}

#[cycle(next_tree)]
#[inline(never)]
fn next_items(alloc: Global, reader: &mut Reader<'_>, depth: usize) -> Result<Vec<Value>, Unread>
    ensures ok { IfOk result
        (λ v. converted of_items (items (value depth) (length reader.old) reader.old)
        ≡ Some (items_view v.items, reader.new)) }
    ensures plain { IfOk result (λ v. items_have_float (items_view v.items) ≡ false) }
    ensures left { OnOk result (length reader.new ≤ length reader.old) }
{
    let mut found = Vec::new(alloc);
    'items: while !reader.take_end_array() {
        let first = reader.next().ok_or(Unread::AsTree)?;
        let item = next_tree(alloc, first, reader, depth)?;
        found.push(item)?;
    }
    Ok(found)
}

#[cycle(next_tree)]
#[inline(never)]
fn next_members(
    alloc: Global,
    reader: &mut Reader<'_>,
    depth: usize,
) -> Result<Map<String, Value>, Unread>
    ensures ok { IfOk result
        (λ m. converted (λ ms. of_members ms no_members)
        (members (value depth) (length reader.old) reader.old)
        ≡ Some (members_view m.entries, reader.new)) }
    ensures plain { IfOk result (λ m. members_have_float (members_view m.entries) ≡ false) }
    ensures left { OnOk result (length reader.new ≤ length reader.old) }
{
    let mut found = Map::new(alloc);
    'members: while let Some(name) = reader.next_key()? {
        let key = String::from_str(alloc, name)?;
        let first = reader.next().ok_or(Unread::AsTree)?;
        let member = next_tree(alloc, first, reader, depth)?;
        drop(found.insert(key, member)?);
    }
    Ok(found)
}

// The number that a token writes, where it is no fraction.
fn whole_number(text: &str) -> Option<Number>
    ensures value { IfSome result (λ n. number_of text.now ≡ Some (number_view n)) }
    ensures plain { IfSome result (λ n. is_float (number_view n) ≡ false) }
{
    let bytes = text.as_bytes();
    if has_minus(bytes) {
        below_zero(&Numeral::scan(&bytes[1..]))
    } else {
        not_below_zero(&Numeral::scan(bytes))
    }
}

fn has_minus(bytes: &[u8]) -> bool
    ensures value { result ≡ (slice_index bytes.now 0 == 45) }
    ensures len { IsTrue result → 0 < length bytes.now }
{
    !bytes.is_empty() && bytes[0] == b'-'
}

fn not_below_zero(numeral: &Numeral<'_>) -> Option<Number>
    ensures value { IfSome result (λ n. number_from false numeral.now ≡ Some (number_view n)) }
    ensures plain { IfSome result (λ n. is_float (number_view n) ≡ false) }
{
    match numeral.to_u64() {
        Some(n) => Some(Number::from(n)),
        None => None,
    }
}

// `-0` is a fraction.
fn below_zero(numeral: &Numeral<'_>) -> Option<Number>
    ensures value { IfSome result (λ n. number_from true numeral.now ≡ Some (number_view n)) }
    ensures plain { IfSome result (λ n. is_float (number_view n) ≡ false) }
{
    if let Some(n) = numeral.to_i64(true) {
        if n < 0 {
            return Some(Number::from(n));
        }
    }
    None
}
