// Values read from JSON texts.
ghost use Rattle.std.specs.Prelude.{◌≡◌, ◌≢◌, ◌≤◌, ◌<◌, ◌+◌, Some, IfOk, IfErr};
ghost use Rattle.serde_json.specs.Data.{Data};
ghost use Rattle.serde_json.specs.Read.{read as read_text};
ghost use Rattle.serde_json.specs.View.{view};
ghost use Rattle.utoipa_base.specs.Texts.{IsTextOf, RefusesText};
ghost use Rattle.utoipa_base.specs.Values.{values, schema_count};

use crate::fault::ReadFault;
use crate::readings::{Counted, Readings};
use crate::tree::Tree;
use crate::unread::Unread;
use json::{Reader, Scratch};
use serde_json::Value;
use std::alloc::Global;

const MAX_DEPTH: usize = 127;

/// The value of a text, by its tokens or else by its tree.
pub(crate) fn from_text<T: Tree>(alloc: Global, text: &str) -> Counted<T>
    ensures ok { IfOk result.outcome (λ v. IsTextOf T.kind (T.doc v) text.now) }
    ensures err { IfErr result.outcome (RefusesText T.kind text.now) }
    ensures at_most { (tree : Data) → read_text text.now ≡ Some tree → result.readings ≤ values tree }
    ensures at_least { IfOk result.outcome (λ v. result.readings < u64.MAX
        → schema_count (T.doc v) ≤ result.readings) }
{
    let mut readings = Readings::new();
    match by_tokens(alloc, text, &mut readings) {
        Ok(value) => Counted {
            outcome: Ok(value),
            readings: readings.number(),
        },
        Err(Unread::Memory) => Counted {
            outcome: Err(ReadFault::Memory),
            readings: 0,
        },
        Err(Unread::AsTree) => by_tree(alloc, text),
    }
}

// The value of a text by its tokens. What was counted stands for nothing where this fails.
fn by_tokens<T: Tree>(alloc: Global, text: &str, readings: &mut Readings) -> Result<T, Unread>
    ensures ok { IfOk result (λ v. IsTextOf T.kind (T.doc v) text.now) }
    ensures at_most { IfOk result (λ v. (tree : Data) → read_text text.now ≡ Some tree
        → readings.new ≤ readings.old + values tree) }
    ensures at_least { IfOk result (λ v. readings.new < u64.MAX
        → readings.old + schema_count (T.doc v) ≤ readings.new) }
{
    let mut scratch = Scratch::new(alloc);
    let mut reader = Reader::new(text, &mut scratch)?;
    let first = reader.next().ok_or(Unread::AsTree)?;
    let value = T::from_tokens(alloc, first, &mut reader, MAX_DEPTH, readings)?;
    if reader.next().is_some() {
        return Err(Unread::AsTree);
    }
    Ok(value)
}

// The value of a text by its tree.
fn by_tree<T: Tree>(alloc: Global, text: &str) -> Counted<T>
    ensures ok { IfOk result.outcome (λ v. IsTextOf T.kind (T.doc v) text.now) }
    ensures err { IfErr result.outcome (RefusesText T.kind text.now) }
    ensures at_most { (tree : Data) → read_text text.now ≡ Some tree → result.readings ≤ values tree }
    ensures at_least { IfOk result.outcome (λ v. result.readings < u64.MAX
        → schema_count (T.doc v) ≤ result.readings) }
{
    match tree_of(alloc, text) {
        Ok(tree) => T::from_value_counted(alloc, &tree),
        Err(fault) => Counted {
            outcome: Err(fault),
            readings: 0,
        },
    }
}

// The tree of a text. Fails with `Text` where there is none, and with `Memory` where memory runs out.
fn tree_of(alloc: Global, text: &str) -> Result<Value, ReadFault>
    ensures ok { IfOk result (λ tree. read_text text.now ≡ Some (view tree)) }
    ensures memory { IfErr result (λ e. e ≢ ReadFault.Memory → e ≡ ReadFault.Text) }
    ensures text { IfErr result (λ e. e ≡ ReadFault.Text → read_text text.now ≡ None) }
{
    match Value::from_str(alloc, text) {
        Ok(tree) => Ok(tree),
        Err(error) if error.is_memory() => Err(ReadFault::Memory),
        Err(_) => Err(ReadFault::Text),
    }
}
