//! What the tests share. Nothing here answers an error: a test ends where something fails. So no function has an exit
//! on which its values are dropped, and it is those that take the time of a proof. Each assertion that recurs is a
//! function, since a call of one is proved sooner than the assertion. Only tests may end where something fails, so what two
//! crates of tests share stands in each.
use serde_json::Value;
use std::process::Abort;
use std::vec::IntoIter;
use utoipa_base::{Extensions, ReadFault, Readings, Tree};

/// The text in memory of its own.
pub fn text(rt: &(impl Abort + AllocGlobal), word: &str) -> String {
    String::from_str(rt.alloc(), word).expect(rt, "memory for a text")
}

/// The tree of a JSON text.
pub fn tree(rt: &(impl Abort + AllocGlobal), json: &str) -> Value {
    Value::from_str(rt.alloc(), json).expect(rt, "a tree")
}

/// Two values, one after the other.
pub fn two<T: Drop>(rt: &(impl Abort + AllocGlobal), first: T, second: T) -> IntoIter<T> {
    let mut items = Vec::new(rt.alloc());
    items.push(first).expect(rt, "memory for an item");
    items.push(second).expect(rt, "memory for an item");
    items.into_iter()
}

/// What a text reads as. An extension may hold a fraction.
pub fn read<T: Tree>(rt: &(impl Abort + AllocGlobal), json: &str) -> T {
    let tree = tree(rt, json);
    T::read_plain(rt.alloc(), &tree, &mut Readings::new()).expect(rt, "a value")
}

/// The extension `x-a`, which is 1.
pub fn extension(rt: &(impl Abort + AllocGlobal)) -> Option<Extensions> {
    let builder = Extensions::builder(rt.alloc());
    let name = text(rt, "x-a");
    let added = builder.add(rt.alloc(), name, Value::from(1u64));
    Some(added.expect(rt, "memory for an extension").build())
}

/// The value is written as the text, and so is a copy of it.
pub fn is_written<T: Tree>(rt: &(impl Abort + AllocGlobal), value: T, json: &str) {
    is_written_first(rt, &value, json);
}

/// The same of a value that something is still done with.
pub fn is_written_first<T: Tree>(rt: &(impl Abort + AllocGlobal), value: &T, json: &str) {
    is_printed(rt, value, json);
    let copy = value.try_clone(rt.alloc()).expect(rt, "memory for a copy");
    is_printed(rt, &copy, json);
}

/// Reading came to a value that is written as the text, or to a fault that has the text.
pub fn came_to<T: Tree>(
    rt: &(impl Abort + AllocGlobal),
    outcome: Result<T, ReadFault>,
    expected: &str,
) {
    match outcome {
        Ok(value) => is_written(rt, value, expected),
        Err(fault) => {
            let told = format!(in rt.alloc(); "{fault}");
            is_text(rt, told.expect(rt, "memory for a text").as_str(), expected);
        }
    }
}

// The tree that the value is written as has the text.
fn is_printed<T: Tree>(rt: &(impl Abort + AllocGlobal), value: &T, json: &str) {
    let tree = value.to_value(rt.alloc()).expect(rt, "memory for a tree");
    is_tree(rt, tree, json);
}

/// The tree has the text.
pub fn is_tree(rt: &(impl Abort + AllocGlobal), tree: Value, json: &str) {
    let printed = tree.to_string(rt.alloc()).expect(rt, "memory for a text");
    is_text(rt, printed.as_str(), json);
}

/// The text is the expected one.
pub fn is_text(rt: &impl Abort, found: &str, expected: &str) {
    assert_eq!(rt; found, expected);
}

/// The number is the expected one.
pub fn is_number(rt: &impl Abort, found: u64, expected: u64) {
    assert_eq!(rt; found, expected);
}

/// The flag is the expected one.
pub fn is_flag(rt: &impl Abort, found: bool, expected: bool) {
    assert_eq!(rt; found, expected);
}

/// The bytes are the text.
fn is_json_text(rt: &(impl Abort + AllocGlobal), json: Vec<u8>, expected: &str) {
    let shown = String::from_utf8_lossy(rt.alloc(), json.as_slice());
    let shown = shown.expect(rt, "memory for a text");
    is_text(rt, shown.as_str(), expected);
}

/// The value as JSON is the text, also after a bracket.
pub fn is_json<T: Tree>(rt: &(impl Abort + AllocGlobal), value: &T, expected: &str) {
    let alone = value.to_json(rt.alloc()).expect(rt, "memory for a text");
    is_json_text(rt, alone, expected);
    let bracket = Vec::from_array(rt.alloc(), [b'[']).expect(rt, "memory for a byte");
    let appended = value.append_json(rt.alloc(), bracket);
    let expected = format!(in rt.alloc(); "[{expected}").expect(rt, "memory for a text");
    let appended = appended.expect(rt, "memory for a text");
    is_json_text(rt, appended, expected.as_str());
}
