//! What the tests share. Nothing here answers an error: a test ends where something fails. So no function has an exit
//! on which its values are dropped, and it is those that take the time of a proof. Each assertion that recurs is a
//! function, since a call of one is proved sooner than the assertion. Only tests may end where something fails, so what two
//! crates of tests share stands in each.
use serde_json::Value;
use std::process::Abort;
use std::vec::IntoIter;
use utoipa::openapi::extensions::Extensions;
use utoipa::{ReadFault, Tree};

/// The text in memory of its own.
pub fn text(rt: &(impl Abort + AllocGlobal), word: &str) -> String {
    String::from_str(rt.alloc(), word).expect(rt, "memory for a text")
}

/// An iterator that gives both items.
pub fn two<T: Drop>(rt: &(impl Abort + AllocGlobal), first: T, second: T) -> IntoIter<T> {
    let mut items = Vec::new(rt.alloc());
    items.push(first).expect(rt, "memory for an item");
    items.push(second).expect(rt, "memory for an item");
    items.into_iter()
}

/// What a text reads as.
pub fn read<T: Tree>(rt: &(impl Abort + AllocGlobal), json: &str) -> T {
    let tree = Value::from_str(rt.alloc(), json).expect(rt, "a tree");
    T::from_value(rt.alloc(), &tree).expect(rt, "a value")
}

/// The extension `x-a`, which is 1.
pub fn extension(rt: &(impl Abort + AllocGlobal)) -> Option<Extensions> {
    extension_of(rt, Value::from(1u64))
}

/// The extension `x-a`, which is the tree.
pub fn extension_of(rt: &(impl Abort + AllocGlobal), tree: Value) -> Option<Extensions> {
    let builder = Extensions::builder(rt.alloc());
    let added = builder.add(rt.alloc(), text(rt, "x-a"), tree);
    Some(added.expect(rt, "memory for an extension").build())
}

/// The value is written as the text, and so is a copy of it.
pub fn is_written<T: Tree>(rt: &(impl Abort + AllocGlobal), value: T, json: &str) {
    is_written_first(rt, &value, json);
}

/// The same of a value that something is still done with.
pub fn is_written_first<T: Tree>(rt: &(impl Abort + AllocGlobal), value: &T, json: &str) {
    is_printed(rt, value, json);
    let copy = value.try_clone(rt.alloc()).expect(rt, "memory for a copy");
    is_printed(rt, &copy, json);
}

// The tree that the value is written as has the text.
fn is_printed<T: Tree>(rt: &(impl Abort + AllocGlobal), value: &T, json: &str) {
    let tree = value.to_value(rt.alloc()).expect(rt, "memory for a tree");
    let printed = tree.to_string(rt.alloc()).expect(rt, "memory for a text");
    is_text(rt, printed.as_str(), json);
}

/// Reading came to a value that is written as the text, or to a fault that has the text.
pub fn came_to<T: Tree>(
    rt: &(impl Abort + AllocGlobal),
    outcome: Result<T, ReadFault>,
    expected: &str,
) {
    match outcome {
        Ok(value) => is_written(rt, value, expected),
        Err(fault) => {
            let told = format!(in rt.alloc(); "{fault}");
            is_text(rt, told.expect(rt, "memory for a text").as_str(), expected);
        }
    }
}

/// The text is the expected one.
pub fn is_text(rt: &impl Abort, found: &str, expected: &str) {
    assert_eq!(rt; found, expected);
}

/// The number is the expected one.
pub fn is_number(rt: &impl Abort, found: u64, expected: u64) {
    assert_eq!(rt; found, expected);
}

/// The flag is the expected one.
pub fn is_flag(rt: &impl Abort, found: bool, expected: bool) {
    assert_eq!(rt; found, expected);
}
