//! Maps that keep their order: that in which entries were put, and the order of the names in a tree and in a text.
use crate::shared::{is_flag, is_json, is_number, is_text, is_written_first, read, text, tree};
use indexmap::IndexMap;
use std::process::Abort;
use utoipa_base::{NameHasher, OrderedMap, Tree};

// Puts a number under a name.
fn put(rt: &(impl Abort + AllocGlobal), map: &mut OrderedMap<usize>, name: &str, number: usize) {
    let earlier = map.insert(text(rt, name), number);
    earlier.expect(rt, "memory for an entry");
}

// First b, then a, then b again.
fn b_before_a(rt: &(impl Abort + AllocGlobal)) -> OrderedMap<usize> {
    let mut map = IndexMap::with_hasher(rt.alloc(), NameHasher::new());
    put(rt, &mut map, "b", 1);
    put(rt, &mut map, "a", 2);
    put(rt, &mut map, "b", 3);
    map
}

// The entry of this name and number stands there.
fn stands_at(rt: &impl Abort, map: &OrderedMap<usize>, place: usize, name: &str, number: u64) {
    match map.get_index(place) {
        Some((key, value)) => {
            is_text(rt, key.as_str(), name);
            is_number(rt, *value as u64, number);
        }
        None => is_text(rt, "no entry", name),
    }
}

// Both entries stand there, the first with its later number.
fn stand_b_before_a(rt: &impl Abort, map: &OrderedMap<usize>) {
    is_number(rt, map.len() as u64, 2);
    stands_at(rt, map, 0, "b", 3);
    stands_at(rt, map, 1, "a", 2);
}

// Also in a copy. They are written in the order of names; a map that is read of that text is equal, though its hasher is another.
#[test]
fn entries_keep_the_order_in_which_they_were_put(rt: HostRuntime) {
    let map = b_before_a(&rt);
    stand_b_before_a(&rt, &map);
    let copy = map.try_clone(rt.alloc()).expect(&rt, "memory for a copy");
    stand_b_before_a(&rt, &copy);
    is_written_first(&rt, &map, r#"{"a":2,"b":3}"#);
    is_json(&rt, &map, r#"{"a":2,"b":3}"#);
    let again: OrderedMap<usize> = read(&rt, r#"{"a":2,"b":3}"#);
    is_flag(&rt, again.hasher() == map.hasher(), false);
    is_flag(&rt, again == map, true);
    is_json(&rt, &again, r#"{"a":2,"b":3}"#);
}

// A map that is read of this text has the hasher of that text's names, and so has its copy.
fn has_the_hasher_of(rt: &(impl Abort + AllocGlobal), json: &str, names: &str, same: bool) {
    let named = tree(rt, names);
    let object = named.as_object().expect(rt, "an object");
    let expected = NameHasher::from_names(object);
    let map: OrderedMap<usize> = read(rt, json);
    is_flag(rt, *map.hasher() == expected, same);
    let copy = map.try_clone(rt.alloc()).expect(rt, "memory for a copy");
    is_flag(rt, *copy.hasher() == expected, same);
}

// It takes its salt from its names, whatever their order.
#[test]
fn a_map_is_read_in_the_order_of_names(rt: HostRuntime) {
    let map: OrderedMap<usize> = read(&rt, r#"{"b":2,"a":1}"#);
    is_number(&rt, map.len() as u64, 2);
    stands_at(&rt, &map, 0, "a", 1);
    stands_at(&rt, &map, 1, "b", 2);
    let json = r#"{"ab":1,"c":2}"#;
    has_the_hasher_of(&rt, json, r#"{"c":null,"ab":[]}"#, true);
    has_the_hasher_of(&rt, json, r#"{"ab":1,"d":2}"#, false);
    has_the_hasher_of(&rt, json, r#"{"ab":1}"#, false);
    has_the_hasher_of(&rt, json, r#"{"a":1,"bc":2}"#, false);
}
