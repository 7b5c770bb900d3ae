//! Numbers from Rust's integers and against each other.
use crate::shared::{is_flag, read};
use std::process::Abort;
use utoipa_base::{Number, Tree};

// The number is the expected one, and not one of equal value.
fn is(rt: &impl Abort, found: Number, expected: Number) {
    assert_eq!(rt; found, expected);
}

// Each type of them: signed where it is.
#[test]
fn integers_become_numbers(rt: HostRuntime) {
    is(&rt, Number::from(-1i8), Number::Int(-1));
    is(&rt, Number::from(-2i16), Number::Int(-2));
    is(&rt, Number::from(-3i32), Number::Int(-3));
    is(&rt, Number::from(-4i64), Number::Int(-4));
    is(&rt, Number::from(-5isize), Number::Int(-5));
    is(&rt, Number::from(1u8), Number::UInt(1));
    is(&rt, Number::from(2u16), Number::UInt(2));
    is(&rt, Number::from(3u32), Number::UInt(3));
    is(&rt, Number::from(4u64), Number::UInt(4));
    is(&rt, Number::from(5usize), Number::UInt(5));
}

// The text is read as the number.
fn is_read(rt: &(impl Abort + AllocGlobal), json: &str, expected: Number) {
    is(rt, read(rt, json), expected);
}

// An unsigned zero, too, where it is read back: a copy keeps what only the text forgets.
#[test]
fn a_number_is_read_as_signed_where_it_fits(rt: HostRuntime) {
    is_read(&rt, "-9223372036854775808", Number::Int(isize::MIN));
    is_read(&rt, "9223372036854775807", Number::Int(isize::MAX));
    is_read(
        &rt,
        "9223372036854775808",
        Number::UInt(9223372036854775808),
    );
    is_read(&rt, "18446744073709551615", Number::UInt(usize::MAX));
    let zero = Number::UInt(0);
    is_flag(&rt, zero == Number::Int(0), false);
    is(&rt, zero.try_clone(rt.alloc()).expect(&rt, "a copy"), zero);
    let tree = zero.to_value(rt.alloc()).expect(&rt, "memory for a tree");
    let again = Number::from_value(rt.alloc(), &tree);
    is(&rt, again.expect(&rt, "a number"), Number::Int(0));
}
