//! A row of a member table that may be absent, and the counter of readings.
ghost use Rattle.std.specs.Prelude.{◌≡◌};

use crate::shared::{came_to, is_number, is_text, is_written, tree};
use serde_json::Value;
use std::process::Abort;
use utoipa_base::{ReadFault, Readings, Tree, row_default};

// A row came to a value that is written so, or to none, or to a fault with that text.
fn row_came_to<T: Tree>(
    rt: &(impl Abort + AllocGlobal),
    row: Result<Option<T>, ReadFault>,
    expected: &str,
) {
    match row {
        Ok(Some(value)) => is_written(rt, value, expected),
        Ok(None) => is_text(rt, "none", expected),
        Err(fault) => came_to::<T>(rt, Err(fault), expected),
    }
}

// The greatest counter takes 2^64 readings, so that it stands still is learnt from the contract of a tick alone.
fn stay_at_the_greatest(readings: &mut Readings)
    requires { readings.old ≡ u64.MAX }
    ensures { readings.new ≡ u64.MAX }
{
    readings.tick();
}

// One reading more, or the greatest number of them.
fn tick(readings: &mut Readings) {
    if readings.number() == u64::MAX {
        stay_at_the_greatest(readings);
    } else {
        readings.tick();
    }
}

// Null stands there like any other value. What is no schema is not counted, and each tick is a reading.
#[test]
fn a_defaulted_row_may_be_absent(rt: HostRuntime) {
    let alloc = rt.alloc();
    let object = tree(&rt, "{\"a\":\"b\",\"n\":null}");
    let mut counter = Readings::new();
    row_came_to::<String>(&rt, row_default(alloc, &object, "z", &mut counter), "none");
    row_came_to::<String>(
        &rt,
        row_default(alloc, &object, "n", &mut counter),
        "no text stands here",
    );
    row_came_to::<Value>(&rt, row_default(alloc, &object, "n", &mut counter), "null");
    is_number(&rt, counter.number(), 0);
    tick(&mut counter);
    tick(&mut counter);
    is_number(&rt, counter.number(), 2);
}
