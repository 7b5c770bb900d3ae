//! Bytes in hexadecimal.
ghost use Rattle.std.specs.Prelude.{◌<◌, IfSome};

use std::alloc::{AllocError, Global};

/// The bytes of a text of hexadecimal digits, two a byte, if it is one.
pub fn bytes_of_hex(alloc: Global, digits: &[u8]) -> Result<Option<Vec<u8>>, AllocError> {
    let mut bytes = Vec::new(alloc);
    for pair in digits.chunks(2) {
        let [high, low] = pair else {
            return Ok(None);
        };
        match (value_of_digit(*high), value_of_digit(*low)) {
            (Some(high), Some(low)) => bytes.push(high * 16 + low)?,
            _ => return Ok(None),
        }
    }
    Ok(Some(bytes))
}

fn value_of_digit(digit: u8) -> Option<u8>
    ensures { IfSome result (λ value. value < 16) }
{
    match digit {
        b'0'..=b'9' => Some(digit - b'0'),
        b'a'..=b'f' => Some(digit - b'a' + 10),
        _ => None,
    }
}
