//! Writers of which more is known than that they write.
ghost use Rattle.std.specs.Prelude.{◌≡◌, ◌<◌, ◌≤◌, ◌+◌, ◌-◌, ℕ, Bool, true, length, vec_len, IsOk, IsErr, IfOk, OnOk};
ghost use Rattle.std.specs.Io.{WritesAtMost};
ghost use Rattle.std.specs.Io.KnownBytes.{WriteAppends};

use std::io;
use std::io::Write;
use std::rt::{Stderr, Stdout};

/// A writer of which it may be known how many bytes it takes with no fault, and whether a write to it has failed.
pub trait Sink: Write {
    // So many bytes are taken for sure.
    ghost room: { Self → ℕ };
    // Whether a write may have failed so far.
    ghost may_have_failed: { Self → Bool };

    /// Writes as `Write::write` does. Of bytes for which there is room, some are taken, and their
    /// room alone.
    fn take_bytes(&mut self, bytes: &[u8]) -> io::Result<usize>
        ensures bound { WritesAtMost result bytes.now }
        ensures bytes { WriteAppends (Self.contents self.old) (Self.contents self.new) result bytes.now }
        ensures sure { 0 < length bytes.now → length bytes.now ≤ room self.old → IsOk result }
        ensures taken { 0 < length bytes.now → length bytes.now ≤ room self.old
            → IfOk result (λ n. (0 < n) × (room self.old ≤ room self.new + n)) }
        ensures failed { IsErr result → may_have_failed self.new ≡ true }
        ensures kept { OnOk result (may_have_failed self.new ≡ may_have_failed self.old) };
}

// A vector takes what fits the memory that it has already.
impl Sink for Vec<u8> {
    ghost use Rattle.std.specs.Prelude.{vec_capacity};

    ghost room = { λ v. vec_capacity v - vec_len v };

    ghost may_have_failed = { λ _. true };

    fn take_bytes(&mut self, bytes: &[u8]) -> io::Result<usize> {
        self.extend_from_slice(bytes)?;
        Ok(bytes.len())
    }
}

impl Sink for Stdout {
    ghost room = { λ _. 0 };

    ghost may_have_failed = { λ _. true };

    fn take_bytes(&mut self, bytes: &[u8]) -> io::Result<usize> {
        self.write(bytes)
    }
}

impl Sink for Stderr {
    ghost room = { λ _. 0 };

    ghost may_have_failed = { λ _. true };

    fn take_bytes(&mut self, bytes: &[u8]) -> io::Result<usize> {
        self.write(bytes)
    }
}
