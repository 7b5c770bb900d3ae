//! Readers of which more is known than that they read.
ghost use Rattle.std.specs.Prelude.{◌≡◌, Bool, true, false, IsErr, OnOk};
ghost use Rattle.std.specs.Io.{ReadsAtMost};
ghost use Rattle.std.specs.Io.KnownBytes.{ReadConsumes};

use std::io;
use std::io::Read;
use std::rt::Stdin;

/// A reader of which it may be known whether a read of it has failed.
pub trait Source: Read {
    // Whether a read may have failed so far.
    ghost may_have_failed: { Self → Bool };

    /// Reads as `Read::read` does.
    fn next_bytes(&mut self, chunk: &mut [u8]) -> io::Result<usize>
        ensures bound { ReadsAtMost result chunk.new }
        ensures bytes { ReadConsumes (Self.remaining self.old) (Self.remaining self.new) result chunk.new }
        ensures failed { IsErr result → may_have_failed self.new ≡ true }
        ensures kept { OnOk result (may_have_failed self.new ≡ may_have_failed self.old) };
}

// A read of bytes in memory doesn't fail.
impl Source for &[u8] {
    ghost may_have_failed = { λ _. false };

    fn next_bytes(&mut self, chunk: &mut [u8]) -> io::Result<usize> {
        self.read(chunk)
    }
}

impl Source for Stdin {
    ghost may_have_failed = { λ _. true };

    fn next_bytes(&mut self, chunk: &mut [u8]) -> io::Result<usize> {
        self.read(chunk)
    }
}
