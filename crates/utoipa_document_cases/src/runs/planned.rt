//! A reader and a writer in memory that move few bytes a call, and fail at a call.
ghost use Rattle.std.specs.Prelude.{◌≡◌, None, true, IsErr, OnOk};
ghost use Rattle.std.specs.Io.{ReadsAtMost, WritesAtMost};
ghost use Rattle.std.specs.Io.KnownBytes.{ReadConsumes, WriteAppends};

use std::alloc::Global;
use std::io;
use std::io::{ErrorKind, Read, Write};
use utoipa_command::{Sink, Source};

/// How the call fails that a plan has fail.
#[derive(Clone, Copy)]
pub enum Failure {
    /// With an error.
    Error,
    /// With an error that says that the call was interrupted.
    Interruption,
    /// With no error, and no byte moved.
    Nothing,
}

/// How bytes are moved: so many a call at most, and one call may fail.
#[derive(Clone, Copy)]
pub struct Plan {
    /// The most bytes of a call.
    pub step: usize,
    /// The number of the call that fails, counted from 1; 0 for none.
    pub fails_at: u64,
    /// How it fails.
    pub failure: Failure,
}

impl Plan {
    /// At most so many bytes a call, and no failure.
    pub fn steps_of(step: usize) -> Plan {
        Plan {
            step,
            fails_at: 0,
            failure: Failure::Error,
        }
    }

    /// One byte a call, and that call fails.
    pub fn fails_at(call: u64, failure: Failure) -> Plan {
        Plan {
            step: 1,
            fails_at: call,
            failure,
        }
    }

    // How many of so many bytes the call of this number moves.
    fn moved(&self, call: u64, count: usize) -> io::Result<usize> {
        if self.fails_at != call {
            return Ok(self.step.min(count));
        }
        match self.failure {
            Failure::Error => Err(io::Error::from(ErrorKind::Other)),
            Failure::Interruption => Err(io::Error::from(ErrorKind::Interrupted)),
            Failure::Nothing => Ok(0),
        }
    }
}

/// A reader of a text by a plan.
#[derive(Drop)]
pub struct PlannedReader<'a> {
    text: &'a [u8],
    plan: Plan,
    /// The calls so far.
    pub calls: u64,
    failed: bool,
}

impl<'a> PlannedReader<'a> {
    /// A reader that was not called yet.
    pub fn new(text: &'a [u8], plan: Plan) -> PlannedReader<'a> {
        PlannedReader {
            text,
            plan,
            calls: 0,
            failed: false,
        }
    }
}

impl Read for PlannedReader<'_> {
    fn read(&mut self, buf: &mut [u8]) -> io::Result<usize>
        ensures bound { ReadsAtMost result buf.new }
        ensures bytes { ReadConsumes None None result buf.new }
        ensures failed { IsErr result → self.new.failed ≡ true }
        ensures kept { OnOk result (self.new.failed ≡ self.old.failed) }
    {
        self.calls = self.calls.saturating_add(1);
        match self.plan.moved(self.calls, self.text.len()) {
            Ok(most) => {
                let count = most.min(self.text.len()).min(buf.len());
                buf[..count].copy_from_slice(&self.text[..count]);
                self.text = &self.text[count..];
                Ok(count)
            }
            Err(error) => {
                self.failed = true;
                Err(error)
            }
        }
    }
}

impl Source for PlannedReader<'_> {
    ghost may_have_failed = { λ r. r.failed };

    fn next_bytes(&mut self, chunk: &mut [u8]) -> io::Result<usize> {
        self.read(chunk)
    }
}

/// A writer by a plan, which keeps what it took.
#[derive(Drop)]
pub struct PlannedWriter {
    /// What it took.
    pub bytes: Vec<u8>,
    plan: Plan,
    /// The calls so far.
    pub calls: u64,
    failed: bool,
}

impl PlannedWriter {
    /// A writer that was not called yet.
    pub fn new(alloc: Global, plan: Plan) -> PlannedWriter {
        PlannedWriter {
            bytes: Vec::new(alloc),
            plan,
            calls: 0,
            failed: false,
        }
    }

    // Takes what the plan has this call take.
    fn take(&mut self, buf: &[u8]) -> io::Result<usize>
        ensures bound { WritesAtMost result buf.now }
        ensures kept { self.new.failed ≡ self.old.failed }
    {
        self.calls = self.calls.saturating_add(1);
        let count = self.plan.moved(self.calls, buf.len())?.min(buf.len());
        self.bytes.extend_from_slice(&buf[..count])?;
        Ok(count)
    }
}

impl Write for PlannedWriter {
    fn write(&mut self, buf: &[u8]) -> io::Result<usize>
        ensures bound { WritesAtMost result buf.now }
        ensures bytes { WriteAppends None None result buf.now }
        ensures failed { IsErr result → self.new.failed ≡ true }
        ensures kept { OnOk result (self.new.failed ≡ self.old.failed) }
    {
        let taken = self.take(buf);
        if taken.is_err() {
            self.failed = true;
        }
        taken
    }

    fn flush(&mut self) -> io::Result<()> {
        Ok(())
    }
}

impl Sink for PlannedWriter {
    ghost room = { λ _. 0 };

    ghost may_have_failed = { λ w. w.failed };

    fn take_bytes(&mut self, bytes: &[u8]) -> io::Result<usize> {
        self.write(bytes)
    }
}
