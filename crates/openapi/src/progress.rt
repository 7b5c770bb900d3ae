//! How far long work has come, told on standard error where that is a terminal.

use std::io::IsTerminal;
use std::time::{Duration, Instant};

// About as much as is read and written in a second.
const LONG: usize = 4_000_000;

/// Work on some files, which tells once a second how far it has come.
#[derive(Drop)]
pub struct Progress {
    // When it was last told. None where nobody would see it.
    told: Option<Instant>,
}

impl Progress {
    /// Work that begins now.
    pub fn new(rt: &HostRuntime) -> Progress {
        if !rt.stderr().is_terminal() {
            return Progress { told: None };
        }
        Progress {
            told: Instant::now(rt).ok(),
        }
    }

    /// Tells, once a second, how many of the files this was done to.
    pub fn step(&mut self, rt: &HostRuntime, what: &str, done: usize, all: usize) {
        if self.is_due(rt) {
            // A fault of standard error is told by what follows.
            let _ = eprintln!(rt; "openapi: {done} of {all} files {what}");
            self.told = Instant::now(rt).ok();
        }
    }

    // Whether a second has passed.
    fn is_due(&self, rt: &HostRuntime) -> bool {
        match &self.told {
            Some(told) => told
                .elapsed(rt)
                .is_ok_and(|passed| passed >= Duration::from_secs(1)),
            None => false,
        }
    }

    /// Tells what begins now, where it is long by the bytes that it is done to.
    pub fn begin(&self, rt: &HostRuntime, what: &str, bytes: usize) {
        if self.told.is_some() && bytes >= LONG {
            let _ = eprintln!(rt; "openapi: {what} {bytes} bytes");
        }
    }
}
