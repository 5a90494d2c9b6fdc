//! Standard output and standard error as sinks.

ghost use Rattle.std.specs.Prelude.{◌≡◌, ℕ, List, Option, None};
ghost use Rattle.fic_io.specs.Known.{out_faults, err_faults};

use crate::sink::{Failed, Sink};
use std::io::Write;

/// Standard output. It tells no bytes.
#[derive(Drop)]
pub struct OutSink {
    rt: HostRuntime,
    faults: u64,
}

impl OutSink {
    /// Standard output of this process, unbuffered. It takes no memory.
    pub fn new(rt: HostRuntime) -> OutSink
        ensures { out_faults result ≡ 0 }
    {
        OutSink { rt, faults: 0 }
    }
}

impl Sink for OutSink {
    ghost taken = { λ s. None };

    ghost faults = { λ s. out_faults s };

    fn put(&mut self, bytes: &[u8]) -> Result<usize, Failed> {
        match self.rt.stdout().write(bytes) {
            Ok(count) if count > 0 => Ok(count),
            _ => {
                self.faults = self.faults.saturating_add(1);
                Err(Failed)
            }
        }
    }
}

/// Standard error. It tells no bytes.
#[derive(Drop)]
pub struct ErrSink {
    rt: HostRuntime,
    faults: u64,
}

impl ErrSink {
    /// Standard error of this process. It takes no memory.
    pub fn new(rt: HostRuntime) -> ErrSink
        ensures { err_faults result ≡ 0 }
    {
        ErrSink { rt, faults: 0 }
    }
}

impl Sink for ErrSink {
    ghost taken = { λ s. None };

    ghost faults = { λ s. err_faults s };

    fn put(&mut self, bytes: &[u8]) -> Result<usize, Failed> {
        match self.rt.stderr().write(bytes) {
            Ok(count) if count > 0 => Ok(count),
            _ => {
                self.faults = self.faults.saturating_add(1);
                Err(Failed)
            }
        }
    }
}
