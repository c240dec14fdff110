//! Input and output in memory.

ghost use Rattle.std.specs.Prelude.{◌≡◌, [], Some};
ghost use Rattle.symq_core.specs.Devices.{COUNT_LIMIT};

use crate::device::{DeviceFault, Input, Output};
use std::alloc::Global;

/// An input over bytes in memory. A read never fails.
#[derive(Debug, Drop)]
pub struct MemoryInput<'a> {
    pub rest: &'a [u8],
}

impl Input for MemoryInput<'_> {
    ghost remaining = { λ s. Some s.rest.now };

    ghost failures = { λ _. 0 };

    fn has_room(&self) -> bool {
        true
    }

    fn read(&mut self, buffer: &mut [u8]) -> Result<usize, DeviceFault> {
        let count = self.rest.len().min(buffer.len());
        let (front, rest) = self.rest.split_at(count);
        buffer[..count].copy_from_slice(front);
        self.rest = rest;
        Ok(count)
    }
}

/// An output that collects bytes in memory. A write fails if an allocation fails.
#[derive(Debug, Drop)]
pub struct MemoryOutput {
    pub bytes: Vec<u8>,
    failed: u64,
}

impl MemoryOutput {
    /// Returns an empty output.
    pub fn new(alloc: Global) -> MemoryOutput
        ensures empty { result.bytes.items ≡ [] }
        ensures fresh { result.failed ≡ 0 }
    {
        MemoryOutput {
            bytes: Vec::new(alloc),
            failed: 0,
        }
    }
}

impl Output for MemoryOutput {
    ghost written = { λ s. Some s.bytes.items };

    ghost failures = { λ s. s.failed };

    fn has_room(&self) -> bool {
        self.failed < u64::MAX
    }

    fn write(&mut self, bytes: &[u8]) -> Result<usize, DeviceFault> {
        if self.bytes.extend_from_slice(bytes).is_ok() {
            return Ok(bytes.len());
        }
        self.failed += 1;
        Err(DeviceFault)
    }
}
