//! Input and output over the readers and writers of std.

ghost use Rattle.std.specs.Prelude.{◌≡◌};
ghost use Rattle.symq_core.specs.Devices.{COUNT_LIMIT};

use crate::device::{DeviceFault, Input, Output};
use std::io::{Read, Write};

/// An input over a reader of std, such as standard input or a file.
#[derive(Debug, Drop)]
pub struct ReaderInput<T> {
    reader: T,
    failed: u64,
}

impl<T> ReaderInput<T> {
    /// Returns an input over a reader, with no failed reads.
    pub fn new(reader: T) -> ReaderInput<T>
        ensures reader { result.reader ≡ reader }
        ensures fresh { result.failed ≡ 0 }
    {
        ReaderInput { reader, failed: 0 }
    }
}

impl<T: Read> Input for ReaderInput<T> {
    ghost remaining = { λ s. T.remaining s.reader };

    ghost failures = { λ s. s.failed };

    fn has_room(&self) -> bool {
        self.failed < u64::MAX
    }

    fn read(&mut self, buffer: &mut [u8]) -> Result<usize, DeviceFault> {
        let read = self.reader.read(buffer);
        if read.is_err() {
            self.failed += 1;
        }
        read.map_err(|_| DeviceFault)
    }
}

/// An output over a writer of std, such as standard output. It isn't flushed, so the writer should
/// have no buffer of its own.
#[derive(Debug, Drop)]
pub struct WriterOutput<T> {
    writer: T,
    failed: u64,
}

impl<T> WriterOutput<T> {
    /// Returns an output over a writer, with no failed writes.
    pub fn new(writer: T) -> WriterOutput<T>
        ensures writer { result.writer ≡ writer }
        ensures fresh { result.failed ≡ 0 }
    {
        WriterOutput { writer, failed: 0 }
    }
}

impl<T: Write> Output for WriterOutput<T> {
    ghost written = { λ s. T.contents s.writer };

    ghost failures = { λ s. s.failed };

    fn has_room(&self) -> bool {
        self.failed < u64::MAX
    }

    fn write(&mut self, bytes: &[u8]) -> Result<usize, DeviceFault> {
        match self.writer.write(bytes) {
            Ok(count) => {
                if count == 0 {
                    self.failed += 1;
                }
                Ok(count)
            }
            Err(_) => {
                self.failed += 1;
                Err(DeviceFault)
            }
        }
    }
}
