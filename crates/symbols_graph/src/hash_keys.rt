//! Keys of hash maps from given bytes.

ghost use Rattle.std.specs.Prelude.{◌≡◌};

use std::io;
use std::random::RandomSource;

/// Sixteen given bytes, from which `RandomState::new` makes keys of hash maps (extension). Whoever
/// writes a graph must not know them.
#[derive(Clone, Copy)]
pub struct KeyBytes {
    bytes: [u8; 16],
}

impl KeyBytes {
    /// Returns these bytes as a source of keys.
    pub fn new(bytes: [u8; 16]) -> KeyBytes
        ensures { result.bytes ≡ bytes }
    {
        KeyBytes { bytes }
    }
}

impl RandomSource for KeyBytes {
    fn fill_bytes(&self, buf: &mut [u8]) -> io::Result<()> {
        let count = buf.len().min(16);
        for i in 0..count {
            buf[i] = self.bytes[i];
        }
        Ok(())
    }
}
