//! A writer that remembers how its output begins.

ghost use Rattle.std.specs.Prelude.{◌≤◌};

use std::io;
use std::io::Write;

/// How many bytes are remembered: enough for any refusal and for the report of a pass.
const MOST: usize = 256;

/// A writer, and the first bytes that it took.
#[derive(Drop)]
pub struct Head<W> {
    inner: W,
    bytes: [u8; MOST],
    len: usize,
    ghost in_range: { len ≤ 256 },
}

impl<W> Head<W> {
    /// The writer, before it took any bytes.
    pub fn new(inner: W) -> Head<W> {
        Head {
            inner,
            bytes: [0; MOST],
            len: 0,
        }
    }

    /// The first bytes that the writer took, at most 256.
    pub fn bytes(&self) -> &[u8] {
        &self.bytes[..self.len]
    }

    /// Remembers these bytes, as long as there is room.
    fn remember(&mut self, taken: &[u8]) {
        for byte in taken {
            if self.len < MOST {
                self.bytes[self.len] = *byte;
                self.len += 1;
            }
        }
    }
}

impl<W: Write> Write for Head<W> {
    fn write(&mut self, buf: &[u8]) -> io::Result<usize> {
        let taken = self.inner.write(buf)?;
        self.remember(&buf[..taken]);
        Ok(taken)
    }

    fn flush(&mut self) -> io::Result<()> {
        self.inner.flush()
    }
}
