//! A writer that takes no more than so many bytes.

use std::io::{self, Write};

/// A writer that takes so many bytes, and then none.
#[derive(Drop)]
pub(crate) struct Limited<W: Write + Drop> {
    writer: W,
    room: usize,
}

impl<W: Write + Drop> Limited<W> {
    /// A writer of so many bytes.
    pub(crate) fn new(writer: W, room: usize) -> Self {
        Limited { writer, room }
    }
}

impl<W: Write + Drop> Write for Limited<W> {
    fn write(&mut self, buf: &[u8]) -> io::Result<usize> {
        let (front, _) = buf.split_at(self.room.min(buf.len()));
        if front.is_empty() {
            return Ok(0);
        }
        let count = self.writer.write(front)?;
        self.room = self.room.saturating_sub(count);
        Ok(count)
    }

    fn flush(&mut self) -> io::Result<()> {
        self.writer.flush()
    }
}
