//! A writer that remembers what it was given.

ghost use Rattle.std.specs.Prelude.{◌≡◌};

use std::alloc::Global;
use std::io;
use std::io::Write;

/// A writer that is given, and the bytes that it took while they are to be kept: none where memory ran out. Each call is handed
/// on.
#[derive(Drop)]
pub struct KeptLines<E> {
    inner: E,
    is_keeping: bool,
    pub(crate) kept: Vec<u8>,
}

impl<E> KeptLines<E> {
    /// A writer that has kept nothing yet.
    pub fn new(alloc: Global, inner: E) -> KeptLines<E>
        ensures { result.inner ≡ inner }
    {
        KeptLines {
            inner,
            is_keeping: false,
            kept: Vec::new(alloc),
        }
    }

    /// From now on what is written is kept.
    pub fn keep(&mut self)
        ensures { self.new.inner ≡ self.old.inner }
    {
        self.is_keeping = true;
    }

    /// The writer that was given.
    pub fn into_inner(self) -> E
        ensures { result ≡ self.inner }
    {
        let KeptLines {
            inner,
            is_keeping: _,
            kept: _,
        } = self;
        inner
    }
}

impl<E: Write> Write for KeptLines<E> {
    ghost contents = { λ kept. E.contents kept.inner };

    fn write(&mut self, buf: &[u8]) -> io::Result<usize> {
        let count = self.inner.write(buf)?;
        let taken = buf.get(..count).unwrap_or(&[]);
        if self.is_keeping && self.kept.extend_from_slice(taken).is_err() {
            self.is_keeping = false;
            self.kept.clear();
        }
        Ok(count)
    }

    fn flush(&mut self) -> io::Result<()> {
        self.inner.flush()
    }
}
