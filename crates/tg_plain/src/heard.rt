//! A reader that keeps why it failed.

use std::io::{self, Read};

/// A reader, and why it failed last.
#[derive(Drop)]
pub(crate) struct Heard<R: Read + Drop> {
    reader: R,
    /// Why the reader failed last, if it ever did.
    pub(crate) failure: Option<io::Error>,
}

impl<R: Read + Drop> Heard<R> {
    ghost use Rattle.std.specs.Prelude.{◌≡◌};

    /// The reader as it is, which hasn't failed yet.
    pub(crate) fn new(reader: R) -> Heard<R>
        ensures { result.reader ≡ reader }
    {
        Heard {
            reader,
            failure: None,
        }
    }
}

impl<R: Read + Drop> Read for Heard<R> {
    ghost remaining = { λ h. R.remaining h.reader };

    fn read(&mut self, buf: &mut [u8]) -> io::Result<usize> {
        let came = self.reader.read(buf);
        if let Err(error) = &came {
            self.failure = Some(*error);
        }
        came
    }
}
