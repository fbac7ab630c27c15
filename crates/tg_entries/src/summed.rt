//! A reader that sums what is read of it.
ghost use Rattle.std.specs.Prelude.{◌≡◌, [], List, ℕ, Option, None, IfSome};
ghost use Rattle.std.specs.Io.KnownBytes.{IsAtEnd};
ghost use Rattle.sha2.specs.Sha256.{sha256};
ghost use Rattle.tg_entries.specs.Sums.{HasSummed};

use sha2::{Digest, Sha256};
use std::io::{Read, Result};
use std::marker::{Brand, PhantomData};

/// The bytes that a reader had at first, if they are known.
pub(crate) trait Tape {
    ghost whole: { Option (List ℕ) };
}

impl Tape for Brand {
    ghost whole = { None };
}

/// A reader, and the sum of the bytes that were read of it so far.
#[derive(Drop)]
pub(crate) struct Summed<T: Tape, R: Read> {
    inner: R,
    sum: Sha256,
    of: PhantomData<T>,
    ghost so_far: { ∥ HasSummed T.whole (R.remaining inner) sum ∥₁ },
}

impl<T: Tape, R: Read + Drop> Summed<T, R> {
    /// The reader, of which nothing was read.
    pub(crate) fn new(inner: R) -> Summed<T, R>
        requires { T.whole ≡ R.remaining inner }
        ensures { R.remaining result.inner ≡ R.remaining inner }
    {
        Summed {
            inner,
            sum: Sha256::new(),
            of: PhantomData,
        }
    }

    /// The SHA-256 of all bytes that were read.
    pub(crate) fn sum(self) -> [u8; 32]
        ensures { IsAtEnd (R.remaining self.inner) → IfSome T.whole (λ text. result ≡ sha256 text) }
    {
        self.sum.finalize()
    }
}

impl<T: Tape, R: Read> Read for Summed<T, R> {
    ghost remaining = { λ s. R.remaining s.inner };

    fn read(&mut self, buf: &mut [u8]) -> Result<usize> {
        let count = self.inner.read(buf)?;
        self.sum.update(&buf[..count]);
        Ok(count)
    }
}
