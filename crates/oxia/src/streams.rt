// The standard streams as a source and a sink.
ghost use Rattle.std.specs.Prelude.{◌≡◌};

use ox_outside::{Failed, Sink, Source};
use std::io::{Read, Write};

/// A reader of std that counts its errors.
#[derive(Drop)]
pub struct Input<R: Read> {
    inner: R,
    faults: u64,
}

impl<R: Read> Input<R> {
    pub fn new(inner: R) -> Input<R>
        ensures reader { result.inner ≡ inner }
        ensures sound { result.faults ≡ 0 }
    {
        Input { inner, faults: 0 }
    }
}

impl<R: Read> Source for Input<R> {
    ghost stream = { λ s. record { told = R.remaining s.inner; faults = s.faults } };

    fn read(&mut self, into: &mut [u8]) -> Result<usize, Failed> {
        match self.inner.read(into) {
            Ok(count) => Ok(count),
            Err(_) => {
                self.faults = self.faults.saturating_add(1);
                Err(Failed)
            }
        }
    }
}

/// A writer of std that counts its errors, and a write of nothing as one.
#[derive(Drop)]
pub struct Output<W: Write> {
    inner: W,
    faults: u64,
}

impl<W: Write> Output<W> {
    pub fn new(inner: W) -> Output<W>
        ensures writer { result.inner ≡ inner }
        ensures sound { result.faults ≡ 0 }
    {
        Output { inner, faults: 0 }
    }
}

impl<W: Write> Sink for Output<W> {
    ghost stream = { λ s. record { told = W.contents s.inner; faults = s.faults } };

    fn write(&mut self, bytes: &[u8]) -> Result<usize, Failed> {
        match self.inner.write(bytes) {
            Ok(0) if !bytes.is_empty() => {
                self.faults = self.faults.saturating_add(1);
                Err(Failed)
            }
            Ok(count) => Ok(count),
            Err(_) => {
                self.faults = self.faults.saturating_add(1);
                Err(Failed)
            }
        }
    }
}
