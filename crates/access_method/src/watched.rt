//! A device whose writes are told of.

ghost use Rattle.std.specs.Prelude.{◌≡◌};

use device::Device;
use index_model::{Fault, Progress};
use std::io::Error;

/// A device, and who is told of what is written to it.
#[derive(Drop)]
pub(crate) struct Watched<'a, D, P> {
    pub(crate) device: D,
    progress: &'a P,
    /// Bytes that were written.
    written: u64,
    /// Pages that are to be written.
    all: u64,
}

impl<'a, D, P> Watched<'a, D, P> {
    /// The device as it is. This many pages are to be written.
    pub(crate) fn new(device: D, progress: &'a P, all: u64) -> Watched<'a, D, P>
        ensures { result.device ≡ device }
    {
        Watched {
            device,
            progress,
            written: 0,
            all,
        }
    }
}

impl<D: Device, P: Progress> Device for Watched<'_, D, P> {
    ghost trace = { λ watched. D.trace watched.device };

    ghost failures = { λ watched. D.failures watched.device };

    ghost is_honest = { λ watched. D.is_honest watched.device };

    ghost small = { λ watched. D.small watched.device };

    fn len(&self) -> u64 {
        self.device.len()
    }

    fn error(&self) -> Option<Error> {
        self.device.error()
    }

    fn read_at(&mut self, at: u64, buf: &mut [u8]) -> Result<(), Fault> {
        self.device.read_at(at, buf)
    }

    fn write_at(&mut self, at: u64, bytes: &[u8]) -> Result<(), Fault> {
        let answer = self.device.write_at(at, bytes);
        self.written = self.written.saturating_add(bytes.len() as u64);
        self.progress.done(self.written / 4_096, self.all);
        answer
    }

    fn sync(&mut self) -> Result<(), Fault> {
        self.device.sync()
    }
}
