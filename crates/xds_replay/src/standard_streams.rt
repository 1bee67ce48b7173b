//! Standard input and output, read and written 64 KiB at a time. They tell nothing of their bytes, since no contract can say
//! what the operating system does.
ghost use Rattle.std.specs.Prelude.{None};

use std::alloc::Global;
use std::io::{self, BufReader, BufWriter, Read, Write};
use xc_base::{Failed, Sink, Source};

/// How many bytes are read and written at a time.
const GATHERED: usize = 65_536;

/// A source over a reader of std. A read that was interrupted is made again, and is no fault.
#[derive(Drop)]
pub struct StandardInput<R> {
    inner: BufReader<R>,
    faults: u64,
}

impl<R: Read + Drop> StandardInput<R> {
    /// A source that hasn't failed yet.
    pub fn new(alloc: Global, inner: R) -> io::Result<StandardInput<R>> {
        let inner = BufReader::with_capacity(alloc, GATHERED, inner)?;
        Ok(StandardInput { inner, faults: 0 })
    }
}

impl<R: Read + Drop> Source for StandardInput<R> {
    ghost left = { λ s. None };

    ghost faults = { λ s. s.faults };

    fn read(&mut self, buf: &mut [u8]) -> Result<usize, Failed> {
        for turn in 0..u64::MAX {
            let _ = turn;
            match self.inner.read(buf) {
                Ok(count) => return Ok(count),
                Err(fault) => {
                    if fault.kind() != io::ErrorKind::Interrupted {
                        break;
                    }
                }
            }
        }
        self.faults = self.faults.saturating_add(1);
        Err(Failed)
    }
}

/// A sink over a writer of std, which hands on what it gathered when it is flushed at the latest. A write that was
/// interrupted is made again, and is no fault.
#[derive(Drop)]
pub struct StandardOutput<W: Write + Drop> {
    inner: BufWriter<W>,
    faults: u64,
}

impl<W: Write + Drop> StandardOutput<W> {
    /// A sink that hasn't failed yet.
    pub fn new(alloc: Global, inner: W) -> io::Result<StandardOutput<W>> {
        let inner = BufWriter::with_capacity(alloc, GATHERED, inner)?;
        Ok(StandardOutput { inner, faults: 0 })
    }

    /// Hands on what it still has.
    pub fn flush(&mut self) -> Result<(), Failed> {
        match self.inner.flush() {
            Ok(()) => Ok(()),
            Err(_) => {
                self.faults = self.faults.saturating_add(1);
                Err(Failed)
            }
        }
    }
}

impl<W: Write + Drop> Sink for StandardOutput<W> {
    ghost held = { λ s. None };

    ghost faults = { λ s. s.faults };

    fn write(&mut self, piece: &[u8]) -> Result<usize, Failed> {
        match self.inner.write_all(piece) {
            Ok(()) => Ok(piece.len()),
            Err(_) => {
                self.faults = self.faults.saturating_add(1);
                Err(Failed)
            }
        }
    }
}
