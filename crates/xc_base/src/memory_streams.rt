//! A source and a sink over memory, which fail where they are told to.
ghost use Rattle.std.specs.Prelude.{◌≡◌, ◌≤◌, ◌<◌, length, take, drop, Some, [], ◌==◌};
ghost use Rattle.std.specs.List.{list_any};

use crate::outside::{Failed, Sink, Source};
use std::alloc::Global;

/// A source over memory. It tells its bytes, hands out at most `step` of them a call, and fails at the
/// listed calls, which are counted from 0; with an empty list it never fails.
#[derive(Drop)]
pub struct BytesSource {
    bytes: Vec<u8>,
    at: usize,
    step: usize,
    calls: u64,
    failing: Vec<u64>,
    faults: u64,
    ghost within: { at ≤ length bytes.items },
    ghost some: { 0 < step },
}

impl BytesSource {
    /// A source of these bytes.
    pub fn new(bytes: Vec<u8>, step: usize, failing: Vec<u64>) -> BytesSource
        requires { 0 < step }
        ensures { ⟦<BytesSource as Source>⟧.left result ≡ Some bytes.items }
    {
        BytesSource {
            bytes,
            at: 0,
            step,
            calls: 0,
            failing,
            faults: 0,
        }
    }
}

/// Copies the first `n` bytes of `from` to the beginning of `buf`.
fn copy_prefix(from: &[u8], buf: &mut [u8], n: usize)
    requires from { n ≤ length from.now }
    requires buf { n ≤ length buf.old }
    ensures prefix { take n buf.new ≡ take n from.now }
{
    buf[..n].copy_from_slice(&from[..n]);
}

impl Source for BytesSource {
    ghost left = { λ s. Some (drop s.at s.bytes.items) };

    ghost faults = { λ s. s.faults };

    fn read(&mut self, buf: &mut [u8]) -> Result<usize, Failed> {
        let call = self.calls;
        self.calls = self.calls.saturating_add(1);
        if self.failing.contains(&call) {
            self.faults = self.faults.saturating_add(1);
            return Err(Failed);
        }
        let rest = &self.bytes[self.at..];
        let n = rest.len().min(buf.len()).min(self.step);
        copy_prefix(rest, buf, n);
        self.at += n;
        Ok(n)
    }
}

/// A sink over memory. It tells its bytes and fails at the listed calls, which are counted from 0;
/// with an empty list it fails only where memory runs out.
#[derive(Drop)]
pub struct BytesSink {
    bytes: Vec<u8>,
    calls: u64,
    failing: Vec<u64>,
    faults: u64,
}

impl BytesSink {
    /// An empty sink.
    pub fn new(alloc: Global, failing: Vec<u64>) -> BytesSink
        ensures { ⟦<BytesSink as Sink>⟧.held result ≡ Some [] }
    {
        BytesSink {
            bytes: Vec::new(alloc),
            calls: 0,
            failing,
            faults: 0,
        }
    }

    /// The bytes that it holds.
    pub fn bytes(&self) -> &[u8]
        ensures { ⟦<BytesSink as Sink>⟧.held self.now ≡ Some result.now }
    {
        &self.bytes
    }
}

impl Sink for BytesSink {
    ghost held = { λ s. Some s.bytes.items };

    ghost faults = { λ s. s.faults };

    fn write(&mut self, piece: &[u8]) -> Result<usize, Failed> {
        let call = self.calls;
        self.calls = self.calls.saturating_add(1);
        if self.failing.contains(&call) || self.bytes.extend_from_slice(piece).is_err() {
            self.faults = self.faults.saturating_add(1);
            return Err(Failed);
        }
        Ok(piece.len())
    }
}
